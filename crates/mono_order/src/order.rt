ghost use Rattle.std.specs.Prelude.{◌≡◌, ℕ, Bool};
ghost use Rattle.std.specs.declared.cmp.Ordering.{Ordering};
ghost use Rattle.mono_order.specs.declared.limits.TheConstants.{VARIABLES};
ghost use Rattle.mono_order.specs.Term.{Term as TermValue};
ghost use Rattle.mono_order.specs.TermOrder.{IsTermOrder};

use crate::limits::FIRST_HIGH;
use crate::monomial::{DegRevLex, MonomialOrder};
use crate::term::Term;
use std::cmp::Ordering;

/// An order of terms, whose exponents have no upper bound in its laws.
pub trait TermOrder {
    /// The order of the terms.
    ghost order: { TermValue → TermValue → Ordering };

    /// The components whose terms are above those of all other components.
    ghost high: { ℕ → Bool };

    /// A whole number that falls with the term, among high terms and among low ones.
    ghost height: { TermValue → ℕ };

    /// A number above the heights of all terms of degree at most `MONO_DEGREE`.
    ghost bound: { ℕ };

    /// How the left term compares with the right one.
    fn compare(left: &Term, right: &Term) -> Ordering
        ensures { result ≡ order left.now right.now };

    /// Whether the component is high.
    fn is_high(component: u8) -> bool
        ensures { result ≡ high component };

    /// The laws of an order of terms.
    ghost laws: { IsTermOrder VARIABLES order high height bound };
}

/// No component is high: the monomial decides, and at equal monomials the lower component is greater.
pub struct OverPosition;

impl TermOrder for OverPosition {
    ghost use Rattle.mono_order.specs.TermOrder.{over_position, nothing_high, block_height, block_bound};
    ghost use Rattle.mono_order.specs.BlockOrders.{over_position_laws};

    ghost order = { over_position };

    ghost high = { nothing_high };

    ghost height = { block_height };

    ghost bound = { block_bound VARIABLES };

    fn compare(left: &Term, right: &Term) -> Ordering {
        match DegRevLex::compare(&left.monomial, &right.monomial) {
            Ordering::Equal => right.component.cmp(&left.component),
            different => different,
        }
    }

    fn is_high(_component: u8) -> bool {
        false
    }

    ghost laws = { over_position_laws VARIABLES };
}

/// Component 0 is high: each of its terms is greater than every term of another component.
pub struct ZeroDominates;

impl TermOrder for ZeroDominates {
    ghost use Rattle.mono_order.specs.TermOrder.{zero_dominates, zero_high, block_height, block_bound};
    ghost use Rattle.mono_order.specs.BlockOrders.{zero_dominates_laws};

    ghost order = { zero_dominates };

    ghost high = { zero_high };

    ghost height = { block_height };

    ghost bound = { block_bound VARIABLES };

    fn compare(left: &Term, right: &Term) -> Ordering {
        match (left.component == 0).cmp(&(right.component == 0)) {
            Ordering::Equal => OverPosition::compare(left, right),
            different => different,
        }
    }

    fn is_high(component: u8) -> bool {
        component == 0
    }

    ghost laws = { zero_dominates_laws VARIABLES };
}

/// The components from `FIRST_HIGH` up are high: each of their terms is greater than every term of a lower one.
pub struct HighBlock;

impl TermOrder for HighBlock {
    ghost use Rattle.mono_order.specs.TermOrder.{high_block, block_high, block_height, block_bound};
    ghost use Rattle.mono_order.specs.BlockOrders.{high_block_laws};

    ghost order = { high_block };

    ghost high = { block_high };

    ghost height = { block_height };

    ghost bound = { block_bound VARIABLES };

    fn compare(left: &Term, right: &Term) -> Ordering {
        match (left.component >= FIRST_HIGH).cmp(&(right.component >= FIRST_HIGH)) {
            Ordering::Equal => OverPosition::compare(left, right),
            different => different,
        }
    }

    fn is_high(component: u8) -> bool {
        component >= FIRST_HIGH
    }

    ghost laws = { high_block_laws VARIABLES };
}

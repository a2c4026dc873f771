ghost use Rattle.std.specs.Prelude.{◌≡◌};
ghost use Rattle.mono_order.specs.Term.{divides};

use crate::monomial::Monomial;
use std::marker::Model;

/// A component and a power product. Contracts see it as the pair of these.
#[derive(Clone, Copy, PartialEq, Eq, Debug)]
pub struct Term {
    /// The number of the unit vector, from 0.
    pub component: u8,
    /// The power product that stands at it.
    pub monomial: Monomial,
}

impl Model for Term {
    ghost use Rattle.std.specs.Prelude.{List, ℕ};

    ghost Value = { ℕ × List ℕ };

    ghost view = { λ t. (t.component, t.monomial) };

    ghost inverse = { λ t. record { component = t.0; monomial = t.1 } };
}

impl Term {
    /// Whether the other term has the same component, and no exponent of this term is above its exponent.
    pub fn divides(&self, other: &Term) -> bool
        ensures { result ≡ divides self.now other.now }
    {
        self.component == other.component && self.monomial.divides(&other.monomial)
    }
}

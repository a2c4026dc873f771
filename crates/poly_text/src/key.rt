//! Monomials as keys.

ghost use Rattle.ibp_algebra.specs.Exponents.{deg_rev_lex};

use mono_order::{DegRevLex, Monomial, MonomialOrder};
use std::cmp::Ordering;
use std::marker::Model;

/// A monomial as a key of a map. The greatest comes first, as in a polynomial.
#[derive(Clone, Copy)]
pub struct Key {
    pub monomial: Monomial,
}

impl Model for Key {
    ghost use Rattle.std.specs.Prelude.{List, ℕ};

    ghost Value = { List ℕ };

    ghost view = { λ k. k.monomial };

    ghost inverse = { λ m. record { monomial = m } };
}

impl PartialEq for Key {
    ghost use Rattle.std.specs.Ordering.{is_eq};
    ghost use Rattle.std.specs.Cmp.{partial_equiv_from_equiv, eq_by_cmp_equiv, back_total};
    ghost use Rattle.ibp_algebra.specs.ExponentOrder.{deg_rev_lex_total};

    ghost eq = { λ x y. is_eq (deg_rev_lex y x) };

    ghost laws = { partial_equiv_from_equiv (eq_by_cmp_equiv (back_total deg_rev_lex_total)) };

    fn eq(&self, other: &Key) -> bool {
        self.cmp(other).is_eq()
    }
}

impl Eq for Key {
    ghost use Rattle.std.specs.Cmp.{eq_by_cmp_equiv, back_total};
    ghost use Rattle.ibp_algebra.specs.ExponentOrder.{deg_rev_lex_total};

    ghost laws = { eq_by_cmp_equiv (back_total deg_rev_lex_total) };
}

impl PartialOrd for Key {
    ghost use Rattle.std.specs.Prelude.{Some, refl};
    ghost use Rattle.std.specs.Cmp.{partial_order_from_agreeing_total, back_total};
    ghost use Rattle.ibp_algebra.specs.ExponentOrder.{deg_rev_lex_total};

    ghost partial_cmp = { λ x y. Some (deg_rev_lex y x) };

    ghost laws = { partial_order_from_agreeing_total (λ x y. deg_rev_lex y x) (back_total deg_rev_lex_total) (λ x y. refl) (λ x y. refl) };

    fn partial_cmp(&self, other: &Key) -> Option<Ordering> {
        Some(self.cmp(other))
    }
}

impl Ord for Key {
    ghost use Rattle.std.specs.Prelude.{refl};
    ghost use Rattle.std.specs.Cmp.{back_total};
    ghost use Rattle.ibp_algebra.specs.ExponentOrder.{deg_rev_lex_total};

    ghost cmp = { λ x y. deg_rev_lex y x };

    ghost total = { back_total deg_rev_lex_total };

    ghost matches_partial_cmp = { λ x y. refl };

    ghost matches_eq = { λ x y. refl };

    fn cmp(&self, other: &Key) -> Ordering {
        DegRevLex::compare(&other.monomial, &self.monomial)
    }
}

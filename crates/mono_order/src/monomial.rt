ghost use Rattle.std.specs.Prelude.{◌≡◌, ◌+◌, ◌-◌, ◌<◌, ◌≤◌, ◌↔◌, sum, slice_index, slice_set, [], ◌∷◌, IsNone, IfSome, IsTrue, replicate, All};
ghost use Rattle.ibp_algebra.specs.Exponents.{add_exponents, permute_exponents};
ghost use Rattle.std.specs.Prelude.{ℕ, List};
ghost use Rattle.std.specs.declared.cmp.Ordering.{Ordering};
ghost use Rattle.mono_order.specs.declared.limits.TheConstants.{VARIABLES};
ghost use Rattle.mono_order.specs.Monomial.{IsMonomial};
ghost use Rattle.mono_order.specs.PartialSums.{exponent_word, running_sums};
ghost use Rattle.mono_order.specs.Term.{divides_exponents, quotient_exponents, lcm_exponents};
ghost use Rattle.mono_order.specs.MonomialOrder.{IsMonomialOrder};

use crate::limits::{MONO_DEGREE, VARIABLES};
use crate::words::{digits, highest, is_within, partial_sums, raised, word};
use std::cmp::Ordering;
use std::marker::Model;

/// A power product of the variables z1, z2, .. with total degree at most `MONO_DEGREE`. Contracts see it as
/// the list of its exponents, the exponent of z1 first.
#[derive(Clone, Copy, Debug)]
pub struct Monomial {
    // The partial sums of the exponents are the digits of the words, that of the first exponent lowest.
    low: u64,
    middle: u64,
    high: u64,
}

impl Model for Monomial {
    ghost use Rattle.std.specs.Prelude.{List, ℕ};
    ghost use Rattle.mono_order.specs.PartialSums.{word_from, exponents_of, ArePartialSums};

    ghost Value = { List ℕ };

    ghost view = { λ m. exponents_of m.low m.middle m.high };

    ghost invariant = { λ m. ArePartialSums m.low m.middle m.high };

    ghost inverse = { λ xs. record { low = word_from 0 xs; middle = word_from 4 xs; high = word_from 8 xs } };

    ghost inverse_ok = { λ m h i. record { low = h.low_is i; middle = h.middle_is i; high = h.high_is i } };
}

// The power product with these exponents, where its degree is within the limit.
fn packed(exponents: &[u16; VARIABLES]) -> Monomial
    requires { sum exponents.now ≤ MONO_DEGREE }
    ensures { result ≡ exponents.now }
{
    let sums = partial_sums(exponents);
    Monomial {
        low: word(sums[0], sums[1], sums[2], sums[3]),
        middle: word(sums[4], sums[5], sums[6], sums[7]),
        high: word(sums[8], sums[9], sums[10], sums[11]),
    }
}

impl Monomial {
    /// The power product of no variable.
    pub fn one() -> Monomial
        ensures { result ≡ replicate VARIABLES 0 }
    {
        packed(&[0; VARIABLES])
    }

    /// The variable z_i, with i from 1.
    pub fn variable(i: u8) -> Monomial
        requires { (0 < i) × (i ≤ VARIABLES) }
        ensures { result ≡ slice_set (replicate VARIABLES 0) (i - 1) 1 }
    {
        let mut exponents = [0; VARIABLES];
        exponents[i as usize - 1] = 1;
        packed(&exponents)
    }

    /// The power product with these exponents, unless its degree is above the limit.
    pub fn from_exponents(exponents: [u16; VARIABLES]) -> Option<Monomial>
        ensures none { IsNone result ↔ (MONO_DEGREE < sum exponents) }
        ensures value { IfSome result (λ m. m ≡ exponents) }
    {
        if sum_of(&exponents) > MONO_DEGREE as u32 {
            None
        } else {
            Some(packed(&exponents))
        }
    }

    // The exponents, four to a word.
    fn exponent_words(&self) -> [u64; 3]
        ensures value { result ≡ exponent_word 0 self.now ∷ exponent_word 4 self.now ∷ exponent_word 8 self.now ∷ [] }
        ensures kept { IsMonomial self.now }
    {
        [
            self.low - raised(self.low, 0),
            self.middle - raised(self.middle, highest(self.low)),
            self.high - raised(self.high, highest(self.middle)),
        ]
    }

    /// The exponents, that of z1 first.
    pub fn exponents(&self) -> [u16; VARIABLES]
        ensures value { result ≡ self.now }
        ensures kept { IsMonomial self.now }
    {
        let words = self.exponent_words();
        let low = digits(words[0]);
        let middle = digits(words[1]);
        let high = digits(words[2]);
        [
            low[0], low[1], low[2], low[3], middle[0], middle[1], middle[2], middle[3], high[0],
            high[1], high[2], high[3],
        ]
    }

    /// The sums e_1 + .. + e_k of the first exponents, for k from 1.
    pub fn partial_sums(&self) -> [u16; VARIABLES]
        ensures value { result ≡ running_sums 0 self.now }
        ensures kept { IsMonomial self.now }
    {
        let low = digits(self.low);
        let middle = digits(self.middle);
        let high = digits(self.high);
        [
            low[0], low[1], low[2], low[3], middle[0], middle[1], middle[2], middle[3], high[0],
            high[1], high[2], high[3],
        ]
    }

    /// The exponent of z_i, with i from 1.
    pub fn exponent(&self, i: u8) -> u16
        requires { (0 < i) × (i ≤ VARIABLES) }
        ensures value { result ≡ slice_index self.now (i - 1) }
        ensures kept { IsMonomial self.now }
    {
        self.exponents()[i as usize - 1]
    }

    /// The total degree.
    pub fn degree(&self) -> u16
        ensures sum { result ≡ sum self.now }
        ensures kept { IsMonomial self.now }
    {
        highest(self.high) as u16
    }

    /// The product, unless its degree is above the limit.
    pub fn times(&self, other: &Monomial) -> Option<Monomial>
        ensures none { IsNone result ↔ (MONO_DEGREE < sum (add_exponents self.now other.now)) }
        ensures product { IfSome result (λ m. m ≡ add_exponents self.now other.now) }
    {
        if self.degree() + other.degree() > MONO_DEGREE {
            None
        } else {
            Some(self.product(other))
        }
    }

    /// The product, where its degree is within the limit.
    pub fn product(&self, other: &Monomial) -> Monomial
        requires { sum self.now + sum other.now ≤ MONO_DEGREE }
        ensures product { result ≡ add_exponents self.now other.now }
        ensures left_kept { IsMonomial self.now }
        ensures right_kept { IsMonomial other.now }
    {
        Monomial {
            low: self.low + other.low,
            middle: self.middle + other.middle,
            high: self.high + other.high,
        }
    }

    /// Whether no exponent is greater than the other's.
    pub fn divides(&self, other: &Monomial) -> bool
        ensures { result ≡ divides_exponents self.now other.now }
    {
        let mine = self.exponent_words();
        let others = other.exponent_words();
        let low = is_within(mine[0], others[0]);
        let middle = is_within(mine[1], others[1]);
        let high = is_within(mine[2], others[2]);
        low & middle & high
    }

    /// The power product whose product with `by` is this one.
    pub fn quotient(&self, by: &Monomial) -> Monomial
        requires { IsTrue (divides_exponents by.now self.now) }
        ensures { result ≡ quotient_exponents self.now by.now }
    {
        Monomial {
            low: self.low - by.low,
            middle: self.middle - by.middle,
            high: self.high - by.high,
        }
    }

    /// The least common multiple, unless its degree is above the limit.
    pub fn lcm(&self, other: &Monomial) -> Option<Monomial>
        ensures none { IsNone result ↔ (MONO_DEGREE < sum (lcm_exponents self.now other.now)) }
        ensures multiple { IfSome result (λ m. m ≡ lcm_exponents self.now other.now) }
    {
        let mut exponents = self.exponents();
        let others = other.exponents();
        for i in 0..VARIABLES {
            exponents[i] = exponents[i].max(others[i]);
        }
        Monomial::from_exponents(exponents)
    }

    /// One less of a variable that it has.
    pub fn lowered(&self, i: u8) -> Monomial
        requires place { (0 < i) × (i ≤ VARIABLES) }
        requires positive { 0 < slice_index self.now (i - 1) }
        ensures { result ≡ slice_set self.now (i - 1) (slice_index self.now (i - 1) - 1) }
    {
        let mut exponents = self.exponents();
        exponents[i as usize - 1] -= 1;
        packed(&exponents)
    }

    /// Each variable replaced by another one: entry i - 1 of `to` is the number, from 1, of the variable that
    /// stands for z_i.
    pub fn permuted(&self, to: &[u8; VARIABLES]) -> Monomial
        requires { All (λ number. (0 < number) × (number ≤ VARIABLES)) to.now }
        ensures { result ≡ permute_exponents to.now self.now }
    {
        let from = self.exponents();
        let mut exponents = [0; VARIABLES];
        for i in 0..VARIABLES {
            exponents[to[i] as usize - 1] += from[i];
        }
        packed(&exponents)
    }
}

// The sum of the exponents.
fn sum_of(exponents: &[u16; VARIABLES]) -> u32
    ensures { result ≡ sum exponents.now }
{
    let mut degree = 0;
    for i in 0..VARIABLES {
        degree += exponents[i] as u32;
    }
    degree
}

impl PartialEq for Monomial {
    ghost use Rattle.std.specs.Cmp.{partial_equiv_from_equiv};
    ghost use Rattle.std.specs.Cmp.Lexicographic.{nat_list_eq_equiv};
    ghost use Rattle.ibp_algebra.specs.Exponents.{same_exponents};

    ghost eq = { same_exponents };

    ghost laws = { partial_equiv_from_equiv nat_list_eq_equiv };

    fn eq(&self, other: &Monomial) -> bool {
        let high = self.high == other.high;
        let middle = self.middle == other.middle;
        let low = self.low == other.low;
        high & middle & low
    }
}

impl Eq for Monomial {
    ghost use Rattle.std.specs.Cmp.Lexicographic.{nat_list_eq_equiv};

    ghost laws = { nat_list_eq_equiv };
}

/// An order of monomials, whose exponents have no upper bound in its laws.
pub trait MonomialOrder {
    /// The order of the lists of exponents.
    ghost order: { List ℕ → List ℕ → Ordering };

    /// How the left monomial compares with the right one.
    fn compare(left: &Monomial, right: &Monomial) -> Ordering
        ensures { result ≡ order left.now right.now };

    /// The laws of an order of monomials.
    ghost laws: { IsMonomialOrder VARIABLES order };
}

/// The degree reverse lexicographic order: the greater degree is greater, and at equal degree the smaller
/// exponent at the last variable where two monomials differ.
pub struct DegRevLex;

impl MonomialOrder for DegRevLex {
    ghost use Rattle.ibp_algebra.specs.Exponents.{deg_rev_lex};
    ghost use Rattle.mono_order.specs.MonomialLaws.{deg_rev_lex_laws};

    ghost order = { deg_rev_lex };

    ghost laws = { deg_rev_lex_laws VARIABLES };

    fn compare(left: &Monomial, right: &Monomial) -> Ordering {
        left.high
            .cmp(&right.high)
            .then(left.middle.cmp(&right.middle))
            .then(left.low.cmp(&right.low))
    }
}

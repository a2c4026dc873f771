ghost use Rattle.std.specs.Prelude.{◌≡◌, ◌↔◌, [], ◌++◌, IfOk, IsNone, slice_get, IfSome};
ghost use Rattle.std.specs.Cmp.{partial_equiv_from_equiv};
ghost use Rattle.ibp_algebra.specs.FormalSum.{IsCanonical, scale, strike};
ghost use Rattle.ibp_algebra.specs.Spans.{IsLead};
ghost use Rattle.sector_lattice.specs.Sectors.{integral_cmp};
ghost use Rattle.sparse_rows.specs.Rows.{SameRow, coefficient_of, is_zero_integral, same_terms};
ghost use Rattle.sparse_rows.specs.Equality.{same_terms_equiv};

use ibp_base::NoMemory;
use ibp_field::Residue;
use sector_lattice::{Integral, Sector, is_subsector_of_any};
use sparse_terms::{KeyOrder, add_multiple, sum_of_terms};
use std::alloc::Global;
use std::cmp::Ordering;
use std::marker::Model;

// The order of integrals, as an order on keys.
struct ByIntegral;

impl KeyOrder<Integral> for ByIntegral {
    ghost use Rattle.sector_lattice.specs.Sectors.{integral_cmp};
    ghost use Rattle.sector_lattice.specs.Orders.{integral_cmp_total, same_integrals};

    ghost order = { integral_cmp };

    ghost total = { integral_cmp_total };

    ghost unique = { same_integrals };

    fn compare(left: &Integral, right: &Integral) -> Ordering {
        left.compare(right)
    }
}

/// A finite sum of integrals, all with the same number of powers. Contracts see it as the list of its
/// terms, highest first.
#[derive(Drop)]
pub struct Row {
    terms: Vec<(Integral, Residue)>,
}

impl Model for Row {
    ghost use Rattle.std.specs.Prelude.{List, ℕ, ℤ};

    ghost Value = { List (List ℤ × ℕ) };

    ghost use Rattle.sector_lattice.specs.Sectors.{integral_cmp};
    ghost use Rattle.ibp_algebra.specs.FormalSum.{IsCanonical};

    ghost view = { λ r. r.terms.items };

    ghost invariant = { λ r. IsCanonical integral_cmp r.terms.items };
}

impl Row {
    /// The sum of the terms, in any order and with repeats.
    pub fn from_terms(alloc: Global, terms: &[(Integral, Residue)]) -> Result<Row, NoMemory>
        ensures sum { IfOk result (λ row. SameRow row terms.now) }
        ensures canonical { IfOk result (λ row. IsCanonical integral_cmp row) }
    {
        Ok(Row {
            terms: sum_of_terms::<Integral, ByIntegral>(alloc, terms)?,
        })
    }

    /// The row of terms that stand highest first, with no zero among them.
    pub fn from_sorted(terms: Vec<(Integral, Residue)>) -> Row
        requires { IsCanonical integral_cmp terms.items }
        ensures { result ≡ terms.items }
    {
        Row { terms }
    }

    /// The same row.
    pub fn copy(&self, alloc: Global) -> Result<Row, NoMemory>
        ensures same { IfOk result (λ row. row ≡ self.now) }
        ensures canonical { IfOk result (λ row. IsCanonical integral_cmp row) }
    {
        Ok(Row {
            terms: self.terms.to_vec(alloc)?,
        })
    }

    /// This row plus a multiple of the other one.
    pub fn add_multiple(&self, alloc: Global, factor: Residue, other: &Row) -> Result<Row, NoMemory>
        ensures sum { IfOk result (λ row. SameRow row (self.now ++ scale factor other.now)) }
        ensures canonical { IfOk result (λ row. IsCanonical integral_cmp row) }
    {
        Ok(Row {
            terms: add_multiple::<Integral, ByIntegral>(alloc, &self.terms, factor, &other.terms)?,
        })
    }

    /// The terms, highest first.
    pub fn terms(&self) -> &[(Integral, Residue)]
        ensures same { result.now ≡ self.now }
        ensures canonical { IsCanonical integral_cmp self.now }
    {
        &self.terms
    }

    /// The highest term. `None` exactly for the empty row.
    pub fn lead(&self) -> Option<(Integral, Residue)>
        ensures first { result ≡ slice_get self.now 0 }
        ensures none { IsNone result ↔ (self.now ≡ []) }
        ensures lead { IfSome result (λ term. IsLead integral_cmp self.now term.0) }
    {
        self.terms.first().copied()
    }

    /// The coefficient at an integral, zero where it does not occur.
    pub fn coefficient(&self, of: &Integral) -> Residue
        ensures { result ≡ coefficient_of self.now of.now }
    {
        match self.terms.binary_search_by(|term| of.compare(&term.0)) {
            Ok(place) => self.terms[place].1,
            Err(_) => Residue::zero(),
        }
    }

    /// The row without the integrals whose sector is a subsector of a listed one.
    pub fn strike(&self, alloc: Global, zero: &[Sector]) -> Result<Row, NoMemory>
        ensures struck { IfOk result (λ row. row ≡ strike (is_zero_integral zero.now) self.now) }
        ensures canonical { IfOk result (λ row. IsCanonical integral_cmp row) }
    {
        let mut kept = Vec::new(alloc);
        for (integral, value) in &self.terms {
            if !is_subsector_of_any(integral.sector(), zero) {
                kept.push((*integral, *value))?;
            }
        }
        Ok(Row { terms: kept })
    }
}

impl PartialEq for Row {
    ghost eq = { same_terms };

    ghost laws = { partial_equiv_from_equiv same_terms_equiv };

    fn eq(&self, other: &Row) -> bool {
        self.terms() == other.terms()
    }
}

impl Eq for Row {
    ghost laws = { same_terms_equiv };
}

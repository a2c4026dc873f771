// Integrals with numbers.
ghost use Rattle.std.specs.Prelude.{◌≡◌, ◌<◌, ◌≤◌, ◌^◌, length, IfOk, IfSome, Some, slice_get, map};
ghost use Rattle.ibp_algebra.specs.FormalSum.{IsCanonical};
ghost use Rattle.sector_lattice.specs.Sectors.{integral_cmp};
ghost use Rattle.row_echelon.specs.Echelons.{number_cmp};
ghost use Rattle.row_echelon.specs.Columns.{integral_at, named, Falls, HasColumns};

use ibp_base::NoMemory;
use ibp_field::Residue;
use indexmap::IndexMap;
use sector_lattice::Integral;
use sparse_rows::Row;
use std::alloc::Global;
use std::marker::Model;

/// The columns of an elimination: integrals with numbers from 0 on, the highest first. Contracts see their list.
#[derive(Drop)]
pub struct Columns {
    integrals: Row,
    numbers: IndexMap<Integral, u32>,
}

impl Model for Columns {
    ghost use Rattle.std.specs.Prelude.{◌≤◌, ◌^◌, ℤ, List, length, map};

    ghost Value = { List (List ℤ) };

    ghost use Rattle.row_echelon.specs.Columns.{Falls};

    ghost view = { λ s. map (λ term. term.0) s.integrals };

    ghost invariant = { λ s. Falls (map (λ term. term.0) s.integrals) × (length s.integrals ≤ 2 ^ 32) };
}

impl Columns {
    /// The integrals that occur in the rows. `None` where they are too many to have numbers.
    pub fn over(alloc: Global, rows: &[&Row]) -> Result<Option<Columns>, NoMemory> {
        let integrals = all_integrals(alloc, rows)?;
        if integrals.terms().len() >= u32::MAX as usize {
            return Ok(None);
        }
        let mut numbers = IndexMap::new(alloc);
        for (number, (integral, _)) in integrals.terms().iter().enumerate() {
            numbers.insert(*integral, number as u32)?;
        }
        Ok(Some(Columns { integrals, numbers }))
    }

    /// How many they are.
    pub fn count(&self) -> usize
        ensures count { result ≡ length self.now }
        ensures few { length self.now ≤ 2 ^ 32 }
        ensures falls { Falls self.now }
    {
        self.integrals.terms().len()
    }

    /// The integral with this number.
    pub fn integral(&self, number: usize) -> Integral
        requires { number < length self.now }
        ensures { result ≡ integral_at self.now number }
    {
        self.integrals.terms()[number].0
    }

    /// The number of an integral, where it has one. What the map says is looked up, so that nothing rests on it.
    pub fn number(&self, integral: &Integral) -> Option<u32>
        ensures within { IfSome result (λ number. number < length self.now) }
        ensures named { IfSome result (λ number. integral_at self.now number ≡ integral.now) }
    {
        let number = *self.numbers.get(integral)?;
        let (found, _) = self.integrals.terms().get(number as usize)?;
        if found == integral {
            Some(number)
        } else {
            None
        }
    }

    /// The row by the numbers of its integrals. `None` where one of them has no number.
    pub fn numbered(
        &self,
        alloc: Global,
        row: &Row,
    ) -> Result<Option<Vec<(u32, Residue)>>, NoMemory>
        ensures within { IfOk result (λ found. IfSome found (λ terms. HasColumns self.now terms.items)) }
        ensures named { IfOk result (λ found. IfSome found (λ terms. named self.now terms.items ≡ row.now)) }
        ensures row { IfOk result (λ found. IsCanonical integral_cmp row.now) }
    {
        let mut terms = Vec::new(alloc);
        for (integral, value) in row.terms() {
            match self.number(integral) {
                Some(number) => terms.push((number, *value))?,
                None => return Ok(None),
            }
        }
        Ok(Some(terms))
    }

    /// The row of terms with the lowest number first.
    pub fn row_of(&self, alloc: Global, terms: &[(u32, Residue)]) -> Result<Row, NoMemory>
        requires within { HasColumns self.now terms.now }
        requires ascending { IsCanonical number_cmp terms.now }
        ensures { IfOk result (λ row. row ≡ named self.now terms.now) }
    {
        let _falls = self.count();
        let mut named = Vec::new(alloc);
        for (number, value) in terms {
            named.push((self.integral(*number as usize), *value))?;
        }
        Ok(Row::from_sorted(named))
    }
}

// The sum of all integrals that occur in the rows.
fn all_integrals(alloc: Global, rows: &[&Row]) -> Result<Row, NoMemory> {
    let mut seen = IndexMap::new(alloc);
    for row in rows {
        add_integrals(&mut seen, row)?;
    }
    let mut terms = Vec::new(alloc);
    for integral in seen.keys() {
        terms.push((*integral, Residue::one()))?;
    }
    Ok(Row::from_terms(alloc, &terms)?)
}

fn add_integrals(seen: &mut IndexMap<Integral, ()>, row: &Row) -> Result<(), NoMemory> {
    for (integral, _) in row.terms() {
        seen.insert(*integral, ())?;
    }
    Ok(())
}

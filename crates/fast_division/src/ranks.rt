ghost use Rattle.std.specs.Prelude.{◌≡◌, ◌+◌, ◌*◌, ◌<◌, ◌≤◌, ℕ, sum, length, IfSome, IfNone, IfOk};
ghost use Rattle.std.specs.Bool.{OnTrue, OnFalse};
ghost use Rattle.mono_order.specs.declared.limits.TheConstants.{VARIABLES};
ghost use Rattle.fast_division.specs.Ranks.{below, rank, IsRow, IsTable};

use ibp_base::NoMemory;
use mono_order::{Monomial, VARIABLES};
use std::alloc::Global;
use std::marker::Model;

// The greatest number that a table has.
pub(crate) const PLACES: u32 = 4_194_304;

// The ranks of the power products of the first variables, by a table of how many have a degree below each bound.
// Contracts see the number of variables, and the bound for the degrees that it has ranks of.
#[derive(Drop)]
pub(crate) struct Ranks {
    variables: usize,
    rows: Vec<[u32; VARIABLES]>,
}

impl Model for Ranks {
    ghost use Rattle.std.specs.Prelude.{ℕ, length};
    ghost use Rattle.fast_division.specs.Ranks.{IsTable};

    ghost Value = { ℕ × ℕ };

    ghost view = { λ r. (r.variables, length r.rows.items) };

    ghost invariant = { λ r. IsTable r.variables r.rows.items };
}

impl Ranks {
    pub(crate) fn empty(alloc: Global, variables: usize) -> Ranks
        requires { (0 < variables) × (variables ≤ VARIABLES) }
        ensures { result ≡ (variables, 0) }
    {
        Ranks {
            variables,
            rows: Vec::new(alloc),
        }
    }

    // The number of variables.
    pub(crate) fn variables(&self) -> usize
        ensures variables { result ≡ self.now.0 }
        ensures some { 0 < result }
        ensures few { result ≤ VARIABLES }
    {
        self.variables
    }

    // The bound for the degrees that there are ranks of.
    pub(crate) fn degrees(&self) -> usize
        ensures { result ≡ self.now.1 }
    {
        self.rows.len()
    }

    // Makes rows for all power products of at most this degree. The answer is false where they are too many.
    pub(crate) fn grow(&mut self, degree: u16) -> Result<bool, NoMemory>
        ensures variables { self.new.0 ≡ self.old.0 }
        ensures done { IfOk result (λ done. OnTrue done (degree + 1 < self.new.1)) }
        ensures wide { IfOk result (λ done. OnFalse done (PLACES < below self.old.0 (degree + 1))) }
    {
        'rows: while self.rows.len() < degree as usize + 2 {
            let Some(row) = next_row(&self.rows, self.variables) else {
                return Ok(false);
            };
            self.rows.push(row)?;
        }
        Ok(true)
    }

    // How many power products have at most this degree.
    pub(crate) fn count(&self, degree: u16) -> usize
        requires { degree + 1 < self.now.1 }
        ensures count { result ≡ below self.now.0 (degree + 1) }
        ensures small { result ≤ PLACES }
    {
        self.rows[degree as usize + 1][self.variables - 1] as usize
    }

    // The rank in the first variables.
    pub(crate) fn rank(&self, monomial: &Monomial) -> usize
        requires { sum monomial.now < self.now.1 }
        ensures rank { result ≡ rank self.now.0 monomial.now }
        ensures small { result ≤ PLACES * VARIABLES }
    {
        let sums = monomial.partial_sums();
        let mut rank = 0;
        for k in 0..self.variables {
            rank += self.rows[sums[k] as usize][k] as usize;
        }
        rank
    }
}

// The row behind the last one, unless a number in it is too great: each entry is the one above it and the one before
// it.
fn next_row(rows: &[[u32; VARIABLES]], variables: usize) -> Option<[u32; VARIABLES]>
    requires { IsTable variables rows.now }
    ensures row { IfSome result (λ row. IsRow variables (length rows.now) row) }
    ensures wide { IfNone result (PLACES < below variables (length rows.now)) }
{
    let mut next = [0; VARIABLES];
    if rows.is_empty() {
        return Some(next);
    }
    let last = rows[rows.len() - 1];
    let mut entry = 1;
    for k in 0..variables {
        entry += last[k];
        if entry > PLACES {
            return None;
        }
        next[k] = entry;
    }
    Some(next)
}

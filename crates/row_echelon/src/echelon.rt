ghost use Rattle.std.specs.Prelude.{◌≡◌, [], ◌++◌, IfOk, OnErr};
ghost use Rattle.ibp_algebra.specs.FormalSum.{AllKeys, IsCanonical};
ghost use Rattle.sector_lattice.specs.Sectors.{integral_cmp};
ghost use Rattle.ibp_algebra.specs.Combination.{combination};
ghost use Rattle.ibp_algebra.specs.Spans.{IsReducedForm};
ghost use Rattle.sparse_rows.specs.Rows.{SameRow};
ghost use Rattle.row_echelon.specs.Echelons.{row_numbered, IsNumber, InKeptSpan, AreIndependent, IsBelow, Inserts, number_cmp};

use crate::elimination::append;
use crate::inserted::Inserted;
use crate::kept::Kept;
use crate::referring::references;
use crate::substitution::substitute;
use crate::table::Table;
use crate::ways::{leads_left, whole_left};
use ibp_base::{List, NoMemory};
use ibp_field::Residue;
use indexmap::IndexMap;
use sector_lattice::Integral;
use sparse_rows::Row;
use std::alloc::Global;
use std::marker::Model;

/// A reduced form, and its weights over the numbers of the kept rows.
#[derive(Drop)]
pub struct Reduced {
    pub rest: Row,
    pub weights: List<(u32, Residue)>,
}

/// Independent rows with numbers. Contracts see it as their list, in the order in which they were kept.
#[derive(Drop)]
pub struct Echelon {
    alloc: Global,
    kept: IndexMap<Integral, Kept>,
    table: Option<Table>,
}

impl Model for Echelon {
    ghost use Rattle.std.specs.Prelude.{List, [], ℕ, ℤ};

    ghost Value = { List (ℕ × List (List ℤ × ℕ)) };

    ghost use Rattle.row_echelon.specs.KeptRows.{originals, reduced_rows, IsEchelon};
    ghost use Rattle.row_echelon.specs.Tables.{AnyTable};

    ghost view = { λ s. originals [] s.kept.entries };

    ghost invariant = { λ s. IsEchelon s.kept.entries × AnyTable s.table (reduced_rows s.kept.entries) };
}

impl Echelon {
    /// No rows.
    pub fn empty(alloc: Global) -> Echelon
        ensures { result ≡ [] }
    {
        Echelon {
            alloc,
            kept: IndexMap::new(alloc),
            table: None,
        }
    }

    /// No rows, with a column for each integral of the rows that will be inserted. Any other row may come too,
    /// and only takes longer.
    pub fn over(alloc: Global, rows: &[Row]) -> Result<Echelon, NoMemory>
        ensures { IfOk result (λ echelon. echelon ≡ []) }
    {
        Echelon::over_each(alloc, &references(alloc, rows)?)
    }

    /// The same for rows that are only referred to.
    pub fn over_each(alloc: Global, rows: &[&Row]) -> Result<Echelon, NoMemory>
        ensures { IfOk result (λ echelon. echelon ≡ []) }
    {
        Ok(Echelon {
            alloc,
            kept: IndexMap::new(alloc),
            table: Table::over(alloc, rows)?,
        })
    }

    /// Keeps the row with this number, unless it is in the span of the kept rows.
    pub fn insert(&mut self, row: &Row, number: u32) -> Result<Inserted, NoMemory>
        requires { IsBelow self.old number }
        ensures ok { IfOk result (Inserts self.old self.new row.now number) }
        ensures err { OnErr result (self.new ≡ self.old) }
        ensures independent { AreIndependent self.new }
    {
        let table = self.table.take();
        let left = leads_left(self.alloc, &self.kept, table, row)?;
        match left.eliminated.rest.lead() {
            None => {
                self.table = left.table;
                Ok(Inserted::Dependent)
            }
            Some(first) => {
                let inverse = first.1.inverse().unwrap();
                let entry = Kept::of(self.alloc, number, &left.eliminated, inverse)?;
                append(&mut self.kept, first.0, entry)?;
                self.table = left.table;
                Ok(Inserted::Kept)
            }
        }
    }

    /// The reduced form of a row by the span of the kept rows. The row is this form plus the sum of the
    /// weights times the kept rows, lowest number first.
    pub fn reduce(&self, alloc: Global, row: &Row) -> Result<Reduced, NoMemory>
        ensures rest { IfOk result (λ reduced. IsReducedForm integral_cmp (InKeptSpan self.now) row.now reduced.rest) }
        ensures weights { IfOk result (λ reduced. SameRow row.now (reduced.rest ++ combination (row_numbered self.now) reduced.weights)) }
        ensures numbers { IfOk result (λ reduced. AllKeys (IsNumber self.now) reduced.weights) }
        ensures ascending { IfOk result (λ reduced. IsCanonical number_cmp reduced.weights) }
        ensures canonical { IfOk result (λ reduced. IsCanonical integral_cmp reduced.rest) }
        ensures independent { AreIndependent self.now }
    {
        let left = whole_left(alloc, &self.kept, &self.table, row)?;
        let weights = substitute(alloc, &self.kept, &left.steps)?;
        Ok(Reduced {
            rest: left.rest,
            weights: List::from_vec(weights),
        })
    }

    /// The reduced form of a row by the span of the kept rows alone.
    pub fn reduced_form(&self, alloc: Global, row: &Row) -> Result<Row, NoMemory>
        ensures form { IfOk result (λ form. IsReducedForm integral_cmp (InKeptSpan self.now) row.now form) }
        ensures canonical { IfOk result (λ form. IsCanonical integral_cmp form) }
    {
        Ok(whole_left(alloc, &self.kept, &self.table, row)?.rest)
    }
}

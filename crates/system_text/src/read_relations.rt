// Relations.
ghost use Rattle.std.specs.Prelude.{◌≡◌, ◌≤◌, ◌<◌, ◌^◌, ◌++◌, ◌∷◌, [], ℕ, List, IfOk, IfSome, codes, decimal};
ghost use Rattle.sector_lattice.specs.declared.integral.TheConstants.{LINES};
ghost use Rattle.line_reader.specs.Fronts.{IsSomeWith};
ghost use Rattle.line_reader.specs.Lines.{lines};
ghost use Rattle.line_reader.specs.Sections.{Answers};
ghost use Rattle.system_text.specs.SystemValues.{IsRelation};
ghost use Rattle.system_text.specs.SystemLines.{AreCounted, relations_lines};

use crate::read_counts::CountLine;
use crate::read_integrals::{RowLine, narrow_at};
use crate::relations::put_origin;
use crate::value::Written;
use ibp_base::{List, NoMemory};
use line_reader::{
    LineKind, Lines, ReadSystemFault, Section, after, next_line, sections, whole_at,
};
use sector_lattice::{Integral, Sector};
use sparse_rows::Row;
use std::alloc::Global;

// Lines that tell where a relation comes from: its sector, seed and field.
struct OriginLine;

impl LineKind<(Sector, Integral, u32)> for OriginLine {
    ghost use Rattle.system_text.specs.SystemLines.{origin_body, IsOrigin};
    ghost use Rattle.system_text.specs.SomeValues.{some_origin};

    ghost body = { origin_body };

    ghost is_value = { IsOrigin };

    fn told(
        alloc: Global,
        bytes: &[u8],
        _number: usize,
        n: u8,
    ) -> Result<Option<(Sector, Integral, u32)>, NoMemory> {
        let Some((sector, others)) = sector_told(bytes, n) else {
            return Ok(None);
        };
        match narrow_at(alloc, others, n) {
            Ok(Some((seed, rest))) => match field_number(rest) {
                Some(field) => Ok(Some((sector, seed, field))),
                None => Ok(None),
            },
            Ok(None) => Ok(None),
            Err(fault) => Err(fault),
        }
    }

    fn put_body(
        into: &mut Vec<u8>,
        number: usize,
        value: &(Sector, Integral, u32),
    ) -> Result<(), NoMemory> {
        put_origin(into, number, value.0, &value.1, value.2)
    }

    ghost some = { λ n _ _. some_origin n };
}

// The sector behind the number of a relation, and what follows the word behind it.
fn sector_told(bytes: &[u8], n: u8) -> Option<(Sector, &[u8])>
    requires { n ≤ LINES }
    ensures told { (k sector : ℕ) (rest : List ℕ) → k < 2 ^ 32 → sector < 2 ^ n → bytes.now ≡ decimal k ++ (codes ": sector " ++ (decimal sector ++ (codes " seed " ++ rest)))
        → IsSomeWith result (λ r. (r.0.0 ≡ sector) × (r.1.now ≡ rest)) }
    ensures sector { IfSome result (λ r. r.0.0 < 2 ^ n) }
{
    let (_, behind) = whole_at(bytes)?;
    let others = after(behind, b": sector ")?;
    let (sector, left) = whole_at(others)?;
    let rest = after(left, b" seed ")?;
    if sector < 1 << n {
        Some((Sector(sector as u16), rest))
    } else {
        None
    }
}

// The number of a field behind its word.
fn field_number(bytes: &[u8]) -> Option<u32>
    ensures told { (k : ℕ) → 1 ≤ k → k < 2 ^ 32 → bytes.now ≡ codes " field " ++ (decimal k ++ 10 ∷ []) → IsSomeWith result (λ r. r ≡ k) }
    ensures some { IfSome result (λ r. 1 ≤ r) }
{
    let others = after(bytes, b" field ")?;
    let (field, _) = whole_at(others)?;
    if field > 0 { Some(field) } else { None }
}

// The lines of relations.
struct RelationSection;

impl Section<Written> for RelationSection {
    ghost use Rattle.system_text.specs.SystemLines.{relation_lines};
    ghost use Rattle.system_text.specs.SystemValues.{IsRelation};
    ghost use Rattle.system_text.specs.SomeValues.{some_relation};

    ghost text = { relation_lines };

    ghost is_value = { IsRelation };

    fn next(
        alloc: Global,
        from: &mut Lines<'_>,
        number: usize,
        n: u8,
    ) -> Result<Written, ReadSystemFault> {
        let (sector, seed, field) = next_line::<(Sector, Integral, u32), OriginLine>(
            alloc,
            from,
            b"relation ",
            number,
            n,
        )?;
        let row = next_line::<Row, RowLine>(alloc, from, b"row ", number, n)?;
        Ok(Written {
            sector,
            seed,
            field,
            row,
        })
    }

    ghost some = { λ n _ _. some_relation n };
}

/// The relations, behind the line with their number.
pub fn next_relations(
    alloc: Global,
    from: &mut Lines<'_>,
    n: u8,
) -> Result<List<Written>, ReadSystemFault>
    requires some { 1 ≤ n }
    requires few { n ≤ LINES }
    ensures { Answers relations_lines (AreCounted (IsRelation n)) (lines from.old.rest.now) from.old.taken (lines from.new.rest.now) from.new.taken result }
{
    let count = next_line::<u32, CountLine>(alloc, from, b"relations ", 0, n)?;
    sections::<Written, RelationSection>(alloc, from, count, n)
}

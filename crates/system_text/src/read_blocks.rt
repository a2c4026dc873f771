// Sector blocks with their fields.
ghost use Rattle.std.specs.Prelude.{◌≡◌, ◌≤◌, ◌<◌, ◌^◌, ◌++◌, ◌∷◌, [], ℕ, List, IfOk, IfSome, codes, decimal};
ghost use Rattle.sector_lattice.specs.declared.integral.TheConstants.{LINES};
ghost use Rattle.line_reader.specs.Lines.{lines};
ghost use Rattle.sector_lattice.specs.declared.sector.Sector.{Sector};
ghost use Rattle.family.specs.declared.parts.StrippedField.{StrippedField};
ghost use Rattle.line_reader.specs.Fronts.{IsSomeWith};
ghost use Rattle.line_reader.specs.Sections.{Answers};
ghost use Rattle.system_text.specs.Texts.{joined, poly_text};
ghost use Rattle.system_text.specs.SystemValues.{IsBlock, IsStripped};
ghost use Rattle.system_text.specs.SystemLines.{AreCounted, IsHeading, blocks_lines, heading_body};

use crate::blocks::{put_field_body, put_heading_body};
use crate::read_counts::CountLine;
use crate::read_polynomials::PolyEntry;
use crate::value::SectorBlock;
use family::StrippedField;
use ibp_base::{List, NoMemory};
use line_reader::{
    Entry, LineKind, Lines, ReadSystemFault, Section, after, entries_at, next_line, sections,
    whole_at,
};
use sector_lattice::Sector;
use sparse_poly::Poly;
use std::alloc::Global;

// Lines with the sector of a block and the number of its fields.
struct HeadingLine;

impl LineKind<(Sector, u32)> for HeadingLine {
    ghost use Rattle.system_text.specs.SystemLines.{heading_body, IsHeading};
    ghost use Rattle.system_text.specs.SomeValues.{some_heading};

    ghost body = { λ _ heading. heading_body heading };

    ghost is_value = { IsHeading };

    fn told(
        _alloc: Global,
        bytes: &[u8],
        _number: usize,
        n: u8,
    ) -> Result<Option<(Sector, u32)>, NoMemory> {
        Ok(heading_told(bytes, n))
    }

    fn put_body(into: &mut Vec<u8>, _number: usize, value: &(Sector, u32)) -> Result<(), NoMemory> {
        put_heading_body(into, value.0, value.1 as usize)
    }

    ghost some = { λ n _ _. some_heading n };
}

fn heading_told(bytes: &[u8], n: u8) -> Option<(Sector, u32)>
    requires { n ≤ LINES }
    ensures told { (h : Sector × ℕ) → IsHeading n h → bytes.now ≡ heading_body h ++ 10 ∷ [] → IsSomeWith result (λ r. r ≡ h) }
    ensures heading { IfSome result (λ r. IsHeading n r) }
{
    let (sector, others) = whole_at(bytes)?;
    let behind = after(others, b" fields ")?;
    let (count, _) = whole_at(behind)?;
    if sector < 1 << n {
        Some((Sector(sector as u16), count))
    } else {
        None
    }
}

// Lines with a field.
struct FieldLine;

impl LineKind<StrippedField> for FieldLine {
    ghost use Rattle.system_text.specs.SystemLines.{field_body};
    ghost use Rattle.system_text.specs.SystemValues.{IsStripped};
    ghost use Rattle.system_text.specs.SomeValues.{some_field};

    ghost body = { field_body };

    ghost is_value = { IsStripped };

    fn told(
        alloc: Global,
        bytes: &[u8],
        number: usize,
        n: u8,
    ) -> Result<Option<StrippedField>, NoMemory> {
        let Some(others) = behind_number(bytes) else {
            return Ok(None);
        };
        field_told(alloc, others, n)
    }

    fn put_body(into: &mut Vec<u8>, number: usize, value: &StrippedField) -> Result<(), NoMemory> {
        put_field_body(into, number, value)
    }

    ghost some = { λ n _ _. some_field n };
}

// What follows the number of a field.
fn behind_number(bytes: &[u8]) -> Option<&[u8]>
    ensures { (k : ℕ) (rest : List ℕ) → k < 2 ^ 32 → bytes.now ≡ decimal k ++ (codes ": " ++ rest) → IsSomeWith result (λ r. r.now ≡ rest) }
{
    let (_, others) = whole_at(bytes)?;
    after(others, b": ")
}

// The field behind its number.
fn field_told(alloc: Global, bytes: &[u8], n: u8) -> Result<Option<StrippedField>, NoMemory>
    requires least { 1 ≤ n }
    requires few { n ≤ LINES }
    ensures told { (f : StrippedField) → IsStripped n f → bytes.now ≡ joined poly_text (codes ", ") f.c ++ (codes " ; " ++ (poly_text f.b ++ 10 ∷ []))
        → IfOk result (λ found. IsSomeWith found (λ r. r ≡ f)) }
    ensures field { IfOk result (λ found. IfSome found (λ r. IsStripped n r)) }
{
    let Some((c, others)) = entries_at::<Poly, PolyEntry>(alloc, bytes, b", ", n)? else {
        return Ok(None);
    };
    let Some(behind) = after(others, b" ; ") else {
        return Ok(None);
    };
    let Some((b, _)) = PolyEntry::front(alloc, behind, n)? else {
        return Ok(None);
    };
    if c.len() != usize::from(n) {
        return Ok(None);
    }
    let c = List::from_vec(c);
    Ok(Some(StrippedField { c, b }))
}

// The lines of fields.
struct FieldSection;

impl Section<StrippedField> for FieldSection {
    ghost use Rattle.system_text.specs.SystemLines.{field_lines};
    ghost use Rattle.system_text.specs.SystemValues.{IsStripped};
    ghost use Rattle.system_text.specs.SomeValues.{some_field};

    ghost text = { field_lines };

    ghost is_value = { IsStripped };

    fn next(
        alloc: Global,
        from: &mut Lines<'_>,
        number: usize,
        n: u8,
    ) -> Result<StrippedField, ReadSystemFault> {
        next_line::<StrippedField, FieldLine>(alloc, from, b"field ", number, n)
    }

    ghost some = { λ n _ _. some_field n };
}

// The lines of blocks.
struct BlockSection;

impl Section<SectorBlock> for BlockSection {
    ghost use Rattle.system_text.specs.SystemLines.{block_lines};
    ghost use Rattle.system_text.specs.SystemValues.{IsBlock};
    ghost use Rattle.system_text.specs.SomeValues.{some_block};

    ghost text = { λ _ block. block_lines block };

    ghost is_value = { IsBlock };

    fn next(
        alloc: Global,
        from: &mut Lines<'_>,
        number: usize,
        n: u8,
    ) -> Result<SectorBlock, ReadSystemFault> {
        let (sector, count) = next_line::<(Sector, u32), HeadingLine>(
            alloc, from, b"sector ", number, n,
        )?;
        let fields = sections::<StrippedField, FieldSection>(alloc, from, count, n)?;
        Ok(SectorBlock { sector, fields })
    }

    ghost some = { λ n _ _. some_block n };
}

/// The blocks, behind the line with their number.
pub fn next_blocks(
    alloc: Global,
    from: &mut Lines<'_>,
    n: u8,
) -> Result<List<SectorBlock>, ReadSystemFault>
    requires some { 1 ≤ n }
    requires few { n ≤ LINES }
    ensures { Answers blocks_lines (AreCounted (IsBlock n)) (lines from.old.rest.now) from.old.taken (lines from.new.rest.now) from.new.taken result }
{
    let count = next_line::<u32, CountLine>(alloc, from, b"sectors ", 0, n)?;
    sections::<SectorBlock, BlockSection>(alloc, from, count, n)
}

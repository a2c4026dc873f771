// Sector blocks.
ghost use Rattle.std.specs.Prelude.{◌≡◌, ◌++◌, IfOk, OnOk, codes};
ghost use Rattle.std.specs.List.{flat_map};
ghost use Rattle.system_text.specs.Systems.{count_line, numbered, field_text, block_text};
ghost use Rattle.system_text.specs.SystemLines.{field_body, heading_body};

use crate::numbers::{put_bytes, put_count, put_whole};
use crate::polynomials::{put_poly, put_polys};
use crate::value::SectorBlock;
use family::StrippedField;
use ibp_base::{List, NoMemory};
use sector_lattice::Sector;
use std::alloc::Global;

/// The number of a field, and its polynomials.
pub fn put_field_body(
    text: &mut Vec<u8>,
    number: usize,
    field: &StrippedField,
) -> Result<(), NoMemory>
    ensures { OnOk result (text.new.items ≡ text.old.items ++ field_body number field.now) }
{
    put_whole(text, number as u64)?;
    put_bytes(text, b": ")?;
    put_polys(text, field.c.as_slice())?;
    put_bytes(text, b" ; ")?;
    put_poly(text, &field.b)
}

fn put_field(text: &mut Vec<u8>, number: usize, field: &StrippedField) -> Result<(), NoMemory>
    ensures { OnOk result (text.new.items ≡ text.old.items ++ field_text number field.now) }
{
    put_bytes(text, b"field ")?;
    put_field_body(text, number, field)?;
    put_bytes(text, b"\n")
}

fn put_fields(text: &mut Vec<u8>, fields: &[StrippedField]) -> Result<(), NoMemory>
    ensures { OnOk result (text.new.items ≡ text.old.items ++ numbered field_text fields.now) }
{
    for (place, field) in fields.iter().enumerate() {
        put_field(text, place + 1, field)?;
    }
    Ok(())
}

/// The sector of a block, and how many fields it has.
pub fn put_heading_body(text: &mut Vec<u8>, sector: Sector, count: usize) -> Result<(), NoMemory>
    ensures { OnOk result (text.new.items ≡ text.old.items ++ heading_body (sector, count)) }
{
    put_whole(text, u64::from(sector.0))?;
    put_bytes(text, b" fields ")?;
    put_whole(text, count as u64)
}

fn put_block(text: &mut Vec<u8>, block: &SectorBlock) -> Result<(), NoMemory>
    ensures { OnOk result (text.new.items ≡ text.old.items ++ block_text block.now) }
{
    put_bytes(text, b"sector ")?;
    put_heading_body(text, block.sector, block.fields.as_slice().len())?;
    put_bytes(text, b"\n")?;
    put_fields(text, block.fields.as_slice())
}

fn put_each(text: &mut Vec<u8>, blocks: &[SectorBlock]) -> Result<(), NoMemory>
    ensures { OnOk result (text.new.items ≡ text.old.items ++ flat_map block_text blocks.now) }
{
    for block in blocks {
        put_block(text, block)?;
    }
    Ok(())
}

/// The line with their number, and then each block.
pub fn put_blocks(text: &mut Vec<u8>, blocks: &[SectorBlock]) -> Result<(), NoMemory>
    ensures { OnOk result (text.new.items ≡ text.old.items
        ++ count_line (codes "sectors") blocks.now ++ flat_map block_text blocks.now) }
{
    put_count(text, b"sectors", blocks.len())?;
    put_each(text, blocks)
}

/// The text of a sector block: a line with the sector and how many fields there are, then a line for
/// each field.
pub fn print_block(alloc: Global, block: &SectorBlock) -> Result<List<u8>, NoMemory>
    ensures { IfOk result (λ text. text ≡ block_text block.now) }
{
    let mut text = Vec::new(alloc);
    put_block(&mut text, block)?;
    Ok(List::from_vec(text))
}

// Relations with their numbers.
ghost use Rattle.std.specs.Prelude.{◌≡◌, ◌++◌, OnOk, codes};
ghost use Rattle.system_text.specs.Systems.{count_line, numbered, relation_text};
ghost use Rattle.system_text.specs.SystemLines.{origin_body};

use crate::integrals::{put_integral, put_row_line};
use crate::numbers::{put_bytes, put_count, put_whole};
use crate::value::Written;
use ibp_base::NoMemory;
use sector_lattice::{Integral, Sector};

/// The number of a relation, and the sector, seed and field that it comes from.
pub fn put_origin(
    text: &mut Vec<u8>,
    number: usize,
    sector: Sector,
    seed: &Integral,
    field: u32,
) -> Result<(), NoMemory>
    ensures { OnOk result (text.new.items ≡ text.old.items ++ origin_body number (sector, seed.now, field)) }
{
    put_whole(text, number as u64)?;
    put_bytes(text, b": sector ")?;
    put_whole(text, u64::from(sector.0))?;
    put_bytes(text, b" seed ")?;
    put_integral(text, seed)?;
    put_bytes(text, b" field ")?;
    put_whole(text, u64::from(field))
}

fn put_relation(text: &mut Vec<u8>, number: usize, relation: &Written) -> Result<(), NoMemory>
    ensures { OnOk result (text.new.items ≡ text.old.items ++ relation_text number relation.now) }
{
    put_bytes(text, b"relation ")?;
    put_origin(
        text,
        number,
        relation.sector,
        &relation.seed,
        relation.field,
    )?;
    put_bytes(text, b"\n")?;
    put_row_line(text, b"row ", &relation.row)
}

fn put_each(text: &mut Vec<u8>, relations: &[Written]) -> Result<(), NoMemory>
    ensures { OnOk result (text.new.items ≡ text.old.items ++ numbered relation_text relations.now) }
{
    for (place, relation) in relations.iter().enumerate() {
        put_relation(text, place + 1, relation)?;
    }
    Ok(())
}

/// The line with their number, and then each relation with its number, counted from 1.
pub fn put_relations(text: &mut Vec<u8>, relations: &[Written]) -> Result<(), NoMemory>
    ensures { OnOk result (text.new.items ≡ text.old.items
        ++ count_line (codes "relations") relations.now ++ numbered relation_text relations.now) }
{
    put_count(text, b"relations", relations.len())?;
    put_each(text, relations)
}

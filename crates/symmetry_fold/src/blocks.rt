// Copies of sector blocks.
ghost use Rattle.std.specs.Prelude.{◌≡◌, IfOk};

use family::StrippedField;
use ibp_base::{List, NoMemory};
use std::alloc::Global;
use system_text::SectorBlock;

fn copy_fields(alloc: Global, fields: &[StrippedField]) -> Result<List<StrippedField>, NoMemory>
    ensures { IfOk result (λ copies. copies ≡ fields.now) }
{
    let mut copies = Vec::new(alloc);
    for field in fields {
        copies.push(field.copy(alloc)?)?;
    }
    Ok(List::from_vec(copies))
}

/// The same blocks, in the same order.
pub fn copy_blocks(alloc: Global, blocks: &[SectorBlock]) -> Result<List<SectorBlock>, NoMemory>
    ensures { IfOk result (λ copies. copies ≡ blocks.now) }
{
    let mut copies = Vec::new(alloc);
    for block in blocks {
        let fields = copy_fields(alloc, block.fields.as_slice())?;
        copies.push(SectorBlock {
            sector: block.sector,
            fields,
        })?;
    }
    Ok(List::from_vec(copies))
}

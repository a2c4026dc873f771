// The fields of a text.
ghost use Rattle.std.specs.Prelude.{◌<◌, ◌^◌, length, IfOk, IfSome, IsNone};
ghost use Rattle.std.specs.List.{All, AllByRecursion};
ghost use Rattle.family.specs.FamilyView.{family_view};
ghost use Rattle.system_text.specs.SystemValues.{IsBlock, IsStripped};
ghost use Rattle.system_check.specs.Rightness.{IsRightField, IsRightBlock};
ghost use Rattle.system_check.specs.Checking.{IsFirstAt, IsFirstField};

use family::{Family, StrippedField};
use ibp_base::NoMemory;
use sector_lattice::Sector;
use sector_module::is_member;
use std::alloc::Global;
use system_text::SectorBlock;

// The number of the first field that is not in the module of the sector.
fn first_in_block(
    alloc: Global,
    family: &Family,
    sector: Sector,
    fields: &[StrippedField],
) -> Result<Option<u32>, NoMemory>
    requires sector { sector.0 < 2 ^ family.now.n }
    requires few { length fields.now < 2 ^ 32 }
    requires fields { AllByRecursion (IsStripped family.now.n) fields.now }
    ensures first { IfOk result (λ found. IfSome found (λ k. IsFirstAt (IsRightField (family_view family.now) sector) k fields.now)) }
    ensures none { IfOk result (λ found. IsNone found → All (IsRightField (family_view family.now) sector) fields.now) }
{
    for (place, field) in fields.iter().enumerate() {
        if !is_member(alloc, family, sector, field)? {
            return Ok(Some(place as u32 + 1));
        }
    }
    Ok(None)
}

/// The first field that is not in the module of its block's sector, by this sector and its number in the block.
pub fn first_outside(
    alloc: Global,
    family: &Family,
    blocks: &[SectorBlock],
) -> Result<Option<(Sector, u32)>, NoMemory>
    requires { AllByRecursion (IsBlock family.now.n) blocks.now }
    ensures first { IfOk result (λ found. IfSome found (λ field. IsFirstField (family_view family.now) field.0 field.1 blocks.now)) }
    ensures none { IfOk result (λ found. IsNone found → All (IsRightBlock (family_view family.now)) blocks.now) }
{
    for block in blocks {
        let outside = first_in_block(alloc, family, block.sector, block.fields.as_slice())?;
        if let Some(number) = outside {
            return Ok(Some((block.sector, number)));
        }
    }
    Ok(None)
}

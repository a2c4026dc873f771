// The relations of a text.
ghost use Rattle.std.specs.Prelude.{◌≡◌, ◌≤◌, ◌<◌, ◌^◌, ◌↔◌, IfOk, IfSome, IsNone, IsTrue, length};
ghost use Rattle.std.specs.List.{All, AllByRecursion};
ghost use Rattle.std.specs.Option.{option_map};
ghost use Rattle.family.specs.FamilyView.{family_view};
ghost use Rattle.system_text.specs.SystemValues.{IsBlock, IsRelation};
ghost use Rattle.system_check.specs.Rightness.{IsRightBlock, IsRightRelation, field_named, first_block};
ghost use Rattle.system_check.specs.Checking.{IsFirstAt};

use family::{Family, StrippedField};
use ibp_base::NoMemory;
use ibp_relation::candidate;
use sector_lattice::Sector;
use std::alloc::Global;
use system_text::{SectorBlock, Written};

fn first_block(blocks: &[SectorBlock], sector: Sector) -> Option<&SectorBlock>
    ensures { option_map (λ block. block.now) result ≡ first_block blocks.now sector }
{
    blocks.iter().find(|block| block.sector == sector)
}

// The field of this number in the first block of the sector.
fn field_named(blocks: &[SectorBlock], sector: Sector, number: u32) -> Option<&StrippedField>
    requires { 1 ≤ number }
    ensures { option_map (λ field. field.now) result ≡ field_named blocks.now sector number }
{
    let block = first_block(blocks, sector)?;
    block.fields.as_slice().get(number as usize - 1)
}

// Whether the relation is the identity at its seed of the field that it names.
fn is_identity(
    alloc: Global,
    family: &Family,
    blocks: &[SectorBlock],
    relation: &Written,
) -> Result<bool, NoMemory>
    requires shapes { AllByRecursion (IsBlock family.now.n) blocks.now }
    requires right { All (IsRightBlock (family_view family.now)) blocks.now }
    requires relation { IsRelation family.now.n relation.now }
    ensures { IfOk result (λ same. IsTrue same ↔ IsRightRelation (family_view family.now) blocks.now relation.now) }
{
    let Some(field) = field_named(blocks, relation.sector, relation.field) else {
        return Ok(false);
    };
    if relation.seed.sector() != relation.sector {
        return Ok(false);
    }
    let row = candidate(alloc, family, field, &relation.seed)?;
    Ok(row == relation.row)
}

/// The number of the first relation that is not the identity at its seed of the field that it names.
pub fn first_other(
    alloc: Global,
    family: &Family,
    blocks: &[SectorBlock],
    relations: &[Written],
) -> Result<Option<u32>, NoMemory>
    requires shapes { AllByRecursion (IsBlock family.now.n) blocks.now }
    requires right { All (IsRightBlock (family_view family.now)) blocks.now }
    requires relations { AllByRecursion (IsRelation family.now.n) relations.now }
    requires few { length relations.now < 2 ^ 32 }
    ensures first { IfOk result (λ found. IfSome found (λ k. IsFirstAt (IsRightRelation (family_view family.now) blocks.now) k relations.now)) }
    ensures none { IfOk result (λ found. IsNone found → All (IsRightRelation (family_view family.now) blocks.now) relations.now) }
{
    for (place, relation) in relations.iter().enumerate() {
        if !is_identity(alloc, family, blocks, relation)? {
            return Ok(Some(place as u32 + 1));
        }
    }
    Ok(None)
}

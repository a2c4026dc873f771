// Which of the permutations of a family are symmetries of it.
ghost use Rattle.std.specs.Prelude.{◌≡◌, ◌↔◌, ◌≤◌, true, IfOk, IfSome, IsNone, IsTrue, length};
ghost use Rattle.std.specs.List.{list_all};
ghost use Rattle.ibp_algebra.specs.Polynomial.{SamePolynomial, permute};
ghost use Rattle.mono_order.specs.declared.limits.TheConstants.{VARIABLES};
ghost use Rattle.family.specs.Conditions.{is_zero_sector};
ghost use Rattle.family.specs.FamilyView.{family_view};
ghost use Rattle.family.specs.Permutation.{is_permutation};
ghost use Rattle.symmetry_fold.specs.Images.{image_sector};
ghost use Rattle.symmetry_fold.specs.Symmetries.{in_all_variables, IsSymmetry, AreSymmetries, IsFirstBroken};

use crate::images::image_sector;
use family::Family;
use ibp_base::NoMemory;
use mono_order::VARIABLES;
use sector_lattice::Sector;
use std::alloc::Global;

// The numbers, and the variables beyond them in their places.
fn in_all_variables(numbers: &[u8]) -> [u8; VARIABLES]
    requires { length numbers.now ≤ VARIABLES }
    ensures { result ≡ in_all_variables numbers.now }
{
    let mut all = [1, 2, 3, 4, 5, 6, 7, 8, 9, 10, 11, 12];
    all[..numbers.len()].copy_from_slice(numbers);
    all
}

// Whether the polynomial stays where each variable is replaced by what it becomes.
fn keeps_polynomial(alloc: Global, family: &Family, numbers: &[u8]) -> Result<bool, NoMemory>
    requires { is_permutation family.now.n numbers.now ≡ true }
    ensures { IfOk result (λ kept. IsTrue kept ↔ SamePolynomial (permute (in_all_variables numbers.now) family.now.baikov) family.now.baikov) }
{
    let moved = family.baikov.permute(alloc, &in_all_variables(numbers))?;
    Ok(moved == family.baikov)
}

fn has_zero_image(family: &Family, numbers: &[u8], sector: Sector) -> bool
    ensures { result ≡ is_zero_sector family.now.zero (image_sector family.now.n numbers.now sector.0) }
{
    family.is_zero(image_sector(family.n, numbers, sector))
}

// Whether the image of each listed zero sector is zero.
fn keeps_zero_sectors(family: &Family, numbers: &[u8]) -> bool
    ensures { result ≡ list_all (λ sector. is_zero_sector family.now.zero (image_sector family.now.n numbers.now sector.0)) family.now.zero }
{
    family
        .zero
        .as_slice()
        .iter()
        .all(|sector| has_zero_image(family, numbers, *sector))
}

// Whether the permutation is a symmetry of the family.
fn is_symmetry(alloc: Global, family: &Family, numbers: &[u8]) -> Result<bool, NoMemory>
    requires { is_permutation family.now.n numbers.now ≡ true }
    ensures { IfOk result (λ is. IsTrue is ↔ IsSymmetry (family_view family.now) numbers.now) }
{
    if !keeps_zero_sectors(family, numbers) {
        return Ok(false);
    }
    keeps_polynomial(alloc, family, numbers)
}

/// The number, counted from 1, of the first permutation of the family that is not a symmetry of it: one under
/// which its polynomial or the set of its zero sectors changes. `None` where each is a symmetry.
pub fn first_broken(alloc: Global, family: &Family) -> Result<Option<u32>, NoMemory>
    ensures broken { IfOk result (λ broken. IfSome broken (IsFirstBroken (family_view family.now))) }
    ensures none { IfOk result (λ broken. IsNone broken ↔ AreSymmetries (family_view family.now)) }
{
    let mut number = 1;
    for entry in family.symmetries.as_slice() {
        if !is_symmetry(alloc, family, entry.as_slice())? {
            return Ok(Some(number));
        }
        number += 1;
    }
    Ok(None)
}

ghost use Rattle.std.specs.Prelude.{◌≡◌, ◌≢◌, ℕ, ◌↔◌, IfOk, OnOk};
ghost use Rattle.ibp_algebra.specs.FormalSum.{IsCanonical};
ghost use Rattle.ibp_algebra.specs.Field.{IsDivided, IsTangent, unstripped as unstripped_form};
ghost use Rattle.ibp_algebra.specs.Identity.{in_sector_of, IsIdentityRow};
ghost use Rattle.mono_order.specs.declared.limits.TheConstants.{RUN_DEGREE};
ghost use Rattle.sector_lattice.specs.Sectors.{integral_cmp, sector_of};
ghost use Rattle.sparse_rows.specs.Rows.{is_zero_integral};
ghost use Rattle.sparse_poly.specs.declared.limits.TheConstants.{DEGREE_LIMIT};
ghost use Rattle.family.specs.Conditions.{in_sector, MeetsTwoConditions, IsInSectorModule};
ghost use Rattle.family.specs.Shapes.{IsField, ArePowers};
ghost use Rattle.ibp_relation.specs.Conditions.{IsFirstUndivided, NoneRises};

use crate::conditions::{first_undivided, is_tangent};
use crate::template::Template;
use family::{Family, Field, StrippedField};
use ibp_base::NoMemory;
use sector_lattice::Integral;
use sparse_rows::Row;
use std::alloc::Global;

/// Why a field has no identity at a seed.
#[derive(Clone, Copy, Debug, PartialEq, Eq)]
pub enum IdentityFault {
    /// The variable z_i, counted from 1, has a positive power at the seed and does not divide a_i; no
    /// lesser one is such.
    NotDivisible(u8),
    /// The field does not take the Baikov polynomial to a multiple of itself by its factor.
    NotTangent,
    /// There is no memory for the row.
    NoMemory,
}

impl From<NoMemory> for IdentityFault {
    ghost use Rattle.std.specs.Prelude.{◌≡◌};
    ghost use Rattle.ibp_relation.specs.declared.relation.IdentityFault.{IdentityFault};

    ghost from_gives = { λ _ e. e ≡ IdentityFault.NoMemory };

    fn from(_: NoMemory) -> IdentityFault {
        IdentityFault::NoMemory
    }
}

/// The integration-by-parts identity of a field at a seed: the divergence of the field times the Baikov
/// integrand of the seed, as a row of integrals whose sum is zero. Integrals of the family's zero sectors
/// are left out.
pub fn identity(
    alloc: Global,
    family: &Family,
    field: &Field,
    seed: &Integral,
) -> Result<Row, IdentityFault>
    requires field { IsField family.now.n DEGREE_LIMIT field.now.a field.now.b }
    requires seed { ArePowers family.now.n seed.now }
    ensures row { IfOk result (λ row. IsIdentityRow family.now.n family.now.gamma family.now.baikov field.now.a seed.now (is_zero_integral family.now.zero) row) }
    ensures canonical { IfOk result (λ row. IsCanonical integral_cmp row) }
    ensures meets { OnOk result (MeetsTwoConditions family.now.baikov (sector_of seed.now) field.now) }
    ensures no_rise { OnOk result (NoneRises family.now.n family.now.gamma family.now.baikov field.now.a seed.now) }
    ensures not_divisible { (i : ℕ) → result ≢ Err IdentityFault.NoMemory → (result ≡ Err (IdentityFault.NotDivisible i)) ↔ IsFirstUndivided (in_sector (sector_of seed.now)) field.now.a i }
    ensures not_tangent { result ≢ Err IdentityFault.NoMemory
        → (result ≡ Err IdentityFault.NotTangent) ↔ (IsDivided (in_sector (sector_of seed.now)) field.now.a × ¬ (IsTangent family.now.baikov field.now.a field.now.b)) }
{
    let a = field.a.as_slice();
    if let Some(i) = first_undivided(a, seed) {
        return Err(IdentityFault::NotDivisible(i));
    }
    if !is_tangent(alloc, &family.baikov, a, &field.b)? {
        return Err(IdentityFault::NotTangent);
    }
    let template = Template::of_field(alloc, family, a, &field.b)?;
    Ok(template.candidate(alloc, family, seed)?)
}

/// The integration-by-parts identity at a seed of the field that a stripped field of the seed's sector stands
/// for. Integrals of the family's zero sectors are left out.
pub fn candidate(
    alloc: Global,
    family: &Family,
    field: &StrippedField,
    seed: &Integral,
) -> Result<Row, NoMemory>
    requires field { IsField family.now.n RUN_DEGREE field.now.c field.now.b }
    requires seed { ArePowers family.now.n seed.now }
    requires member { IsInSectorModule family.now.baikov (sector_of seed.now) field.now }
    ensures row { IfOk result (λ row. IsIdentityRow family.now.n family.now.gamma family.now.baikov (unstripped_form (in_sector_of seed.now) field.now.c) seed.now (is_zero_integral family.now.zero) row) }
    ensures canonical { IfOk result (λ row. IsCanonical integral_cmp row) }
    ensures no_rise { NoneRises family.now.n family.now.gamma family.now.baikov (unstripped_form (in_sector_of seed.now) field.now.c) seed.now }
{
    let template = Template::of(alloc, family, seed.sector(), field)?;
    template.candidate(alloc, family, seed)
}

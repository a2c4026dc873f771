//! The tangent module of a family.

ghost use Rattle.std.specs.Prelude.{◌≡◌, ◌≢◌, ℕ, ◌+◌, ◌≤◌, ◌↔◌, length, List, IfOk, OnOk};
ghost use Rattle.std.specs.List.{All};
ghost use Rattle.mono_order.specs.declared.limits.TheConstants.{RUN_DEGREE};
ghost use Rattle.module_vec.specs.ModuleVector.{ModuleVector};
ghost use Rattle.module_basis.specs.PlainRun.{Done, PairsSpent, DegreeOver};
ghost use Rattle.family.specs.Shapes.{IsField};
ghost use Rattle.sector_module.specs.SectorBasis.{IsSectorBasis};
ghost use Rattle.meet_module.specs.MeetRuns.{TangentRunEnds};

use family::{Family, StrippedField};
use module_basis::BasisFault;
use sector_lattice::Sector;
use sector_module::{Generators, sector_basis};
use std::alloc::Global;
use std::marker::Model;

/// The fields that generate the tangent module of a family: those `(a_1 .. a_n ; b)` where the sum of `a_i` times the
/// derivative of the Baikov polynomial P by `z_i` is b times P. Contracts see it as the list of these fields.
#[derive(Drop)]
pub struct Tangent {
    generators: Generators,
}

impl Model for Tangent {
    ghost use Rattle.std.specs.Prelude.{List};
    ghost use Rattle.family.specs.declared.parts.StrippedField.{StrippedField};

    ghost Value = { List StrippedField };

    ghost view = { λ t. t.generators.fields };
}

impl Tangent {
    /// The fields, by ascending lead. Sector 0 asks for no factors, so they stand as they are.
    pub fn fields(&self) -> &[StrippedField]
        ensures { result.now ≡ self.now }
    {
        self.generators.fields()
    }
}

/// The reduced basis of the tangent module, or the way in which the run of sector 0 with the family's budget of pairs ends
/// before it is done.
pub fn tangent_of(alloc: Global, family: &Family) -> Result<Tangent, BasisFault>
    ensures basis { IfOk result (λ tangent. IsSectorBasis family.now.baikov family.now.n 0 tangent) }
    ensures shape { IfOk result (λ tangent. All (λ field. IsField family.now.n RUN_DEGREE field.c field.b) tangent) }
    ensures few { IfOk result (λ tangent. length tangent ≤ family.now.n + 1 + family.now.budget.pairs) }
    ensures done { OnOk result ((elements : List ModuleVector) × (taken : ℕ) × TangentRunEnds family.now.baikov family.now.n family.now.budget (Done elements taken)) }
    ensures spent { result ≢ Err BasisFault.NoMemory
        → (result ≡ Err BasisFault.PairsSpent) ↔ TangentRunEnds family.now.baikov family.now.n family.now.budget PairsSpent }
    ensures over { result ≢ Err BasisFault.NoMemory
        → (result ≡ Err BasisFault.DegreeOver) ↔ TangentRunEnds family.now.baikov family.now.n family.now.budget DegreeOver }
{
    let generators = sector_basis(alloc, family, Sector(0))?;
    Ok(Tangent { generators })
}

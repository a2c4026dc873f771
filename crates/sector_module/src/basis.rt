//! The reduced basis of a sector's module.

ghost use Rattle.std.specs.Prelude.{◌≡◌, ◌≢◌, ℕ, ◌+◌, ◌^◌, ◌<◌, ◌≤◌, ◌↔◌, length, List, IfOk, OnOk};
ghost use Rattle.std.specs.List.{All};
ghost use Rattle.mono_order.specs.declared.limits.TheConstants.{RUN_DEGREE};
ghost use Rattle.module_vec.specs.ModuleVector.{ModuleVector};
ghost use Rattle.module_basis.specs.PlainRun.{Done, PairsSpent, DegreeOver};
ghost use Rattle.family.specs.Shapes.{IsField};
ghost use Rattle.family.specs.Conditions.{IsInSectorModule};
ghost use Rattle.sector_module.specs.Factors.{SectorRunEnds};
ghost use Rattle.sector_module.specs.SectorBasis.{IsSectorBasis};

use crate::generators::Generators;
use crate::order::pair_order;
use crate::vectors::{fields_of, generators};
use family::Family;
use module_basis::{BasisFault, plain_run, reduced_low};
use sector_lattice::Sector;
use std::alloc::Global;

/// The reduced basis of the stripped fields of a sector, by ascending lead, or the way in which the sector's run
/// with the family's budget of pairs and in the order that it selects ends before it is done. After Böhm, Georgoudis, Larsen, Schulze and Zhang,
/// "Complete sets of logarithmic vector fields for integration-by-parts identities of Feynman integrals" (2018).
pub fn sector_basis(
    alloc: Global,
    family: &Family,
    sector: Sector,
) -> Result<Generators, BasisFault>
    requires { sector.0 < 2 ^ family.now.n }
    ensures sector { IfOk result (λ generators. generators.sector ≡ sector) }
    ensures basis { IfOk result (λ generators. IsSectorBasis family.now.baikov family.now.n sector.0 generators.fields) }
    ensures shape { IfOk result (λ generators. All (λ field. IsField family.now.n RUN_DEGREE field.c field.b) generators.fields) }
    ensures members { IfOk result (λ generators. All (IsInSectorModule family.now.baikov sector.0) generators.fields) }
    ensures few { IfOk result (λ generators. length generators.fields ≤ family.now.n + 1 + family.now.budget.pairs) }
    ensures done { OnOk result ((elements : List ModuleVector) × (taken : ℕ) × SectorRunEnds family.now.baikov family.now.n sector.0 family.now.budget (Done elements taken)) }
    ensures spent { result ≢ Err BasisFault.NoMemory
        → (result ≡ Err BasisFault.PairsSpent) ↔ SectorRunEnds family.now.baikov family.now.n sector.0 family.now.budget PairsSpent }
    ensures over { result ≢ Err BasisFault.NoMemory
        → (result ≡ Err BasisFault.DegreeOver) ↔ SectorRunEnds family.now.baikov family.now.n sector.0 family.now.budget DegreeOver }
{
    let generators = generators(alloc, family, sector)?;
    let by = pair_order(alloc, family, sector)?;
    let run = plain_run(alloc, &generators, family.budget.pairs, by)?;
    let reduced = reduced_low(alloc, &run)?;
    let fields = fields_of(alloc, family.n, reduced.as_slice())?;
    Ok(Generators::new(sector, fields))
}

//! The reduced basis of a sector by module intersection.

ghost use Rattle.std.specs.Prelude.{◌≡◌, ◌≢◌, ℕ, ◌+◌, ◌^◌, ◌<◌, ◌≤◌, ◌↔◌, length, List, IfOk, OnOk};
ghost use Rattle.std.specs.List.{All};
ghost use Rattle.mono_order.specs.declared.limits.TheConstants.{VARIABLES, RUN_DEGREE};
ghost use Rattle.module_vec.specs.ModuleVector.{ModuleVector};
ghost use Rattle.module_basis.specs.PlainRun.{Done, PairsSpent, DegreeOver};
ghost use Rattle.family.specs.declared.limits.TheConstants.{PAIR_LIMIT};
ghost use Rattle.family.specs.Shapes.{IsField};
ghost use Rattle.family.specs.Conditions.{IsInSectorModule};
ghost use Rattle.sector_module.specs.SectorBasis.{IsSectorBasis};
ghost use Rattle.meet_module.specs.MeetRuns.{MeetEnds};

use crate::order::meet_pair_order;
use crate::tangent::Tangent;
use crate::vectors::{meet_generators, stripped_generators};
use family::Family;
use module_basis::{BasisFault, plain_run, reduced_low};
use sector_lattice::Sector;
use sector_module::{Generators, fields_of, pair_order};
use std::alloc::Global;

/// The reduced basis of the stripped fields of a sector, by ascending lead, from the reduced basis of the tangent module; or
/// the way in which one of the two runs with the family's budget of pairs ends before it is done. The first run finds the
/// fields of the tangent module that are divisible by the sector's variables, by elimination of raised copies; the second one
/// is of these fields without the sector's variables. After Böhm, Georgoudis, Larsen, Schönemann and Zhang, "Complete
/// integration-by-parts reductions of the non-planar hexagon-box via module intersections" (2018).
pub fn meet_basis(
    alloc: Global,
    family: &Family,
    tangent: &Tangent,
    sector: Sector,
) -> Result<Generators, BasisFault>
    requires sector { sector.0 < 2 ^ family.now.n }
    requires tangent { IsSectorBasis family.now.baikov family.now.n 0 tangent.now }
    requires shape { All (λ field. IsField family.now.n RUN_DEGREE field.c field.b) tangent.now }
    requires few { length tangent.now ≤ VARIABLES + 1 + PAIR_LIMIT }
    ensures sector { IfOk result (λ generators. generators.sector ≡ sector) }
    ensures basis { IfOk result (λ generators. IsSectorBasis family.now.baikov family.now.n sector.0 generators.fields) }
    ensures shape { IfOk result (λ generators. All (λ field. IsField family.now.n RUN_DEGREE field.c field.b) generators.fields) }
    ensures members { IfOk result (λ generators. All (IsInSectorModule family.now.baikov sector.0) generators.fields) }
    ensures done { OnOk result ((elements : List ModuleVector) × (taken : ℕ) × MeetEnds family.now.baikov family.now.n sector.0 family.now.budget tangent.now (Done elements taken)) }
    ensures spent { result ≢ Err BasisFault.NoMemory
        → (result ≡ Err BasisFault.PairsSpent) ↔ MeetEnds family.now.baikov family.now.n sector.0 family.now.budget tangent.now PairsSpent }
    ensures over { result ≢ Err BasisFault.NoMemory
        → (result ≡ Err BasisFault.DegreeOver) ↔ MeetEnds family.now.baikov family.now.n sector.0 family.now.budget tangent.now DegreeOver }
{
    let meeting = meet_generators(alloc, family.n, tangent.fields(), sector)?;
    let by = meet_pair_order(alloc, family)?;
    let meet = plain_run(alloc, &meeting, family.budget.pairs, by)?;
    let unstripped = reduced_low(alloc, &meet)?;
    let stripped = stripped_generators(alloc, family.n, sector, unstripped.as_slice())?;
    let by_stripped = pair_order(alloc, family, sector)?;
    let run = plain_run(alloc, &stripped, family.budget.pairs, by_stripped)?;
    let reduced = reduced_low(alloc, &run)?;
    let fields = fields_of(alloc, family.n, reduced.as_slice())?;
    Ok(Generators::new(sector, fields))
}

//! The family of a file.

ghost use Rattle.std.specs.Prelude.{◌≡◌, ◌≤◌, IfOk, option_map};
ghost use Rattle.toml.specs.View.{table_view};
ghost use Rattle.mono_order.specs.declared.limits.TheConstants.{VARIABLES};
ghost use Rattle.family_file.specs.declared.limits.TheConstants.{LOOP_LIMIT, LEG_LIMIT};
ghost use Rattle.family_file.specs.Reading.{Returns, Gives};
ghost use Rattle.family_file.specs.Document.{document_keys};
ghost use Rattle.family_file.specs.Views.{header_view, body_view, bounds_view, budget_view, probe_view, document_view};
ghost use Rattle.family_file.specs.Family.{table_of_bytes, name_in, shape_of, gamma_of, unless_zero, bounds_of, budget_of, probe_of, needed_probe, sector_check, baikov_of, body_of, family_of_keys, family_of};
ghost use Rattle.family_file.specs.ReadViews.{shape_view, read_body_view};
ghost use Rattle.family.specs.FamilyView.{family_view};

use crate::arrays::{integral_from, targets_of};
use crate::caps::caps_of;
use crate::document::{
    BodyKeys, BoundsKeys, BudgetKeys, DocumentKeys, HeaderKeys, ProbeKeys, document_keys,
};
use crate::fault::{FamilyFault, FileFault};
use crate::limits::{LOOP_LIMIT, MAX_FILE};
use crate::named::numbers_of;
use crate::need::Need;
use crate::numbers::natural;
use crate::polynomials::{field_of, polynomial_in, residue_in};
use crate::sectors::zero_sectors_of;
use crate::selection::selection_of;
use crate::symmetries::symmetries_of;
use crate::version::{Version, version_of};
use family::{
    Bounds, Budget, CANDIDATE_LIMIT, CAP_LIMIT, EXTRA_LIMIT, Family, Field, Name, PAIR_LIMIT, Probe,
};
use ibp_base::List;
use ibp_field::Residue;
use poly_text::Numbers;
use sector_lattice::{Integral, Sector};
use sparse_poly::Poly;
use std::alloc::Global;
use toml::Table;

// One half modulo the prime.
const HALF: u32 = 1_073_741_824;

#[tactic(auto, unfolding(crate::specs::Family::table_of_bytes))]
fn table_of_bytes(alloc: Global, bytes: &[u8]) -> Result<Table, FamilyFault>
    ensures { Gives (λ t. table_view t) result (table_of_bytes bytes.now) }
{
    match toml::table_from_slice(alloc, bytes) {
        Ok(table) => Ok(table),
        Err(error) if error.is_memory() => Err(FamilyFault::NoMemory),
        Err(_) => Err(FamilyFault::File(FileFault::NotToml)),
    }
}

fn name_in(alloc: Global, name: &str) -> Result<Name, FamilyFault>
    ensures { Gives (λ name. name) result (name_in name.now) }
{
    match Name::from_bytes(alloc, name.as_bytes())? {
        Some(name) => Ok(name),
        None => Err(FamilyFault::File(FileFault::Header)),
    }
}

// The numbers of loops, of legs and of variables.
#[derive(Clone, Copy)]
struct Shape {
    loops: u32,
    legs: u32,
    variables: u8,
}

#[tactic(auto, unfolding(crate::specs::Family::shape_of))]
fn shape_of(version: Version, header: &HeaderKeys<'_>) -> Result<Shape, FileFault>
    ensures value { Returns shape_view result (shape_of version (header_view header.now)) }
    ensures some { IfOk result (λ s. 1 ≤ s.variables) }
    ensures few { IfOk result (λ s. s.variables ≤ VARIABLES) }
    ensures loops { IfOk result (λ s. s.loops ≤ LOOP_LIMIT) }
    ensures legs { IfOk result (λ s. s.legs ≤ LEG_LIMIT) }
{
    let loops = natural(header.loops, 1, LOOP_LIMIT, FileFault::Shape)?;
    let legs = natural(header.legs, 0, version.leg_limit(), FileFault::Shape)?;
    let variables = natural(
        header.variables,
        1,
        version.variable_limit(),
        FileFault::Shape,
    )?;
    if variables == loops * (loops + 1) / 2 + loops * legs {
        Ok(Shape {
            loops,
            legs,
            variables: variables as u8,
        })
    } else {
        Err(FileFault::Shape)
    }
}

// The exponent of the Baikov polynomial.
fn gamma_of(dimension: Residue, shape: Shape) -> Residue
    requires loops { shape.loops ≤ LOOP_LIMIT }
    requires legs { shape.legs ≤ LEG_LIMIT }
    ensures { result ≡ gamma_of dimension (shape_view shape) }
{
    dimension
        .sub(Residue::of(shape.loops + shape.legs + 1))
        .mul(Residue::of(HALF))
}

#[tactic(auto, unfolding(crate::specs::Family::bounds_of))]
fn bounds_of(bounds: &BoundsKeys) -> Result<Bounds, FileFault>
    ensures { Returns (λ b. b) result (bounds_of (bounds_view bounds.now)) }
{
    let dots_cap = natural(bounds.dots_cap, 0, CAP_LIMIT, FileFault::Limits)?;
    let rank_cap = natural(bounds.rank_cap, 0, CAP_LIMIT, FileFault::Limits)?;
    let extra_dots = natural(bounds.extra_dots, 0, EXTRA_LIMIT, FileFault::Limits)?;
    let extra_rank = natural(bounds.extra_rank, 0, EXTRA_LIMIT, FileFault::Limits)?;
    Ok(Bounds {
        dots_cap,
        rank_cap,
        extra_dots,
        extra_rank,
    })
}

#[tactic(auto, unfolding(crate::specs::Family::budget_of))]
fn budget_of(budget: &BudgetKeys<'_>) -> Result<Budget, FileFault>
    ensures { Returns (λ b. b) result (budget_of (budget_view budget.now)) }
{
    let pairs = natural(budget.pairs, 0, PAIR_LIMIT, FileFault::Budget)?;
    let candidates = natural(budget.candidates, 0, CANDIDATE_LIMIT, FileFault::Budget)?;
    let selection = selection_of(budget.selection)?;
    Ok(Budget {
        pairs: u64::from(pairs),
        candidates: u64::from(candidates),
        selection,
    })
}

#[tactic(auto, unfolding(crate::specs::Family::probe_of))]
fn probe_of(
    alloc: Global,
    n: u8,
    numbers: &Numbers,
    probe: &ProbeKeys<'_>,
) -> Result<Probe, FamilyFault>
    requires some { 1 ≤ n }
    requires few { n ≤ VARIABLES }
    ensures { Gives (λ p. p) result (probe_of n numbers.now (probe_view probe.now)) }
{
    let a = field_of(alloc, probe.field, n, numbers, FileFault::Probe)?;
    let b = polynomial_in(alloc, probe.factor, n, numbers, FileFault::Probe)?;
    let seed = integral_from(alloc, probe.seed, n, FileFault::Probe)?;
    Ok(Probe {
        field: Field {
            a: List::from_vec(a),
            b,
        },
        seed,
    })
}

// The probe, which has to be there where one is needed.
#[tactic(auto, unfolding(crate::specs::Family::needed_probe))]
fn needed_probe(
    alloc: Global,
    need: Need,
    n: u8,
    numbers: &Numbers,
    probe: &Option<ProbeKeys<'_>>,
) -> Result<Option<Probe>, FamilyFault>
    requires some { 1 ≤ n }
    requires few { n ≤ VARIABLES }
    ensures { Gives (λ p. p) result
        (needed_probe need n numbers.now (option_map probe_view probe.now)) }
{
    match probe {
        Some(probe) => Ok(Some(probe_of(alloc, n, numbers, probe)?)),
        None => {
            if need.is_probe() {
                Err(FamilyFault::File(FileFault::Probe))
            } else {
                Ok(None)
            }
        }
    }
}

// A sector that is needed has a number below 2^n.
fn check_sector(need: Need, n: u8) -> Result<(), FileFault>
    requires { n ≤ VARIABLES }
    ensures { Returns (λ _. tt) result (sector_check need n) }
{
    match need {
        Need::Sector(number) if number >= 1 << n => Err(FileFault::NoSector),
        _ => Ok(()),
    }
}

fn unless_zero(polynomial: Poly) -> Result<Poly, FileFault>
    ensures { Returns (λ p. p) result (unless_zero polynomial) }
{
    if polynomial.is_zero() {
        Err(FileFault::ZeroBaikov)
    } else {
        Ok(polynomial)
    }
}

#[tactic(auto, unfolding(crate::specs::Family::baikov_of))]
fn baikov_of(
    alloc: Global,
    n: u8,
    numbers: &Numbers,
    body: &BodyKeys<'_>,
) -> Result<Poly, FamilyFault>
    requires { n ≤ VARIABLES }
    ensures { Gives (λ p. p) result (baikov_of n numbers.now (body_view body.now)) }
{
    let polynomial = polynomial_in(alloc, body.baikov, n, numbers, FileFault::Baikov)?;
    Ok(unless_zero(polynomial)?)
}

// What the file describes, as far as it depends on the number of variables.
#[derive(Drop)]
struct Body {
    dimension: Residue,
    numbers: Numbers,
    baikov: Poly,
    zero: Vec<Sector>,
    targets: Vec<Integral>,
}

#[tactic(auto, unfolding(crate::specs::Family::body_of))]
fn body_of(alloc: Global, n: u8, body: &BodyKeys<'_>) -> Result<Body, FamilyFault>
    requires some { 1 ≤ n }
    requires few { n ≤ VARIABLES }
    ensures { Gives read_body_view result (body_of n (body_view body.now)) }
{
    let dimension = residue_in(alloc, body.dimension, FileFault::Number)?;
    let numbers = numbers_of(alloc, body.numbers)?;
    let baikov = baikov_of(alloc, n, &numbers, body)?;
    let zero = zero_sectors_of(alloc, body.zero, n)?;
    let targets = targets_of(alloc, body.targets, n)?;
    Ok(Body {
        dimension,
        numbers,
        baikov,
        zero,
        targets,
    })
}

#[tactic(auto, unfolding(crate::specs::Family::family_of_keys))]
fn family_of_keys(alloc: Global, need: Need, keys: &DocumentKeys<'_>) -> Result<Family, FamilyFault>
    ensures { Gives family_view result (family_of_keys need (document_view keys.now)) }
{
    let version = version_of(keys.header.version)?;
    let name = name_in(alloc, keys.header.name)?;
    let shape = shape_of(version, &keys.header)?;
    let n = shape.variables;
    let body = body_of(alloc, n, &keys.body)?;
    let bounds = bounds_of(&keys.bounds)?;
    let caps = caps_of(alloc, keys.sectors, n)?;
    let budget = budget_of(&keys.budget)?;
    let probe = needed_probe(alloc, need, n, &body.numbers, &keys.probe)?;
    check_sector(need, n)?;
    let symmetries = symmetries_of(alloc, keys.symmetries, n)?;
    let gamma = gamma_of(body.dimension, shape);
    let Body {
        baikov,
        zero,
        targets,
        ..
    } = body;
    Ok(Family {
        name,
        n,
        gamma,
        baikov,
        targets: List::from_vec(targets),
        zero: List::from_vec(zero),
        bounds,
        caps: List::from_vec(caps),
        symmetries: List::from_vec(symmetries),
        budget,
        probe,
    })
}

/// The family that the bytes describe, or the first fault that they have.
#[tactic(auto, unfolding(crate::specs::Family::family_of))]
pub fn read_family(alloc: Global, bytes: &[u8], need: Need) -> Result<Family, FamilyFault>
    ensures { Gives family_view result (family_of need bytes.now) }
{
    if bytes.len() > MAX_FILE {
        return Err(FamilyFault::File(FileFault::TooLong));
    }
    let table = table_of_bytes(alloc, bytes)?;
    let keys = document_keys(&table)?;
    family_of_keys(alloc, need, &keys)
}

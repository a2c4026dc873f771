// The lift of a system.
ghost use Rattle.std.specs.Prelude.{◌≡◌, ◌<◌, ◌≤◌, ◌^◌, ◌++◌, OnOk, IfOk, map, [], slice_index_or, if◌then◌else◌};
ghost use Rattle.ibp_algebra.specs.FormalSum.{map_keys};
ghost use Rattle.sector_lattice.specs.declared.integral.TheConstants.{LINES};
ghost use Rattle.cut_family.specs.Places.{filled, is_cut};
ghost use Rattle.cut_family.specs.Lifting.{lifted_block, lifted_field, lifted_integral, lifted_polynomial, lifted_reduction, lifted_relation, lifted_row, lifted_sector, lifted_system};

use crate::places::{is_cut, later_entries, put_filled, with_cut};
use crate::polynomials::lifted_polynomial;
use family::StrippedField;
use ibp_base::{List, NoMemory};
use ibp_field::Residue;
use sector_lattice::{Integral, LINES, Sector};
use sparse_poly::Poly;
use sparse_rows::Row;
use std::alloc::Global;
use system_text::{Reduction, SectorBlock, System, Written};

// The integral with the power 1 at each member of the cut.
fn lifted_integral(
    alloc: Global,
    n: u8,
    cut: u16,
    integral: &Integral,
) -> Result<Integral, NoMemory>
    requires some { 1 ≤ n }
    requires few { n ≤ LINES }
    ensures { IfOk result (λ lifted. lifted ≡ lifted_integral n cut integral.now) }
{
    let mut powers = Vec::new(alloc);
    put_filled(&mut powers, 1, n, cut, integral.powers())?;
    match Integral::new(&powers) {
        Some(lifted) => Ok(lifted),
        None => unreachable!(),
    }
}

// Puts the terms at the end, each integral lifted.
fn put_lifted_row(
    alloc: Global,
    into: &mut Vec<(Integral, Residue)>,
    n: u8,
    cut: u16,
    terms: &[(Integral, Residue)],
) -> Result<(), NoMemory>
    requires some { 1 ≤ n }
    requires few { n ≤ LINES }
    ensures { OnOk result (into.new.items ≡ into.old.items ++ map_keys (lifted_integral n cut) terms.now) }
{
    for (integral, value) in terms {
        into.push((lifted_integral(alloc, n, cut, integral)?, *value))?;
    }
    Ok(())
}

fn lifted_row(alloc: Global, n: u8, cut: u16, row: &Row) -> Result<Row, NoMemory>
    requires some { 1 ≤ n }
    requires few { n ≤ LINES }
    ensures { IfOk result (λ lifted. lifted ≡ lifted_row n cut row.now) }
{
    let mut terms = Vec::new(alloc);
    put_lifted_row(alloc, &mut terms, n, cut, row.terms())?;
    let sum = Row::from_terms(alloc, &terms)?;
    Ok(sum)
}

fn lifted_sector(n: u8, cut: u16, sector: Sector) -> Sector
    requires { n ≤ LINES }
    ensures { result ≡ lifted_sector n cut sector }
{
    Sector(with_cut(n, cut, sector.0))
}

fn lifted_relation(alloc: Global, n: u8, cut: u16, relation: &Written) -> Result<Written, NoMemory>
    requires some { 1 ≤ n }
    requires few { n ≤ LINES }
    ensures { IfOk result (λ lifted. lifted ≡ lifted_relation n cut relation.now) }
{
    let seed = lifted_integral(alloc, n, cut, &relation.seed)?;
    let row = lifted_row(alloc, n, cut, &relation.row)?;
    Ok(Written {
        sector: lifted_sector(n, cut, relation.sector),
        seed,
        field: relation.field,
        row,
    })
}

fn lifted_reduction(
    alloc: Global,
    n: u8,
    cut: u16,
    reduction: &Reduction,
) -> Result<Reduction, NoMemory>
    requires some { 1 ≤ n }
    requires few { n ≤ LINES }
    ensures { IfOk result (λ lifted. lifted ≡ lifted_reduction n cut reduction.now) }
{
    let target = lifted_integral(alloc, n, cut, &reduction.target)?;
    let reduced = lifted_row(alloc, n, cut, &reduction.reduced)?;
    let weights = reduction.weights.as_slice().to_vec(alloc)?;
    Ok(Reduction {
        target,
        reduced,
        weights: List::from_vec(weights),
    })
}

// The polynomial that stands at the first of the places.
fn first_polynomial(
    alloc: Global,
    whole: u16,
    cut: u16,
    polynomials: &[Poly],
) -> Result<Poly, NoMemory>
    ensures { IfOk result (λ p. p ≡ (if is_cut cut then [] else slice_index_or (map (lifted_polynomial whole) polynomials.now) 0 [])) }
{
    if is_cut(cut) {
        return Ok(Poly::zero(alloc));
    }
    match polynomials.first() {
        Some(first) => lifted_polynomial(alloc, whole, first),
        None => Ok(Poly::zero(alloc)),
    }
}

// Puts n polynomials at the end: zero at each member of the cut, and the lifted ones at the other places.
#[tactic(auto, unfolding(crate::specs::Places::filled))]
fn put_lifted_polynomials(
    alloc: Global,
    into: &mut Vec<Poly>,
    whole: u16,
    n: u8,
    cut: u16,
    polynomials: &[Poly],
) -> Result<(), NoMemory>
    ensures { OnOk result (into.new.items ≡ into.old.items ++ filled [] n cut (map (lifted_polynomial whole) polynomials.now)) }
{
    if n > 0 {
        into.push(first_polynomial(alloc, whole, cut, polynomials)?)?;
        put_lifted_polynomials(
            alloc,
            into,
            whole,
            n - 1,
            cut / 2,
            later_entries(cut, polynomials),
        )?;
    }
    Ok(())
}

fn lifted_field(
    alloc: Global,
    n: u8,
    cut: u16,
    field: &StrippedField,
) -> Result<StrippedField, NoMemory>
    ensures { IfOk result (λ lifted. lifted ≡ lifted_field n cut field.now) }
{
    let mut c = Vec::new(alloc);
    put_lifted_polynomials(alloc, &mut c, cut, n, cut, field.c.as_slice())?;
    let b = lifted_polynomial(alloc, cut, &field.b)?;
    Ok(StrippedField {
        c: List::from_vec(c),
        b,
    })
}

fn put_lifted_fields(
    alloc: Global,
    into: &mut Vec<StrippedField>,
    n: u8,
    cut: u16,
    fields: &[StrippedField],
) -> Result<(), NoMemory>
    ensures { OnOk result (into.new.items ≡ into.old.items ++ map (lifted_field n cut) fields.now) }
{
    for field in fields {
        into.push(lifted_field(alloc, n, cut, field)?)?;
    }
    Ok(())
}

fn lifted_block(
    alloc: Global,
    n: u8,
    cut: u16,
    block: &SectorBlock,
) -> Result<SectorBlock, NoMemory>
    requires { n ≤ LINES }
    ensures { IfOk result (λ lifted. lifted ≡ lifted_block n cut block.now) }
{
    let mut fields = Vec::new(alloc);
    put_lifted_fields(alloc, &mut fields, n, cut, block.fields.as_slice())?;
    Ok(SectorBlock {
        sector: lifted_sector(n, cut, block.sector),
        fields: List::from_vec(fields),
    })
}

fn put_lifted_blocks(
    alloc: Global,
    into: &mut Vec<SectorBlock>,
    n: u8,
    cut: u16,
    blocks: &[SectorBlock],
) -> Result<(), NoMemory>
    requires { n ≤ LINES }
    ensures { OnOk result (into.new.items ≡ into.old.items ++ map (lifted_block n cut) blocks.now) }
{
    for block in blocks {
        into.push(lifted_block(alloc, n, cut, block)?)?;
    }
    Ok(())
}

fn put_lifted_relations(
    alloc: Global,
    into: &mut Vec<Written>,
    n: u8,
    cut: u16,
    relations: &[Written],
) -> Result<(), NoMemory>
    requires some { 1 ≤ n }
    requires few { n ≤ LINES }
    ensures { OnOk result (into.new.items ≡ into.old.items ++ map (lifted_relation n cut) relations.now) }
{
    for relation in relations {
        into.push(lifted_relation(alloc, n, cut, relation)?)?;
    }
    Ok(())
}

fn put_lifted_reductions(
    alloc: Global,
    into: &mut Vec<Reduction>,
    n: u8,
    cut: u16,
    reductions: &[Reduction],
) -> Result<(), NoMemory>
    requires some { 1 ≤ n }
    requires few { n ≤ LINES }
    ensures { OnOk result (into.new.items ≡ into.old.items ++ map (lifted_reduction n cut) reductions.now) }
{
    for reduction in reductions {
        into.push(lifted_reduction(alloc, n, cut, reduction)?)?;
    }
    Ok(())
}

/// The sector of a cut family in the n variables of the whole family, with the members of the cut.
pub fn lift_sector(sector: Sector, cut: Sector, n: u8) -> Sector
    requires { n ≤ LINES }
    ensures { result ≡ lifted_sector n cut.0 sector }
{
    lifted_sector(n, cut.0, sector)
}

/// The system of a cut family in the n variables of the whole family. The power 1 stands at each member of the
/// cut, and each sector has these members too.
pub fn lift(alloc: Global, system: &System, cut: Sector, n: u8) -> Result<System, NoMemory>
    requires some { 1 ≤ n }
    requires few { n ≤ LINES }
    ensures { IfOk result (λ lifted. lifted ≡ lifted_system n cut.0 system.now) }
{
    let name = system.name.copy(alloc)?;
    let mut sectors = Vec::new(alloc);
    put_lifted_blocks(alloc, &mut sectors, n, cut.0, system.sectors.as_slice())?;
    let mut relations = Vec::new(alloc);
    put_lifted_relations(alloc, &mut relations, n, cut.0, system.relations.as_slice())?;
    let mut reductions = Vec::new(alloc);
    put_lifted_reductions(
        alloc,
        &mut reductions,
        n,
        cut.0,
        system.reductions.as_slice(),
    )?;
    Ok(System {
        name,
        n,
        sectors: List::from_vec(sectors),
        relations: List::from_vec(relations),
        reductions: List::from_vec(reductions),
    })
}

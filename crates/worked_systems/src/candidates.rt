// The identities of the basis of a sector at a seed.
ghost use Rattle.std.specs.List.{All};
ghost use Rattle.mono_order.specs.declared.limits.TheConstants.{RUN_DEGREE};
ghost use Rattle.sector_lattice.specs.Sectors.{sector_of};
ghost use Rattle.family.specs.Conditions.{IsInSectorModule};
ghost use Rattle.family.specs.Shapes.{IsField, ArePowers};

use family::{Family, StrippedField};
use family_file::{Need, read_family};
use ibp_field::Residue;
use ibp_relation::{Template, candidate};
use sector_lattice::{Integral, Sector};
use sector_module::sector_basis;
use sparse_rows::Row;
use std::alloc::Global;
use std::process::Abort;
use std::test::Fail;
use worked_texts::BUBBLE;

const PROBE: &str = "
[probe]
field = [\"0\", \"0\"]
factor = \"0\"
seed = [1, 2]
";

fn bubble_with_a_seed(rt: &impl Abort, alloc: Global) -> Family {
    let file = format!(in alloc; "{BUBBLE}{PROBE}")
        .ok()
        .expect(rt, "memory");
    let family = read_family(alloc, file.as_bytes(), Need::Probe);
    family.ok().expect(rt, "a family")
}

fn candidates_of(
    alloc: Global,
    family: &Family,
    fields: &[StrippedField],
    seed: &Integral,
) -> Result<Vec<Row>, Fail>
    requires shape { All (λ field. IsField family.now.n RUN_DEGREE field.c field.b) fields.now }
    requires members { All (IsInSectorModule family.now.baikov (sector_of seed.now)) fields.now }
    requires powers { ArePowers family.now.n seed.now }
{
    let mut rows = Vec::new(alloc);
    for field in fields {
        rows.push(candidate(alloc, family, field, seed)?)?;
    }
    Ok(rows)
}

// The same, each by the template of its field.
fn rows_of_templates(
    alloc: Global,
    family: &Family,
    sector: Sector,
    fields: &[StrippedField],
    seed: &Integral,
) -> Result<Vec<Row>, Fail>
    requires shape { All (λ field. IsField family.now.n RUN_DEGREE field.c field.b) fields.now }
    requires powers { ArePowers family.now.n seed.now }
{
    let mut rows = Vec::new(alloc);
    for field in fields {
        let template = Template::of(alloc, family, sector, field)?;
        rows.push(template.candidate(alloc, family, seed)?)?;
    }
    Ok(rows)
}

// The identities of the basis of the sector of the probe's seed, at this seed: those of the fields, and those of their
// templates.
fn candidates_at_the_probe(alloc: Global, family: &Family) -> Result<(Vec<Row>, Vec<Row>), Fail> {
    let probe = family.probe.as_ref().ok_or("no probe")?;
    let sector = probe.seed.sector();
    if u32::from(sector.0) >= 1 << family.n {
        return Err("no sector")?;
    }
    let basis = sector_basis(alloc, family, sector)?;
    Ok((
        candidates_of(alloc, family, basis.fields(), &probe.seed)?,
        rows_of_templates(alloc, family, sector, basis.fields(), &probe.seed)?,
    ))
}

// Whether the rows have these coefficients at two integrals, and no other terms.
fn have_coefficients(rows: &[Row], integrals: &[Integral; 2], coefficients: &[[i64; 2]]) -> bool {
    rows.len() == coefficients.len()
        && rows.iter().zip(coefficients).all(|(row, [first, second])| {
            row.terms().len() == 2
                && row.coefficient(&integrals[0]) == Residue::from_i64(*first)
                && row.coefficient(&integrals[1]) == Residue::from_i64(*second)
        })
}

#[test]
fn the_candidates_of_a_bubble_at_a_seed(rt: HostRuntime) -> Result<(), Fail> {
    let bubble = bubble_with_a_seed(&rt, rt.alloc());
    let (rows, of_templates) = candidates_at_the_probe(rt.alloc(), &bubble)?;
    let integrals = [[1, 2], [1, 1]].map(|powers| Integral::new(&powers).expect(
        &rt,
        "powers in range",
    ));
    let coefficients = [[1, 14], [2147483645, 2147483619]];
    assert!(rt; have_coefficients(&rows, &integrals, &coefficients));
    assert!(rt; have_coefficients(&of_templates, &integrals, &coefficients));
    Ok(())
}

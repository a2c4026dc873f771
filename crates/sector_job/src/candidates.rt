// The candidates of a sector, row by row, and how they are listed.
ghost use denote.Param.Send.{IsSync};
ghost use Rattle.std.specs.Prelude.{◌≡◌, ◌≤◌, IfOk};
ghost use Rattle.std.specs.List.{All};
ghost use Rattle.mono_order.specs.declared.limits.TheConstants.{RUN_DEGREE};
ghost use Rattle.family.specs.Shapes.{IsField, ArePowers};
ghost use Rattle.family.specs.Conditions.{IsInSectorModule};
ghost use Rattle.family.specs.FamilyView.{family_view};
ghost use Rattle.sector_lattice.specs.Sectors.{sector_of};
ghost use Rattle.ibp_relation.specs.Templates.{FitsSeeds};
ghost use Rattle.sector_job.specs.Candidates.{AreCandidates};
ghost use Rattle.sector_job.specs.FieldTemplates.{AreTemplates, AreCandidatesAt, AreCandidatesOf};

use family::{Family, StrippedField};
use ibp_base::NoMemory;
use ibp_relation::Template;
use relation_pick::{AtOnce, InTurn, piece_size};
use sector_lattice::{Integral, Sector};
use sparse_rows::Row;
use std::alloc::Global;
use std::thread;
use std::thread::Threads;

/// How the candidates of a sector are listed.
pub trait Listing {
    // What is asked of what its threads share.
    ghost can_list: { Type 0 };

    /// The candidates of the fields at the seeds of their sector: lowest seed first, and at each seed that of each
    /// field in turn.
    fn list(
        &self,
        alloc: Global,
        family: &Family,
        sector: Sector,
        fields: &[StrippedField],
        seeds: &[Integral],
    ) -> Result<Vec<Row>, NoMemory>
        requires can { can_list }
        requires shape { All (λ field. IsField family.now.n RUN_DEGREE field.c field.b) fields.now }
        requires members { All (IsInSectorModule family.now.baikov sector.0) fields.now }
        requires powers { All (ArePowers family.now.n) seeds.now }
        requires of_sector { All (λ seed. sector_of seed ≡ sector.0) seeds.now }
        ensures { IfOk result (λ rows. AreCandidates (family_view family.now) fields.now seeds.now rows.items) };
}

impl Listing for InTurn {
    ghost can_list = { Unit {0} };

    fn list(
        &self,
        alloc: Global,
        family: &Family,
        sector: Sector,
        fields: &[StrippedField],
        seeds: &[Integral],
    ) -> Result<Vec<Row>, NoMemory> {
        all_candidates(alloc, family, sector, fields, seeds)
    }
}

impl<'a, R: Threads + Sync> Listing for AtOnce<'a, R> {
    ghost can_list = { IsSync R.row };

    fn list(
        &self,
        alloc: Global,
        family: &Family,
        sector: Sector,
        fields: &[StrippedField],
        seeds: &[Integral],
    ) -> Result<Vec<Row>, NoMemory> {
        let parts = self.parts.max(1);
        candidates_at_once(self.rt, alloc, family, sector, fields, seeds, parts)
    }
}

// The candidates, where the seeds are cut into so many consecutive pieces whose candidates are made at once.
fn candidates_at_once<R: Threads + Sync>(
    rt: &R,
    alloc: Global,
    family: &Family,
    sector: Sector,
    fields: &[StrippedField],
    seeds: &[Integral],
    parts: u32,
) -> Result<Vec<Row>, NoMemory>
    requires shape { All (λ field. IsField family.now.n RUN_DEGREE field.c field.b) fields.now }
    requires members { All (IsInSectorModule family.now.baikov sector.0) fields.now }
    requires powers { All (ArePowers family.now.n) seeds.now }
    requires of_sector { All (λ seed. sector_of seed ≡ sector.0) seeds.now }
    requires some { 1 ≤ parts }
    ensures { IfOk result (λ rows. AreCandidates (family_view family.now) fields.now seeds.now rows.items) }
{
    let templates = all_templates(alloc, family, sector, fields)?;
    let size = piece_size(seeds.len(), parts);
    let listed = |_start: usize, piece: &[Integral]| -> Result<Vec<Row>, NoMemory>
        requires { All (ArePowers family.now.n) piece.now × All (All (FitsSeeds family.now.n)) templates.items }
        ensures { IfOk result (λ rows. AreCandidatesOf (family_view family.entry.now) templates.items piece.now rows.items) }
    { candidates_of(alloc, family, &templates, piece) };
    let pieces = thread::map_chunks(rt, alloc, seeds, size, &listed)?;
    let mut rows = Vec::new(alloc);
    for piece in pieces {
        let mut more = piece?;
        rows.append(&mut more)?;
    }
    Ok(rows)
}

/// The candidates of the fields at the seeds of their sector: lowest seed first, and at each seed that of each
/// field in turn.
pub fn all_candidates(
    alloc: Global,
    family: &Family,
    sector: Sector,
    fields: &[StrippedField],
    seeds: &[Integral],
) -> Result<Vec<Row>, NoMemory>
    requires shape { All (λ field. IsField family.now.n RUN_DEGREE field.c field.b) fields.now }
    requires members { All (IsInSectorModule family.now.baikov sector.0) fields.now }
    requires powers { All (ArePowers family.now.n) seeds.now }
    requires of_sector { All (λ seed. sector_of seed ≡ sector.0) seeds.now }
    ensures { IfOk result (λ rows. AreCandidates (family_view family.now) fields.now seeds.now rows.items) }
{
    let templates = all_templates(alloc, family, sector, fields)?;
    candidates_of(alloc, family, &templates, seeds)
}

// The templates of the fields of a sector.
fn all_templates(
    alloc: Global,
    family: &Family,
    sector: Sector,
    fields: &[StrippedField],
) -> Result<Vec<Template>, NoMemory>
    requires { All (λ field. IsField family.now.n RUN_DEGREE field.c field.b) fields.now }
    ensures { IfOk result (λ templates. AreTemplates (family_view family.now) sector.0 fields.now templates.items) }
{
    let mut templates = Vec::new(alloc);
    for field in fields {
        templates.push(Template::of(alloc, family, sector, field)?)?;
    }
    Ok(templates)
}

// The candidates of the fields with these templates at the seeds of their sector.
fn candidates_of(
    alloc: Global,
    family: &Family,
    templates: &[Template],
    seeds: &[Integral],
) -> Result<Vec<Row>, NoMemory>
    requires fits { All (All (FitsSeeds family.now.n)) templates.now }
    requires powers { All (ArePowers family.now.n) seeds.now }
    ensures { IfOk result (λ rows. AreCandidatesOf (family_view family.now) templates.now seeds.now rows.items) }
{
    let mut rows = Vec::new(alloc);
    for seed in seeds {
        let mut more = candidates_at(alloc, family, templates, seed)?;
        rows.append(&mut more)?;
    }
    Ok(rows)
}

// The candidates at one seed.
fn candidates_at(
    alloc: Global,
    family: &Family,
    templates: &[Template],
    seed: &Integral,
) -> Result<Vec<Row>, NoMemory>
    requires fits { All (All (FitsSeeds family.now.n)) templates.now }
    requires powers { ArePowers family.now.n seed.now }
    ensures { IfOk result (λ rows. AreCandidatesAt (family_view family.now) templates.now seed.now rows.items) }
{
    let mut rows = Vec::new(alloc);
    for template in templates {
        rows.push(template.candidate(alloc, family, seed)?)?;
    }
    Ok(rows)
}

// Templates: the identity of a field at a general seed.
ghost use Rattle.std.specs.Prelude.{◌≡◌, ◌<◌, [], ◌++◌, false, length, All, IfOk, IsPermutation};
ghost use Rattle.ibp_algebra.specs.FormalSum.{IsCanonical, with_term};
ghost use Rattle.ibp_algebra.specs.Laurent.{SameLaurent, add_powers};
ghost use Rattle.mono_order.specs.declared.limits.TheConstants.{MONO_DEGREE, RUN_DEGREE};
ghost use Rattle.sector_lattice.specs.Sectors.{integral_cmp};
ghost use Rattle.sparse_rows.specs.Rows.{is_zero_integral};
ghost use Rattle.family.specs.Shapes.{IsField, ArePowers};
ghost use Rattle.ibp_relation.specs.Conditions.{NoneRisesInModule};
ghost use Rattle.ibp_relation.specs.Shifts.{HasDegree};
ghost use Rattle.ibp_relation.specs.Templates.{FitsSeeds, IsTemplateOf, IsSectorTemplate, IsTemplateRow, SharesOffset, terms_at};

use crate::affine::{AffineTerm, affine_terms};
use crate::moves::{moved, residues};
use crate::unstripping::unstripped;
use family::{Family, StrippedField};
use ibp_base::NoMemory;
use ibp_field::Residue;
use sector_lattice::{Integral, Sector};
use sparse_poly::Poly;
use sparse_rows::Row;
use std::alloc::{AllocError, Global};
use std::marker::Model;

/// The identity of a field at a general seed. What doesn't depend on the seed is made once, and each seed then takes
/// one pass. Contracts see it as the list of its affine terms.
#[derive(Drop)]
pub struct Template {
    // Those with one offset stand together.
    terms: Vec<AffineTerm>,
}

impl Model for Template {
    ghost use Rattle.std.specs.Prelude.{List};
    ghost use Rattle.ibp_relation.specs.declared.affine.AffineTerm.{AffineTerm};

    ghost Value = { List AffineTerm };

    ghost view = { λ t. t.terms.items };
}

impl Template {
    /// The template of the field that a stripped field of the sector stands for.
    pub fn of(
        alloc: Global,
        family: &Family,
        sector: Sector,
        field: &StrippedField,
    ) -> Result<Template, NoMemory>
        requires { IsField family.now.n RUN_DEGREE field.now.c field.now.b }
        ensures { IfOk result (IsSectorTemplate family.now.n family.now.gamma sector.0 field.now) }
    {
        let a = unstripped(alloc, field.c.as_slice(), sector)?;
        Template::of_field(alloc, family, &a, &field.b)
    }

    /// The template of the field (a_1 .. a_n ; b).
    pub(crate) fn of_field(
        alloc: Global,
        family: &Family,
        a: &[Poly],
        b: &Poly,
    ) -> Result<Template, NoMemory>
        requires fits { length a.now ≡ family.now.n }
        requires degrees { All (HasDegree MONO_DEGREE) a.now }
        requires degree { HasDegree MONO_DEGREE b.now }
        ensures { IfOk result (IsTemplateOf family.now.n family.now.gamma a.now b.now) }
    {
        let mut terms = affine_terms(alloc, family.n, family.gamma, a, b)?;
        sort_by_offset(&mut terms);
        Ok(Template { terms })
    }

    /// The identity at a seed of the field whose template this is. Integrals of the family's zero sectors are left
    /// out.
    pub fn candidate(
        &self,
        alloc: Global,
        family: &Family,
        seed: &Integral,
    ) -> Result<Row, NoMemory>
        requires seed { ArePowers family.now.n seed.now }
        requires fits { All (FitsSeeds family.now.n) self.now }
        ensures row { IfOk result (IsTemplateRow family.now.n family.now.gamma family.now.baikov self.now seed.now (is_zero_integral family.now.zero)) }
        ensures canonical { IfOk result (IsCanonical integral_cmp) }
        ensures no_rise { NoneRisesInModule family.now.n family.now.gamma family.now.baikov seed.now }
    {
        let terms = terms_at(alloc, &self.terms, seed)?;
        let row = Row::from_terms(alloc, &terms)?;
        row.strike(alloc, family.zero.as_slice())
    }
}

fn sort_by_offset(terms: &mut Vec<AffineTerm>)
    ensures { IsPermutation terms.old.items terms.new.items }
{
    terms.sort_unstable_by(|left, right| left.offset.compare(&right.offset));
}

// The integrals of the terms at the seed, where neighbours with one offset are added up.
fn terms_at(
    alloc: Global,
    terms: &[AffineTerm],
    seed: &Integral,
) -> Result<Vec<(Integral, Residue)>, AllocError>
    requires seed { ArePowers (length seed.now) seed.now }
    requires fits { All (FitsSeeds (length seed.now)) terms.now }
    ensures { IfOk result (λ v. SameLaurent v.items (terms_at seed.now terms.now)) }
{
    let powers = residues(seed);
    let mut found = Vec::with_capacity(alloc, terms.len())?;
    let mut sum = Residue::zero();
    for i in 0..terms.len() {
        let term = terms[i];
        let value = powers[usize::from(term.place)];
        sum = sum.add(term.constant.add_product(term.slope, value));
        if is_last_of_offset(terms, i) {
            push_sum(&mut found, seed, &term, sum)?;
            sum = Residue::zero();
        }
    }
    Ok(found)
}

// Whether the next term, if there is one, has another offset.
fn is_last_of_offset(terms: &[AffineTerm], i: usize) -> bool
    requires { i < length terms.now }
    ensures { result ≡ false → SharesOffset terms.now i }
{
    i + 1 == terms.len() || terms[i + 1].offset.powers() != terms[i].offset.powers()
}

// The integral of the term at the seed with this coefficient, unless that is zero.
fn push_sum(
    found: &mut Vec<(Integral, Residue)>,
    seed: &Integral,
    term: &AffineTerm,
    sum: Residue,
) -> Result<(), AllocError>
    requires seed { ArePowers (length seed.now) seed.now }
    requires fits { FitsSeeds (length seed.now) term.now }
    ensures { IfOk result (λ _. found.new.items ≡ found.old.items ++ with_term (add_powers seed.now term.now.offset, sum) []) }
{
    if sum.value() != 0 {
        found.push((moved(seed, &term.offset), sum))?;
    }
    Ok(())
}

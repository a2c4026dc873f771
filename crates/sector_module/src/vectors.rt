//! The vectors that the run of a sector begins with, and the fields that vectors stand for.

ghost use Rattle.std.specs.Prelude.{◌≡◌, ◌≢◌, ◌<◌, ◌≤◌, sum, [], IfOk};
ghost use Rattle.std.specs.List.{All, AllZip};
ghost use Rattle.mono_order.specs.declared.limits.TheConstants.{VARIABLES, RUN_DEGREE};
ghost use Rattle.mono_order.specs.TermOrder.{zero_dominates};
ghost use Rattle.ibp_algebra.specs.FormalSum.{AllKeys, normal_form};
ghost use Rattle.sector_module.specs.Factors.{factor_generator, sector_generators};
ghost use Rattle.sector_module.specs.FieldsOf.{IsComponentOf, IsFieldOf};

use crate::factors::factor;
use family::{Family, StrippedField};
use ibp_base::{List, NoMemory};
use ibp_field::Residue;
use module_vec::{Vector, VectorFault};
use mono_order::{Monomial, Term, TermOrder, ZeroDominates};
use sector_lattice::Sector;
use sparse_poly::Poly;
use std::alloc::Global;

/// The vectors f_i e_0 + e_i, and last -P e_0 + e_(n+1).
pub(crate) fn generators(
    alloc: Global,
    family: &Family,
    sector: Sector,
) -> Result<Vec<Vector<ZeroDominates>>, NoMemory>
    ensures generators { IfOk result (λ vectors. vectors.items ≡ sector_generators family.now.baikov family.now.n sector.0) }
    ensures not_zero { IfOk result (λ vectors. All (λ v. v ≢ []) vectors.items) }
{
    let mut vectors = Vec::new(alloc);
    for place in 0..family.n {
        let factor = factor(alloc, family, sector, place + 1)?;
        vectors.push(generator(alloc, &factor, place + 1)?)?;
    }
    let last = family.baikov.scale(alloc, Residue::one().neg())?;
    vectors.push(generator(alloc, &last, family.n + 1)?)?;
    Ok(vectors)
}

// The vector f e_0 + e_i.
fn generator(alloc: Global, f: &Poly, i: u8) -> Result<Vector<ZeroDominates>, NoMemory>
    requires component { 0 < i }
    requires degrees { AllKeys (λ m. sum m ≤ RUN_DEGREE) f.now }
    ensures vector { IfOk result (λ v. v ≡ normal_form zero_dominates (factor_generator VARIABLES i f.now)) }
    ensures not_zero { IfOk result (λ v. v ≢ []) }
{
    let mut terms = Vec::new(alloc);
    for (monomial, value) in f.terms() {
        terms.push((
            Term {
                component: 0,
                monomial: *monomial,
            },
            *value,
        ))?;
    }
    terms.push((
        Term {
            component: i,
            monomial: Monomial::one(),
        },
        Residue::one(),
    ))?;
    vector_of_terms(alloc, &terms)
}

/// The sum of terms whose degrees are within the limit of a run.
pub fn vector_of_terms<O: TermOrder>(
    alloc: Global,
    terms: &[(Term, Residue)],
) -> Result<Vector<O>, NoMemory>
    requires { AllKeys (λ t. sum t.1 ≤ RUN_DEGREE) terms.now }
    ensures { IfOk result (λ v. v ≡ normal_form O.order terms.now) }
{
    match Vector::from_terms(alloc, terms) {
        Ok(made) => Ok(made),
        Err(VectorFault::NoMemory) => Err(NoMemory),
        Err(VectorFault::DegreeOver) => unreachable!(),
    }
}

/// The fields of vectors with the components 1 to n + 1.
pub fn fields_of<O: TermOrder>(
    alloc: Global,
    n: u8,
    vectors: &[Vector<O>],
) -> Result<List<StrippedField>, NoMemory>
    requires { n ≤ VARIABLES }
    ensures { IfOk result (λ fields. AllZip (IsFieldOf RUN_DEGREE n) vectors.now fields) }
{
    let mut fields = Vec::new(alloc);
    for vector in vectors {
        fields.push(field_of(alloc, n, vector)?)?;
    }
    Ok(List::from_vec(fields))
}

// The field of a vector.
fn field_of<O: TermOrder>(
    alloc: Global,
    n: u8,
    vector: &Vector<O>,
) -> Result<StrippedField, NoMemory>
    requires { n ≤ VARIABLES }
    ensures { IfOk result (λ field. IsFieldOf RUN_DEGREE n vector.now field) }
{
    let mut c = Vec::new(alloc);
    for place in 0..n {
        c.push(polynomial_at(alloc, vector, place + 1)?)?;
    }
    let b = polynomial_at(alloc, vector, n + 1)?;
    Ok(StrippedField {
        c: List::from_vec(c),
        b,
    })
}

// The polynomial at a component.
fn polynomial_at<O: TermOrder>(
    alloc: Global,
    vector: &Vector<O>,
    component: u8,
) -> Result<Poly, NoMemory>
    ensures { IfOk result (λ p. IsComponentOf RUN_DEGREE component vector.now p) }
{
    let terms = vector.component(alloc, component)?;
    let polynomial = Poly::from_terms(alloc, terms.as_slice())?;
    Ok(polynomial)
}

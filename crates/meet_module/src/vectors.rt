//! The vectors that the runs begin with.

ghost use Rattle.std.specs.Prelude.{◌≡◌, ◌+◌, ◌-◌, ◌^◌, ◌<◌, ◌≤◌, length, map, sum, ◌∷◌, ◌++◌, [], IfOk, OnOk};
ghost use Rattle.std.specs.List.{All};
ghost use Rattle.mono_order.specs.declared.limits.TheConstants.{VARIABLES, RUN_DEGREE, FIRST_HIGH};
ghost use Rattle.mono_order.specs.TermOrder.{over_position, high_block};
ghost use Rattle.ibp_algebra.specs.FormalSum.{AllKeys, normal_form};
ghost use Rattle.family.specs.Shapes.{IsField};
ghost use Rattle.sector_module.specs.Factors.{at_component};
ghost use Rattle.sector_module.specs.SectorBasis.{field_vector, vector_of};
ghost use Rattle.meet_module.specs.MeetRuns.{doubled as doubled_of, divisor_exponents, divisors_from, meet_generators as meet_generators_of, stripped as stripped_of, stripped_term as stripped_term_of, stripped_generators as stripped_generators_of};
ghost use Rattle.meet_module.specs.Divided.{IsDividedTerm};

use family::StrippedField;
use ibp_base::NoMemory;
use ibp_field::Residue;
use module_vec::Vector;
use mono_order::{FIRST_HIGH, HighBlock, Monomial, OverPosition, Term};
use sector_lattice::Sector;
use sector_module::{is_inside, vector_of_terms};
use sparse_poly::Poly;
use std::alloc::Global;

/// The fields, each beside its raised copy, and the raised vectors that are divisible by the sector's variables.
pub(crate) fn meet_generators(
    alloc: Global,
    n: u8,
    fields: &[StrippedField],
    sector: Sector,
) -> Result<Vec<Vector<HighBlock>>, NoMemory>
    requires few { n ≤ VARIABLES }
    requires shape { All (λ field. IsField n RUN_DEGREE field.c field.b) fields.now }
    ensures { IfOk result (λ vectors. vectors.items ≡ meet_generators_of n sector.0 fields.now) }
{
    let mut vectors = Vec::new(alloc);
    put_doubled(alloc, &mut vectors, n, fields)?;
    put_divisors(alloc, &mut vectors, n, sector)?;
    Ok(vectors)
}

// Appends the vectors of the fields, each beside its raised copy.
fn put_doubled(
    alloc: Global,
    vectors: &mut Vec<Vector<HighBlock>>,
    n: u8,
    fields: &[StrippedField],
) -> Result<(), NoMemory>
    requires few { n ≤ VARIABLES }
    requires shape { All (λ field. IsField n RUN_DEGREE field.c field.b) fields.now }
    ensures { OnOk result (vectors.new.items ≡ vectors.old.items ++ map (λ field. normal_form high_block (doubled_of (field_vector field))) fields.now) }
{
    for field in fields {
        vectors.push(doubled(alloc, n, field)?)?;
    }
    Ok(())
}

// The vector of a field beside its raised copy.
fn doubled(alloc: Global, n: u8, field: &StrippedField) -> Result<Vector<HighBlock>, NoMemory>
    requires few { n ≤ VARIABLES }
    requires shape { IsField n RUN_DEGREE field.now.c field.now.b }
    ensures { IfOk result (λ v. v ≡ normal_form high_block (doubled_of (field_vector field.now))) }
{
    let mut terms = Vec::new(alloc);
    put_field(&mut terms, 1, field)?;
    put_field(&mut terms, FIRST_HIGH + 1, field)?;
    vector_of_terms(alloc, &terms)
}

// Appends the terms of a field, its first polynomial at this component.
fn put_field(
    terms: &mut Vec<(Term, Residue)>,
    first: u8,
    field: &StrippedField,
) -> Result<(), NoMemory>
    requires { first + length field.now.c < 256 }
    ensures { OnOk result (terms.new.items ≡ terms.old.items ++ vector_of first (field.now.c ++ field.now.b ∷ [])) }
{
    let c = field.c.as_slice();
    let mut component = first;
    for polynomial in c {
        put_polynomial(terms, component, polynomial)?;
        component += 1;
    }
    put_polynomial(terms, component, &field.b)
}

// Appends the terms of a polynomial, at this component.
fn put_polynomial(
    terms: &mut Vec<(Term, Residue)>,
    component: u8,
    polynomial: &Poly,
) -> Result<(), NoMemory>
    ensures { OnOk result (terms.new.items ≡ terms.old.items ++ at_component component polynomial.now) }
{
    for (monomial, value) in polynomial.terms() {
        terms.push((
            Term {
                component,
                monomial: *monomial,
            },
            *value,
        ))?;
    }
    Ok(())
}

// Appends the raised unit vectors, those of the sector times its variables.
fn put_divisors(
    alloc: Global,
    vectors: &mut Vec<Vector<HighBlock>>,
    n: u8,
    sector: Sector,
) -> Result<(), NoMemory>
    requires { n ≤ VARIABLES }
    ensures { OnOk result (vectors.new.items ≡ vectors.old.items ++ map (normal_form high_block) (divisors_from sector.0 0 n)) }
{
    for place in 0..n {
        let divisor = divisor(sector, place + 1);
        vectors.push(raised_unit(alloc, place + 1, divisor)?)?;
    }
    vectors.push(raised_unit(alloc, n + 1, Monomial::one())?)?;
    Ok(())
}

// The variable z_i where the sector has it, and else 1.
fn divisor(sector: Sector, i: u8) -> Monomial
    requires { (0 < i) × (i ≤ VARIABLES) }
    ensures value { result ≡ divisor_exponents sector.0 (i - 1) }
    ensures degree { sum result ≤ RUN_DEGREE }
{
    if is_inside(sector, i) {
        Monomial::variable(i)
    } else {
        Monomial::one()
    }
}

// A monomial at the raised component of this number.
fn raised_unit(alloc: Global, i: u8, monomial: Monomial) -> Result<Vector<HighBlock>, NoMemory>
    requires component { FIRST_HIGH + i < 256 }
    requires degree { sum monomial ≤ RUN_DEGREE }
    ensures { IfOk result (λ v. v ≡ normal_form high_block (((FIRST_HIGH + i, monomial), 1) ∷ [])) }
{
    let term = Term {
        component: FIRST_HIGH + i,
        monomial,
    };
    vector_of_terms(alloc, &[(term, Residue::one())])
}

/// The vectors without the sector's variables.
pub(crate) fn stripped_generators(
    alloc: Global,
    n: u8,
    sector: Sector,
    list: &[Vector<HighBlock>],
) -> Result<Vec<Vector<OverPosition>>, NoMemory>
    requires few { n ≤ VARIABLES }
    requires sector { sector.0 < 2 ^ n }
    requires divided { All (AllKeys (IsDividedTerm n sector.0)) list.now }
    ensures { IfOk result (λ vectors. vectors.items ≡ stripped_generators_of sector.0 list.now) }
{
    let mut vectors = Vec::new(alloc);
    for vector in list {
        vectors.push(stripped(alloc, n, sector, vector)?)?;
    }
    Ok(vectors)
}

// The vector without the sector's variables.
fn stripped(
    alloc: Global,
    n: u8,
    sector: Sector,
    vector: &Vector<HighBlock>,
) -> Result<Vector<OverPosition>, NoMemory>
    requires few { n ≤ VARIABLES }
    requires sector { sector.0 < 2 ^ n }
    requires divided { AllKeys (IsDividedTerm n sector.0) vector.now }
    ensures { IfOk result (λ v. v ≡ normal_form over_position (stripped_of sector.0 vector.now)) }
{
    let mut terms = Vec::new(alloc);
    for (term, value) in vector.terms() {
        terms.push((stripped_term(n, sector, term), *value))?;
    }
    vector_of_terms(alloc, &terms)
}

// The term without its component's variable, where the sector has it.
fn stripped_term(n: u8, sector: Sector, term: &Term) -> Term
    requires few { n ≤ VARIABLES }
    requires sector { sector.0 < 2 ^ n }
    requires divided { IsDividedTerm n sector.0 term.now }
    ensures value { result ≡ stripped_term_of sector.0 term.now }
    ensures degree { sum result.1 ≤ sum term.now.1 }
{
    if term.component <= n && is_inside(sector, term.component) {
        Term {
            component: term.component,
            monomial: term.monomial.lowered(term.component),
        }
    } else {
        *term
    }
}

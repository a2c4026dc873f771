// The affine terms of a field.
ghost use Rattle.std.specs.Prelude.{◌≡◌, ◌-◌, ◌<◌, ◌≤◌, ◌++◌, length, map, All, IfOk};
ghost use Rattle.mono_order.specs.declared.limits.TheConstants.{VARIABLES};
ghost use Rattle.ibp_relation.specs.Templates.{affine_terms, field_term, factor_term};

use crate::moves::{opposite, raised};
use ibp_field::Residue;
use sector_lattice::Integral;
use sparse_poly::Poly;
use std::alloc::{AllocError, Global};

/// A term of a template: at a seed an integral with a coefficient.
#[derive(Clone, Copy)]
pub struct AffineTerm {
    /// What is added to the powers of the seed.
    pub offset: Integral,
    /// The part of the coefficient that is the same at each seed.
    pub constant: Residue,
    /// What the seed's power at the place is multiplied by, to be added to the constant.
    pub slope: Residue,
    /// The place of a power, counted from 0.
    pub place: u8,
}

/// The affine terms of the field (a_1 .. a_n ; b), in the order of its terms.
pub fn affine_terms(
    alloc: Global,
    n: u8,
    gamma: Residue,
    a: &[Poly],
    b: &Poly,
) -> Result<Vec<AffineTerm>, AllocError>
    requires fits { length a.now ≡ n }
    requires some { 1 ≤ n }
    requires few { n ≤ VARIABLES }
    ensures { IfOk result (λ v. v.items ≡ affine_terms n gamma a.now b.now) }
{
    let mut terms = Vec::new(alloc);
    for place in 0..n {
        push_field_terms(&mut terms, n, place, &a[usize::from(place)])?;
    }
    push_factor_terms(&mut terms, n, gamma, b)?;
    Ok(terms)
}

// The affine terms of the polynomial at a place.
fn push_field_terms(
    terms: &mut Vec<AffineTerm>,
    n: u8,
    place: u8,
    a: &Poly,
) -> Result<(), AllocError>
    requires place { place < n }
    requires few { n ≤ VARIABLES }
    ensures { IfOk result (λ _. terms.new.items ≡ terms.old.items ++ map (field_term n place) a.now) }
{
    let minus_one = Residue::one().neg();
    for (monomial, value) in a.terms() {
        let exponent = Residue::of(u32::from(monomial.exponent(place + 1)));
        terms.push(AffineTerm {
            offset: raised(&opposite(monomial, n), place + 1),
            constant: value.mul(exponent),
            slope: minus_one.mul(*value),
            place,
        })?;
    }
    Ok(())
}

// The affine terms of the factor, which have no slope.
fn push_factor_terms(
    terms: &mut Vec<AffineTerm>,
    n: u8,
    gamma: Residue,
    b: &Poly,
) -> Result<(), AllocError>
    requires some { 1 ≤ n }
    requires few { n ≤ VARIABLES }
    ensures { IfOk result (λ _. terms.new.items ≡ terms.old.items ++ map (factor_term n gamma) b.now) }
{
    for (monomial, value) in b.terms() {
        terms.push(AffineTerm {
            offset: opposite(monomial, n),
            constant: gamma.mul(*value),
            slope: Residue::zero(),
            place: 0,
        })?;
    }
    Ok(())
}

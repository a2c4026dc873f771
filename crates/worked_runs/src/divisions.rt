// The fast division beside the plain one, over the S-vectors of two families.
ghost use Rattle.std.specs.Prelude.{◌≡◌, ◌≢◌, ◌<◌, ◌^◌, length, map, [], IfOk};
ghost use Rattle.std.specs.List.{All};
ghost use Rattle.module_vec.specs.ModuleVector.{IsMonic, lead};

use fast_division::{Dividend, LeadIndex, Multiples, index_leads, normal_form_fast, remainder_by};
use ibp_field::Residue;
use module_basis::{Basis, plain_run};
use module_division::{normal_form, s_vector};
use module_vec::Vector;
use mono_order::{Monomial, Term, ZeroDominates};
use pair_queue::PairOrder;
use poly_text::{Numbers, parse_poly};
use sparse_poly::Poly;
use std::alloc::Global;
use std::test::Fail;

// The vector f e_0 + e_i.
fn generator(alloc: Global, f: &Poly, i: u8) -> Result<Vector<ZeroDominates>, Fail>
    ensures { IfOk result (λ v. v ≢ []) }
{
    let mut terms = Vec::new(alloc);
    for (monomial, value) in f.terms() {
        let term = Term {
            component: 0,
            monomial: *monomial,
        };
        terms.push((term, *value))?;
    }
    let unit = Term {
        component: i,
        monomial: Monomial::one(),
    };
    terms.push((unit, Residue::one()))?;
    let vector = Vector::from_terms(alloc, &terms)?;
    if vector.lead().is_none() {
        return Err("zero")?;
    }
    Ok(vector)
}

// The derivative by a variable, times it where it is one of the sector.
fn factor(alloc: Global, baikov: &Poly, variable: u8, is_inside: bool) -> Result<Poly, Fail>
    requires { (0 < variable) × (variable < 3) }
{
    let derivative = baikov.derivative(alloc, variable)?;
    if !is_inside {
        return Ok(derivative);
    }
    let one = [(Monomial::variable(variable), Residue::one())];
    let product = Poly::from_terms(alloc, &one)?.mul(alloc, &derivative)?;
    Ok(product)
}

// The run of a sector of a family with two variables.
fn run_of(
    alloc: Global,
    baikov: &Poly,
    first: bool,
    second: bool,
) -> Result<Basis<ZeroDominates>, Fail> {
    let generators = [
        generator(alloc, &factor(alloc, baikov, 1, first)?, 1)?,
        generator(alloc, &factor(alloc, baikov, 2, second)?, 2)?,
        generator(alloc, &baikov.scale(alloc, Residue::one().neg())?, 3)?,
    ];
    let basis = plain_run(alloc, &generators, 100, PairOrder::Terms)?;
    Ok(basis)
}

// Whether a vector has this remainder three times over, where the divisions share what they keep.
fn is_found_again(
    alloc: Global,
    v: &Vector<ZeroDominates>,
    list: &[Vector<ZeroDominates>],
    index: &LeadIndex<ZeroDominates>,
    wanted: &Vector<ZeroDominates>,
) -> Result<bool, Fail>
    requires monic { All IsMonic list.now }
    requires index { index.now ≡ map lead list.now }
{
    let mut rest = Dividend::over(alloc, list)?;
    let mut multiples = Multiples::none(alloc);
    let first = remainder_by(alloc, &mut rest, &mut multiples, v, list, index)?;
    let second = remainder_by(alloc, &mut rest, &mut multiples, v, list, index)?;
    let third = remainder_by(alloc, &mut rest, &mut multiples, v, list, index)?;
    let wanted = wanted.terms();
    Ok(first.terms() == wanted && second.terms() == wanted && third.terms() == wanted)
}

// Whether the S-vectors of the last vector of the list with its vectors have one remainder by all divisions.
fn has_one_remainder(alloc: Global, list: &[Vector<ZeroDominates>]) -> Result<bool, Fail>
    requires few { length list.now < 2 ^ 32 }
    requires monic { All IsMonic list.now }
{
    let index = index_leads(alloc, list)?;
    if list.is_empty() {
        return Ok(true);
    }
    let last = &list[list.len() - 1];
    for other in list {
        if other.lead_term().component == last.lead_term().component {
            let difference = s_vector(alloc, other, last)?;
            let slow = normal_form(alloc, &difference, list)?;
            let fast = normal_form_fast(alloc, &difference, list, &index)?;
            let is_one = slow.terms() == fast.terms();
            if !is_one || !is_found_again(alloc, &difference, list, &index, &slow)? {
                return Ok(false);
            }
        }
    }
    Ok(true)
}

#[test]
fn both_divisions_have_one_remainder(rt: HostRuntime) -> Result<(), Fail> {
    let alloc = rt.alloc();
    let mut numbers = Numbers::empty(alloc);
    numbers.insert("s", Residue::one())?;
    for text in ["4*s*z1 - (z2 - z1 - s)^2", "z1 + z2 + 1"] {
        let baikov = parse_poly(alloc, text, 2, &numbers)?;
        for (first, second) in [(false, false), (true, false), (false, true), (true, true)] {
            let basis = run_of(alloc, &baikov, first, second)?;
            let list = basis.elements();
            for count in 0..list.len() {
                assert!(rt; has_one_remainder(alloc, &list[..count + 1])?);
            }
        }
    }
    Ok(())
}

use ibp_field::Residue;
use mono_order::{Monomial, VARIABLES};
use sparse_poly::{Poly, PolyFault, copy_polynomials};
use std::alloc::Global;
use std::process::Abort;

// c1 * z1 + c2 * z2 + c
fn linear(rt: &impl Abort, alloc: Global, first: i64, second: i64, constant: i64) -> Poly {
    let terms = [
        (Monomial::one(), Residue::from_i64(constant)),
        (Monomial::variable(1), Residue::from_i64(first)),
        (Monomial::variable(2), Residue::from_i64(second)),
    ];
    Poly::from_terms(alloc, &terms).ok().expect(rt, "memory")
}

// A power of z1, plus a constant.
fn power(rt: &impl Abort, alloc: Global, exponent: u16, constant: i64) -> Poly {
    let mut exponents = [0; VARIABLES];
    exponents[0] = exponent;
    let monomial = Monomial::from_exponents(exponents).expect(rt, "a degree in range");
    let terms = [
        (monomial, Residue::one()),
        (Monomial::one(), Residue::from_i64(constant)),
    ];
    Poly::from_terms(alloc, &terms).ok().expect(rt, "memory")
}

fn sum(rt: &impl Abort, alloc: Global, left: &Poly, right: &Poly) -> Poly {
    left.add(alloc, right).ok().expect(rt, "memory")
}

fn product(rt: &impl Abort, alloc: Global, left: &Poly, right: &Poly) -> Poly {
    left.mul(alloc, right).ok().expect(rt, "a product")
}

fn multiple(rt: &impl Abort, alloc: Global, poly: &Poly, factor: Residue) -> Poly {
    poly.scale(alloc, factor).ok().expect(rt, "memory")
}

#[test]
fn binomials_are_added_and_multiplied(rt: HostRuntime) {
    let alloc = rt.alloc();
    let one = Residue::one();
    let p = linear(&rt, alloc, 1, 0, 1);
    let q = linear(&rt, alloc, 1, 0, -1);
    let terms = [(Monomial::variable(1), one), (Monomial::one(), one)];
    assert!(rt; p.terms() == terms.as_slice());
    assert!(rt; sum(&rt, alloc, &p, &q) == linear(&rt, alloc, 2, 0, 0));
    assert!(rt; product(&rt, alloc, &p, &q) == power(&rt, alloc, 2, -1));
    assert!(rt; multiple(&rt, alloc, &p, Residue::of(3)) == linear(&rt, alloc, 3, 0, 3));
}

fn has_copies(rt: &impl Abort, alloc: Global, polynomials: &[Poly]) -> bool {
    let copies = copy_polynomials(alloc, polynomials)
        .ok()
        .expect(rt, "memory");
    copies.as_slice() == polynomials
}

fn has_a_copy(rt: &impl Abort, alloc: Global, poly: &Poly) -> bool {
    poly.copy(alloc).ok().expect(rt, "memory") == *poly
}

#[test]
fn copies_have_the_same_terms(rt: HostRuntime) {
    let alloc = rt.alloc();
    let binomials = [linear(&rt, alloc, 1, 0, 1), linear(&rt, alloc, 1, 0, -1)];
    assert!(rt; has_copies(&rt, alloc, &binomials));
    assert!(rt; has_a_copy(&rt, alloc, &binomials[0]));
}

#[test]
fn the_degree_of_a_product_has_a_limit(rt: HostRuntime) {
    let alloc = rt.alloc();
    let most = power(&rt, alloc, 1050, 0);
    assert_eq!(rt; most.degree(), 1050);
    let over = most.mul(alloc, &linear(&rt, alloc, 1, 0, 0));
    assert!(rt; matches!(over, Err(PolyFault::DegreeOver)));
    assert!(rt; product(&rt, alloc, &most, &Poly::zero(alloc)).is_zero());
}

fn derivative(rt: &impl Abort, alloc: Global, poly: &Poly) -> Poly {
    poly.derivative(alloc, 1).ok().expect(rt, "memory")
}

fn without_the_first(rt: &impl Abort, alloc: Global, poly: &Poly) -> Poly {
    poly.set_zero(alloc, 1).ok().expect(rt, "memory")
}

fn exchanged(rt: &impl Abort, alloc: Global, poly: &Poly) -> Poly {
    let places = [2, 1, 3, 4, 5, 6, 7, 8, 9, 10, 11, 12];
    poly.permute(alloc, &places).ok().expect(rt, "memory")
}

#[test]
fn variables_are_derived_struck_and_exchanged(rt: HostRuntime) {
    let alloc = rt.alloc();
    let square = power(&rt, alloc, 2, 0);
    assert!(rt; square.divisible_by(1));
    assert!(rt; derivative(&rt, alloc, &square) == linear(&rt, alloc, 2, 0, 0));
    let p = linear(&rt, alloc, 1, 0, 1);
    assert!(rt; !p.divisible_by(1));
    assert!(rt; without_the_first(&rt, alloc, &p) == linear(&rt, alloc, 0, 0, 1));
    let p = linear(&rt, alloc, 1, 2, 0);
    assert!(rt; exchanged(&rt, alloc, &p) == linear(&rt, alloc, 2, 1, 0));
}

// Vectors of modules, and their division.
ghost use Rattle.std.specs.Prelude.{◌≡◌, ◌<◌, ◌^◌, length};
ghost use Rattle.std.specs.List.{All};
ghost use Rattle.module_vec.specs.ModuleVector.{IsMonic, lead};

use fast_division::{BucketSum, index_leads, normal_form_fast};
use ibp_field::Residue;
use module_division::{normal_form, s_vector};
use module_vec::{Vector, VectorFault};
use mono_order::{Monomial, OverPosition, Term, TermOrder, VARIABLES, ZeroDominates};
use std::alloc::Global;
use std::process::Abort;

/// A component, the powers of z1 and z2, and a coefficient.
pub type Entry = (u8, u16, u16, i64);

// The term of an entry.
fn term(rt: &impl Abort, entry: Entry) -> (Term, Residue) {
    let (component, first, second, value) = entry;
    let mut exponents = [0; VARIABLES];
    exponents[0] = first;
    exponents[1] = second;
    let monomial = Monomial::from_exponents(exponents).expect(rt, "a degree in range");
    let term = Term {
        component,
        monomial,
    };
    (term, Residue::from_i64(value))
}

// The terms of the entries.
fn terms(rt: &impl Abort, alloc: Global, entries: &[Entry]) -> Vec<(Term, Residue)> {
    let mut terms = Vec::new(alloc);
    for entry in entries {
        terms.push(term(rt, *entry)).ok().expect(rt, "memory");
    }
    terms
}

/// The vector of the entries.
pub fn vector<O: TermOrder>(rt: &impl Abort, alloc: Global, entries: &[Entry]) -> Vector<O> {
    let vector = Vector::from_terms(alloc, &terms(rt, alloc, entries));
    vector.ok().expect(rt, "a vector")
}

/// Whether a vector is that of the entries.
pub fn is_vector(
    rt: &impl Abort,
    alloc: Global,
    found: &Vector<ZeroDominates>,
    entries: &[Entry],
) -> bool {
    found.terms() == vector::<ZeroDominates>(rt, alloc, entries).terms()
}

// Whether a vector has the terms of the entries, in their order.
fn has_terms(
    rt: &impl Abort,
    alloc: Global,
    found: &Vector<ZeroDominates>,
    entries: &[Entry],
) -> bool {
    found.terms() == terms(rt, alloc, entries).as_slice()
}

// A monic vector whose lead has this component.
fn monic(rt: &impl Abort, alloc: Global, component: u8, entries: &[Entry]) -> Vector<ZeroDominates>
    ensures monic { IsMonic result }
    ensures component { (lead result).0 ≡ component }
{
    let vector = vector(rt, alloc, entries);
    let (term, value) = vector.lead().expect(rt, "zero");
    assert!(rt; term.component == component, "another component");
    assert!(rt; value == Residue::one(), "another coefficient");
    vector
}

// A vector that is not zero, made monic.
fn made_monic(
    rt: &impl Abort,
    alloc: Global,
    found: &Vector<ZeroDominates>,
) -> Vector<ZeroDominates> {
    assert!(rt; found.lead().is_some());
    found.monic(alloc).ok().expect(rt, "memory")
}

// Whether a component of a vector is the polynomial of these terms.
fn has_component(
    rt: &impl Abort,
    alloc: Global,
    found: &Vector<ZeroDominates>,
    component: u8,
    polynomial: &[(Monomial, Residue)],
) -> bool {
    let found = found.component(alloc, component).ok().expect(rt, "memory");
    found.as_slice() == polynomial
}

// Whether z1 times a vector has the terms of the entries, in their order.
fn shifts_to(
    rt: &impl Abort,
    alloc: Global,
    found: &Vector<ZeroDominates>,
    entries: &[Entry],
) -> bool {
    let shifted = found.shift(alloc, &Monomial::variable(1));
    has_terms(rt, alloc, &shifted.ok().expect(rt, "a vector"), entries)
}

#[test]
fn a_vector_is_shifted_and_read_by_component(rt: HostRuntime) {
    let alloc = rt.alloc();
    let entries = [(2, 0, 0, 1), (3, 0, 0, 1), (2, 0, 1, 1), (1, 0, 0, 1)];
    let fifth = vector::<ZeroDominates>(&rt, alloc, &entries);
    assert!(rt; fifth.lead() == Some(term(&rt, (2, 0, 1, 1))));
    let wanted = [(2, 1, 1, 1), (1, 1, 0, 1), (2, 1, 0, 1), (3, 1, 0, 1)];
    assert!(rt; shifts_to(&rt, alloc, &fifth, &wanted));
    let polynomial = [
        (Monomial::variable(2), Residue::one()),
        (Monomial::one(), Residue::one()),
    ];
    assert!(rt; has_component(&rt, alloc, &fifth, 2, &polynomial));
    assert!(rt; has_component(&rt, alloc, &fifth, 0, &[]));
}

// The first vector minus z1 times the second one.
fn difference<O: TermOrder>(
    alloc: Global,
    first: &Vector<O>,
    second: &Vector<O>,
) -> Result<Vector<O>, VectorFault> {
    first.sub_multiple(alloc, Residue::one(), &Monomial::variable(1), second)
}

// The rest of two vectors of a run.
fn rest_of_two(rt: &impl Abort, alloc: Global) -> Vector<ZeroDominates> {
    let first = vector(rt, alloc, &[(1, 0, 0, 1), (0, 1, 0, 1)]);
    let second = vector(rt, alloc, &[(0, 0, 0, 1), (2, 0, 0, 1)]);
    difference(alloc, &first, &second)
        .ok()
        .expect(rt, "a vector")
}

fn has_a_copy(rt: &impl Abort, alloc: Global, found: &Vector<ZeroDominates>) -> bool {
    let copy = found.copy(alloc).ok().expect(rt, "memory");
    copy.terms() == found.terms()
}

#[test]
fn a_multiple_is_subtracted_and_the_rest_made_monic(rt: HostRuntime) {
    let alloc = rt.alloc();
    let rest = rest_of_two(&rt, alloc);
    assert!(rt; has_terms(&rt, alloc, &rest, &[(2, 1, 0, -1), (1, 0, 0, 1)]));
    let monic = made_monic(&rt, alloc, &rest);
    assert!(rt; has_terms(&rt, alloc, &monic, &[(2, 1, 0, 1), (1, 0, 0, -1)]));
    assert!(rt; has_a_copy(&rt, alloc, &monic));
}

fn is_over<O: TermOrder>(found: Result<Vector<O>, VectorFault>) -> bool {
    matches!(found, Err(VectorFault::DegreeOver))
}

#[test]
fn the_degree_of_a_run_is_kept(rt: HostRuntime) {
    let alloc = rt.alloc();
    let most = vector::<OverPosition>(&rt, alloc, &[(1, 1000, 0, 1)]);
    let none = vector::<OverPosition>(&rt, alloc, &[]);
    assert!(rt; none.lead().is_none());
    assert!(rt; is_over(most.shift(alloc, &Monomial::variable(1))));
    assert!(rt; is_over(difference(alloc, &none, &most)));
    let over = terms(&rt, alloc, &[(1, 1000, 1, 1), (1, 1000, 1, -1)]);
    assert!(rt; is_over(Vector::<OverPosition>::from_terms(alloc, &over)));
}

const FIRST: [Entry; 2] = [(0, 1, 0, 1), (1, 0, 0, 1)];

const SECOND: [Entry; 2] = [(0, 0, 0, 1), (2, 0, 0, 1)];

const THIRD: [Entry; 4] = [(0, 1, 0, 1), (0, 0, 1, 1), (0, 0, 0, 1), (3, 0, 0, -1)];

const FOURTH: [Entry; 2] = [(2, 1, 0, 1), (1, 0, 0, -1)];

const FIFTH: [Entry; 4] = [(2, 0, 1, 1), (1, 0, 0, 1), (2, 0, 0, 1), (3, 0, 0, 1)];

// The first five elements of the run.
fn elements(rt: &impl Abort, alloc: Global) -> [Vector<ZeroDominates>; 5]
    ensures { All IsMonic result }
{
    [
        monic(rt, alloc, 0, &FIRST),
        monic(rt, alloc, 0, &SECOND),
        monic(rt, alloc, 0, &THIRD),
        monic(rt, alloc, 2, &FOURTH),
        monic(rt, alloc, 2, &FIFTH),
    ]
}

// The S-vector of two monic vectors, whose leads have this component.
fn s_vector_of(
    rt: &impl Abort,
    alloc: Global,
    component: u8,
    left: &[Entry],
    right: &[Entry],
) -> Result<Vector<ZeroDominates>, VectorFault> {
    let left = monic(rt, alloc, component, left);
    let right = monic(rt, alloc, component, right);
    s_vector(alloc, &left, &right)
}

// What the fast division answers.
fn fast_division(
    rt: &impl Abort,
    alloc: Global,
    found: &Vector<ZeroDominates>,
    list: &[Vector<ZeroDominates>],
) -> Result<Vector<ZeroDominates>, VectorFault>
    requires few { length list.now < 2 ^ 32 }
    requires monic { All IsMonic list.now }
{
    let index = index_leads(alloc, list).ok().expect(rt, "memory");
    normal_form_fast(alloc, found, list, &index)
}

// The remainder of a vector, which both divisions find.
fn remainder(
    rt: &impl Abort,
    alloc: Global,
    found: &Vector<ZeroDominates>,
    list: &[Vector<ZeroDominates>],
) -> Vector<ZeroDominates>
    requires few { length list.now < 2 ^ 32 }
    requires monic { All IsMonic list.now }
{
    let rest = normal_form(alloc, found, list)
        .ok()
        .expect(rt, "a remainder");
    let fast = fast_division(rt, alloc, found, list)
        .ok()
        .expect(rt, "a remainder");
    assert!(rt; fast.terms() == rest.terms());
    rest
}

#[test]
fn the_sixth_element_of_a_run_is_found(rt: HostRuntime) {
    let alloc = rt.alloc();
    let difference = s_vector_of(&rt, alloc, 2, &FOURTH, &FIFTH);
    let difference = difference.ok().expect(&rt, "an S-vector");
    let wanted = [(1, 1, 0, -1), (1, 0, 1, -1), (2, 1, 0, -1), (3, 1, 0, -1)];
    assert!(rt; is_vector(&rt, alloc, &difference, &wanted));
    let rest = remainder(&rt, alloc, &difference, &elements(&rt, alloc));
    let wanted = [(1, 1, 0, -1), (1, 0, 1, -1), (3, 1, 0, -1), (1, 0, 0, -1)];
    assert!(rt; is_vector(&rt, alloc, &rest, &wanted));
    let sixth = [(1, 1, 0, 1), (1, 0, 1, 1), (3, 1, 0, 1), (1, 0, 0, 1)];
    assert!(rt; is_vector(&rt, alloc, &made_monic(&rt, alloc, &rest), &sixth));
}

// Partial sums of the first element minus z1 times the second one.
fn partial_sums(rt: &impl Abort, alloc: Global) -> BucketSum<ZeroDominates> {
    let first = vector(rt, alloc, &FIRST);
    let second = vector(rt, alloc, &SECOND);
    let mut sum = BucketSum::from(alloc, &first).ok().expect(rt, "memory");
    let difference = sum.sub_multiple(Residue::one(), &Monomial::variable(1), &second);
    assert!(rt; difference.is_ok());
    sum
}

#[test]
fn partial_sums_give_their_lead(rt: HostRuntime) {
    let mut sum = partial_sums(&rt, rt.alloc());
    assert!(rt; sum.take_lead() == Some(term(&rt, (2, 1, 0, -1))));
    assert!(rt; sum.take_lead() == Some(term(&rt, (1, 0, 0, 1))));
    assert!(rt; sum.take_lead().is_none());
}

#[test]
fn a_division_and_a_difference_may_be_over_the_degree(rt: HostRuntime) {
    let alloc = rt.alloc();
    let list = [monic(&rt, alloc, 0, &[(0, 1, 0, 1), (1, 0, 2, 1)])];
    let power = vector(&rt, alloc, &[(0, 1000, 0, 1)]);
    assert!(rt; is_over(normal_form(alloc, &power, &list)));
    assert!(rt; is_over(fast_division(&rt, alloc, &power, &list)));
    let left = [(0, 600, 0, 1), (1, 0, 0, 1)];
    let right = [(0, 0, 600, 1), (2, 0, 0, 1)];
    assert!(rt; is_over(s_vector_of(&rt, alloc, 0, &left, &right)));
}

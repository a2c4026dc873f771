// The plain runs of modules, and their reduced bases.
ghost use Rattle.std.specs.Prelude.{◌≢◌, []};
ghost use Rattle.std.specs.List.{All};

use crate::vectors::{Entry, is_vector, vector};
use module_basis::{Basis, BasisFault, plain_run, reduced_low};
use module_vec::Vector;
use mono_order::ZeroDominates;
use pair_queue::PairOrder;
use std::alloc::Global;
use std::process::Abort;

// A vector that is not zero.
fn generator(rt: &impl Abort, alloc: Global, entries: &[Entry]) -> Vector<ZeroDominates>
    ensures { result ≢ [] }
{
    let vector = vector(rt, alloc, entries);
    assert!(rt; vector.lead().is_some(), "zero");
    vector
}

// Whether the vectors are those of the entries, in order.
fn are_vectors(
    rt: &impl Abort,
    alloc: Global,
    vectors: &[Vector<ZeroDominates>],
    expected: &[&[Entry]],
) -> bool {
    if vectors.len() != expected.len() {
        return false;
    }
    for (found, entries) in vectors.iter().zip(expected) {
        if !is_vector(rt, alloc, found, entries) {
            return false;
        }
    }
    true
}

// The elements of the run, generators first.
const ELEMENTS: [&[Entry]; 6] = [
    &[(0, 1, 0, 1), (1, 0, 0, 1)],
    &[(0, 0, 0, 1), (2, 0, 0, 1)],
    &[(0, 1, 0, 1), (0, 0, 1, 1), (0, 0, 0, 1), (3, 0, 0, -1)],
    &[(2, 1, 0, 1), (1, 0, 0, -1)],
    &[(2, 0, 1, 1), (1, 0, 0, 1), (2, 0, 0, 1), (3, 0, 0, 1)],
    &[(1, 1, 0, 1), (1, 0, 1, 1), (3, 1, 0, 1), (1, 0, 0, 1)],
];

const OPPOSITE: [Entry; 4] = [(0, 1, 0, -1), (0, 0, 1, -1), (0, 0, 0, -1), (3, 0, 0, 1)];

// The generators of the run.
fn plane(rt: &impl Abort, alloc: Global) -> [Vector<ZeroDominates>; 3]
    ensures { All (λ v. v ≢ []) result }
{
    [
        generator(rt, alloc, ELEMENTS[0]),
        generator(rt, alloc, ELEMENTS[1]),
        generator(rt, alloc, &OPPOSITE),
    ]
}

// Whether the reduced basis of a run has the vectors of the entries, in order.
fn reduces_to(
    rt: &impl Abort,
    alloc: Global,
    basis: &Basis<ZeroDominates>,
    expected: &[&[Entry]],
) -> bool {
    let reduced = reduced_low(alloc, basis).ok().expect(rt, "memory");
    are_vectors(rt, alloc, reduced.as_slice(), expected)
}

#[test]
fn the_run_of_a_plane_takes_three_of_its_four_pairs(rt: HostRuntime) {
    let alloc = rt.alloc();
    let generators = plane(&rt, alloc);
    let basis = plain_run(alloc, &generators, 4, PairOrder::Terms)
        .ok()
        .expect(&rt, "a basis");
    assert!(rt; basis.pairs_taken() == 3);
    assert!(rt; are_vectors(&rt, alloc, basis.elements(), &ELEMENTS));
    let ascending = [ELEMENTS[4], ELEMENTS[3], ELEMENTS[5]];
    assert!(rt; reduces_to(&rt, alloc, &basis, &ascending));
    let spent = plain_run(alloc, &generators, 2, PairOrder::Terms);
    assert!(rt; matches!(spent, Err(BasisFault::PairsSpent)));
}

#[test]
fn the_run_of_a_tadpole_takes_two_of_its_three_pairs(rt: HostRuntime) {
    let alloc = rt.alloc();
    let generators = [
        generator(&rt, alloc, &[(0, 1, 0, 1), (1, 0, 0, 1)]),
        generator(&rt, alloc, &[(0, 1, 0, -1), (0, 0, 0, -1), (2, 0, 0, 1)]),
    ];
    let basis = plain_run(alloc, &generators, 2, PairOrder::Terms)
        .ok()
        .expect(&rt, "a basis");
    assert!(rt; basis.pairs_taken() == 2);
    let spent = plain_run(alloc, &generators, 1, PairOrder::Terms);
    assert!(rt; matches!(spent, Err(BasisFault::PairsSpent)));
}

#[test]
fn a_pair_above_the_degree_of_a_run_ends_it(rt: HostRuntime) {
    let alloc = rt.alloc();
    let generators = [
        generator(&rt, alloc, &[(0, 600, 0, 1), (1, 0, 0, 1)]),
        generator(&rt, alloc, &[(0, 0, 600, 1), (2, 0, 0, 1)]),
    ];
    let over = plain_run(alloc, &generators, 10, PairOrder::Terms);
    assert!(rt; matches!(over, Err(BasisFault::DegreeOver)));
}

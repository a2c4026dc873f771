use ibp_base::List;
use ibp_field::Residue;
use relation_pick::{Picked, pick, pick_wide, reduced_forms};
use row_echelon::{Echelon, Inserted, Reduced};
use sector_lattice::{Integral, Sector};
use sparse_rows::Row;
use std::alloc::Global;
use std::process::Abort;
use std::thread::Threads;

fn integral(rt: &impl Abort, powers: &[i16]) -> Integral {
    Integral::new(powers).expect(rt, "powers in range")
}

fn row_of(rt: &impl Abort, alloc: Global, terms: &[(Integral, Residue)]) -> Row {
    Row::from_terms(alloc, terms).ok().expect(rt, "memory")
}

// A row of integrals with one power.
fn row(rt: &impl Abort, alloc: Global, terms: &[(i16, i64)]) -> Row {
    let mut found = Vec::new(alloc);
    for (power, value) in terms {
        let term = (integral(rt, &[*power]), Residue::from_i64(*value));
        found.push(term).ok().expect(rt, "memory");
    }
    row_of(rt, alloc, &found)
}

// The row without the integrals of sector 2 and those below it.
fn struck(rt: &impl Abort, alloc: Global, row: &Row) -> Row {
    row.strike(alloc, &[Sector(2)]).ok().expect(rt, "memory")
}

// The first row minus the second one.
fn difference(rt: &impl Abort, alloc: Global, first: &Row, second: &Row) -> Row {
    let difference = first.add_multiple(alloc, Residue::from_i64(-1), second);
    difference.ok().expect(rt, "memory")
}

fn has_a_copy(rt: &impl Abort, alloc: Global, row: &Row) -> bool {
    *row == row.copy(alloc).ok().expect(rt, "memory")
}

#[test]
fn a_sector_is_struck_and_the_rest_subtracted(rt: HostRuntime) {
    let alloc = rt.alloc();
    let one = Residue::one();
    let both = integral(&rt, &[1, 2]);
    let second = integral(&rt, &[0, 2]);
    let row = row_of(&rt, alloc, &[(second, one), (both, one)]);
    assert!(rt; row.terms() == [(both, one), (second, one)].as_slice());
    assert_eq!(rt; row.coefficient(&second), one);
    let struck = struck(&rt, alloc, &row);
    assert!(rt; struck.terms() == [(both, one)].as_slice());
    let rest = difference(&rt, alloc, &row, &struck);
    assert!(rt; rest.lead() == Some((second, one)));
    assert!(rt; has_a_copy(&rt, alloc, &rest) && rest != row);
}

// Two rows, which are kept, and a third one that depends on them.
fn echelon(rt: &impl Abort, alloc: Global) -> Echelon {
    let first = row(rt, alloc, &[(2, 2147483646), (1, 5)]);
    let second = row(rt, alloc, &[(3, 2147483645), (2, 4)]);
    let third = row(rt, alloc, &[(2, 2147483644), (1, 15)]);
    let mut echelon = Echelon::empty(alloc);
    assert!(rt; echelon.insert(&first, 1) == Ok(Inserted::Kept));
    assert!(rt; echelon.insert(&second, 2) == Ok(Inserted::Kept));
    assert!(rt; echelon.insert(&third, 3) == Ok(Inserted::Dependent));
    echelon
}

// The reduced form of the integral with this power.
fn reduced(rt: &impl Abort, alloc: Global, echelon: &Echelon, power: i16) -> Reduced {
    let reduced = echelon.reduce(alloc, &row(rt, alloc, &[(power, 1)]));
    reduced.ok().expect(rt, "memory")
}

#[test]
fn independent_rows_are_kept_and_reduce(rt: HostRuntime) {
    let alloc = rt.alloc();
    let reduced = reduced(&rt, alloc, &echelon(&rt, alloc), 3);
    let weights = [(1, Residue::of(2147483645)), (2, Residue::of(1073741823))];
    assert!(rt; reduced.rest == row(&rt, alloc, &[(1, 10)]));
    assert_eq!(rt; reduced.weights.as_slice(), weights.as_slice());
}

// Three rows, of which one has the integral with power 4.
fn three_rows(rt: &impl Abort, alloc: Global) -> [Row; 3] {
    [
        row(rt, alloc, &[(2, 2147483646), (1, 5)]),
        row(rt, alloc, &[(3, 2147483645), (2, 4)]),
        row(rt, alloc, &[(4, 1), (1, 1)]),
    ]
}

#[test]
fn what_the_target_needs_is_picked(rt: HostRuntime) {
    let alloc = rt.alloc();
    let targets = [row(&rt, alloc, &[(3, 1)])];
    let picked = pick(alloc, &three_rows(&rt, alloc), &targets);
    let picked = picked.ok().expect(&rt, "memory");
    let weights = [(0, Residue::of(2147483645)), (1, Residue::of(1073741823))];
    assert_eq!(rt; picked.written.as_slice(), [0, 1].as_slice());
    assert!(rt; picked.reductions.as_slice() == [row(&rt, alloc, &[(1, 10)])].as_slice());
    assert_eq!(rt; picked.weights.as_slice().len(), 1);
    for found in picked.weights.as_slice() {
        assert_eq!(rt; found.as_slice(), weights.as_slice());
    }
}

// What is picked of the three rows for the integrals with the powers 3, 2 and 4, in so many parts.
fn picked_wide<R: Threads + Sync + Abort>(rt: &R, alloc: Global, parts: u32) -> Picked {
    let targets = [
        row(rt, alloc, &[(3, 1)]),
        row(rt, alloc, &[(2, 1)]),
        row(rt, alloc, &[(4, 1)]),
    ];
    assert!(rt; 1 <= parts && parts <= 64);
    let picked = pick_wide(rt, alloc, &three_rows(rt, alloc), &targets, parts);
    picked.ok().expect(rt, "memory")
}

// Whether there are three lists of weights, those for the integrals with the powers 3, 2 and 4.
fn are_the_weights(found: &[List<(u32, Residue)>]) -> bool {
    let first = [(0, Residue::of(2147483645)), (1, Residue::of(1073741823))];
    let second = [(0, Residue::of(2147483646))];
    let third = [(2, Residue::one())];
    match found {
        [one, two, three] => {
            one.as_slice() == first.as_slice()
                && two.as_slice() == second.as_slice()
                && three.as_slice() == third.as_slice()
        }
        _ => false,
    }
}

#[test]
fn each_number_of_parts_gives_the_same_pick(rt: HostRuntime) {
    let alloc = rt.alloc();
    let forms = [
        row(&rt, alloc, &[(1, 10)]),
        row(&rt, alloc, &[(1, 5)]),
        row(&rt, alloc, &[(1, -1)]),
    ];
    for parts in [1, 2, 3, 64] {
        let picked = picked_wide(&rt, alloc, parts);
        assert_eq!(rt; picked.written.as_slice(), [0, 1, 2].as_slice());
        assert!(rt; picked.reductions.as_slice() == forms.as_slice());
        assert!(rt; are_the_weights(picked.weights.as_slice()));
    }
}

// Two rows that span those above, which have all columns.
fn two_rows(rt: &impl Abort, alloc: Global) -> [Row; 2] {
    [
        row(rt, alloc, &[(2, 2147483646), (1, 5)]),
        row(rt, alloc, &[(3, 2147483645), (2, 4)]),
    ]
}

// Both rows kept by columns, and a third one that depends on them.
fn by_columns(rt: &impl Abort, alloc: Global, rows: &[Row; 2]) -> Echelon {
    let third = row(rt, alloc, &[(2, 2147483644), (1, 15)]);
    let mut echelon = Echelon::over(alloc, rows).ok().expect(rt, "memory");
    assert!(rt; echelon.insert(&rows[0], 1) == Ok(Inserted::Kept));
    assert!(rt; echelon.insert(&rows[1], 2) == Ok(Inserted::Kept));
    assert!(rt; echelon.insert(&third, 3) == Ok(Inserted::Dependent));
    echelon
}

// Both rows, and one with an integral that has no column.
fn beside_the_columns(rt: &impl Abort, alloc: Global, rows: &[Row; 2]) -> Echelon {
    let other = row(rt, alloc, &[(4, 1), (3, 1)]);
    let mut echelon = Echelon::over(alloc, rows).ok().expect(rt, "memory");
    assert!(rt; echelon.insert(&rows[0], 1) == Ok(Inserted::Kept));
    assert!(rt; echelon.insert(&rows[1], 2) == Ok(Inserted::Kept));
    assert!(rt; echelon.insert(&other, 4) == Ok(Inserted::Kept));
    echelon
}

fn form(rt: &impl Abort, alloc: Global, echelon: &Echelon, power: i16) -> Row {
    let form = echelon.reduced_form(alloc, &row(rt, alloc, &[(power, 1)]));
    form.ok().expect(rt, "memory")
}

#[test]
fn columns_give_the_same(rt: HostRuntime) {
    let alloc = rt.alloc();
    let rows = two_rows(&rt, alloc);
    let reduced = reduced(&rt, alloc, &by_columns(&rt, alloc, &rows), 3);
    let weights = [(1, Residue::of(2147483645)), (2, Residue::of(1073741823))];
    assert!(rt; reduced.rest == row(&rt, alloc, &[(1, 10)]));
    assert_eq!(rt; reduced.weights.as_slice(), weights.as_slice());
    let last = form(&rt, alloc, &beside_the_columns(&rt, alloc, &rows), 4);
    assert!(rt; last == row(&rt, alloc, &[(1, -10)]));
}

// The same two, with a multiple of the first one between them.
fn with_a_multiple(rt: &impl Abort, alloc: Global) -> [Row; 3] {
    [
        row(rt, alloc, &[(2, 2147483646), (1, 5)]),
        row(rt, alloc, &[(2, 2147483644), (1, 15)]),
        row(rt, alloc, &[(3, 2147483645), (2, 4)]),
    ]
}

#[test]
fn forms_alone_are_those_of_the_pick(rt: HostRuntime) {
    let alloc = rt.alloc();
    let targets = [row(&rt, alloc, &[(3, 1)])];
    let found = reduced_forms(alloc, &with_a_multiple(&rt, alloc), &targets);
    let found = found.ok().expect(&rt, "memory");
    assert!(rt; found.forms.as_slice() == [row(&rt, alloc, &[(1, 10)])].as_slice());
    assert_eq!(rt; found.basis.as_slice(), [0, 2].as_slice());
}

use mono_order::{
    DegRevLex, Monomial, MonomialOrder, OverPosition, Term, TermOrder, VARIABLES, ZeroDominates,
};
use std::cmp::Ordering;
use std::process::Abort;

// The monomial of these powers of z1, z2 and z3.
fn monomial(rt: &impl Abort, first: u16, second: u16, third: u16) -> Monomial {
    let mut exponents = [0; VARIABLES];
    exponents[0] = first;
    exponents[1] = second;
    exponents[2] = third;
    Monomial::from_exponents(exponents).expect(rt, "a degree in range")
}

#[test]
fn multiples_divisors_and_quotients(rt: HostRuntime) {
    let left = monomial(&rt, 2, 0, 0);
    let right = monomial(&rt, 1, 3, 0);
    let both = monomial(&rt, 2, 3, 0);
    assert_eq!(rt; left.lcm(&right), Some(both));
    assert_eq!(rt; left.times(&right), Some(monomial(&rt, 3, 3, 0)));
    assert!(rt; left.divides(&both) && !both.divides(&left));
    assert_eq!(rt; both.degree(), 5);
    assert_eq!(rt; both.exponent(2), 3);
}

#[test]
fn the_degree_has_a_limit(rt: HostRuntime) {
    let most = monomial(&rt, 1050, 0, 0);
    assert_eq!(rt; most.times(&Monomial::variable(1)), None);
    assert_eq!(rt; most.times(&Monomial::one()), Some(most));
    assert_eq!(rt; most.lcm(&Monomial::variable(2)), None);
    assert_eq!(rt; Monomial::from_exponents([u16::MAX; VARIABLES]), None);
}

#[test]
fn the_last_variable_decides_at_equal_degree(rt: HostRuntime) {
    let square = monomial(&rt, 0, 2, 0);
    let mixed = monomial(&rt, 1, 0, 1);
    let first = Monomial::variable(1);
    assert_eq!(rt; DegRevLex::compare(&square, &mixed), Ordering::Greater);
    assert_eq!(rt;
        DegRevLex::compare(&Monomial::variable(2), &first),
        Ordering::Less
    );
    assert_eq!(rt; DegRevLex::compare(&mixed, &first), Ordering::Greater);
    assert_eq!(rt; DegRevLex::compare(&mixed, &mixed), Ordering::Equal);
}

fn order_of<O: TermOrder>(left: &Term, right: &Term) -> (Ordering, bool) {
    (O::compare(left, right), O::is_high(left.component))
}

#[test]
fn a_monomial_tells_the_sums_of_its_first_exponents(rt: HostRuntime) {
    let sums = monomial(&rt, 2, 0, 1).partial_sums();
    assert_eq!(rt; sums, [2, 2, 3, 3, 3, 3, 3, 3, 3, 3, 3, 3]);
}

fn term(component: u8, monomial: Monomial) -> Term {
    Term {
        component,
        monomial,
    }
}

#[test]
fn component_zero_is_high_where_it_dominates(rt: HostRuntime) {
    let zero = term(0, Monomial::one());
    let first = term(1, Monomial::variable(1));
    let second = term(2, Monomial::variable(1));
    let rows = [
        (
            order_of::<ZeroDominates>(&zero, &first),
            Ordering::Greater,
            true,
        ),
        (
            order_of::<ZeroDominates>(&first, &second),
            Ordering::Greater,
            false,
        ),
        (
            order_of::<OverPosition>(&zero, &first),
            Ordering::Less,
            false,
        ),
        (
            order_of::<OverPosition>(&second, &first),
            Ordering::Less,
            false,
        ),
    ];
    for (found, order, is_high) in rows {
        assert_eq!(rt; found, (order, is_high));
    }
}

use ibp_field::Residue;

#[test]
fn inverses_are_those_of_the_prime(rt: HostRuntime) {
    assert_eq!(rt; Residue::of(2).inverse(), Some(Residue::of(1073741824)));
    assert_eq!(rt; Residue::zero().inverse(), None);
}

#[test]
fn wide_numbers_are_reduced(rt: HostRuntime) {
    assert_eq!(rt; Residue::from_i64(-1).value(), 2147483646);
    assert_eq!(rt; Residue::from_i64(i64::MIN).value(), 2147483645);
    assert_eq!(rt; Residue::from_u128(u128::MAX).value(), 15);
}

#[test]
fn sums_and_products_wrap_at_the_prime(rt: HostRuntime) {
    let last = Residue::of(2147483646);
    assert_eq!(rt; last.add(Residue::of(2)), Residue::one());
    assert_eq!(rt; Residue::one().sub(Residue::of(3)), Residue::of(2147483645));
    assert_eq!(rt; last.mul(last), Residue::one());
    assert_eq!(rt; last.neg(), Residue::one());
}

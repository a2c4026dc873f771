use sector_lattice::{
    Integral, Sector, compare_sectors, is_subsector, is_subsector_of_any, lines, seed_count, seeds,
    supersectors,
};
use std::cmp::Ordering;
use std::process::Abort;
use std::test::Fail;

fn integral(rt: &impl Abort, powers: &[i16]) -> Integral {
    Integral::new(powers).expect(rt, "powers in range")
}

#[test]
fn an_integral_tells_its_powers(rt: HostRuntime) {
    let found = integral(&rt, &[1, -2, 3]);
    assert_eq!(rt; found.n(), 3);
    assert_eq!(rt; found.power(2), -2);
    assert_eq!(rt; found.sector(), Sector(5));
    assert_eq!(rt; (found.dots(), found.rank()), (2, 2));
    assert!(rt; Integral::new(&[]).is_none());
    assert!(rt; Integral::new(&[0, -1201]).is_none());
    assert!(rt; Integral::new(&[1; 13]).is_none());
}

#[test]
fn integrals_are_ordered(rt: HostRuntime) {
    for (lower, higher) in [
        ([2, 0], [1, 1]),
        ([2, 0], [0, 1]),
        ([1, -1], [2, 0]),
        ([1, 0], [1, -1]),
        ([1, 2], [2, 1]),
    ] {
        let low = integral(&rt, &lower);
        let high = integral(&rt, &higher);
        assert_eq!(rt; low.compare(&high), Ordering::Less);
        assert_eq!(rt; high.compare(&low), Ordering::Greater);
    }
}

#[test]
fn sectors_are_ordered_and_lie_in_one_another(rt: HostRuntime) {
    assert_eq!(rt; compare_sectors(Sector(7), Sector(4)), Ordering::Less);
    assert_eq!(rt; compare_sectors(Sector(3), Sector(5)), Ordering::Greater);
    assert_eq!(rt; lines(Sector(7)), 3);
    assert!(rt; is_subsector(Sector(1), Sector(5)) && !is_subsector(Sector(2), Sector(5)));
    let listed = [Sector(1), Sector(6)];
    assert!(rt; is_subsector_of_any(Sector(4), &listed));
    assert!(rt; !is_subsector_of_any(Sector(5), &listed));
}

#[test]
fn seeds_lowest_first(rt: HostRuntime) -> Result<(), Fail> {
    let found = seeds(rt.alloc(), Sector(1), 2, 1, 1)?;
    assert_eq!(rt; seed_count(Sector(1), 2, 1, 1), 4);
    assert_eq!(rt; found.as_slice().len(), 4);
    let wanted = [[1, 0], [1, -1], [2, 0], [2, -1]];
    for (seed, powers) in found.as_slice().iter().zip(wanted) {
        assert_eq!(rt; seed.powers(), powers.as_slice());
    }
    Ok(())
}

#[test]
fn supersectors_in_order(rt: HostRuntime) -> Result<(), Fail> {
    let found = supersectors(rt.alloc(), Sector(1), 3)?;
    let wanted = [Sector(7), Sector(5), Sector(3)];
    assert_eq!(rt; found.as_slice(), wanted.as_slice());
    Ok(())
}

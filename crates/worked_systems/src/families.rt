use family_file::drill_family;
use sector_lattice::Sector;
use worked_texts::family_of;

// The tadpole with caps of its own for sector 1.
const CAPPED: &str = r#"version = 2
name = "tadpole"
loops = 1
legs = 0
variables = 1
dimension = 12
baikov = "z1 + 1"
targets = [[3]]
sectors = [{ sector = [1], dots = 1, rank = 0 }]
"#;

#[test]
fn a_sector_has_the_caps_of_its_entry_and_else_the_general_ones(rt: HostRuntime) {
    let family = family_of(rt.alloc(), CAPPED).expect(&rt, "a family");
    assert!(rt; family.caps_of(Sector(1)) == (1, 0));
    assert!(rt; family.caps_of(Sector(0)) == (5, 5));
}

// The family of the drill of number 7 as a file.
const DRILL_7: &str = r#"version = 1
name = "drill"
loops = 1
legs = 3
variables = 4
dimension = 1234581
baikov = "4*s*t*u*z1 + t^2*(z2-z1)^2 + u^2*(z3-z2-s)^2 + s^2*(z4-z3+s)^2 - 2*t*u*(z2-z1)*(z3-z2-s) - 2*s*t*(z2-z1)*(z4-z3+s) - 2*s*u*(z3-z2-s)*(z4-z3+s)"
zero = [[1, 2], [2, 3], [3, 4], [1, 4]]
targets = [[1, 1, 1, 1], [2, 1, 1, 1], [1, 2, 1, 1], [1, 1, 2, 1], [1, 1, 1, 2], [1, 1, 1, -1], [1, 1, 1, -2], [1, 1, -1, 1], [1, -1, 1, 1], [-1, 1, 1, 1], [1, -1, 1, -1], [-1, 1, -1, 1]]

[numbers]
s = 8
t = 10
u = -18

[bounds]
dots_cap = 1
rank_cap = 2
"#;

#[test]
fn the_family_of_a_drill_is_that_of_its_file(rt: HostRuntime) {
    let alloc = rt.alloc();
    let drill = drill_family(alloc, 7).ok().expect(&rt, "memory");
    assert!(rt; drill == family_of(alloc, DRILL_7).expect(&rt, "a family"));
}

use neat_system::run_plain;
use std::test::Fail;
use system_text::{print_summary, print_system};
use worked_texts::{
    BUBBLE, BUBBLE_SYSTEM, PLANE, PLANE_SYSTEM, QUAD, QUAD_SYSTEM, TADPOLE, TADPOLE_SYSTEM,
    family_of,
};

#[test]
fn the_systems_of_families(rt: HostRuntime) -> Result<(), Fail> {
    let alloc = rt.alloc();
    let rows = [
        (TADPOLE, TADPOLE_SYSTEM),
        (BUBBLE, BUBBLE_SYSTEM),
        (PLANE, PLANE_SYSTEM),
        (QUAD, QUAD_SYSTEM),
    ];
    for (file, text) in rows {
        let family = family_of(alloc, file).expect(&rt, "a family");
        let system = run_plain(alloc, &family).ok().ok_or("a system")?;
        assert_eq!(rt; print_system(alloc, &system)?.as_slice(), text.as_bytes());
    }
    Ok(())
}

// The counts of the systems of the four families.
const SUMMARIES: [(u32, &str, &str); 4] = [
    (
        0,
        TADPOLE,
        "drill 0\nsectors 1\nfields 1\nrelations 2\nterms 4\ntargets 1\nend\n",
    ),
    (
        7,
        BUBBLE,
        "drill 7\nsectors 1\nfields 2\nrelations 1\nterms 2\ntargets 1\nend\n",
    ),
    (
        10,
        PLANE,
        "drill 10\nsectors 3\nfields 9\nrelations 2\nterms 3\ntargets 3\nend\n",
    ),
    (
        9999,
        QUAD,
        "drill 9999\nsectors 2\nfields 2\nrelations 1\nterms 2\ntargets 1\nend\n",
    ),
];

#[test]
fn the_summaries_of_systems(rt: HostRuntime) -> Result<(), Fail> {
    let alloc = rt.alloc();
    for (number, file, text) in SUMMARIES {
        let family = family_of(alloc, file).expect(&rt, "a family");
        let system = run_plain(alloc, &family).ok().ok_or("a system")?;
        assert_eq!(rt;
            print_summary(alloc, number, &system)?.as_slice(),
            text.as_bytes()
        );
    }
    Ok(())
}

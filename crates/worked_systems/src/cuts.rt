ghost use Rattle.std.specs.Prelude.{◌≡◌, ◌^◌};

use cut_family::{CutAnswer, CutFault, cut, lift};
use family::Family;
use neat_system::run_plain;
use sector_lattice::Sector;
use std::alloc::Global;
use std::process::Abort;
use std::test::Fail;
use system_text::print_system;
use worked_texts::{BUBBLE, QUAD, QUAD_SYSTEM, family_of};

const CUT_BUBBLE: &str = "neatibp-system 1
family bubble
sectors 1
sector 3 fields 1
field 1: 1*z1 + 2147483646, 0 ; 2*z1
relations 1
relation 1: sector 3 seed [2,1] field 1
row 1*I[2,1] 14*I[1,1]
targets 1
target [2,1]
reduces 2147483633*I[1,1]
weights 1:1
end
";

const CUT_PLANE: &str = r#"version = 1
name = "plane"
loops = 1
legs = 1
variables = 2
dimension = 17
baikov = "z1"
targets = [[1, 1]]
"#;

// How many sectors a family has.
fn sector_count(family: &Family) -> u32
    ensures { result ≡ 2 ^ family.now.n }
{
    2u32.pow(u32::from(family.n))
}

fn on_cut(
    rt: &impl Abort,
    alloc: Global,
    family: &Family,
    number: u16,
) -> Result<Family, CutAnswer> {
    assert!(rt; u32::from(number) < sector_count(family));
    cut(alloc, family, Sector(number))
}

#[test]
fn the_systems_on_cuts(rt: HostRuntime) -> Result<(), Fail> {
    let alloc = rt.alloc();
    let rows = [(BUBBLE, 2, CUT_BUBBLE), (QUAD, 0, QUAD_SYSTEM)];
    for (file, number, text) in rows {
        let family = family_of(alloc, file).expect(&rt, "a family");
        let on_cut = on_cut(&rt, alloc, &family, number)
            .ok()
            .ok_or("a cut family")?;
        let system = run_plain(alloc, &on_cut).ok().ok_or("a system")?;
        let lifted = lift(alloc, &system, Sector(number), family.n)?;
        assert_eq!(rt; print_system(alloc, &lifted)?.as_slice(), text.as_bytes());
    }
    Ok(())
}

#[test]
fn the_faults_of_cuts(rt: HostRuntime) -> Result<(), Fail> {
    let alloc = rt.alloc();
    let rows = [
        (BUBBLE, 1, CutFault::Target(1)),
        (BUBBLE, 3, CutFault::All),
        (CUT_PLANE, 1, CutFault::Zero),
    ];
    for (file, number, fault) in rows {
        let family = family_of(alloc, file).expect(&rt, "a family");
        let answer = on_cut(&rt, alloc, &family, number).err();
        assert_eq!(rt; answer, Some(CutAnswer::No(fault)));
    }
    Ok(())
}

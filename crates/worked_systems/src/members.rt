ghost use Rattle.std.specs.Prelude.{IfOk};
ghost use Rattle.mono_order.specs.declared.limits.TheConstants.{RUN_DEGREE};
ghost use Rattle.family.specs.Shapes.{IsField};

use family::{Family, StrippedField};
use family_file::{Need, read_family};
use sector_lattice::Sector;
use sector_module::{is_member, sector_basis};
use sparse_poly::copy_polynomials;
use std::alloc::Global;
use std::process::Abort;
use std::test::Fail;
use worked_texts::{BOX, BUBBLE, PLANE, QUAD, TADPOLE, family_of};

// Whether each field of the basis of a sector is in the sector's module.
fn has_members(rt: &impl Abort, alloc: Global, family: &Family, number: u16) -> bool {
    assert!(rt; u32::from(number) < 1 << family.n, "no sector");
    let sector = Sector(number);
    let basis = sector_basis(alloc, family, sector)
        .ok()
        .expect(rt, "a basis");
    for field in basis.fields() {
        if is_member(alloc, family, sector, field) != Ok(true) {
            return false;
        }
    }
    true
}

#[test]
fn each_field_of_a_basis_is_in_the_module_of_its_sector(rt: HostRuntime) {
    for file in [TADPOLE, BUBBLE, PLANE, QUAD, BOX] {
        let family = family_of(rt.alloc(), file).expect(&rt, "a family");
        let sectors: u16 = 1 << family.n;
        for number in 0..sectors {
            assert!(rt;
                has_members(&rt, rt.alloc(), &family, number),
                "at {number}"
            );
        }
    }
}

// A probe whose field is in the module of sector 1 of the plane, and one whose field is not.
const PROBES: [(&str, bool); 2] = [
    ("field = [\"1\", \"z2 + 1\"]", true),
    ("field = [\"1\", \"z2\"]", false),
];

// The field of the family's probe, as a stripped one.
fn probed(alloc: Global, family: &Family) -> Result<StrippedField, Fail>
    ensures { IfOk result (λ field. IsField family.now.n RUN_DEGREE field.c field.b) }
{
    let Some(probe) = &family.probe else {
        return Err("no probe")?;
    };
    Ok(StrippedField {
        c: copy_polynomials(alloc, probe.field.a.as_slice())?,
        b: probe.field.b.copy(alloc)?,
    })
}

// The plane, with this field in its probe.
fn plane_with(rt: &impl Abort, alloc: Global, field: &str) -> Family {
    let file = PLANE.replace(alloc, "field = [\"z1\", \"z2 + 1\"]", field);
    let file = file.ok().expect(rt, "memory");
    let family = read_family(alloc, file.as_bytes(), Need::Probe);
    family.ok().expect(rt, "a family")
}

#[test]
fn a_member_and_a_stranger(rt: HostRuntime) -> Result<(), Fail> {
    let alloc = rt.alloc();
    for (field, expected) in PROBES {
        let plane = plane_with(&rt, alloc, field);
        assert!(rt; plane.n == 2);
        let field = probed(alloc, &plane)?;
        assert!(rt; is_member(alloc, &plane, Sector(1), &field)? == expected);
    }
    Ok(())
}

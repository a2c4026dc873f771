use family::Family;
use ibp_base::List;
use sector_lattice::Sector;
use sector_module::sector_basis;
use std::alloc::Global;
use std::process::Abort;
use system_text::{SectorBlock, print_block};
use worked_texts::{
    BUBBLE, BUBBLE_SYSTEM, PLANE, PLANE_SYSTEM, TADPOLE, TADPOLE_SYSTEM, family_of,
};

// The block of the basis of a sector.
fn block_of(rt: &impl Abort, alloc: Global, family: &Family, number: u16) -> List<u8> {
    assert!(rt; u32::from(number) < 1 << family.n, "no sector");
    let sector = Sector(number);
    let basis = sector_basis(alloc, family, sector)
        .ok()
        .expect(rt, "a basis");
    let fields = basis.copy_fields(alloc).ok().expect(rt, "memory");
    let block = SectorBlock { sector, fields };
    print_block(alloc, &block).ok().expect(rt, "memory")
}

// The lines of a system's text from a line on, so many.
fn lines_of<'a>(rt: &impl Abort, text: &'a str, first: &str, end: &str) -> &'a str {
    let start = text.find(first).expect(rt, "the first line");
    let stop = text.find(end).expect(rt, "the line behind");
    text.get(start..stop).expect(rt, "lines in order")
}

#[test]
fn a_basis_is_the_block_of_its_sector_in_the_system(rt: HostRuntime) {
    let rows = [
        (TADPOLE, TADPOLE_SYSTEM, 1, "sector 1 ", "relations 2"),
        (BUBBLE, BUBBLE_SYSTEM, 3, "sector 3 ", "relations 1"),
        (PLANE, PLANE_SYSTEM, 3, "sector 3 ", "sector 2 "),
        (PLANE, PLANE_SYSTEM, 2, "sector 2 ", "sector 1 "),
        (PLANE, PLANE_SYSTEM, 1, "sector 1 ", "relations 2"),
    ];
    for (file, text, number, first, end) in rows {
        let family = family_of(rt.alloc(), file).expect(&rt, "a family");
        let block = block_of(&rt, rt.alloc(), &family, number);
        let lines = lines_of(&rt, text, first, end);
        assert_eq!(rt; block.as_slice(), lines.as_bytes(), "at {first}");
    }
}

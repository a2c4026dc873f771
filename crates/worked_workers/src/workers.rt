// Several workers at once.
use crate::gates::PairGate;
use commands::Status;
use ibp_outside::{MemorySink, MemorySource, OpenGate};
use neat_workers::run_workers;
use std::test::Fail;
use top_call::run_tool;
use worked_texts::{PLANE, PLANE_SYSTEM, QUAD, QUAD_SYSTEM, family_of, is_printed};

#[test]
fn two_workers_write_the_system_of_the_quad(rt: HostRuntime) {
    let alloc = rt.alloc();
    let family = family_of(alloc, QUAD).expect(&rt, "a family");
    let system = run_workers(&rt, alloc, &family, 2, &OpenGate);
    let system = system.ok().expect(&rt, "a system");
    assert!(rt; is_printed(alloc, &system, QUAD_SYSTEM));
}

#[test]
fn two_workers_are_at_work_at_once(rt: HostRuntime) -> Result<(), Fail> {
    let alloc = rt.alloc();
    let mut words = Vec::new(alloc);
    for word in ["system", "--workers", "2"] {
        words.push(String::from_str(alloc, word)?)?;
    }
    let bytes = Vec::from_slice(alloc, PLANE.as_bytes())?;
    let mut source = MemorySource::new(bytes, 4096, Vec::new(alloc));
    let mut sink = MemorySink::new(vec![in alloc; 0; 4096]?, 4096, Vec::new(alloc));
    let gate = PairGate::new();
    let status = run_tool(&rt, alloc, &words, &mut source, &mut sink, &gate);
    assert!(rt; status == Status::Done);
    assert_eq!(rt; sink.taken(), PLANE_SYSTEM.as_bytes());
    assert!(rt; gate.was_passed_by_two());
    Ok(())
}

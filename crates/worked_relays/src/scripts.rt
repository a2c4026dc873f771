// Two scripts on relays over the results of sectors.
use crate::relays::{job_of, opened};
use ibp_field::Residue;
use relay_core::{Event, FinishFault, NotHeld, Piece, PostFault, RelayState, Taken};
use sector_job::{Outcome, Plan, SectorResult};
use sector_lattice::{Integral, Sector};
use sparse_rows::Row;
use std::alloc::Global;
use std::process::Abort;
use worked_texts::{PLANE, QUAD, QUAD_SYSTEM, closes, plan_of, worked};

// The result of the next job, which is of this sector.
fn next_result(
    rt: &impl Abort,
    alloc: Global,
    plan: &Plan,
    relay: &mut RelayState<SectorResult>,
    worker: u32,
    number: u16,
) -> SectorResult {
    let job = job_of(rt, relay, worker);
    assert!(rt;
        job.worker == worker && job.sector == Sector(number),
        "another job"
    );
    worked(alloc, plan, &job).expect(rt, "a result")
}

// The result that a finish hands back because its sector isn't held.
fn handed_back(
    rt: &impl Abort,
    relay: &mut RelayState<SectorResult>,
    worker: u32,
    piece: SectorResult,
) -> SectorResult {
    match relay.finish(worker, piece) {
        Err(FinishFault::NotHeld(piece)) => piece,
        _ => panic!(rt; "the sector is held"),
    }
}

// The worker finishes a sector that it holds.
fn finish_held(
    rt: &impl Abort,
    relay: &mut RelayState<SectorResult>,
    worker: u32,
    piece: SectorResult,
) {
    assert!(rt; relay.finish(worker, piece).is_ok());
}

// Takes a sector and gives it back, and another worker must wait between.
fn give_back(
    rt: &impl Abort,
    relay: &mut RelayState<SectorResult>,
    worker: u32,
    other: u32,
    number: u16,
) {
    let job = job_of(rt, relay, worker);
    assert!(rt; job.sector == Sector(number), "another job");
    assert!(rt; must_wait(relay, other));
    assert!(rt; relay.give_back(worker, Sector(number)) == Ok(()));
}

// Whether the relay has no job for this worker, but may have one later.
fn must_wait(relay: &mut RelayState<SectorResult>, worker: u32) -> bool {
    matches!(relay.take(worker), Ok(Taken::NotYet))
}

fn taken(worker: u32, number: u16) -> Event {
    Event::Take {
        worker,
        sector: Sector(number),
    }
}

fn finished(worker: u32, number: u16) -> Event {
    Event::Finish {
        worker,
        sector: Sector(number),
    }
}

// What happens in the first script.
fn plane_journal() -> [Event; 8] {
    let given_back = Event::GiveBack {
        worker: 1,
        sector: Sector(3),
    };
    [
        taken(1, 3),
        given_back,
        taken(2, 3),
        finished(2, 3),
        taken(1, 2),
        taken(2, 1),
        finished(1, 2),
        finished(2, 1),
    ]
}

// The worker takes this sector, works on it and finishes it.
fn finish_next(
    rt: &impl Abort,
    alloc: Global,
    plan: &Plan,
    relay: &mut RelayState<SectorResult>,
    worker: u32,
    number: u16,
) {
    let piece = next_result(rt, alloc, plan, relay, worker, number);
    finish_held(rt, relay, worker, piece);
}

// The second worker takes sector 3. The first one cannot finish it, and there is no tail to post.
fn finish_the_first(
    rt: &impl Abort,
    alloc: Global,
    plan: &Plan,
    relay: &mut RelayState<SectorResult>,
) {
    let first = next_result(rt, alloc, plan, relay, 2, 3);
    assert!(rt;
        first.targets() == [Integral::new(&[1, 1]).expect(rt, "powers in range")].as_slice()
    );
    let first = handed_back(rt, relay, 1, first);
    assert!(rt; relay.post(2, &first, 0, 1) == Err(PostFault::NotTail { tails: 0 }));
    finish_held(rt, relay, 2, first);
}

// Two workers hold the sectors 2 and 1 at once.
fn finish_two_at_once(
    rt: &impl Abort,
    alloc: Global,
    plan: &Plan,
    relay: &mut RelayState<SectorResult>,
) {
    let second = next_result(rt, alloc, plan, relay, 1, 2);
    let third = next_result(rt, alloc, plan, relay, 2, 1);
    assert!(rt; must_wait(relay, 3));
    finish_held(rt, relay, 1, second);
    finish_held(rt, relay, 2, third);
}

fn is_at_its_end(relay: &mut RelayState<SectorResult>) -> bool {
    matches!(relay.take(3), Ok(Taken::Closed)) && relay.is_closed()
}

#[test]
fn three_sectors_go_round(rt: HostRuntime) {
    let alloc = rt.alloc();
    let plan = plan_of(alloc, PLANE).expect(&rt, "memory");
    let mut relay = opened(&rt, alloc, &plan);
    give_back(&rt, &mut relay, 1, 2, 3);
    finish_the_first(&rt, alloc, &plan, &mut relay);
    finish_two_at_once(&rt, alloc, &plan, &mut relay);
    assert!(rt; is_at_its_end(&mut relay));
    assert!(rt; relay.journal() == plane_journal().as_slice());
}

// A row's powers and coefficients, highest first.
fn has_terms(rt: &impl Abort, row: &Row, terms: &[(i16, i64)]) -> bool {
    row.terms().len() == terms.len()
        && row.terms().iter().zip(terms).all(|(term, (power, value))| {
            *term
                == (
                    Integral::new(&[*power]).expect(rt, "powers in range"),
                    Residue::from_i64(*value),
                )
        })
}

/// Whether the result of the first job of the quad has its basis, its candidates and its tail.
pub fn is_work_of_the_quad(rt: &impl Abort, piece: &SectorResult) -> bool {
    match piece.outcome() {
        Outcome::Worked {
            generators,
            candidates,
            tails,
        } => {
            generators.fields().len() == 1
                && candidates.as_slice().len() == 2
                && has_terms(rt, &candidates.as_slice()[0], &[(-1, 12)])
                && has_terms(rt, &candidates.as_slice()[1], &[(2, 2147483646), (0, 11)])
                && tails.as_slice()
                    == [Integral::new(&[0]).expect(rt, "powers in range")].as_slice()
        }
        _ => false,
    }
}

// Whether the result has these seeds with one power, and the candidates at these places as a basis.
fn is_made_at(rt: &impl Abort, piece: &SectorResult, powers: &[i16], basis: &[u32]) -> bool {
    piece.seeds().len() == powers.len()
        && piece.seeds().iter().zip(powers).all(|(seed, power)| {
            *seed == Integral::new(&[*power]).expect(rt, "powers in range")
        })
        && piece.basis() == basis
}

#[test]
fn the_quad_has_two_seeds_and_two_candidates_in_its_basis(rt: HostRuntime) {
    let alloc = rt.alloc();
    let plan = plan_of(alloc, QUAD).expect(&rt, "memory");
    let mut relay = opened(&rt, alloc, &plan);
    let piece = next_result(&rt, alloc, &plan, &mut relay, 1, 1);
    assert!(rt; is_work_of_the_quad(&rt, &piece));
    assert!(rt; is_made_at(&rt, &piece, &[1, 2], &[0, 1]));
}

// The file of the quad with one more target.
const QUAD_OF_TWO_TARGETS: &str = r#"version = 1
name = "quad"
loops = 1
legs = 0
variables = 1
dimension = 12
baikov = "z1^2 + 1"
targets = [[2], [3]]
"#;

// The result for other targets of the same sector.
fn stranger_of(rt: &impl Abort, alloc: Global) -> SectorResult {
    let plan = plan_of(alloc, QUAD_OF_TWO_TARGETS).expect(rt, "memory");
    let mut relay = opened(rt, alloc, &plan);
    next_result(rt, alloc, &plan, &mut relay, 1, 1)
}

fn is_zero_posted(rt: &impl Abort, relay: &RelayState<SectorResult>) -> bool {
    relay.targets_of(Sector(0)) == [Integral::new(&[0]).expect(rt, "powers in range")].as_slice()
}

// The first worker posts the tail of sector 1, and the second one must wait.
fn post_the_tail(
    rt: &impl Abort,
    alloc: Global,
    plan: &Plan,
    relay: &mut RelayState<SectorResult>,
) {
    let piece = next_result(rt, alloc, plan, relay, 1, 1);
    assert!(rt; is_work_of_the_quad(rt, &piece));
    assert!(rt; relay.post(1, &piece, 0, 1) == Ok(()));
    assert!(rt; is_zero_posted(rt, relay));
    assert!(rt; must_wait(relay, 2));
}

// The first worker alone can give sector 1 back. What was posted stays.
fn give_the_posted_back(rt: &impl Abort, relay: &mut RelayState<SectorResult>) {
    assert!(rt; relay.give_back(2, Sector(1)) == Err(NotHeld));
    assert!(rt; relay.give_back(1, Sector(1)) == Ok(()));
    assert!(rt; is_zero_posted(rt, relay));
}

// The second worker takes sector 1, and cannot finish it with a result for other targets.
fn finish_after_a_stranger(
    rt: &impl Abort,
    alloc: Global,
    plan: &Plan,
    relay: &mut RelayState<SectorResult>,
) {
    let piece = next_result(rt, alloc, plan, relay, 2, 1);
    let stranger = relay.finish(2, stranger_of(rt, alloc));
    assert!(rt; matches!(stranger, Err(FinishFault::Stranger(_))));
    finish_held(rt, relay, 2, piece);
}

#[test]
fn a_posted_tail_stays(rt: HostRuntime) {
    let alloc = rt.alloc();
    let plan = plan_of(alloc, QUAD).expect(&rt, "memory");
    let mut relay = opened(&rt, alloc, &plan);
    post_the_tail(&rt, alloc, &plan, &mut relay);
    give_the_posted_back(&rt, &mut relay);
    finish_after_a_stranger(&rt, alloc, &plan, &mut relay);
    finish_next(&rt, alloc, &plan, &mut relay, 2, 0);
    assert!(rt; closes(alloc, &relay, QUAD_SYSTEM));
}

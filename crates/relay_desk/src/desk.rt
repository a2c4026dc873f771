// The lock, and its seats.
ghost use Rattle.std.specs.Prelude.{◌≡◌, ◌<◌, ◌≤◌, [], IfOk, map, sum_by, vec_len, Any};
ghost use Rattle.std.specs.List.{range_with_len};
ghost use Rattle.relay_core.specs.Relay.{AllDone, finishes_in};
ghost use Rattle.relay_desk.specs.Desk.{new_place, HaveAll};
ghost use Rattle.relay_desk.specs.declared.limits.TheConstants.{WORKERS};

use crate::locked::Locked;
use crate::seat::{Seat, merged};
use ibp_base::NoMemory;
use relay_core::{Event, Piece, RelayState};
use std::alloc::Global;
use std::sync::ledger::{Blank, Ledger};
use std::sync::{Condvar, Mutex};

/// A relay that workers share. Each takes the lock and makes one call of what it guards.
#[derive(Drop)]
pub struct Desk<W: Piece, L: Ledger, C: Ledger> {
    /// The relay, with the books of the ledgers.
    pub locked: Mutex<Locked<W, L, C>>,
    /// Where workers wait until the relay has changed.
    pub changed: Condvar,
}

/// A desk with its seats, which are numbered from 1.
#[derive(Drop)]
pub struct Opened<W: Piece, L: Ledger, C: Ledger> {
    /// The desk.
    pub desk: Desk<W, L, C>,
    /// Its seats, in the order of their numbers.
    pub seats: Vec<Seat<L, C>>,
}

impl<W: Piece, L: Ledger, C: Ledger> Desk<W, L, C> {
    /// A desk over a relay in which nothing happened yet. Each seat has one part of each ledger.
    pub fn open(
        alloc: Global,
        state: RelayState<W>,
        workers: u32,
        finishes: Blank,
        closings: Blank,
    ) -> Result<Opened<W, L, C>, NoMemory>
        requires workers { (1 ≤ workers) × (workers ≤ WORKERS) }
        requires finishes { (finishes.name ≡ L.name) × (finishes.parts ≡ L.parts) × (L.parts ≡ workers) }
        requires closings { (closings.name ≡ C.name) × (closings.parts ≡ C.parts) × (C.parts ≡ workers) }
        requires fresh { state.journal ≡ [] }
        ensures seats { IfOk result (λ opened. opened.seats.items ≡ map new_place (range_with_len 1 workers)) }
        ensures whole { IfOk result (λ opened. HaveAll opened.seats.items L.parts C.parts) }
    {
        let (book, mut shares) = finishes.open::<L>();
        let (notes, mut others) = closings.open::<C>();
        let mut seats = Vec::new(alloc);
        for worker in 1..workers {
            let seat = Seat::new(worker, shares.split_off(1, 0), others.split_off(1, 0));
            seats.push(seat)?;
        }
        seats.push(Seat::new(workers, shares, others))?;
        let locked = Mutex::new(Locked::new(state, book, notes));
        let desk = Desk {
            locked,
            changed: Condvar::new(),
        };
        Ok(Opened { desk, seats })
    }

    /// The relay, and how many sectors were finished: the sum of the first shares. Where a second share is positive, all is done.
    pub fn into_state(self, seats: Vec<Seat<L, C>>) -> (RelayState<W>, u64)
        requires some { 0 < vec_len seats }
        requires whole { HaveAll seats.items L.parts C.parts }
        ensures sum { result.1 ≡ sum_by (λ place. place.finishes) seats.items }
        ensures count { result.1 ≡ finishes_in result.0.journal }
        ensures closed { Any (λ place. 0 < place.closings) seats.items → AllDone result.0.progress }
    {
        let Desk { locked, changed: _ } = self;
        let (mut finishes, mut closings) = merged(seats);
        let state = locked.into_inner().into_state(&mut finishes, &mut closings);
        let count = finish_count(state.journal());
        (state, count)
    }
}

fn finish_count(journal: &[Event]) -> u64
    ensures { result ≡ finishes_in journal.now }
{
    journal
        .iter()
        .filter(|event| matches!(event, Event::Finish { .. }))
        .count() as u64
}

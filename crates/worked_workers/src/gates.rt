// A gate that two workers pass together.
use ibp_outside::Gate;
use std::sync::atomic::{AtomicU64, Ordering};
use std::thread;

// The passes of one sector: how many there were, the number of the last one among all, and its worker.
#[derive(Drop)]
struct Passes {
    count: AtomicU64,
    place: AtomicU64,
    worker: AtomicU64,
}

impl Passes {
    const fn none() -> Passes {
        Passes {
            count: AtomicU64::new(0),
            place: AtomicU64::new(0),
            worker: AtomicU64::new(0),
        }
    }

    fn note(&self, place: u64, worker: u32) {
        self.place.store(place, Ordering::SeqCst);
        self.worker.store(u64::from(worker), Ordering::SeqCst);
        self.count.fetch_add(1, Ordering::SeqCst);
    }

    fn is_once(&self) -> bool {
        self.count.load(Ordering::SeqCst) == 1
    }
}

// So often a worker looks for the other one.
const TURNS: u32 = 1_000_000_000;

/// A gate of the plane's sectors 1, 2 and 3. A worker with sector 1 or 2 passes once the other of these has been taken,
/// or after many turns.
#[derive(Drop)]
pub struct PairGate {
    all: AtomicU64,
    first: Passes,
    second: Passes,
    third: Passes,
    alone: AtomicU64,
}

impl PairGate {
    /// The gate before any worker has come.
    pub fn new() -> PairGate {
        PairGate {
            all: AtomicU64::new(0),
            first: Passes::none(),
            second: Passes::none(),
            third: Passes::none(),
            alone: AtomicU64::new(0),
        }
    }

    fn wait_for(&self, other: &Passes) {
        for _ in 0..TURNS {
            if other.count.load(Ordering::SeqCst) > 0 {
                return;
            }
            thread::yield_now();
        }
        self.alone.fetch_add(1, Ordering::SeqCst);
    }

    /// Whether there were three passes, first of sector 3, then of sectors 1 and 2 by different workers, and nobody
    /// waited in vain.
    pub fn was_passed_by_two(&self) -> bool {
        self.all.load(Ordering::SeqCst) == 3
            && self.alone.load(Ordering::SeqCst) == 0
            && self.third.place.load(Ordering::SeqCst) == 0
            && self.first.is_once()
            && self.second.is_once()
            && self.third.is_once()
            && self.first.worker.load(Ordering::SeqCst) != self.second.worker.load(Ordering::SeqCst)
    }
}

impl Gate for PairGate {
    fn pass(&self, worker: u32, sector: u16) {
        let place = self.all.fetch_add(1, Ordering::SeqCst);
        match sector {
            1 => {
                self.first.note(place, worker);
                self.wait_for(&self.second);
            }
            2 => {
                self.second.note(place, worker);
                self.wait_for(&self.first);
            }
            3 => self.third.note(place, worker),
            _ => {}
        }
    }
}

// The shelf of the bases that idle workers work ahead.
use crate::entry::{Entry, Stand};
use family::Family;
use ibp_base::NoMemory;
use relay_core::RelayState;
use sector_job::{SectorBasis, SectorResult};
use sector_lattice::{Sector, supersectors};
use std::alloc::Global;
use std::sync::{Condvar, Mutex, Wait};

/// The bases of sectors that are worked ahead, under a lock of their own. Who holds the desk's lock may take it, and who
/// holds it takes no other. An entry that is begun stays so only until its basis is put there or given up.
#[derive(Drop)]
pub struct Shelf {
    entries: Mutex<Vec<Entry>>,
    changed: Condvar,
}

impl Shelf {
    /// A shelf for the sectors of a family that aren't zero, of which none is begun.
    pub fn of(alloc: Global, family: &Family) -> Result<Shelf, NoMemory> {
        Ok(Shelf {
            entries: Mutex::new(open_entries(alloc, family)?),
            changed: Condvar::new(),
        })
    }

    /// Claims the first sector in sector order whose basis is surely needed and that nobody has begun. Who claims a
    /// sector calls `put` for it.
    pub fn claim<R: Wait>(&self, rt: &R, relay: &RelayState<SectorResult>) -> Option<Sector> {
        for entry in self.entries.lock(rt).iter_mut() {
            if entry.is_wanted(relay) {
                entry.stand = Stand::Begun;
                return Some(entry.sector);
            }
        }
        None
    }

    /// Puts the basis of a claimed sector on the shelf, or gives the claim up where there is none, and wakes who waits
    /// for it.
    pub fn put<R: Wait>(&self, rt: &R, sector: Sector, basis: Option<SectorBasis>) {
        let stand = match basis {
            Some(basis) => Stand::Ready(basis),
            None => Stand::Gone,
        };
        set_stand(&mut self.entries.lock(rt), sector, stand);
        self.changed.notify_all();
    }

    /// Hands out the basis of a sector, once nobody works it ahead. None where it wasn't begun, or was given up: then
    /// nobody begins it ahead any more.
    pub fn hand_out<R: Wait>(&self, rt: &R, sector: Sector) -> Option<SectorBasis> {
        let guard = self.entries.lock(rt);
        let mut guard = self
            .changed
            .wait_while(rt, guard, |entries| is_begun(entries, sector));
        for entry in guard.iter_mut() {
            if entry.sector == sector {
                return entry.hand_out();
            }
        }
        None
    }
}

// Whether a worker works the basis of the sector ahead.
fn is_begun(entries: &[Entry], sector: Sector) -> bool {
    entries.iter().any(|entry| entry.is_begun(sector))
}

// Notes how the basis of the sector stands.
fn set_stand(entries: &mut [Entry], sector: Sector, stand: Stand) {
    for entry in entries.iter_mut() {
        if entry.sector == sector {
            entry.stand = stand;
            return;
        }
    }
}

// An entry for each sector of the family that isn't zero, in sector order.
fn open_entries(alloc: Global, family: &Family) -> Result<Vec<Entry>, NoMemory> {
    let empty = Sector(0);
    let above = supersectors(alloc, empty, family.n)?;
    let mut entries = Vec::new(alloc);
    for sector in above.as_slice() {
        add_open(&mut entries, family, *sector)?;
    }
    add_open(&mut entries, family, empty)?;
    Ok(entries)
}

// Adds an entry for the sector, unless it is zero.
fn add_open(entries: &mut Vec<Entry>, family: &Family, sector: Sector) -> Result<(), NoMemory> {
    if !family.is_zero(sector) {
        entries.push(Entry {
            sector,
            stand: Stand::Open,
        })?;
    }
    Ok(())
}

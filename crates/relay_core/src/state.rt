// The relay's state and its calls.
ghost use Rattle.std.specs.Prelude.{◌≡◌, ◌≢◌, ◌↔◌, ℕ, ◌≤◌, ◌<◌, ◌^◌, true, IsTrue, IsErr, IfOk, OnOk, OnErr, Ok, Err, Some, [], length, map, All};
ghost use Rattle.std.specs.List.Sorted.{IsStrictlySortedBy};
ghost use Rattle.sector_lattice.specs.Sectors.{sector_cmp, Ascends};
ghost use Rattle.relay_core.specs.Family.{book, IsReached, MeetsEquation};
ghost use Rattle.relay_core.specs.Relay.{holder_of, CanBeTaken, AllDone, Opens, Replays};
ghost use Rattle.relay_core.specs.Facts.{LieBetween, IsHeldOrDone, IsFinal};
ghost use Rattle.relay_core.specs.Jobs.{AreAlike};
ghost use Rattle.relay_core.specs.State.{Moves, Takes, HandsOutFinal, HandsOutPowers, PostAnswers, FinishAnswers};

use crate::books::{book_of, copy_of, with_all};
use crate::choice::{holder_in, is_all_done, let_go, next_sector};
use crate::entry::{enter, fits, place_in};
use crate::event::{Event, Holding};
use crate::faults::{FinishFault, NotHeld, PostFault};
use crate::job::{Job, Taken};
use crate::piece::Piece;
use ibp_base::{List, NoMemory};
use sector_lattice::{Integral, Sector};
use std::alloc::Global;
use std::marker::Model;

/// A relay: its plan, its books, who holds which sector, the finished pieces, and the journal of all that happened.
#[derive(Drop)]
pub struct RelayState<W: Piece> {
    plan: W::Plan,
    n: u8,
    books: Vec<Integral>,
    held: Vec<Holding>,
    pieces: Vec<W>,
    journal: Vec<Event>,
}

impl<W: Piece> Model for RelayState<W> {
    ghost use Rattle.std.specs.Prelude.{◌+◌, ◌≤◌, length, vec_capacity};
    ghost use Rattle.relay_core.specs.State.{Relay, seen, IsKept};

    ghost Value = { Relay W.Plan W };

    ghost view = { λ s. seen W.sector s.plan s.n s.books.items s.held.items s.pieces.items s.journal.items };

    ghost invariant = { λ s. IsKept W.opening W.are_tails W.Plan.eq W.plan W.sector W.targets (seen W.sector s.plan s.n s.books.items s.held.items s.pieces.items s.journal.items)
        × (length s.journal.items + length s.held.items ≤ vec_capacity s.journal) };
}

impl<W: Piece> RelayState<W> {
    /// A relay that opens as its plan says: the books have the targets, and nothing is held or done.
    pub fn open(
        alloc: Global,
        plan: W::Plan,
        n: u8,
        targets: &[Integral],
    ) -> Result<RelayState<W>, NoMemory>
        requires powers { n ≡ (W.opening plan).n }
        requires targets { targets.now ≡ (W.opening plan).targets }
        ensures plan { IfOk result (λ relay. (relay.plan ≡ plan) × (relay.n ≡ n)) }
        ensures opens { IfOk result (λ relay. Opens targets.now relay.progress) }
        ensures fresh { IfOk result (λ relay. (relay.pieces ≡ []) × (relay.journal ≡ [])) }
    {
        let books = with_all(alloc, &[], targets)?;
        Ok(RelayState {
            plan,
            n,
            books,
            held: Vec::new(alloc),
            pieces: Vec::new(alloc),
            journal: Vec::new(alloc),
        })
    }

    /// Hands out the first sector that can be taken. Where there is none, some sector is held, or all is done.
    pub fn take(&mut self, worker: u32) -> Result<Taken, NoMemory>
        ensures taken { IfOk result (λ taken. Takes W.are_tails worker self.old taken self.new) }

        // The book of a sector that is handed out is final.
        ensures settled { IfOk result (λ taken. HandsOutFinal W.are_tails W.opening taken self.new) }
        ensures powers { IfOk result (λ taken. HandsOutPowers self.new.n taken) }
        ensures err { OnErr result (self.new ≡ self.old) }

        // Memory is short only where a sector can be taken.
        ensures short { OnErr result ((sector : ℕ) × CanBeTaken sector self.old.progress) }
    {
        let Some(sector) = next_sector(
            self.books.as_slice(),
            self.held.as_slice(),
            self.pieces.as_slice(),
        ) else {
            if self.held.is_empty() {
                return Ok(Taken::Closed);
            }
            return Ok(Taken::NotYet);
        };
        let job = job_for(
            *self.books.allocator(),
            self.books.as_slice(),
            worker,
            sector,
        )?;
        self.journal.reserve(self.held.len() + 2)?;
        self.held.push(Holding { sector, worker })?;
        enter(&mut self.journal, Event::Take { worker, sector });
        Ok(Taken::Job(job))
    }

    /// Adds the piece's tails from a place on, up to an end, to the books.
    pub fn post(&mut self, worker: u32, piece: &W, first: u32, end: u32) -> Result<(), PostFault>
        ensures unclosed { OnOk result (¬ AllDone self.old.progress) }
        ensures answers { PostAnswers W.are_tails W.Plan.eq W.plan W.sector W.targets W.tails worker piece.now first end self.old result self.new }
        ensures err { OnErr result (self.new ≡ self.old) }
    {
        let sector = piece.sector();
        if holder_in(self.held.as_slice(), sector) != Some(worker) {
            return Err(PostFault::NotHeld);
        }
        let book = book_of(self.books.as_slice(), sector);
        if !fits(&self.plan, book, piece) {
            return Err(PostFault::Stranger);
        }
        let tails = piece.tails();
        if first > end || end as usize > tails.len() {
            return Err(PostFault::NotTail { tails: tails.len() });
        }
        let part = &tails[first as usize..end as usize];
        let alloc = *self.books.allocator();
        let Ok(books) = with_all(alloc, self.books.as_slice(), part) else {
            return Err(PostFault::NoMemory);
        };
        let Ok(()) = self.journal.reserve(self.held.len() + 1) else {
            return Err(PostFault::NoMemory);
        };
        self.books = books;
        let event = Event::Post {
            worker,
            sector,
            first,
            end,
        };
        enter(&mut self.journal, event);
        Ok(())
    }

    /// Adds all tails of the piece to the books, and keeps the piece. Its sector is done.
    pub fn finish(&mut self, worker: u32, piece: W) -> Result<(), FinishFault<W>>
        ensures unclosed { OnOk result (¬ AllDone self.old.progress) }
        ensures answers { FinishAnswers W.are_tails W.Plan.eq W.plan W.sector W.targets W.tails worker piece self.old result self.new }
        ensures err { OnErr result (self.new ≡ self.old) }
    {
        let sector = piece.sector();
        if holder_in(self.held.as_slice(), sector) != Some(worker) {
            return Err(FinishFault::NotHeld(piece));
        }
        let book = book_of(self.books.as_slice(), sector);
        if !fits(&self.plan, book, &piece) {
            return Err(FinishFault::Stranger(piece));
        }
        let alloc = *self.books.allocator();
        let Ok(books) = with_all(alloc, self.books.as_slice(), piece.tails()) else {
            return Err(FinishFault::NoMemory(piece));
        };
        let place = place_in(self.pieces.as_slice(), sector);
        if let Err(refused) = self.pieces.insert(place, piece) {
            return Err(FinishFault::NoMemory(refused.value));
        }
        self.books = books;
        let_go(&mut self.held, sector);
        enter(&mut self.journal, Event::Finish { worker, sector });
        Ok(())
    }

    /// The sector is held no longer. What was posted stays.
    pub fn give_back(&mut self, worker: u32, sector: Sector) -> Result<(), NotHeld>
        ensures ok { OnOk result (Moves W.are_tails self.old (Event.GiveBack worker sector) self.new × (self.new.pieces ≡ self.old.pieces)) }
        ensures unclosed { OnOk result (¬ AllDone self.old.progress) }
        ensures not_held { IsErr result ↔ (holder_of sector.0 self.old.progress.held ≢ Some worker) }
        ensures err { OnErr result (self.new ≡ self.old) }
    {
        if holder_in(self.held.as_slice(), sector) != Some(worker) {
            return Err(NotHeld);
        }
        let_go(&mut self.held, sector);
        enter(&mut self.journal, Event::GiveBack { worker, sector });
        Ok(())
    }

    /// Whether each sector that is reached is done. The books are then the plan's.
    pub fn is_closed(&self) -> bool
        ensures all_done { IsTrue result ↔ AllDone self.now.progress }
        ensures whole { IsTrue result → MeetsEquation (W.are_tails self.now.plan) (W.opening self.now.plan).targets self.now.progress.books }
    {
        is_all_done(self.books.as_slice(), self.pieces.as_slice())
    }

    /// The plan.
    pub fn plan(&self) -> &W::Plan
        ensures value { result.now ≡ self.now.plan }
        ensures powers { self.now.n ≡ (W.opening result.now).n }
    {
        &self.plan
    }

    /// The targets of a sector so far, which ascend. None where the sector isn't reached.
    pub fn targets_of(&self, sector: Sector) -> &[Integral]
        ensures value { result.now ≡ book sector.0 self.now.progress.books }
        ensures ascend { Ascends result.now }

        // They have the opening's, and lie within the sector's set in each family that meets the plan's equation.
        ensures between { LieBetween (W.are_tails self.now.plan) (W.opening self.now.plan).targets self.now.progress.books }

        // Once the sector is held or done they are that set, and stay.
        ensures settled { IsHeldOrDone sector.0 self.now.progress → IsFinal (W.are_tails self.now.plan) (W.opening self.now.plan).targets self.now.progress sector.0 }
    {
        book_of(self.books.as_slice(), sector)
    }

    /// All that happened, the latest last. It leads from the opening of the plan to the state.
    pub fn journal(&self) -> &[Event]
        ensures value { result.now ≡ self.now.journal }
        ensures replays { Replays (W.are_tails self.now.plan) (W.opening self.now.plan).targets result.now self.now.progress }
    {
        self.journal.as_slice()
    }

    /// The finished pieces, in sector order.
    pub fn pieces(&self) -> &[W]
        ensures value { result.now ≡ self.now.pieces }

        // There is one for each sector that is done, and no other.
        ensures done { self.now.progress.done ≡ map W.sector result.now }
        ensures ordered { IsStrictlySortedBy sector_cmp self.now.progress.done }
        ensures few { length result.now ≤ 2 ^ self.now.n }

        // Each sector that is done is reached.
        ensures reached { All (λ piece. IsReached (W.sector piece) self.now.progress.books) result.now }

        // Each is of this plan, and has its sector's book for its targets.
        ensures plans { All (λ piece. W.Plan.eq (W.plan piece) self.now.plan ≡ true) result.now }
        ensures books { All (λ piece. W.targets piece ≡ book (W.sector piece) self.now.progress.books) result.now }
    {
        self.pieces.as_slice()
    }

    /// Who holds the sector.
    pub fn holder(&self, sector: Sector) -> Option<u32>
        ensures { result ≡ holder_of sector.0 self.now.progress.held }
    {
        holder_in(self.held.as_slice(), sector)
    }

    /// Who holds which sectors, the latest taken last.
    pub fn held(&self) -> &[Holding]
        ensures { result.now ≡ self.now.progress.held }
    {
        self.held.as_slice()
    }
}

// The job of a sector that is reached.
fn job_for(alloc: Global, books: &[Integral], worker: u32, sector: Sector) -> Result<Job, NoMemory>
    requires ascend { Ascends books.now }
    requires reached { IsReached sector.0 books.now }
    requires alike { AreAlike books.now }
    ensures { IfOk result (λ job. (job.worker ≡ worker) × (job.sector ≡ sector) × (job.targets ≡ book sector.0 books.now)) }
{
    let targets = List::from_vec(copy_of(alloc, book_of(books, sector))?);
    Ok(Job {
        worker,
        sector,
        targets,
    })
}

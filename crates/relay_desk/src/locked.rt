// What the lock of a desk guards.
ghost use Rattle.std.specs.Prelude.{◌≡◌, ◌≢◌, ◌↔◌, ℕ, ◌+◌, ◌<◌, [], IsErr, OnOk, OnErr, IfOk, Ok, Some};
ghost use Rattle.relay_core.specs.Relay.{holder_of, CanBeTaken, AllDone, finishes_in};
ghost use Rattle.relay_core.specs.State.{Takes, HandsOutFinal, HandsOutPowers, PostAnswers, FinishAnswers, Moves};
ghost use Rattle.relay_desk.specs.Desk.{Place};

use crate::seat::Seat;
use ibp_base::NoMemory;
use relay_core::{Event, FinishFault, NotHeld, Piece, PostFault, RelayState, Taken};
use sector_lattice::Sector;
use std::marker::Model;
use std::sync::ledger::{Book, Ledger, Share};

/// A relay with the books of the two ledgers: the first counts the finished sectors, the second shows that all was done.
#[derive(Drop)]
pub struct Locked<W: Piece, L: Ledger, C: Ledger> {
    state: RelayState<W>,
    finishes: Book<L>,
    closings: Book<C>,
}

impl<W: Piece, L: Ledger, C: Ledger> Model for Locked<W, L, C> {
    ghost use Rattle.std.specs.Prelude.{◌≡◌, ◌<◌};
    ghost use Rattle.relay_core.specs.Relay.{AllDone, finishes_in};
    ghost use Rattle.relay_desk.specs.Desk.{Counted};

    ghost Value = { Counted W.Plan W };

    ghost view = { λ s. record { relay = s.state; finishes = s.finishes.total; closings = s.closings.total } };

    ghost invariant = { λ s. (s.finishes.total ≡ finishes_in s.state.journal) × (0 < s.closings.total → AllDone s.state.progress) };
}

impl<W: Piece, L: Ledger, C: Ledger> Locked<W, L, C> {
    /// The relay. The first ledger counts its finishes, and where the second is above 0 all is done.
    pub fn state(&self) -> &RelayState<W>
        ensures value { result.now ≡ self.now.relay }
        ensures counted { self.now.finishes ≡ finishes_in self.now.relay.journal }
        ensures closed { 0 < self.now.closings → AllDone self.now.relay.progress }
    {
        &self.state
    }

    /// Takes a sector. Where all is done the seat's second share is 1.
    pub fn take(&mut self, seat: &mut Seat<L, C>) -> Result<Taken, NoMemory>
        ensures taken { IfOk result (λ taken. Takes W.are_tails seat.old.worker self.old.relay taken self.new.relay) }

        // The book of a sector that is handed out is final.
        ensures settled { IfOk result (λ taken. HandsOutFinal W.are_tails W.opening taken self.new.relay) }
        ensures powers { IfOk result (λ taken. HandsOutPowers self.new.relay.n taken) }
        ensures closed { (result ≡ Ok Taken.Closed) → (seat.new ≡ record seat.old { closings = 1 }) }
        ensures other { (result ≢ Ok Taken.Closed) → (seat.new ≡ seat.old) }
        ensures err { OnErr result (self.new ≡ self.old) }

        // Memory is short only where a sector can be taken.
        ensures short { OnErr result ((sector : ℕ) × CanBeTaken sector self.old.relay.progress) }
    {
        let taken = self.state.take(seat.worker())?;
        if let Taken::Closed = taken {
            seat.note_closed(&mut self.closings);
        }
        Ok(taken)
    }

    /// Posts some tails of a piece.
    pub fn post(
        &mut self,
        seat: &Seat<L, C>,
        piece: &W,
        first: u32,
        end: u32,
    ) -> Result<(), PostFault>
        ensures answers { PostAnswers W.are_tails W.Plan.eq W.plan W.sector W.targets W.tails seat.now.worker piece.now first end self.old.relay result self.new.relay }
        ensures err { OnErr result (self.new ≡ self.old) }
    {
        self.state.post(seat.worker(), piece, first, end)
    }

    /// Finishes a sector, which counts in the seat's first share.
    pub fn finish(&mut self, seat: &mut Seat<L, C>, piece: W) -> Result<(), FinishFault<W>>
        ensures answers { FinishAnswers W.are_tails W.Plan.eq W.plan W.sector W.targets W.tails seat.old.worker piece self.old.relay result self.new.relay }
        ensures counted { OnOk result (seat.new ≡ record seat.old { finishes = seat.old.finishes + 1 }) }
        ensures err { OnErr result ((self.new ≡ self.old) × (seat.new ≡ seat.old)) }
    {
        self.state.finish(seat.worker(), piece)?;
        seat.count(&mut self.finishes);
        Ok(())
    }

    /// Gives a sector back.
    pub fn give_back(&mut self, seat: &Seat<L, C>, sector: Sector) -> Result<(), NotHeld>
        ensures ok { OnOk result (Moves W.are_tails self.old.relay (Event.GiveBack seat.now.worker sector) self.new.relay × (self.new.relay.pieces ≡ self.old.relay.pieces)) }
        ensures not_held { IsErr result ↔ (holder_of sector.0 self.old.relay.progress.held ≢ Some seat.now.worker) }
        ensures err { OnErr result (self.new ≡ self.old) }
    {
        self.state.give_back(seat.worker(), sector)
    }

    // A relay in which nothing happened yet, with new books.
    pub(crate) fn new(state: RelayState<W>, finishes: Book<L>, closings: Book<C>) -> Locked<W, L, C>
        requires fresh { state.journal ≡ [] }
        requires totals { (finishes.total ≡ 0) × (closings.total ≡ 0) }
        ensures { result.relay ≡ state }
    {
        Locked {
            state,
            finishes,
            closings,
        }
    }

    // The relay, by shares that have all parts.
    pub(crate) fn into_state(
        self,
        finishes: &mut Share<L>,
        closings: &mut Share<C>,
    ) -> RelayState<W>
        requires whole { (finishes.old.parts ≡ L.parts) × (closings.old.parts ≡ C.parts) }
        ensures counted { finishes.old.amount ≡ finishes_in result.journal }
        ensures closed { 0 < closings.old.amount → AllDone result.progress }
    {
        let Locked {
            state,
            finishes: mut book,
            closings: mut notes,
        } = self;
        book.audit(finishes);
        notes.audit(closings);
        state
    }
}

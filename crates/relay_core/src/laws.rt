//! Laws of the relay over all legal lists of events, for every plan of every kind of piece.
ghost use Rattle.std.specs.Prelude.{◌≡◌, ◌↔◌, ℕ, List, [], ◌∷◌, ◌++◌};
ghost use Rattle.sector_lattice.specs.declared.integral.Integral.{Integral};
ghost use Rattle.relay_core.specs.declared.event.Event.{Event};
ghost use Rattle.sector_lattice.specs.Sectors.{Ascends};
ghost use Rattle.relay_core.specs.Family.{IsMap, MeetsEquation, book, books_of};
ghost use Rattle.relay_core.specs.Relay.{Progress, Leads, Opens};
ghost use Rattle.relay_core.specs.Facts.{ReplaysPlan, HoldsAfter};

use crate::piece::Piece;

/// What holds over every legal journal of every plan.
pub fn over_every_journal<W: Piece>()
    ensures { (plan : W.Plan) (journal : List Event) (progress : Progress) → ReplaysPlan (W.are_tails plan) (W.opening plan) journal progress → HoldsAfter (W.are_tails plan) (W.opening plan) journal progress }
{}

/// At most one family meets the equation of a plan.
pub fn one_family<W: Piece>()
    ensures { (plan : W.Plan) (first second : List Integral) → MeetsEquation (W.are_tails plan) (W.opening plan).targets first → MeetsEquation (W.are_tails plan) (W.opening plan).targets second → first ≡ second }
{}

/// A journal leads to at most one state.
pub fn one_replay<W: Piece>()
    ensures { (plan : W.Plan) (journal : List Event) (first second : Progress) → ReplaysPlan (W.are_tails plan) (W.opening plan) journal first → ReplaysPlan (W.are_tails plan) (W.opening plan) journal second → first ≡ second }
{}

/// A journal tells its state by its last event: an empty one leads to the opening, and one more event leads on from where the
/// earlier ones led.
pub fn by_the_last_event<W: Piece>()
    ensures none { (plan : W.Plan) (progress : Progress) → ReplaysPlan (W.are_tails plan) (W.opening plan) [] progress ↔ Opens (W.opening plan).targets progress }
    ensures one_more { (plan : W.Plan) (journal : List Event) (event : Event) (new : Progress) → ReplaysPlan (W.are_tails plan) (W.opening plan) (journal ++ event ∷ []) new ↔ ((old : Progress) × ReplaysPlan (W.are_tails plan) (W.opening plan) journal old × Leads (W.are_tails plan) old event new) }
{}

/// A family is a finite map of books: two families with one map are one, and each map of sets is a family's.
pub fn families_are_maps_of_books()
    ensures one { (first second : List Integral) → Ascends first → Ascends second → ((sector : ℕ) → books_of first sector ≡ books_of second sector) → first ≡ second }
    ensures each { (sets : ℕ → List Integral) → IsMap sets → (family : List Integral) × Ascends family × ((sector : ℕ) → book sector family ≡ sets sector) }
{}

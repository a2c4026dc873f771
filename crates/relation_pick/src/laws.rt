//! The laws of a pick, each the contract of a function that does nothing.
ghost use Rattle.relation_pick.specs.Laws.{PickIsUnique, PickIsIrredundant, PickOfCover};

/// The same candidates and targets have at most one pick: the written places, the reduced forms and the
/// weights are determined.
pub fn one_pick()
    ensures { PickIsUnique }
{}

/// The rows of a pick are independent. They reduce each target as all candidates do, and without any one of
/// them some target has another reduced form.
pub fn pick_is_irredundant()
    ensures { PickIsIrredundant }
{}

/// Candidates that are in the span of earlier ones can be left out: a pick from the others is a pick from all,
/// where each place among the others is replaced by the place among all.
pub fn pick_of_cover()
    ensures { PickOfCover }
{}

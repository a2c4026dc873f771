//! Laws of identities, each the contract of a function that does nothing.
ghost use Rattle.ibp_relation.specs.Uniqueness.{OneRow};

/// A field has at most one identity at a seed, so at most one row.
pub fn one_row()
    ensures { OneRow }
{}

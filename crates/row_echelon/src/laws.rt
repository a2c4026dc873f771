//! Laws of rows, each the contract of a function that does nothing.
ghost use Rattle.row_echelon.specs.Laws.{FormExists, FormIsUnique, KeptSpanInserted};

/// Each row has one reduced form by the span of a list of rows, and only one.
pub fn one_reduced_form()
    ensures exists { FormExists }
    ensures unique { FormIsUnique }
{}

/// The rows that an echelon keeps span what all inserted rows span.
pub fn kept_span_inserted()
    ensures { KeptSpanInserted }
{}

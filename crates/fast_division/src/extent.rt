// Which terms a list of vectors has.
ghost use Rattle.std.specs.Prelude.{◌≡◌, ◌+◌, []};
ghost use Rattle.std.specs.Bool.{OnTrue};
ghost use Rattle.fast_division.specs.Ranks.{IsOneKind};

use crate::window::Window;
use module_vec::Vector;
use mono_order::{Monomial, TermOrder, VARIABLES};
use std::alloc::Global;

// The variables of all terms, and the components of the high terms or of the low ones, as far as they reach.
#[derive(Clone, Copy)]
pub(crate) struct Extent {
    // The terms of both kinds have none of the variables behind so many.
    variables: u8,
    // The lowest component of one kind and the highest one; where there is no term it is the other way round.
    first: u8,
    last: u8,
}

impl Extent {
    // That of the high terms of all vectors, or of their low terms.
    pub(crate) fn of<O: TermOrder>(vectors: &[Vector<O>], is_high: bool) -> Extent {
        let mut extent = Extent {
            variables: 0,
            first: u8::MAX,
            last: 0,
        };
        for vector in vectors {
            extent = extent.widened(vector, is_high);
        }
        extent
    }

    // With the terms of a vector too, and the components of its high terms, or of its low ones.
    fn widened<O: TermOrder>(self, vector: &Vector<O>, is_high: bool) -> Extent {
        let mut extent = self;
        for (term, _) in vector.terms() {
            extent = extent.with_variables(&term.monomial);
            if O::is_high(term.component) == is_high {
                extent = extent.with_component(term.component);
            }
        }
        extent
    }

    // With the variables of a monomial too.
    fn with_variables(self, monomial: &Monomial) -> Extent {
        Extent {
            variables: self.variables.max(last_variable(monomial)),
            ..self
        }
    }

    // With a component too.
    fn with_component(self, component: u8) -> Extent {
        Extent {
            first: self.first.min(component),
            last: self.last.max(component),
            ..self
        }
    }

    // The window for such terms.
    pub(crate) fn window<O: TermOrder>(self, alloc: Global) -> Window<O>
        ensures { result ≡ [] }
    {
        let variables = self.variables.max(1).min(VARIABLES as u8);
        let count = count_of_kind::<O>(self.first, self.last);
        Window::empty(alloc, variables as usize, self.first, count)
    }
}

// How many components from the first one up to the last one are high as the first one is, or low as it is, without a gap.
fn count_of_kind<O: TermOrder>(first: u8, last: u8) -> u8
    ensures { IsOneKind O.high first result }
{
    let kind = O::is_high(first);
    let mut count = 0;
    'components: while count < u8::MAX && is_of_kind::<O>(first, count, last, kind) {
        count += 1;
    }
    count
}

// Whether the component that comes so many behind the first one is not behind the last one, and is of this kind.
fn is_of_kind<O: TermOrder>(first: u8, count: u8, last: u8, kind: bool) -> bool
    ensures { OnTrue result (O.high (first + count) ≡ kind) }
{
    match first.checked_add(count) {
        Some(component) => component <= last && O::is_high(component) == kind,
        None => false,
    }
}

// The number of the last variable that the monomial has, and 1 where it has none.
fn last_variable(monomial: &Monomial) -> u8 {
    let sums = monomial.partial_sums();
    let degree = monomial.degree();
    let mut last = 1;
    'variables: while last < VARIABLES as u8 && sums[last as usize - 1] < degree {
        last += 1;
    }
    last
}

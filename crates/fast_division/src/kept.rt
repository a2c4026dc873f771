// Where the terms of multiples stand that a division took off.
ghost use Rattle.std.specs.Prelude.{◌≡◌, [], ◌∷◌, ◌++◌, IfSome, OnOk, OnErr, Contains};

use crate::lengthen::lengthen;
use ibp_base::NoMemory;
use mono_order::{Monomial, TermOrder};
use std::alloc::Global;
use std::marker::{Model, PhantomData};

// How many places are kept at most.
const ROOM: usize = 12_000_000;

// What is known of a lead: nothing, that it came once, or which row it has, from here on.
const NEW: u32 = 0;

const ONCE: u32 = 1;

const FIRST: u32 = 2;

// Which terms a dense sum has places for: those of the first variables, and of `count` components from `first` on.
#[derive(Clone, Copy, PartialEq, Eq)]
pub(crate) struct Shape {
    pub(crate) variables: usize,
    pub(crate) first: u8,
    pub(crate) count: u8,
}

// The places of terms in the dense sums of a shape.
#[derive(Drop)]
pub(crate) struct Placed {
    pub(crate) shape: Shape,
    pub(crate) places: Vec<u32>,
}

// The places of the terms behind the lead of a multiple, those of its high terms and those of its low ones.
#[derive(Drop)]
pub(crate) struct Row {
    // The number of the divisor in its list.
    pub(crate) divisor: u32,
    pub(crate) by: Monomial,
    pub(crate) high: Placed,
    pub(crate) low: Placed,
}

/// The places of the terms of multiples that divisions by a list took off more than once. Contracts see them as a list.
#[derive(Drop)]
pub struct Multiples<O: TermOrder> {
    rows: Vec<Row>,
    // By the number of a lead.
    leads: Vec<u32>,
    // How many places the rows have.
    size: usize,
    order: PhantomData<O>,
}

impl<O: TermOrder> Model for Multiples<O> {
    ghost use Rattle.std.specs.Prelude.{List};
    ghost use Rattle.fast_division.specs.declared.kept.Row.{Row};

    ghost Value = { List Row };

    ghost view = { λ m. m.rows.items };
}

impl<O: TermOrder> Multiples<O> {
    /// No multiples.
    pub fn none(alloc: Global) -> Multiples<O>
        ensures { result ≡ [] }
    {
        Multiples {
            rows: Vec::new(alloc),
            leads: Vec::new(alloc),
            size: 0,
            order: PhantomData,
        }
    }

    // The places of the multiple of a divisor by a power product, if they are kept under the number of its lead.
    pub(crate) fn find(&self, lead: usize, divisor: u32, by: &Monomial) -> Option<&Row>
        ensures { IfSome result (λ row. Contains self.now row.now × (row.now.divisor ≡ divisor) × (row.now.by ≡ by.now)) }
    {
        let number = (*self.leads.get(lead)?).checked_sub(FIRST)?;
        let row = self.rows.get(number as usize)?;
        if row.divisor == divisor && row.by == *by {
            Some(row)
        } else {
            None
        }
    }

    // Notes that a multiple came under the number of its lead. The answer is whether its places are to be kept: it comes
    // for the second time, and there is room for so many.
    pub(crate) fn note(&mut self, lead: usize, count: usize) -> bool
        ensures { self.new ≡ self.old }
    {
        if lead == 0 || lead > ROOM || self.size.saturating_add(count) > ROOM {
            return false;
        }
        if lengthen(&mut self.leads, lead + 1, NEW).is_err() {
            return false;
        }
        let known = self.leads[lead];
        self.leads[lead] = known.max(ONCE);
        known == ONCE
    }

    // Keeps the places of a multiple under the number of its lead.
    pub(crate) fn push(&mut self, lead: usize, row: Row) -> Result<(), NoMemory>
        ensures added { OnOk result (self.new ≡ self.old ++ row ∷ []) }
        ensures kept { OnErr result (self.new ≡ self.old) }
    {
        let number = self.rows.len();
        let count = row.high.places.len().saturating_add(row.low.places.len());
        self.rows.push(row)?;
        self.size = self.size.saturating_add(count);
        if lead < self.leads.len() && number < ROOM {
            self.leads[lead] = FIRST + number as u32;
        }
        Ok(())
    }
}

ghost use Rattle.std.specs.Prelude.{◌≡◌, ◌<◌, ◌^◌, [], ◌∷◌, ◌++◌, length, sum, OnOk, OnErr};
ghost use Rattle.mono_order.specs.Term.{divides_exponents};
ghost use Rattle.fast_division.specs.LeadIndex.{support_mask, entries_of, first_number, IsIndex};

use ibp_base::NoMemory;
use mono_order::{Monomial, Term, TermOrder, VARIABLES};
use std::alloc::Global;
use std::marker::{Model, PhantomData};

// What a search asks of a lead first, and the lead's number.
#[derive(Clone, Copy)]
struct Entry {
    // The variables that the lead has: bit i - 1 stands for z_i.
    mask: u16,
    degree: u16,
    number: u32,
}

// The entries of the leads of one component, in the order of the leads.
#[derive(Drop)]
struct Group {
    entries: Vec<Entry>,
}

impl Model for Group {
    ghost use Rattle.std.specs.Prelude.{List};
    ghost use Rattle.fast_division.specs.declared.index.Entry.{Entry};

    ghost Value = { List Entry };

    ghost view = { λ g. g.entries.items };
}

impl Group {
    fn empty(alloc: Global) -> Group
        ensures { result ≡ [] }
    {
        Group {
            entries: Vec::new(alloc),
        }
    }

    fn add(&mut self, entry: Entry) -> Result<(), NoMemory>
        ensures added { OnOk result (self.new ≡ self.old ++ entry ∷ []) }
        ensures kept { OnErr result (self.new ≡ self.old) }
    {
        self.entries.push(entry)?;
        Ok(())
    }

    fn entries(&self) -> &[Entry]
        ensures { result.now ≡ self.now }
    {
        &self.entries
    }
}

/// The leads of a list of vectors, kept so that the first one that divides a term is found without going
/// through them all. Contracts see the list of the leads.
#[derive(Drop)]
pub struct LeadIndex<O: TermOrder> {
    leads: Vec<Term>,
    // By component.
    groups: Vec<Group>,
    order: PhantomData<O>,
}

impl<O: TermOrder> Model for LeadIndex<O> {
    ghost use Rattle.std.specs.Prelude.{List, ℕ};
    ghost use Rattle.fast_division.specs.LeadIndex.{IsIndex};

    ghost Value = { List (ℕ × List ℕ) };

    ghost view = { λ x. x.leads.items };

    ghost invariant = { λ x. IsIndex x.groups.items x.leads.items };
}

impl<O: TermOrder> LeadIndex<O> {
    /// No leads.
    pub fn empty(alloc: Global) -> LeadIndex<O>
        ensures { result ≡ [] }
    {
        LeadIndex {
            leads: Vec::new(alloc),
            groups: Vec::new(alloc),
            order: PhantomData,
        }
    }

    /// Appends a lead.
    pub fn add(&mut self, lead: &Term) -> Result<(), NoMemory>
        requires { length self.old < 2 ^ 32 }
        ensures added { OnOk result (self.new ≡ self.old ++ lead.now ∷ []) }
        ensures kept { OnErr result (self.new ≡ self.old) }
    {
        grow(&mut self.groups, &self.leads, lead.component)?;
        add_lead(&mut self.groups, &mut self.leads, lead)
    }

    /// The number, from 0, of the first lead that divides the term.
    pub fn first_divisor(&self, term: &Term) -> Option<u32>
        ensures { result ≡ first_number 0 self.now term.now }
    {
        let component = term.component as usize;
        if component < self.groups.len() {
            first_in(self.groups[component].entries(), &self.leads, term)
        } else {
            None
        }
    }
}

// Makes groups up to that of the component.
fn grow(groups: &mut Vec<Group>, leads: &[Term], component: u8) -> Result<(), NoMemory>
    requires { IsIndex groups.old.items leads.now }
    ensures kept { IsIndex groups.new.items leads.now }
    ensures long { OnOk result (component < length groups.new.items) }
{
    let alloc = *groups.allocator();
    while groups.len() <= component as usize {
        groups.push(Group::empty(alloc))?;
    }
    Ok(())
}

// Appends a lead whose group is there.
fn add_lead(groups: &mut Vec<Group>, leads: &mut Vec<Term>, lead: &Term) -> Result<(), NoMemory>
    requires few { length leads.old.items < 2 ^ 32 }
    requires index { IsIndex groups.old.items leads.old.items }
    requires long { lead.now.0 < length groups.old.items }
    ensures index { IsIndex groups.new.items leads.new.items }
    ensures added { OnOk result (leads.new.items ≡ leads.old.items ++ lead.now ∷ []) }
    ensures kept { OnErr result (leads.new.items ≡ leads.old.items) }
{
    let entry = Entry {
        mask: support(&lead.monomial),
        degree: lead.monomial.degree(),
        number: leads.len() as u32,
    };
    leads.push(*lead)?;
    let group = &mut groups[lead.component as usize];
    match group.add(entry) {
        Ok(()) => Ok(()),
        Err(fault) => {
            leads.pop();
            Err(fault)
        }
    }
}

// The first lead that divides the term, by the entries of the term's component.
fn first_in(entries: &[Entry], leads: &[Term], term: &Term) -> Option<u32>
    requires { entries.now ≡ entries_of term.now.0 0 leads.now }
    ensures { result ≡ first_number 0 leads.now term.now }
{
    let mask = support(&term.monomial);
    let degree = term.monomial.degree();
    for entry in entries {
        let lead = &leads[entry.number as usize];
        if divides_by(entry, mask, degree, &lead.monomial, &term.monomial) {
            return Some(entry.number);
        }
    }
    None
}

// Whether the lead of the entry divides. Few leads that do not divide pass the first two tests.
fn divides_by(entry: &Entry, mask: u16, degree: u16, lead: &Monomial, monomial: &Monomial) -> bool
    requires lead_mask { entry.now.mask ≡ support_mask lead.now }
    requires lead_degree { entry.now.degree ≡ sum lead.now }
    requires mask { mask ≡ support_mask monomial.now }
    requires degree { degree ≡ sum monomial.now }
    ensures { result ≡ divides_exponents lead.now monomial.now }
{
    if entry.mask & mask != entry.mask || entry.degree > degree {
        return false;
    }
    lead.divides(monomial)
}

// The variables that the monomial has: bit i - 1 stands for z_i.
fn support(monomial: &Monomial) -> u16
    ensures { result ≡ support_mask monomial.now }
{
    let exponents = monomial.exponents();
    let mut mask = 0;
    let mut i = VARIABLES;
    while i > 0 {
        mask = 2 * mask + exponents[i - 1].min(1);
        i -= 1;
    }
    mask
}

ghost use Rattle.std.specs.Prelude.{◌≡◌, ◌+◌, ◌-◌, ◌*◌, ◌%◌, ◌<◌, ◌≤◌, ℕ, false, max, map, if◌then◌else◌, ◌==◌, [], ◌++◌, drop, sum, length, slice_index_or, slice_set, IfSome, IfOk, OnOk, OnErr};
ghost use Rattle.std.specs.Bool.{OnTrue, OnFalse};
ghost use Rattle.std.specs.List.{All};
ghost use Rattle.ibp_algebra.specs.FormalSum.{AllKeys, normal_form, scale};
ghost use Rattle.mono_order.specs.declared.limits.TheConstants.{VARIABLES, RUN_DEGREE};
ghost use Rattle.mono_order.specs.Monomial.{IsMonomial};
ghost use Rattle.module_vec.specs.ModuleVector.{SameVector, IsVector, multiply_vector};
ghost use Rattle.module_vec.specs.Division.{is_over_degree};
ghost use Rattle.fast_division.specs.PartialSums.{first_term, IsBounded};
ghost use Rattle.fast_division.specs.declared.ranks.TheConstants.{PLACES};
ghost use Rattle.fast_division.specs.Ranks.{below, place_of_term, IsOneKind, IsOfFirst, HasPlace};
ghost use Rattle.fast_division.specs.Kept.{ArePlaces};
ghost use Rattle.fast_division.specs.Windows.{vector_of, IsWindow, IsWidened, IsReached};

use crate::kept::{Placed, Shape};
use crate::lengthen::lengthen;
use crate::ranks::{PLACES, Ranks};
use ibp_base::NoMemory;
use ibp_field::Residue;
use module_vec::times;
use mono_order::{Monomial, Term, TermOrder, VARIABLES};
use std::alloc::{AllocError, Global};
use std::marker::{Model, PhantomData};

// Values that are looked at together.
const BLOCK: usize = 8;

// Where terms of the first variables stand, and of a block of components: by rank, and at equal ranks the higher
// component first.
#[derive(Drop)]
struct Places {
    ranks: Ranks,
    first: u8,
    count: u8,
}

// Residues by place.
#[derive(Drop)]
struct Cells {
    values: Vec<Residue>,
    // The term that was last put at each place. It says something only where the value is not zero.
    terms: Vec<Term>,
    // All values from this place on are zero.
    top: usize,
}

// A vector that is kept as an array of residues by the places of its terms. Contracts see the list of the vector's
// terms, greatest first by the order `O`.
#[derive(Drop)]
pub(crate) struct Window<O: TermOrder> {
    places: Places,
    cells: Cells,
    order: PhantomData<O>,
}

impl<O: TermOrder> Model for Window<O> {
    ghost use Rattle.std.specs.Prelude.{List, ℕ};
    ghost use Rattle.ibp_algebra.specs.FormalSum.{normal_form};
    ghost use Rattle.fast_division.specs.Windows.{vector_of, IsWindow};

    ghost Value = { List ((ℕ × List ℕ) × ℕ) };

    ghost view = { λ w. normal_form O.order (vector_of w.cells.terms.items w.cells.values.items) };

    ghost invariant = { λ w. IsWindow O.high w.places.ranks.0 w.places.first w.places.count w.cells.top w.cells.terms.items w.cells.values.items };
}

impl<O: TermOrder> Window<O> {
    // The zero vector, with room for terms of so many variables, and of `count` components from `first` on, which are
    // all high or all low.
    pub(crate) fn empty(alloc: Global, variables: usize, first: u8, count: u8) -> Window<O>
        requires variables { (0 < variables) × (variables ≤ VARIABLES) }
        requires kind { IsOneKind O.high first count }
        ensures { result ≡ [] }
    {
        Window {
            places: Places {
                ranks: Ranks::empty(alloc, variables),
                first,
                count,
            },
            cells: Cells {
                values: Vec::new(alloc),
                terms: Vec::new(alloc),
                top: 0,
            },
            order: PhantomData,
        }
    }

    // Adds `factor` times `by` times the terms, whose places may be known. The answer is false, and nothing changes,
    // where one of them has no place, or where there would be too many places.
    pub(crate) fn add_multiple(
        &mut self,
        known: Option<&Placed>,
        factor: Residue,
        by: &Monomial,
        terms: &[(Term, Residue)],
    ) -> Result<bool, NoMemory>
        requires vector { IsVector O.order VARIABLES terms.now }
        requires within { is_over_degree RUN_DEGREE (multiply_vector by.now terms.now) ≡ false }
        requires known { IfSome known (λ placed. ArePlaces placed.now (multiply_vector by.now terms.now)) }
        ensures sum { IfOk result (λ done. OnTrue done (self.new ≡ normal_form O.order (self.old ++ scale factor (multiply_vector by.now terms.now)))) }
        ensures refused { IfOk result (λ done. OnFalse done (self.new ≡ self.old)) }
        ensures kept { OnErr result (self.new ≡ self.old) }
    {
        if let Some(placed) = known {
            if self.add_placed(placed, factor, by, terms) {
                return Ok(true);
            }
        }
        self.add_found(factor, by, terms)
    }

    // Adds `factor` times `by` times the terms, whose places are known. The answer is false, and nothing changes, where
    // these are places of another sum, or where there is no room.
    fn add_placed(
        &mut self,
        placed: &Placed,
        factor: Residue,
        by: &Monomial,
        terms: &[(Term, Residue)],
    ) -> bool
        requires within { is_over_degree RUN_DEGREE (multiply_vector by.now terms.now) ≡ false }
        requires places { ArePlaces placed.now (multiply_vector by.now terms.now) }
        ensures sum { OnTrue result (self.new ≡ normal_form O.order (self.old ++ scale factor (multiply_vector by.now terms.now))) }
        ensures refused { OnFalse result (self.new ≡ self.old) }
    {
        let is_of_this = placed.shape == self.places.shape();
        if !is_of_this || !are_below(&placed.places, self.cells.values.len()) {
            return false;
        }
        add_at::<O>(&mut self.cells, placed, factor, by, terms);
        true
    }

    // Adds `factor` times `by` times the terms at their places. The answer is false, and nothing changes, where one of
    // them has no place, or where there would be too many places.
    fn add_found(
        &mut self,
        factor: Residue,
        by: &Monomial,
        terms: &[(Term, Residue)],
    ) -> Result<bool, NoMemory>
        requires within { is_over_degree RUN_DEGREE (multiply_vector by.now terms.now) ≡ false }
        ensures sum { IfOk result (λ done. OnTrue done (self.new ≡ normal_form O.order (self.old ++ scale factor (multiply_vector by.now terms.now)))) }
        ensures refused { IfOk result (λ done. OnFalse done (self.new ≡ self.old)) }
        ensures kept { OnErr result (self.new ≡ self.old) }
    {
        let Some(degree) = self.places.degree_of(by, terms) else {
            return Ok(false);
        };
        let Some(room) = make_ranks(&mut self.places.ranks, self.places.count, degree)? else {
            return Ok(false);
        };
        self.cells.widen(room)?;
        add_terms::<O>(&self.places, &mut self.cells, factor, by, terms);
        Ok(true)
    }

    // The places of the multiples of the terms by a power product, unless one of them has none.
    pub(crate) fn placed(
        &self,
        alloc: Global,
        by: &Monomial,
        terms: &[(Term, Residue)],
    ) -> Result<Option<Placed>, NoMemory>
        requires within { is_over_degree RUN_DEGREE (multiply_vector by.now terms.now) ≡ false }
        ensures { IfOk result (λ found. IfSome found (λ placed. ArePlaces placed (multiply_vector by.now terms.now))) }
    {
        let Some(degree) = self.places.degree_of(by, terms) else {
            return Ok(None);
        };
        if degree as usize + 1 >= self.places.ranks.degrees() {
            return Ok(None);
        }
        let Some(places) = self.places.places_of(alloc, by, terms)? else {
            return Ok(None);
        };
        Ok(Some(Placed {
            shape: self.places.shape(),
            places,
        }))
    }

    // The greatest term.
    pub(crate) fn lead(&mut self) -> Option<(Term, Residue)>
        ensures lead { result ≡ first_term self.new }
        ensures same { self.new ≡ self.old }
        ensures bounded { IsBounded O.order self.new }
    {
        self.cells.settle();
        if self.cells.top == 0 {
            return None;
        }
        let last = self.cells.top - 1;
        Some((self.cells.terms[last], self.cells.values[last]))
    }

    // Takes the greatest term off. The answer is its place.
    pub(crate) fn skip(&mut self) -> usize
        requires { 0 < length self.old }
        ensures { self.new ≡ drop 1 self.old }
    {
        self.cells.settle();
        self.cells.top -= 1;
        self.cells.values[self.cells.top] = Residue::zero();
        self.cells.top
    }
}

impl Places {
    // Which terms have places.
    fn shape(&self) -> Shape
        ensures variables { result.variables ≡ self.now.ranks.0 }
        ensures first { result.first ≡ self.now.first }
        ensures count { result.count ≡ self.now.count }
    {
        Shape {
            variables: self.ranks.variables(),
            first: self.first,
            count: self.count,
        }
    }

    // The places of the multiples of the terms by a power product, each of which has one, unless one is too great.
    fn places_of(
        &self,
        alloc: Global,
        by: &Monomial,
        terms: &[(Term, Residue)],
    ) -> Result<Option<Vec<u32>>, AllocError>
        requires within { is_over_degree RUN_DEGREE (multiply_vector by.now terms.now) ≡ false }
        requires has { AllKeys (HasPlace self.now.ranks.0 self.now.first self.now.count) (multiply_vector by.now terms.now) }
        requires degrees { AllKeys (λ t. sum t.1 < self.now.ranks.1) (multiply_vector by.now terms.now) }
        ensures { IfOk result (λ found. IfSome found (λ places. places.items ≡ map (λ t. place_of_term self.now.ranks.0 self.now.first self.now.count t.0) (multiply_vector by.now terms.now))) }
    {
        let mut places = Vec::with_capacity(alloc, terms.len())?;
        for (term, _) in terms {
            let key = times(term, by);
            let Ok(place) = u32::try_from(self.place(&key)) else {
                return Ok(None);
            };
            places.push(place)?;
        }
        Ok(Some(places))
    }

    // The greatest degree of the multiples of the terms by a power product, where each of them has a place.
    fn degree_of(&self, by: &Monomial, terms: &[(Term, Residue)]) -> Option<u16>
        requires { is_over_degree RUN_DEGREE (multiply_vector by.now terms.now) ≡ false }
        ensures places { IfSome result (λ _. AllKeys (HasPlace self.now.ranks.0 self.now.first self.now.count) (multiply_vector by.now terms.now)) }
        ensures degree { IfSome result (λ degree. AllKeys (λ t. sum t.1 ≤ degree) (multiply_vector by.now terms.now)) }
    {
        if !self.is_of_first(by) {
            return None;
        }
        let mut degree = 0;
        for (term, _) in terms {
            if !self.has(term) {
                return None;
            }
            degree = degree.max(term.monomial.degree());
        }
        Some(degree + by.degree())
    }

    // Whether the term has a place.
    fn has(&self, key: &Term) -> bool
        requires { sum key.now.1 ≤ RUN_DEGREE }
        ensures { OnTrue result (HasPlace self.now.ranks.0 self.now.first self.now.count key.now) }
    {
        let from_first = self.first <= key.component;
        let below_end = (key.component as u16) < self.first as u16 + self.count as u16;
        self.is_of_first(&key.monomial) & from_first & below_end
    }

    // Whether the power product has none of the variables behind the first ones.
    fn is_of_first(&self, monomial: &Monomial) -> bool
        ensures tested { OnTrue result (IsOfFirst self.now.ranks.0 monomial.now) }
        ensures kept { IsMonomial monomial.now }
    {
        let sums = monomial.partial_sums();
        sums[self.ranks.variables() - 1] == sums[VARIABLES - 1]
    }

    // The place of a term.
    fn place(&self, key: &Term) -> usize
        requires place { HasPlace self.now.ranks.0 self.now.first self.now.count key.now }
        requires degree { sum key.now.1 < self.now.ranks.1 }
        ensures { result ≡ place_of_term self.now.ranks.0 self.now.first self.now.count key.now }
    {
        let last = self.first as usize + self.count as usize - 1;
        self.ranks.rank(&key.monomial) * self.count as usize + (last - key.component as usize)
    }
}

// Makes ranks for all power products of at most this degree. The answer is how many places so many components need,
// unless these are too many.
fn make_ranks(ranks: &mut Ranks, count: u8, degree: u16) -> Result<Option<usize>, NoMemory>
    ensures variables { ranks.new.0 ≡ ranks.old.0 }
    ensures degrees { IfOk result (λ room. IfSome room (λ _. degree + 1 < ranks.new.1)) }
    ensures places { IfOk result (λ room. IfSome room (λ places. places ≡ below ranks.new.0 (degree + 1) * count)) }
{
    if !ranks.grow(degree)? {
        return Ok(None);
    }
    let places = ranks.count(degree) * count as usize;
    if places > PLACES as usize {
        return Ok(None);
    }
    Ok(Some(places))
}

impl Cells {
    // Makes room for so many values.
    fn widen(&mut self, places: usize) -> Result<(), NoMemory>
        requires { length self.old.values.items ≤ length self.old.terms.items }
        ensures widened { IsWidened self.old.terms.items self.new.terms.items self.old.values.items self.new.values.items }
        ensures room { OnOk result (places ≤ length self.new.values.items) }
        ensures top { self.new.top ≡ self.old.top }
    {
        let one = Term {
            component: 0,
            monomial: Monomial::one(),
        };
        lengthen(&mut self.terms, places, one)?;
        lengthen(&mut self.values, places, Residue::zero())?;
        Ok(())
    }

    // Adds a multiple of a term at its place.
    fn add(&mut self, place: usize, key: &Term, factor: Residue, value: Residue)
        requires values { place < length self.old.values.items }
        requires terms { length self.old.values.items ≤ length self.old.terms.items }
        ensures values { self.new.values.items ≡ slice_set self.old.values.items place ((slice_index_or self.old.values.items place 0 + factor * value) % 2147483647) }
        ensures terms { self.new.terms.items ≡ (if slice_index_or self.old.values.items place 0 == 0 then slice_set self.old.terms.items place key.now else self.old.terms.items) }
        ensures top { self.new.top ≡ max self.old.top (place + 1) }
    {
        let old = self.values[place];
        if old.value() == 0 {
            self.terms[place] = *key;
        }
        self.values[place] = old.add_product(factor, value);
        self.top = self.top.max(place + 1);
    }

    // Leaves out the zeros at the top.
    fn settle(&mut self)
        requires { self.old.top ≤ length self.old.values.items }
        ensures values { self.new.values.items ≡ self.old.values.items }
        ensures terms { self.new.terms.items ≡ self.old.terms.items }
        ensures top { self.new.top ≤ self.old.top }
        ensures zeros { (i : ℕ) → self.new.top ≤ i → i < self.old.top → slice_index_or self.old.values.items i 0 ≡ 0 }
        ensures last { 0 < self.new.top → 0 < slice_index_or self.old.values.items (self.new.top - 1) 0 }
    {
        'zero_blocks: while self.top >= BLOCK
            && are_zero(&self.values[self.top - BLOCK..self.top])
        {
            self.top -= BLOCK;
        }
        'zeros: while self.top > 0 && self.values[self.top - 1].value() == 0 {
            self.top -= 1;
        }
    }
}

// Whether all values of a block are zero.
fn are_zero(values: &[Residue]) -> bool
    requires { length values.now ≤ BLOCK }
    ensures { OnTrue result ((i : ℕ) → slice_index_or values.now i 0 ≡ 0) }
{
    let mut sum: u64 = 0;
    for value in values {
        sum += value.value() as u64;
    }
    sum == 0
}

// Adds `factor` times `by` times terms that have places.
fn add_terms<O: TermOrder>(
    places: &Places,
    cells: &mut Cells,
    factor: Residue,
    by: &Monomial,
    terms: &[(Term, Residue)],
)
    requires within { is_over_degree RUN_DEGREE (multiply_vector by.now terms.now) ≡ false }
    requires window { IsWindow O.high places.now.ranks.0 places.now.first places.now.count cells.old.top cells.old.terms.items cells.old.values.items }
    requires reached { AllKeys (IsReached places.now.ranks.0 places.now.first places.now.count places.now.ranks.1 (length cells.old.values.items)) (multiply_vector by.now terms.now) }
    ensures window { IsWindow O.high places.now.ranks.0 places.now.first places.now.count cells.new.top cells.new.terms.items cells.new.values.items }
    ensures sum { SameVector (vector_of cells.new.terms.items cells.new.values.items) (vector_of cells.old.terms.items cells.old.values.items ++ scale factor (multiply_vector by.now terms.now)) }
{
    for (term, value) in terms {
        let key = times(term, by);
        cells.add(places.place(&key), &key, factor, *value);
    }
}

// Adds `factor` times `by` times terms whose places are known.
fn add_at<O: TermOrder>(
    cells: &mut Cells,
    placed: &Placed,
    factor: Residue,
    by: &Monomial,
    terms: &[(Term, Residue)],
)
    requires within { is_over_degree RUN_DEGREE (multiply_vector by.now terms.now) ≡ false }
    requires window { IsWindow O.high placed.now.shape.variables placed.now.shape.first placed.now.shape.count cells.old.top cells.old.terms.items cells.old.values.items }
    requires places { ArePlaces placed.now (multiply_vector by.now terms.now) }
    requires below { All (λ place. place < length cells.old.values.items) placed.now.places.items }
    ensures window { IsWindow O.high placed.now.shape.variables placed.now.shape.first placed.now.shape.count cells.new.top cells.new.terms.items cells.new.values.items }
    ensures sum { SameVector (vector_of cells.new.terms.items cells.new.values.items) (vector_of cells.old.terms.items cells.old.values.items ++ scale factor (multiply_vector by.now terms.now)) }
{
    for (i, (term, value)) in terms.iter().enumerate() {
        let key = times(term, by);
        cells.add(placed.places[i] as usize, &key, factor, *value);
    }
}

// Whether all places are below a bound.
fn are_below(places: &[u32], bound: usize) -> bool
    ensures { OnTrue result (All (λ place. place < bound) places.now) }
{
    for place in places {
        if *place as usize >= bound {
            return false;
        }
    }
    true
}

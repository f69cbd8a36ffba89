// Whether an order of all instructions fulfils an outcome.
ghost use Rattle.std.specs.Prelude.{ℕ, ◌<◌, length, MatchOption};
ghost use Rattle.models.specs.Tells.{Tells};
ghost use Rattle.semantics.specs.Events.{Writes, WritesTo, events_of};
ghost use Rattle.semantics.specs.Lists.{Before, ListsEach};
ghost use Rattle.semantics.specs.Orders.{Visible, Latest, Fulfils};
ghost use Rattle.semantics.specs.Parts.{accesses, WritesToOne, MustPrecede, Stands, StandsAfter, PairsStand, ReadStands, ReadsStand};
ghost use Rattle.semantics.specs.Program.{Complete};

use crate::access::{Access, access_at};
use crate::pair_facts::{Pair, precedes};
use crate::placed::Placed;
use crate::values::initial_at;
use models::{Kind, Model};

// Whether x stands in the order before y.
fn before(order: &[usize], x: usize, y: usize) -> bool
    ensures { Tells result (Before order.now x y) }
{
    match order.iter().position(|&place| place == x) {
        Some(first) => order[first + 1..].contains(&y),
        None => false,
    }
}

// Whether the order lists each of the first n places once, and nothing else.
fn lists_each(order: &[usize], n: usize) -> bool
    ensures { Tells result (ListsEach (λ x. x < n) order.now) }
{
    order.iter().all(|&place| place < n)
        && (0..n).all(|x| order.contains(&x) && !before(order, x, x))
}

// An order that lists each place once, beside what it may fulfil.
#[derive(Drop)]
struct Candidate<'a, M> {
    places: &'a [Placed],
    initial: &'a [u8],
    model: &'a M,
    order: &'a [usize],
    ghost lists: { ∥ ListsEach (λ x. x < length places.now) order.now ∥₁ },
}

impl<M: Model> Candidate<'_, M> {
    // Whether w writes to the location.
    fn writes_to(&self, w: usize, location: u8) -> bool
        ensures { Tells result (WritesTo (accesses self.now.places.now) location w) }
    {
        matches!(
            access_at(self.places, w),
            Some(Access::Writing { location: to, .. }) if to == location
        )
    }

    // Whether x and y are writes to one location.
    fn one_location(&self, x: usize, y: usize) -> bool
        ensures { Tells result (WritesToOne (accesses self.now.places.now) x y) }
    {
        matches!(
            access_at(self.places, x),
            Some(Access::Writing { location, .. }) if self.writes_to(y, location)
        )
    }

    // Whether x must stand before y: the model keeps the pair, or both are writes to one location.
    fn must_precede(&self, x: usize, y: usize) -> bool
        ensures { Tells result (MustPrecede (M.Model.meaning self.now.model.now) self.now.places.now x y) }
    {
        let places = self.places;
        self.model.keeps(Pair { places, x, y }.facts()) || self.one_location(x, y)
    }

    // Whether x stands before y in the order, if it must.
    fn stands(&self, x: usize, y: usize) -> bool
        ensures { Tells result (Stands (M.Model.meaning self.now.model.now) self.now.places.now self.now.order.now x y) }
    {
        !precedes(self.places, x, y) || !self.must_precede(x, y) || before(self.order, x, y)
    }

    // Whether all that must stand before y in its thread stands before it in the order.
    fn stands_after(&self, y: usize) -> bool
        ensures { Tells result (StandsAfter (M.Model.meaning self.now.model.now) self.now.places.now self.now.order.now y) }
    {
        (0..y).all(|x| self.stands(x, y))
    }

    fn pairs_stand(&self) -> bool
        ensures { Tells result (PairsStand (M.Model.meaning self.now.model.now) self.now.places.now self.now.order.now) }
    {
        (0..self.places.len()).all(|y| self.stands_after(y))
    }

    // Whether w is a write to the location that stands before r in the order or in its thread.
    fn visible(&self, r: usize, location: u8, w: usize) -> bool
        ensures { Tells result (Visible (accesses self.now.places.now) self.now.order.now r location w) }
    {
        self.writes_to(w, location) && (before(self.order, w, r) || precedes(self.places, w, r))
    }

    // The latest of these writes in the order.
    fn latest(&self, r: usize, location: u8) -> Option<usize>
        ensures { MatchOption result ((w : ℕ) → Visible (accesses self.now.places.now) self.now.order.now r location w → ⊥) (Latest (accesses self.now.places.now) self.now.order.now r location) }
    {
        // by `?`, so that the proof speaks of what was found and not of the call
        let last = self.order.iter().rfind(|&&w| self.visible(r, location, w))?;
        Some(*last)
    }

    // Whether w writes this value to the location.
    fn writes(&self, w: usize, location: u8, value: u8) -> bool
        ensures { Tells result (Writes (accesses self.now.places.now) w location value) }
    {
        access_at(self.places, w) == Some(Access::Writing { location, value })
    }

    // Whether the read at r, if there is one, sees the expected value, and no write that follows it in its thread.
    fn read_stands(&self, r: usize) -> bool
        ensures { Tells result (ReadStands self.now.places.now self.now.initial.now self.now.order.now r) }
    {
        let Some(Access::Reading { location, value }) = access_at(self.places, r) else {
            return true;
        };
        match self.latest(r, location) {
            Some(w) => self.writes(w, location, value) && !precedes(self.places, r, w),
            None => initial_at(self.initial, location) == value,
        }
    }

    fn reads_stand(&self) -> bool
        ensures { Tells result (ReadsStand self.now.places.now self.now.initial.now self.now.order.now) }
    {
        (0..self.places.len()).all(|r| self.read_stands(r))
    }
}

// Whether each read has an expected value.
pub(crate) fn complete(places: &[Placed]) -> bool
    ensures { Tells result (Complete places.now) }
{
    places.iter().all(|placed| placed.instruction.kind() != Kind::Read || placed.expected.is_some())
}

// Whether there is an outcome, and the order fulfils it under the model. Of the parts of a test, not of the test: these
// are what a candidate and its conditions speak of.
pub(crate) fn fulfils<M: Model>(
    places: &[Placed],
    initial: &[u8],
    model: &M,
    order: &[usize],
) -> bool
    ensures { Tells result (Complete places.now × Fulfils (events_of places.now initial.now (M.Model.meaning model.now)) order.now) }
{
    if !complete(places) || !lists_each(order, places.len()) {
        return false;
    }
    let candidate = Candidate {
        places,
        initial,
        model,
        order,
    };
    candidate.pairs_stand() && candidate.reads_stand()
}

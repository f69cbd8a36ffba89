// What can be asked of a test.
ghost use Rattle.std.specs.Prelude.{◌≡◌, MatchOption};
ghost use Rattle.models.specs.Tells.{Tells};
ghost use Rattle.semantics.specs.Contents.{places_of, initial_of};
ghost use Rattle.semantics.specs.Events.{access_at, events_of};
ghost use Rattle.semantics.specs.Orders.{Fulfils};
ghost use Rattle.semantics.specs.PairFacts.{HasFacts};
ghost use Rattle.semantics.specs.Program.{Complete, Precedes, instruction_at};
ghost use Rattle.semantics.specs.Values.{stores};

use crate::access::{Access, access_at};
use crate::orders::{complete, fulfils};
use crate::pair_facts::{Pair, precedes};
use crate::test::Test;
use crate::values::value_at;
use models::{Facts, Model};

impl Test {
    // The value that the instruction at this place stores, if it is a write.
    pub fn value(&self, place: usize) -> Option<u8>
        ensures { result ≡ stores (places_of self.now) place (instruction_at (places_of self.now) place) }
    {
        value_at(self.places(), place)
    }

    // What the instruction at this place does to memory, if anything.
    pub fn access(&self, place: usize) -> Option<Access>
        ensures { result ≡ access_at (places_of self.now) place }
    {
        access_at(self.places(), place)
    }

    // The facts of x and y, if x stands before y in one thread.
    pub fn facts(&self, x: usize, y: usize) -> Option<Facts>
        ensures { MatchOption result (Precedes (places_of self.now) x y → ⊥) (λ f. Precedes (places_of self.now) x y × HasFacts (places_of self.now) x y f) }
    {
        let places = self.places();
        precedes(places, x, y).then(|| Pair { places, x, y }.facts())
    }

    // Whether each read has an expected value: these together are the outcome.
    pub fn is_complete(&self) -> bool
        ensures { Tells result (Complete (places_of self.now)) }
    {
        complete(self.places())
    }

    // Whether there is an outcome, and the order fulfils it under the model.
    pub fn fulfils<M: Model>(&self, model: &M, order: &[usize]) -> bool
        ensures { Tells result (Complete (places_of self.now) × Fulfils (events_of (places_of self.now) (initial_of self.now) (M.Model.meaning model.now)) order.now) }
    {
        fulfils(self.places(), &self.initial(), model, order)
    }
}

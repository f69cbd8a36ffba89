// The facts of an earlier and a later instruction of one thread.
ghost use Rattle.std.specs.Prelude.{◌≡◌, Bool, true, false, MatchBool};
ghost use Rattle.models.specs.Tells.{Tells};
ghost use Rattle.semantics.specs.PairFacts.{EachBetween, SomeBetween, SameAddr, DataDep, ControlDep, HasFacts};
ghost use Rattle.semantics.specs.Program.{Precedes, instruction_at};

use crate::instruction::Instruction;
use crate::placed::{Placed, place_at};
use models::{Facts, Kind};

// Whether x stands before y in one thread. No method of `Pair`: it is asked of other places than facts are.
pub(crate) fn precedes(places: &[Placed], x: usize, y: usize) -> bool
    ensures { Tells result (Precedes places.now x y) }
{
    x < y && y < places.len() && place_at(places, x).thread == place_at(places, y).thread
}

// Two places of a test. Where their facts are asked for, x stands before y in one thread.
#[derive(Clone, Copy)]
pub(crate) struct Pair<'a> {
    pub(crate) places: &'a [Placed],
    pub(crate) x: usize,
    pub(crate) y: usize,
}

impl Pair<'_> {
    // Two names for what would be one function of a place, so that the facts read as they are said.
    fn earlier(&self) -> Instruction
        ensures { result ≡ instruction_at self.now.places.now self.now.x }
    {
        place_at(self.places, self.x).instruction
    }

    fn later(&self) -> Instruction
        ensures { result ≡ instruction_at self.now.places.now self.now.y }
    {
        place_at(self.places, self.y).instruction
    }

    fn same_addr(&self) -> bool
        ensures { Tells result (SameAddr self.now.places.now self.now.x self.now.y) }
    {
        let Some(location) = self.earlier().location() else {
            return false;
        };
        self.later().location() == Some(location)
    }

    // Whether nothing between the two in their thread is such an instruction.
    fn none_between<F: Fn(Instruction) -> bool>(&self, such: F) -> bool
        requires { F.IsAlwaysCallable such }
        ensures { MatchBool result
            (EachBetween self.now.places.now self.now.x self.now.y (λ i. F.post such i false))
            (SomeBetween self.now.places.now self.now.x self.now.y (λ i. F.post such i true)) }
    {
        !(self.x..self.y).any(|z| {
            precedes(self.places, self.x, z)
                && precedes(self.places, z, self.y)
                && such(place_at(self.places, z).instruction)
        })
    }

    // Whether the later names the target of the earlier, and nothing between them has that target.
    fn data_dep(&self) -> bool
        ensures { Tells result (DataDep self.now.places.now self.now.x self.now.y) }
    {
        let Some(target) = self.earlier().target() else {
            return false;
        };
        self.later().names(target) && self.none_between(|between| between.target() == Some(target))
    }

    // Whether the earlier is a branch, and the later is the first write after it.
    fn control_dep(&self) -> bool
        ensures { Tells result (ControlDep self.now.places.now self.now.x self.now.y) }
    {
        self.earlier().kind() == Kind::Branch
            && self.later().kind() == Kind::Write
            && self.none_between(|between| between.kind() == Kind::Write)
    }

    pub(crate) fn facts(&self) -> Facts
        ensures { HasFacts self.now.places.now self.now.x self.now.y result }
    {
        Facts {
            earlier: self.earlier().kind(),
            later: self.later().kind(),
            same_addr: self.same_addr(),
            data_dep: self.data_dep(),
            control_dep: self.control_dep(),
        }
    }
}

// Formulas over the facts of a pair, and the model that keeps what a formula makes true.
ghost use Rattle.std.specs.Prelude.{◌≡◌};
ghost use Rattle.models.specs.Trees.{word_holds, holds, shape};
ghost use Rattle.models.specs.Positives;

use crate::facts::{Facts, Kind};
use crate::model::Model as MemoryModel;

// A word of a formula. `x` is the earlier instruction of a pair, `y` the later one.
#[derive(Clone, Copy, Debug, PartialEq, Eq)]
pub enum Word {
    True,
    ReadX,
    ReadY,
    WriteX,
    WriteY,
    FenceX,
    FenceY,
    SameAddr,
    DataDep,
    ControlDep,
}

impl Word {
    // Whether the word is true of a pair with these facts.
    pub fn holds(self, facts: Facts) -> bool
        ensures { result ≡ word_holds self facts }
    {
        match self {
            Word::True => true,
            Word::ReadX => facts.earlier == Kind::Read,
            Word::ReadY => facts.later == Kind::Read,
            Word::WriteX => facts.earlier == Kind::Write,
            Word::WriteY => facts.later == Kind::Write,
            Word::FenceX => facts.earlier == Kind::Fence,
            Word::FenceY => facts.later == Kind::Fence,
            Word::SameAddr => facts.same_addr,
            Word::DataDep => facts.data_dep,
            Word::ControlDep => facts.control_dep,
        }
    }
}

// A tree that owns its parts.
#[derive(Drop)]
pub enum Formula {
    Word(Word),
    // joined by `&`
    Both(Box<Formula>, Box<Formula>),
    // joined by `|`
    Either(Box<Formula>, Box<Formula>),
}

impl Formula {
    // Whether the formula is true of a pair with these facts.
    pub fn holds(&self, facts: Facts) -> bool
        ensures { result ≡ holds (shape self.now) facts }
    {
        match self {
            Formula::Word(word) => word.holds(facts),
            Formula::Both(left, right) => left.holds(facts) & right.holds(facts),
            Formula::Either(left, right) => left.holds(facts) | right.holds(facts),
        }
    }
}

impl MemoryModel for Formula {
    ghost meaning = { λ m. holds (shape m) };

    ghost positive = { λ m. Positives.positive (shape m) };

    fn keeps(&self, facts: Facts) -> bool {
        self.holds(facts)
    }
}

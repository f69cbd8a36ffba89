// Why a test is not changed.
ghost use Rattle.std.specs.Prelude.{◌≡◌, Some};
ghost use Rattle.semantics.specs.Refusals.{number_of, text_of};

use std::error::Error;
use std::fmt;

#[derive(Clone, Copy, Debug, PartialEq, Eq)]
pub enum Refusal {
    // 1: a thread over 3
    NoThread,
    // 2: a location over 3 or a register over 7
    OutOfBounds,
    // 3: no place is left
    Full,
    // 4: a fifth write to a location
    FifthWrite,
    // 5: the place names no read
    NoRead,
    // 6: there is no instruction
    Empty,
}

impl Refusal {
    // The numbers are fixed: people and scripts go by them.
    pub fn number(self) -> u8
        ensures { result ≡ number_of self }
    {
        match self {
            Refusal::NoThread => 1,
            Refusal::OutOfBounds => 2,
            Refusal::Full => 3,
            Refusal::FifthWrite => 4,
            Refusal::NoRead => 5,
            Refusal::Empty => 6,
        }
    }
}

impl fmt::Display for Refusal {
    ghost output = { λ refusal. Some (text_of refusal) };

    fn fmt<W: fmt::Write>(&self, f: &mut fmt::Formatter<W>) -> fmt::Result {
        write!(f, "refused {}", self.number())
    }
}

impl Error for Refusal {}

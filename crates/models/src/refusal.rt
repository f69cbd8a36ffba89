// Why a model could not be made.
ghost use Rattle.std.specs.Prelude.{◌≡◌, Some};
ghost use Rattle.models.specs.Refusals.{told, number_of, place_of, text_of};
ghost use Rattle.models.specs.declared.refusal.Refusal.TheVariants.{OutOfMemory};

use std::alloc::AllocError;
use std::error::Error;
use std::fmt;

#[derive(Clone, Copy, Debug, PartialEq, Eq)]
pub enum Refusal {
    // 10: a formula text of over 256 bytes
    FormulaTooLong,
    // 11: the place of the first unknown word or byte
    UnknownWord(usize),
    // 12: the words form no formula
    NoFormula,
    // 13: some beginning of the text has over 8 more opening than closing brackets
    TooDeep,
    // 17: no model has that name
    UnknownName,
    // 18: a cell over 4
    UnknownCell,
    // no memory for the formula's tree; it has no number
    OutOfMemory,
}

impl Refusal {
    // The numbers are fixed: people and scripts go by them.
    pub fn number(self) -> Option<u8>
        ensures { result ≡ number_of (told self) }
    {
        match self {
            Refusal::FormulaTooLong => Some(10),
            Refusal::UnknownWord(_) => Some(11),
            Refusal::NoFormula => Some(12),
            Refusal::TooDeep => Some(13),
            Refusal::UnknownName => Some(17),
            Refusal::UnknownCell => Some(18),
            Refusal::OutOfMemory => None,
        }
    }

    pub fn place(self) -> Option<usize>
        ensures { result ≡ place_of (told self) }
    {
        match self {
            Refusal::UnknownWord(place) => Some(place),
            _ => None,
        }
    }
}

// The number and, where there is one, the place.
impl fmt::Display for Refusal {
    ghost output = { λ e. Some (text_of (told e)) };

    fn fmt<W: fmt::Write>(&self, f: &mut fmt::Formatter<W>) -> fmt::Result {
        match (self.number(), self.place()) {
            (Some(number), Some(place)) => write!(f, "refused {number} place {place}"),
            (Some(number), None) => write!(f, "refused {number}"),
            (None, _) => f.write_str("out of memory"),
        }
    }
}

impl Error for Refusal {}

impl From<AllocError> for Refusal {
    ghost from_gives = { λ _ e. e ≡ OutOfMemory };

    fn from(_error: AllocError) -> Self {
        Self::OutOfMemory
    }
}

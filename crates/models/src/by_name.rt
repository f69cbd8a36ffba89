// The models that are had by name.
ghost use Rattle.std.specs.Prelude.{◌≡◌};
ghost use Rattle.models.specs.Named.{all_named, name_of, formula_of, Finds, Is};
ghost use Rattle.models.specs.Trees.{holds};
ghost use Rattle.models.specs.Positives;

use crate::facts::{Facts, KINDS};
use crate::model::Model as MemoryModel;
use crate::refusal::Refusal;
use crate::table::{Cell, Row, Table};
use std::str::FromStr;

const KEPT: Row = Row {
    cells: [Cell::Always; KINDS],
};

// only a fence waits
const FENCED: Row = Row {
    cells: [Cell::Free, Cell::Free, Cell::Always, Cell::Free, Cell::Free],
};

const DEPENDENT: Row = Row {
    cells: [
        Cell::Dependent,
        Cell::AnyFact,
        Cell::Always,
        Cell::Dependent,
        Cell::Dependent,
    ],
};

// sequential consistency
const SC: Table = Table {
    rows: [KEPT; KINDS],
};

// a write stays before writes and fences, and before a read of its address
const WRITE_IBM370: Row = Row {
    cells: [
        Cell::SameAddr,
        Cell::Always,
        Cell::Always,
        Cell::Free,
        Cell::Free,
    ],
};

const IBM370: Table = Table {
    rows: [KEPT, WRITE_IBM370, KEPT, FENCED, FENCED],
};

// a write stays before writes and fences
const WRITE_TSO: Row = Row {
    cells: [
        Cell::Free,
        Cell::Always,
        Cell::Always,
        Cell::Free,
        Cell::Free,
    ],
};

// total store order
const TSO: Table = Table {
    rows: [KEPT, WRITE_TSO, KEPT, FENCED, FENCED],
};

// relaxed memory order
const RMO: Table = Table {
    rows: [DEPENDENT, DEPENDENT, KEPT, DEPENDENT, DEPENDENT],
};

#[derive(Clone, Copy, Debug, PartialEq, Eq)]
pub enum Named {
    Sc,
    Ibm370,
    Tso,
    Rmo,
}

// The model with this name. The names stand here and in `name`: a case for each is plainer than a search through all.
impl FromStr for Named {
    type Err = Refusal;

    ghost from_str_gives = { Finds };

    fn from_str(name: &str) -> Result<Named, Refusal> {
        match name {
            "SC" => Ok(Named::Sc),
            "IBM370" => Ok(Named::Ibm370),
            "TSO" => Ok(Named::Tso),
            "RMO" => Ok(Named::Rmo),
            _ => Err(Refusal::UnknownName),
        }
    }
}

impl Named {
    // All of them, in the order of their list.
    pub fn all() -> [Named; 4]
        ensures { result ≡ all_named }
    {
        [Named::Sc, Named::Ibm370, Named::Tso, Named::Rmo]
    }

    // A text that a caller may keep, where `Display` would only write it.
    pub fn name(self) -> &'static str
        ensures { result.now ≡ name_of self }
    {
        match self {
            Named::Sc => "SC",
            Named::Ibm370 => "IBM370",
            Named::Tso => "TSO",
            Named::Rmo => "RMO",
        }
    }

    // The model's table, which keeps just what its formula makes true.
    #[tactic(auto, using(crate::proofs::Combinations::is_named))]
    pub fn table(self) -> Table
        ensures { Is self result }
    {
        match self {
            Named::Sc => SC,
            Named::Ibm370 => IBM370,
            Named::Tso => TSO,
            Named::Rmo => RMO,
        }
    }
}

// A named model means its formula, and answers by its table.
impl MemoryModel for Named {
    ghost meaning = { λ n. holds (formula_of n) };

    ghost positive = { λ n. Positives.positive (formula_of n) };

    fn keeps(&self, facts: Facts) -> bool {
        self.table().keeps(facts)
    }
}

// Models as tables: a row for each kind of the earlier instruction, a column for each of the later one.
ghost use Rattle.std.specs.Prelude.{◌≡◌};
ghost use Rattle.models.specs.Facts.{index};
ghost use Rattle.models.specs.Tables.{cell_number, cell_keeps, cell_of, table_keeps, MakesCell, MakesRow, MakesTable};
ghost use Rattle.std.proofs.Common.{rules};

use crate::facts::{Facts, KINDS, Kind};
use crate::model::Model as MemoryModel;
use crate::refusal::Refusal;

// When a pair of the row's and the column's kinds is kept.
#[derive(Clone, Copy, Debug, PartialEq, Eq)]
pub enum Cell {
    Free,
    Always,
    SameAddr,
    Dependent,
    AnyFact,
}

// The cell with this number, unless it is over 4.
impl TryFrom<u8> for Cell {
    type Error = Refusal;

    ghost try_from_gives = { MakesCell };

    fn try_from(number: u8) -> Result<Cell, Refusal> {
        match number {
            0 => Ok(Cell::Free),
            1 => Ok(Cell::Always),
            2 => Ok(Cell::SameAddr),
            3 => Ok(Cell::Dependent),
            4 => Ok(Cell::AnyFact),
            _ => Err(Refusal::UnknownCell),
        }
    }
}

impl From<Cell> for u8 {
    ghost from_gives = { λ cell number. number ≡ cell_number cell };

    fn from(cell: Cell) -> u8 {
        cell as u8
    }
}

impl Cell {
    pub fn keeps(self, facts: Facts) -> bool
        ensures { result ≡ cell_keeps self facts }
    {
        match self {
            Cell::Free => false,
            Cell::Always => true,
            Cell::SameAddr => facts.same_addr,
            Cell::Dependent => facts.data_dep | facts.control_dep,
            Cell::AnyFact => facts.same_addr | facts.data_dep | facts.control_dep,
        }
    }
}

// The cells of one kind of earlier instruction, by the later one's kind.
#[derive(Clone, Copy)]
pub struct Row {
    pub(crate) cells: [Cell; KINDS],
}

// Taken apart by a pattern, and so in `Table`: by `try_map` a table took seven times as long to make.
impl TryFrom<[u8; KINDS]> for Row {
    type Error = Refusal;

    ghost try_from_gives = { MakesRow };

    fn try_from(numbers: [u8; KINDS]) -> Result<Row, Refusal> {
        let [read, write, fence, arithmetic, branch] = numbers;
        let cells = [
            Cell::try_from(read)?,
            Cell::try_from(write)?,
            Cell::try_from(fence)?,
            Cell::try_from(arithmetic)?,
            Cell::try_from(branch)?,
        ];
        Ok(Row { cells })
    }
}

#[derive(Clone, Copy)]
pub struct Table {
    pub(crate) rows: [Row; KINDS],
}

// The table with these numbers, unless one of them is over 4.
impl TryFrom<[[u8; KINDS]; KINDS]> for Table {
    type Error = Refusal;

    ghost try_from_gives = { MakesTable };

    fn try_from(numbers: [[u8; KINDS]; KINDS]) -> Result<Table, Refusal> {
        let [read, write, fence, arithmetic, branch] = numbers;
        let rows = [
            Row::try_from(read)?,
            Row::try_from(write)?,
            Row::try_from(fence)?,
            Row::try_from(arithmetic)?,
            Row::try_from(branch)?,
        ];
        Ok(Table { rows })
    }
}

impl Table {
    pub fn cell(&self, earlier: Kind, later: Kind) -> Cell
        ensures { result ≡ cell_of self.now (index earlier) (index later) }
    {
        self.rows[earlier.index()].cells[later.index()]
    }
}

impl MemoryModel for Table {
    ghost meaning = { table_keeps };

    ghost positive = { Prim.search rules };

    fn keeps(&self, facts: Facts) -> bool {
        self.cell(facts.earlier, facts.later).keeps(facts)
    }
}

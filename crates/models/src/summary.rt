// A model's answers told by cells.
ghost use Rattle.std.specs.Prelude.{◌≡◌, Bool, Contains};
ghost use Rattle.models.specs.Summaries.{facts, Describes, TellsCell, TellsRow, Summarizes};
ghost use Rattle.models.specs.Tells.{Tells};
ghost use Rattle.models.specs.declared.facts.Facts.{Facts};

use crate::facts::{Facts, KINDS, Kind};
use crate::model::Model;
use crate::table::Cell;

// The pairs of two kinds: each combination of the three facts.
fn combinations(earlier: Kind, later: Kind) -> [Facts; 8]
    ensures only { (f : Facts) → Contains result f → (f.earlier ≡ earlier) × (f.later ≡ later) }
    ensures every { (s d c : Bool) → Contains result (facts earlier later s d c) }
{
    let facts = |same_addr, data_dep, control_dep| Facts {
        earlier,
        later,
        same_addr,
        data_dep,
        control_dep,
    };
    [
        facts(false, false, false),
        facts(false, false, true),
        facts(false, true, false),
        facts(false, true, true),
        facts(true, false, false),
        facts(true, false, true),
        facts(true, true, false),
        facts(true, true, true),
    ]
}

// Whether a cell says what the model keeps of all pairs of two kinds.
fn describes<M: Model>(model: &M, cell: Cell, earlier: Kind, later: Kind) -> bool
    ensures { Tells result (Describes (M.Model.meaning model.now) earlier later cell) }
{
    combinations(earlier, later)
        .iter()
        .all(|facts| model.keeps(*facts) == cell.keeps(*facts))
}

const CELLS: [Cell; 5] = [
    Cell::Free,
    Cell::Always,
    Cell::SameAddr,
    Cell::Dependent,
    Cell::AnyFact,
];

// The cell that says what a model keeps of all pairs of two kinds, where there is one.
pub fn cell_of<M: Model>(model: &M, earlier: Kind, later: Kind) -> Option<Cell>
    ensures { TellsCell (M.Model.meaning model.now) earlier later result }
{
    CELLS
        .iter()
        .find(|cell| describes(model, **cell, earlier, later))
        .copied()
}

// For each kind of the earlier instruction, and in it for each kind of the later one, the cell that says
// what a model keeps, where there is one.
pub type Summary = [[Option<Cell>; KINDS]; KINDS];

fn row_of<M: Model>(model: &M, earlier: Kind) -> [Option<Cell>; KINDS]
    ensures { TellsRow (M.Model.meaning model.now) earlier result }
{
    Kind::all().map(|later| cell_of(model, earlier, later))
}

// What a model keeps, told by cells.
pub fn summarize<M: Model>(model: &M) -> Summary
    ensures { Summarizes (M.Model.meaning model.now) result }
{
    // the closure has a contract, since the checker does not read one off a call of a generic function
    Kind::all().map(
        |earlier| -> [Option<Cell>; KINDS]
            ensures { TellsRow (M.Model.meaning model.entry.now) earlier result }
        { row_of(model, earlier) },
    )
}

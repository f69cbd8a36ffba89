// Worked examples.
ghost use Rattle.theorems.specs.Examples.{Verdicts, examples, further_examples};

// Whether an outcome is allowed under SC, IBM370, TSO and RMO.
type Ruled = [bool; 4];

const ALLOWED: Ruled = [true, true, true, true];

const FORBIDDEN: Ruled = [false, false, false, false];

const ONLY_RMO: Ruled = [false, false, false, true];

// For each of the twelve worked examples, whether its outcome is allowed under SC, IBM370, TSO and RMO.
#[tactic(auto, using(crate::proofs::Table::worked))]
pub fn verdicts() -> [[bool; 4]; 12]
    ensures { Verdicts examples result }
{
    [
        [false, true, true, true],
        ONLY_RMO,
        ONLY_RMO,
        ONLY_RMO,
        FORBIDDEN,
        FORBIDDEN,
        [false, false, true, true],
        FORBIDDEN,
        FORBIDDEN,
        ALLOWED,
        ALLOWED,
        ONLY_RMO,
    ]
}

// The same for examples that turn on dependencies, on values and on coherence. Of another length: one function over
// both lists would have to be handed the same two tables.
#[tactic(auto, using(crate::proofs::Table::further_worked))]
pub fn further_verdicts() -> [[bool; 4]; 11]
    ensures { Verdicts further_examples result }
{
    [
        ONLY_RMO, FORBIDDEN, ONLY_RMO, FORBIDDEN, FORBIDDEN, ONLY_RMO, ALLOWED, ALLOWED, FORBIDDEN,
        FORBIDDEN, FORBIDDEN,
    ]
}

// What an instruction does to memory.
ghost use Rattle.std.specs.Prelude.{◌≡◌};
ghost use Rattle.semantics.specs.Events.{access_at};

use crate::instruction::Instruction;
use crate::placed::{Placed, place_at};
use crate::values::value_at;

#[derive(Clone, Copy, Debug, PartialEq, Eq)]
pub enum Access {
    // reads the location, and the value is expected
    Reading { location: u8, value: u8 },
    // writes the value to the location
    Writing { location: u8, value: u8 },
}

// What the instruction at this place does to memory, if anything.
pub(crate) fn access_at(places: &[Placed], place: usize) -> Option<Access>
    ensures { result ≡ access_at places.now place }
{
    let placed = place_at(places, place);
    match placed.instruction {
        Instruction::Read { location, .. } => placed
            .expected
            .map(|value| Access::Reading { location, value }),
        Instruction::Write { location, .. } => {
            value_at(places, place).map(|value| Access::Writing { location, value })
        }
        _ => None,
    }
}

// How large a test may be.
ghost use Rattle.std.specs.Prelude.{◌≡◌, ℕ, ◌<◌, true, Some};
ghost use Rattle.models.specs.Tells.{Tells};
ghost use Rattle.semantics.specs.Bounds.{is_write_to, write_count, NamedInBounds, InBounds, RoomFor};

use crate::instruction::Instruction;
use crate::placed::Placed;
use crate::test::LOCATIONS;

pub(crate) const THREADS: usize = 4;

const REGISTERS: usize = 8;
// How many instructions may write to one location.
const WRITES: usize = 4;

// Whether a number, if there is one, is below the count.
fn below(number: Option<u8>, count: usize) -> bool
    ensures { Tells result ((n : ℕ) → number ≡ Some n → n < count) }
{
    number.is_none_or(|number| usize::from(number) < count)
}

fn named_in_bounds(instruction: Instruction) -> bool
    ensures { Tells result (NamedInBounds instruction) }
{
    instruction
        .named()
        .iter()
        .all(|register| below(*register, REGISTERS))
}

// Whether the location and the registers of an instruction are in bounds.
pub(crate) fn in_bounds(instruction: Instruction) -> bool
    ensures { Tells result (InBounds instruction) }
{
    below(instruction.location(), LOCATIONS)
        && below(instruction.target(), REGISTERS)
        && named_in_bounds(instruction)
}

fn writes_to(instruction: Instruction, location: u8) -> bool
    ensures { result ≡ is_write_to location instruction }
{
    matches!(instruction, Instruction::Write { location: to, .. } if to == location)
}

// How many of the instructions write to the location.
fn write_count(places: &[Placed], location: u8) -> usize
    ensures { result ≡ write_count location places.now }
{
    places
        .iter()
        .filter(|placed| writes_to(placed.instruction, location))
        .count()
}

// Whether the instruction would be no fifth write to a location.
pub(crate) fn room_for(places: &[Placed], instruction: Instruction) -> bool
    ensures { Tells result (RoomFor places.now instruction) }
{
    match instruction {
        Instruction::Write { location, .. } => write_count(places, location) < WRITES,
        _ => true,
    }
}

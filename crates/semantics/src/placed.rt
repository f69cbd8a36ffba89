// An instruction in its place.
ghost use Rattle.std.specs.Prelude.{◌≡◌};
ghost use Rattle.semantics.specs.Program.{place_at};

use crate::instruction::Instruction;

// An instruction, the thread that has it and, of a read, the value that the outcome expects of it.
#[derive(Clone, Copy, Debug, PartialEq, Eq)]
pub struct Placed {
    pub thread: u8,
    pub instruction: Instruction,
    pub expected: Option<u8>,
}

// What stands past the last place.
pub(crate) const NOTHING: Placed = Placed {
    thread: 0,
    instruction: Instruction::Fence,
    expected: None,
};

// What stands at a place.
pub(crate) fn place_at(places: &[Placed], place: usize) -> Placed
    ensures { result ≡ place_at places.now place }
{
    places.get(place).copied().unwrap_or(NOTHING)
}

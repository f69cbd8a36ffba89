// What registers hold, and what writes store.
ghost use Rattle.std.specs.Prelude.{◌≡◌, ℕ, ◌<◌, ◌≤◌, length, slice_index};
ghost use Rattle.semantics.specs.Program.{instruction_at};
ghost use Rattle.semantics.specs.Values.{held, result_of, stores};

use crate::instruction::{Instruction, Stored};
use crate::placed::Placed;

// As many registers as there are numbers in a byte, so that no index wants a bound.
const BYTE_VALUES: usize = 256;

// What an instruction puts into its target, where the registers hold this: a read yields its expected value.
fn result_of(placed: Placed, registers: &[u8; BYTE_VALUES]) -> u8
    ensures { (held : ℕ → ℕ) → ((k : ℕ) → k < BYTE_VALUES → slice_index registers.now k ≡ held k) → result ≡ result_of placed.instruction placed.expected held }
{
    match placed.instruction {
        Instruction::Read { .. } => placed.expected.unwrap_or(0),
        Instruction::Sum { first, second, .. } => {
            registers[usize::from(first)].wrapping_add(registers[usize::from(second)])
        }
        Instruction::Difference { first, second, .. } => {
            registers[usize::from(first)].wrapping_sub(registers[usize::from(second)])
        }
        _ => 0,
    }
}

// What the registers of a thread hold once it has run its instructions at the first `end` places.
fn registers_at(places: &[Placed], thread: u8, end: usize) -> [u8; BYTE_VALUES]
    requires { end ≤ length places.now }
    ensures { (length result ≡ BYTE_VALUES) × ((k : ℕ) → k < BYTE_VALUES → slice_index result k ≡ held places.now thread end k) }
{
    let mut registers = [0; BYTE_VALUES];
    for placed in &places[..end] {
        if placed.thread == thread
            && let Some(target) = placed.instruction.target()
        {
            registers[usize::from(target)] = result_of(*placed, &registers);
        }
    }
    registers
}

// The value that the instruction at this place stores, if it is a write.
pub(crate) fn value_at(places: &[Placed], place: usize) -> Option<u8>
    ensures { result ≡ stores places.now place (instruction_at places.now place) }
{
    let placed = places.get(place)?;
    match placed.instruction {
        Instruction::Write {
            stored: Stored::Constant(value),
            ..
        } => Some(value),
        Instruction::Write {
            stored: Stored::Register(register),
            ..
        } => Some(registers_at(places, placed.thread, place)[usize::from(register)]),
        _ => None,
    }
}

// The initial value of a location.
pub(crate) fn initial_at(initial: &[u8], location: u8) -> u8
    ensures { result ≡ slice_index initial.now location }
{
    initial.get(usize::from(location)).copied().unwrap_or(0)
}

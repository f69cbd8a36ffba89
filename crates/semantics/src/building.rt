// How a test is made.
ghost use Rattle.std.specs.Prelude.{◌≡◌, ◌<◌, [], length, MatchResult, ◌≢◌};
ghost use Rattle.models.specs.declared.Kind.TheVariants.{Read as ReadKind};
ghost use Rattle.semantics.specs.Building.{Entered, EnterRefused, Preset, Expected, Struck};
ghost use Rattle.semantics.specs.Contents.{places_of, initial_of, zeros};
ghost use Rattle.semantics.specs.Program.{kind_of, instruction_at, place_at};

use crate::bounds::{THREADS, in_bounds, room_for};
use crate::instruction::Instruction;
use crate::placed::{NOTHING, Placed, place_at};
use crate::refusal::Refusal;
use crate::test::{LOCATIONS, PLACES, Test};
use models::Kind;

// That a refusal changes nothing is said by each: a type cannot compare a value with what it was.
impl Test {
    // A test with no instruction, all of whose initial values are 0.
    pub fn new() -> Test
        ensures { (places_of result ≡ []) × (initial_of result ≡ zeros) }
    {
        Test {
            slots: [NOTHING; PLACES],
            len: 0,
            initial: [0; LOCATIONS],
        }
    }

    // The instructions by place.
    pub fn places(&self) -> &[Placed]
        ensures { result.now ≡ places_of self.now }
    {
        &self.slots[..self.len]
    }

    // The initial values by location.
    pub fn initial(&self) -> [u8; LOCATIONS]
        ensures { result ≡ initial_of self.now }
    {
        self.initial
    }

    // Appends an instruction of a thread, and answers its place.
    pub fn enter(&mut self, thread: u8, instruction: Instruction) -> Result<usize, Refusal>
        ensures { MatchResult result (Entered self.old self.new thread instruction) (λ e. (self.new ≡ self.old) × EnterRefused (places_of self.old) thread instruction e) }
    {
        if usize::from(thread) >= THREADS {
            return Err(Refusal::NoThread);
        }
        if !in_bounds(instruction) {
            return Err(Refusal::OutOfBounds);
        }
        let place = self.len;
        if place >= PLACES {
            return Err(Refusal::Full);
        }
        if !room_for(self.places(), instruction) {
            return Err(Refusal::FifthWrite);
        }
        self.slots[place] = Placed {
            thread,
            instruction,
            expected: None,
        };
        self.len = place + 1;
        Ok(place)
    }

    // Sets the initial value of a location.
    pub fn preset(&mut self, location: u8, value: u8) -> Result<(), Refusal>
        ensures { MatchResult result (λ _. Preset self.old self.new location value) (λ e. (self.new ≡ self.old) × (e ≡ Refusal.OutOfBounds) × (3 < location)) }
    {
        let location = usize::from(location);
        if location >= LOCATIONS {
            return Err(Refusal::OutOfBounds);
        }
        self.initial[location] = value;
        Ok(())
    }

    // Sets or replaces the expected value of a read.
    pub fn expect(&mut self, place: usize, value: u8) -> Result<(), Refusal>
        ensures { MatchResult result (λ _. Expected self.old self.new place value) (λ e. (self.new ≡ self.old) × (e ≡ Refusal.NoRead) × (kind_of (instruction_at (places_of self.old) place) ≢ ReadKind)) }
    {
        if place_at(self.places(), place).instruction.kind() != Kind::Read {
            return Err(Refusal::NoRead);
        }
        self.slots[place].expected = Some(value);
        Ok(())
    }

    // Removes the last instruction, with what is expected of it.
    pub fn strike(&mut self) -> Result<(), Refusal>
        ensures { MatchResult result (λ _. Struck self.old self.new) (λ e. (self.new ≡ self.old) × (e ≡ Refusal.Empty) × (length (places_of self.old) ≡ 0)) }
    {
        self.len = self.len.checked_sub(1).ok_or(Refusal::Empty)?;
        Ok(())
    }
}

// Instructions of a thread.
ghost use Rattle.std.specs.Prelude.{◌≡◌, ◌↔◌, ℕ, Some, Contains};
ghost use Rattle.models.specs.Tells.{Tells};
ghost use Rattle.semantics.specs.Program.{Names, kind_of, target_of, location_of};

use models::Kind;

// What a write stores.
#[derive(Clone, Copy, Debug, PartialEq, Eq)]
pub enum Stored {
    Constant(u8),
    Register(u8),
}

#[derive(Clone, Copy, Debug, PartialEq, Eq)]
pub enum Instruction {
    Read {
        location: u8,
        target: u8,
        address: Option<u8>,
    },
    Write {
        location: u8,
        stored: Stored,
        address: Option<u8>,
    },
    Fence,
    // the target gets the sum of the two, modulo 256
    Sum {
        target: u8,
        first: u8,
        second: u8,
    },
    // the target gets the first less the second, modulo 256
    Difference {
        target: u8,
        first: u8,
        second: u8,
    },
    // goes on with the next instruction, whatever the source holds
    Branch {
        source: u8,
    },
}

impl Instruction {
    pub fn kind(self) -> Kind
        ensures { result ≡ kind_of self }
    {
        match self {
            Instruction::Read { .. } => Kind::Read,
            Instruction::Write { .. } => Kind::Write,
            Instruction::Fence => Kind::Fence,
            Instruction::Sum { .. } | Instruction::Difference { .. } => Kind::Arithmetic,
            Instruction::Branch { .. } => Kind::Branch,
        }
    }

    // The location that a read or a write accesses.
    pub fn location(self) -> Option<u8>
        ensures { result ≡ location_of self }
    {
        match self {
            Instruction::Read { location, .. } | Instruction::Write { location, .. } => {
                Some(location)
            }
            _ => None,
        }
    }

    // The register that the instruction sets.
    pub fn target(self) -> Option<u8>
        ensures { result ≡ target_of self }
    {
        match self {
            Instruction::Read { target, .. }
            | Instruction::Sum { target, .. }
            | Instruction::Difference { target, .. } => Some(target),
            _ => None,
        }
    }

    // The registers that the instruction names as sources or as its address register.
    pub(crate) fn named(self) -> [Option<u8>; 2]
        ensures { (register : ℕ) → Contains result (Some register) ↔ Names self register }
    {
        match self {
            Instruction::Read { address, .. }
            | Instruction::Write {
                stored: Stored::Constant(_),
                address,
                ..
            } => [None, address],
            Instruction::Write {
                stored: Stored::Register(source),
                address,
                ..
            } => [Some(source), address],
            Instruction::Fence => [None, None],
            Instruction::Sum { first, second, .. }
            | Instruction::Difference { first, second, .. } => [Some(first), Some(second)],
            Instruction::Branch { source } => [Some(source), None],
        }
    }

    // Whether the instruction names this register as a source or as its address register.
    pub fn names(self, register: u8) -> bool
        ensures { Tells result (Names self register) }
    {
        self.named().contains(&Some(register))
    }
}

// A test: the instructions of some threads by place, what is expected of the reads, and the initial values.
ghost use Rattle.semantics.specs.Bounds.{Bounded};

use crate::placed::Placed;

// How many places a test has room for.
pub const PLACES: usize = 32;

pub const LOCATIONS: usize = 4;

// Fixed memory with a length beside it: a test is copied by value, and no call fails for want of memory.
// Contracts see it through `places_of` and `initial_of`, not an `impl Model`: what is `Copy` would have to be had back
// from its view, and the slots past the length cannot be.
#[derive(Clone, Copy)]
pub struct Test {
    pub(crate) slots: [Placed; PLACES],
    pub(crate) len: usize,
    pub(crate) initial: [u8; LOCATIONS],
    ghost bounded: { Bounded slots len initial },
}

// Small parallel programs, and what an outcome of one is.
#![tactic(auto)]

mod access;
mod bounds;
mod building;
mod instruction;
mod orders;
mod pair_facts;
mod placed;
mod questions;
mod refusal;
mod test;
mod values;

pub use access::Access;
pub use instruction::{Instruction, Stored};
pub use placed::Placed;
pub use refusal::Refusal;
pub use test::{LOCATIONS, PLACES, Test};

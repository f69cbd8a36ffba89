// What is true of every test and every model: each theorem is the contract of a function.
#![tactic(auto)]

mod laws;
mod witness;
mod worked;

pub use laws::{
    address_dependencies_only_forbid, bridge, registers_hold_what_was_set_last,
    stronger_models_only_forbid,
};
pub use witness::witnesses;
pub use worked::{further_verdicts, verdicts};

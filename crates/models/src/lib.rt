// Models of what a processor may not reorder.
#![tactic(auto)]

mod by_name;
mod facts;
mod formula;
mod model;
mod pair;
mod refusal;
mod summary;
mod table;

pub use by_name::Named;
pub use facts::{Facts, KINDS, Kind};
pub use formula::{Formula, Word};
pub use model::Model;
pub use pair::{Both, Either};
pub use refusal::Refusal;
pub use summary::{Summary, cell_of, summarize};
pub use table::{Cell, Table};

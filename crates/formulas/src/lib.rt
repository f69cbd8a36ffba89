// Formula texts read as models.
#![tactic(auto)]

mod depth;
mod lexer;
mod reader;
mod texts;
mod token;

pub use reader::parse;
pub use texts::formula_text;

// What the model that was asked for keeps, told by cells, or why there is no such model.
ghost use Rattle.litmus.specs.Chosen.{Answers, FindsTwo};

use crate::request::Choice;
use formulas::parse;
use models::{Both, Either, Named, Refusal, Summary, Table, summarize};
use std::alloc::Global;

// The models with these names.
fn both_named(first: &str, second: &str) -> Result<(Named, Named), Refusal>
    ensures { FindsTwo first.now second.now result }
{
    Ok((first.parse()?, second.parse()?))
}

pub fn summary_of(heap: Global, choice: Choice<'_>) -> Result<Summary, Refusal>
    ensures { Answers choice.entry result }
{
    match choice {
        Choice::Name(name) => Ok(summarize(&name.parse::<Named>()?)),
        Choice::Formula(text) => Ok(summarize(&parse(heap, text.as_bytes())?)),
        Choice::Table(numbers) => Ok(summarize(&Table::try_from(numbers)?)),
        Choice::Either(first, second) => {
            let (first, second) = both_named(first, second)?;
            Ok(summarize(&Either { first, second }))
        }
        Choice::Both(first, second) => {
            let (first, second) = both_named(first, second)?;
            Ok(summarize(&Both { first, second }))
        }
    }
}

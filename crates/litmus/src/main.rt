// The command `litmus`.
#![tactic(auto)]

mod chosen;
mod request;

ghost use Rattle.std.specs.Prelude.{◌≡◌, if◌then◌else◌};
ghost use Rattle.litmus.specs.Requests.{shown};

use chosen::summary_of;
use models::{Cell, Named, Refusal, Summary, summarize};
use request::{Request, read_request};
use std::process::ExitCode;
use std::{env, io};
use theorems::verdicts;

const USAGE: &str = "usage: litmus models
       litmus keeps MODEL
       litmus examples
       litmus help

examples prints worked examples with their rulings under SC, IBM370, TSO and RMO:
A is allowed, F forbidden; b=0 is a read that expects 0, and bars part threads.

models prints the four named models, keeps prints what MODEL keeps in program order:
a row for each kind of the earlier instruction and in it a column for each kind of
the later one, both in the order read, write, fence, arithmetic, branch. A pair is
kept: 0 never, 1 always, 2 on the same address, 3 on a data or control dependency,
4 on any of these three, ? in another way.

MODEL is one of
  SC, IBM370, TSO, RMO
  formula TEXT                 TEXT is one argument, as 'Write.x & Write.y | Read.x'
  table ROW ROW ROW ROW ROW    each ROW has five digits, as above
  either NAME NAME             what one or the other of two named models keeps
  both NAME NAME               what both keep
";

// A function, since `Option` can have no `Display` of ours; the characters are written out to be seen.
fn symbol(cell: Option<Cell>) -> char
    ensures { result ≡ shown cell }
{
    match cell {
        Some(Cell::Free) => '0',
        Some(Cell::Always) => '1',
        Some(Cell::SameAddr) => '2',
        Some(Cell::Dependent) => '3',
        Some(Cell::AnyFact) => '4',
        None => '?',
    }
}

// Prints what a model keeps, a line for each row.
fn show(rt: &HostRuntime, summary: Summary) -> io::Result<()> {
    for row in summary {
        for cell in row {
            rt.print(symbol(cell))?;
        }
        rt.println("")?;
    }
    Ok(())
}

fn show_models(rt: &HostRuntime) -> io::Result<()> {
    for named in Named::all() {
        rt.println(named.name())?;
        show(rt, summarize(&named))?;
    }
    Ok(())
}

// The worked examples in words, beside their rulings by place: these are promised by a crate that prints nothing.
const EXAMPLES: [&str; 12] = [
    "1. W a 1, b=0 | W b 1, a=0",
    "2. W a 1, W b 1 | b=1, a=0",
    "3. W a 1 | a=1, a=0",
    "4. a=1, W b 1 | b=1, W a 1",
    "5. as 4, each write storing the register just read",
    "6. as 1 with a fence between in both threads",
    "7. W a 1, a=1, b=0 | W b 1, b=1, a=0",
    "8. W a 1, a=0",
    "9. a=1, W a 1",
    "10. a=7 alone, initial value 7",
    "11. no instruction",
    "12. W a 1 | W b 1 | a=1, b=0 | b=1, a=0",
];

// A function, since `bool` has another `Display`.
fn ruling(allowed: bool) -> char
    ensures { result ≡ (if allowed then 65 else 70) }
{
    if allowed { 'A' } else { 'F' }
}

fn show_examples(rt: &HostRuntime) -> io::Result<()> {
    for (example, row) in EXAMPLES.iter().zip(verdicts().iter()) {
        for allowed in row {
            rt.print(ruling(*allowed))?;
            rt.print(' ')?;
        }
        rt.println(*example)?;
    }
    Ok(())
}

fn answer(rt: &HostRuntime, request: Request<'_>) -> anyhow::Result<()> {
    match request {
        Request::Help => rt.print(USAGE)?,
        Request::Models => show_models(rt)?,
        Request::Examples => show_examples(rt)?,
        Request::Keeps(choice) => match summary_of(rt.alloc(), choice) {
            Ok(summary) => show(rt, summary)?,
            Err(refusal @ Refusal::OutOfMemory) => return Err(refusal.into()),
            Err(refusal) => rt.println(refusal)?,
        },
    }
    Ok(())
}

fn main(rt: HostRuntime) -> anyhow::Result<ExitCode> {
    let heap = rt.alloc();
    let args: Vec<String> = env::args(&rt)?.skip(1).collect(heap)?;
    let words: Vec<&str> = args.iter().map(|arg| arg.as_str()).collect(heap)?;
    match read_request(words.as_slice()) {
        Some(request) => {
            answer(&rt, request)?;
            Ok(ExitCode::SUCCESS)
        }
        None => {
            rt.eprint(USAGE)?;
            Ok(ExitCode::FAILURE)
        }
    }
}

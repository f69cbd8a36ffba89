// What the words of a command line ask for.
ghost use Rattle.std.specs.Prelude.{[], ◌∷◌};
ghost use Rattle.litmus.specs.Requests.{texts, Finds, Digit, Digits, Rows, Asks, Requests};

use models::KINDS;

// A model as it was asked for.
#[derive(Clone, Copy)]
pub enum Choice<'a> {
    Name(&'a str),
    Formula(&'a str),
    Table([[u8; KINDS]; KINDS]),
    Either(&'a str, &'a str),
    Both(&'a str, &'a str),
}

#[derive(Clone, Copy)]
pub enum Request<'a> {
    Help,
    Models,
    Examples,
    Keeps(Choice<'a>),
}

// By the byte: `to_digit` is of a `char`, and what it gives would have to be made a byte again.
fn digit(byte: u8) -> Option<u8>
    ensures { Finds (Digit byte) result }
{
    match byte {
        b'0'..=b'9' => Some(byte - b'0'),
        _ => None,
    }
}

// The numbers of a row, which is five digits.
fn row(word: &str) -> Option<[u8; KINDS]>
    ensures { Finds (Digits word.now) result }
{
    let bytes = <[u8; KINDS]>::try_from(word.as_bytes()).ok()?;
    bytes.try_map(|byte| digit(byte).ok_or(())).ok()
}

// Two lines, as in `row`: one function over both would have to ask for bounds on the sizes of its types.
fn table(words: &[&str]) -> Option<[[u8; KINDS]; KINDS]>
    ensures { Finds (Rows (texts words.now)) result }
{
    let rows = <[&str; KINDS]>::try_from(words).ok()?;
    rows.try_map(|word| row(word).ok_or(())).ok()
}

// The model that a word asks for with two names behind it.
fn pair<'a>(word: &str, first: &'a str, second: &'a str) -> Option<Choice<'a>>
    ensures { Finds (Asks (word.now ∷ first.now ∷ second.now ∷ [])) result }
{
    match word {
        "either" => Some(Choice::Either(first, second)),
        "both" => Some(Choice::Both(first, second)),
        _ => None,
    }
}

// The model that the words ask for, if they ask for one.
#[tactic(auto, using(crate::proofs::Words::counted_words))]
fn read_choice<'a>(words: &[&'a str]) -> Option<Choice<'a>>
    ensures { Finds (Asks (texts words.now)) result }
{
    match words {
        [name] => Some(Choice::Name(name)),
        ["table", rows @ ..] => Some(Choice::Table(table(rows)?)),
        ["formula", text] => Some(Choice::Formula(text)),
        [word, first, second] => pair(word, first, second),
        _ => None,
    }
}

// What the words of a command ask for, if they ask for anything.
#[tactic(auto, using(crate::proofs::Words::counted_words))]
pub fn read_request<'a>(words: &[&'a str]) -> Option<Request<'a>>
    ensures { Finds (Requests (texts words.now)) result }
{
    match words {
        ["help"] => Some(Request::Help),
        ["models"] => Some(Request::Models),
        ["examples"] => Some(Request::Examples),
        ["keeps", choice @ ..] => Some(Request::Keeps(read_choice(choice)?)),
        _ => None,
    }
}

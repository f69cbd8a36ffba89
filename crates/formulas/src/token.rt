// The words and signs of a formula text.
use models::Word;

#[derive(Clone, Copy, Debug, PartialEq, Eq)]
pub enum Token {
    Name(Word),
    And,
    Or,
    Open,
    Close,
}

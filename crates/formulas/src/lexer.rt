// A formula text cut into words, signs and spaces.
ghost use Rattle.std.specs.Prelude.{◌≡◌, ℕ, ◌<◌, ◌≤◌, Bool, List, length, OnSome, IfOk, MatchBool, MatchOption, MatchResult, ◌≢◌};
ghost use Rattle.std.specs.List.{prefix_len};
ghost use Rattle.formulas.specs.Items.{bytes_of, Comes, AfterSign};
ghost use Rattle.formulas.specs.Words.{letter, FirstUnknown, Unknown, Tokens};
ghost use Rattle.formulas.specs.declared.token.Token.{Token};

use crate::token::Token;
use models::Word;

fn is_letter(byte: u8) -> bool
    ensures { result ≡ letter byte }
{
    byte.is_ascii_alphabetic() || byte == b'.'
}

// How many bytes from the front on pass the test.
fn leading<F: Fn(u8) -> bool>(bytes: &[u8], test: F) -> usize
    requires { F.IsAlwaysCallable test }
    ensures within { result ≤ length bytes.now }
    ensures counted { (p : ℕ → Bool) → ((b : ℕ) (r : Bool) → F.post test b r → r ≡ p b) → result ≡ prefix_len p bytes.now }
{
    bytes.iter().take_while(|byte| test(**byte)).count()
}

// The word or sign with these bytes. Inlined for speed, as `next_token` is.
#[inline(always)]
fn known(bytes: &[u8]) -> Option<Token>
    ensures { MatchOption result ((t : Token) → bytes.now ≢ bytes_of t) (λ t. bytes.now ≡ bytes_of t) }
{
    let token = match bytes {
        b"&" => Token::And,
        b"|" => Token::Or,
        b"(" => Token::Open,
        b")" => Token::Close,
        b"true" => Token::Name(Word::True),
        b"Read.x" => Token::Name(Word::ReadX),
        b"Read.y" => Token::Name(Word::ReadY),
        b"Write.x" => Token::Name(Word::WriteX),
        b"Write.y" => Token::Name(Word::WriteY),
        b"Fence.x" => Token::Name(Word::FenceX),
        b"Fence.y" => Token::Name(Word::FenceY),
        b"SameAddr" => Token::Name(Word::SameAddr),
        b"DataDep" => Token::Name(Word::DataDep),
        b"ControlDep" => Token::Name(Word::ControlDep),
        _ => return None,
    };
    Some(token)
}

// A text, and how far its words and signs have been read.
#[derive(Clone, Copy)]
pub struct Lexer<'a> {
    text: &'a [u8],
    at: usize,
    ghost within: { at ≤ length text.now },
}

// That the text stays and the place goes on is said by each: a type cannot compare a value with what it was.
impl<'a> Lexer<'a> {
    pub fn new(text: &'a [u8]) -> Lexer<'a>
        ensures text { result.text.now ≡ text.now }
        ensures at { result.at ≡ 0 }
    {
        Lexer { text, at: 0 }
    }

    // The next word or sign, if there is one; an unknown word or byte is told by its place.
    // Inlined for speed: a text is read by many short calls.
    #[inline(always)]
    pub fn next_token(&mut self) -> Result<Option<Token>, usize>
        ensures comes { Comes self.old.text.now self.old.at result self.new.at }
        ensures advances { IfOk result (λ token. OnSome token (self.old.at < self.new.at)) }
        ensures same_text { self.new.text.now ≡ self.old.text.now }
    {
        self.at += leading(&self.text[self.at..], |byte| byte == b' ');
        let rest = &self.text[self.at..];
        if rest.is_empty() {
            return Ok(None);
        }
        let size = leading(rest, is_letter).max(1);
        let Some(token) = known(&rest[..size]) else {
            return Err(self.at);
        };
        self.at += size;
        Ok(Some(token))
    }

    // Steps over the next word or sign if it is this one.
    pub fn step_over(&mut self, sign: Token) -> bool
        ensures taken { AfterSign self.old.text.now self.old.at sign result self.new.at }
        ensures advances { MatchBool result (self.old.at < self.new.at) (self.new.at ≡ self.old.at) }
        ensures same_text { self.new.text.now ≡ self.old.text.now }
    {
        let mut ahead = *self;
        if ahead.next_token() != Ok(Some(sign)) {
            return false;
        }
        *self = ahead;
        true
    }
}

// Whether each word and byte is known; if not, the place of the first that is not.
pub fn check_words(text: &[u8]) -> Result<(), usize>
    ensures { MatchResult result (λ _. ((p : ℕ) → Unknown text.now p → ⊥) × ((ts : List Token) × Tokens text.now 0 ts)) (λ p. FirstUnknown text.now p) }
{
    let mut lexer = Lexer::new(text);
    // of a word that is known there is nothing to do, which an `Iterator` would not say more plainly
    while lexer.next_token()?.is_some() {}
    Ok(())
}

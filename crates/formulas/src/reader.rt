// Formula texts read: a formula is terms joined by `|`, a term is factors joined by `&`,
// and a factor is a word or a formula in brackets.
ghost use Rattle.std.specs.Prelude.{◌≡◌, ◌<◌, List, OnSome, IfOk, MatchResult};
ghost use Rattle.formulas.specs.Grammar.{formula, term, factor, Admitted, Taken, Refused, Unambiguous};
ghost use Rattle.formulas.specs.Readers.{Finds};
ghost use Rattle.models.specs.Refusals.{told};
ghost use Rattle.models.specs.Trees.{Tree, shape};
ghost use Rattle.formulas.specs.Words.{Tokens};
ghost use Rattle.formulas.specs.declared.token.Token.{Token};

use crate::depth::too_deep;
use crate::lexer::{Lexer, check_words};
use crate::token::Token;
use models::{Formula, Refusal};
use std::alloc::{AllocError, Global};

// Two trees made one.
fn join<F: FnOnce(Box<Formula>, Box<Formula>) -> Formula>(
    heap: Global,
    pair: F,
    left: Result<Formula, AllocError>,
    right: Result<Formula, AllocError>,
) -> Result<Formula, AllocError>
    requires { F.IsAlwaysCallable pair }
    ensures { (t u : Tree) (join : Tree → Tree → Tree) → IfOk left (λ f. shape f ≡ t) → IfOk right (λ f. shape f ≡ u)
        → ((l r : _) (f : _) → F.post pair l r f → shape f ≡ join (shape l.value) (shape r.value))
        → IfOk result (λ f. shape f ≡ join t u) }
{
    Ok(pair(Box::new(heap, left?)?, Box::new(heap, right?)?))
}

// A text that is read, and the heap for its tree. Where memory is wanting the tree is missing,
// and reading goes on all the same, so as to see whether the text is a formula.
#[derive(Drop)]
struct Reader<'a> {
    heap: Global,
    lexer: Lexer<'a>,
}

// That the text stays and the place goes on is said by each: a type cannot compare a value with what it was.
impl Reader<'_> {
    #[cycle(grammar)]
    fn read_factor(&mut self) -> Option<Result<Formula, AllocError>>
        ensures finds { Finds factor self.old.lexer.text.now self.old.lexer.at result self.new.lexer.at }
        ensures advances { OnSome result (self.old.lexer.at < self.new.lexer.at) }
        ensures same_text { self.new.lexer.text.now ≡ self.old.lexer.text.now }
    {
        match self.lexer.next_token() {
            Ok(Some(Token::Name(word))) => Some(Ok(Formula::Word(word))),
            Ok(Some(Token::Open)) => {
                let inner = self.read_formula()?;
                self.lexer.step_over(Token::Close).then_some(inner)
            }
            _ => None,
        }
    }

    // Reads like `read_formula`, one step down: there is a reader for each rule of the grammar.
    #[cycle(grammar)]
    fn read_term(&mut self) -> Option<Result<Formula, AllocError>>
        ensures finds { Finds term self.old.lexer.text.now self.old.lexer.at result self.new.lexer.at }
        ensures advances { OnSome result (self.old.lexer.at < self.new.lexer.at) }
        ensures same_text { self.new.lexer.text.now ≡ self.old.lexer.text.now }
    {
        let first = self.read_factor()?;
        if !self.lexer.step_over(Token::And) {
            return Some(first);
        }
        let rest = self.read_term()?;
        Some(join(self.heap, Formula::Both, first, rest))
    }

    #[cycle(grammar)]
    fn read_formula(&mut self) -> Option<Result<Formula, AllocError>>
        ensures finds { Finds formula self.old.lexer.text.now self.old.lexer.at result self.new.lexer.at }
        ensures advances { OnSome result (self.old.lexer.at < self.new.lexer.at) }
        ensures same_text { self.new.lexer.text.now ≡ self.old.lexer.text.now }
    {
        let first = self.read_term()?;
        if !self.lexer.step_over(Token::Or) {
            return Some(first);
        }
        let rest = self.read_formula()?;
        Some(join(self.heap, Formula::Either, first, rest))
    }
}

// The most bytes that a formula text may have.
const LONGEST: usize = 256;

// The refusal of a text for its length, for an unknown word or byte, or for its brackets, looked for in this order.
fn screen(text: &[u8]) -> Result<(), Refusal>
    ensures { MatchResult result (λ _. Admitted text.now × ((ts : List Token) × Tokens text.now 0 ts)) (λ e. Refused text.now (told e)) }
{
    if text.len() > LONGEST {
        return Err(Refusal::FormulaTooLong);
    }
    check_words(text).map_err(Refusal::UnknownWord)?;
    if too_deep(text) {
        return Err(Refusal::TooDeep);
    }
    Ok(())
}

// Reads a formula text. The first refusal that applies is the answer, of these in this order: the length,
// an unknown word or byte, brackets that nest too deep, and words that form no formula.
pub fn parse(heap: Global, text: &[u8]) -> Result<Formula, Refusal>
    ensures answer { MatchResult result (λ f. Taken text.now (shape f)) (λ e. Refused text.now (told e)) }
    ensures single { Unambiguous text.now }
{
    screen(text)?;
    let mut reader = Reader {
        heap,
        lexer: Lexer::new(text),
    };
    let tree = reader.read_formula().ok_or(Refusal::NoFormula)?;
    if !matches!(reader.lexer.next_token(), Ok(None)) {
        return Err(Refusal::NoFormula);
    }
    Ok(tree?)
}

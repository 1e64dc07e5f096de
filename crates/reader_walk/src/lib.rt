// A reader that holds the text and its own place (document 01, "What must change shape"): thin functions over `step_at` and `end_at`.
// Kept: a place in the text, of which its theorems speak.
#![tactic(auto)]

ghost use Rattle.std.specs.Prelude.{◌≡◌};
ghost use Rattle.reader_walk.specs.Steps.{step_at, end_at};

use lexer::lexeme::lexeme_at;

#[derive(Clone, Copy)]
pub struct Reader<'a> {
    pub text: &'a [u8],
    pub at: usize,
}

// What stands at a place of the text. Kept: three ways, of which its theorems speak.
#[derive(Clone, Copy)]
pub enum Step {
    // a lexeme: its kind, and the place past it
    Lexeme(u32, usize),
    // a reference that the lexer refuses
    Bad,
    End,
}

#[tactic(auto, unfolding(crate::specs::Steps::step_at, crate::specs::Steps::told, rules::specs::Bytes::pick, lexer::specs::Pieces::shown))]
pub fn step_at(s: &[u8], at: usize) -> Step
    ensures { result ≡ step_at s.now at }
{
    if s.len() <= at {
        return Step::End;
    }
    match lexeme_at(s, at) {
        Ok(piece) => Step::Lexeme(piece.kind as u32, piece.next),
        Err(_) => Step::Bad,
    }
}

// The place past what stands there; where nothing can be passed, the same place.
#[tactic(auto, unfolding(crate::specs::Steps::end_at, crate::specs::Steps::end_of))]
pub fn end_at(s: &[u8], at: usize) -> usize
    ensures { result ≡ end_at s.now at }
{
    match step_at(s, at) {
        Step::Lexeme(_, next) => next,
        Step::Bad | Step::End => at,
    }
}

pub fn new<'a>(text: &'a [u8]) -> Reader<'a>
    ensures same_text { result.text ≡ text.entry }
    ensures at_start { result.at ≡ 0 }
{
    Reader { text, at: 0 }
}

pub fn at<'a>(r: Reader<'a>) -> usize
    ensures { result ≡ r.entry.at }
{
    r.at
}

pub fn peek<'a>(r: Reader<'a>) -> Step
    ensures { result ≡ step_at r.entry.text.now r.entry.at }
{
    step_at(r.text, r.at)
}

// The reader past what it shows.
pub fn after<'a>(r: Reader<'a>) -> Reader<'a>
    ensures same_text { result.text ≡ r.entry.text }
    ensures past { result.at ≡ end_at r.entry.text.now r.entry.at }
{
    Reader {
        at: end_at(r.text, r.at),
        ..r
    }
}

// The first lexeme of a text, through a reader.
pub fn first(s: &[u8]) -> Step
    ensures { result ≡ step_at s.now 0 }
{
    peek(new(s))
}

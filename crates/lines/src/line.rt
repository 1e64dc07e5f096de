// One line: where it ends, how it starts, where its string value ends. All of it by the kinds of tokens alone.
ghost use Rattle.std.specs.Prelude.{◌≡◌, ◌+◌, ◌≤◌, ◌<◌, List, length, take, drop};
ghost use Rattle.rules.specs.Tokens.{Token, text_kind};
ghost use Rattle.rules.specs.Lines.{skip_blanks, read_line, after_key};
ghost use Rattle.tokens.specs.Entries.{token_at};
ghost use Rattle.lines.specs.Line.{SameKinds, Skips, EndsLine, ending_at, line_at, Starts, EndsValue};

use tokens::TokenKind;
use tokens::table::Table;

// The first token from `from` on that is no blank; the end where there is none.
fn skip_blanks(tokens: &Table, from: usize) -> usize
    requires { from ≤ length tokens.now }
    ensures { Skips tokens.now from result }
{
    (from..tokens.len())
        .find(|i| tokens.kind(*i) != TokenKind::Blank as u32)
        .unwrap_or(tokens.len())
}

// The newline that ends the line of token `from`; the end of the tokens where the text ends it.
pub fn line_end(tokens: &Table, from: usize) -> usize
    requires { from ≤ length tokens.now }
    ensures { EndsLine tokens.now from result }
{
    (from..tokens.len())
        .find(|i| tokens.kind(*i) == TokenKind::NewLine as u32)
        .unwrap_or(tokens.len())
}

// How a line starts. WrongStart and WrongAfter have the wrong token, Assigns (`=`) and Gives (`:`) the key token and the value's first.
#[derive(Clone, Copy)]
pub enum LineStart {
    Empty,
    WrongStart(usize),
    WrongAfter(usize),
    Ended,
    Assigns { key: usize, from: usize },
    Gives { key: usize, from: usize },
}

// Past the key of the line that ends at `end`: `:` or `=`, with blanks around.
#[tactic(auto, using(crate::proofs::Starts::marking))]
fn after_key(tokens: &Table, end: usize, key: usize) -> LineStart
    requires inside { end ≤ length tokens.now }
    requires at_key { key < end }
    requires is_text { (token_at tokens.now key).kind ≡ text_kind }
    ensures { (ts : List Token) → SameKinds ts tokens.now → Starts ts end key (after_key (token_at ts key) (ending_at ts end) (skip_blanks (drop (key + 1) (take end ts)))) result }
{
    let line = tokens.until(end);
    let mark = skip_blanks(&line, key + 1);
    if end <= mark {
        return if end < tokens.len() {
            LineStart::WrongAfter(end)
        } else {
            LineStart::Ended
        };
    }
    let kind = line.kind(mark);
    if kind == TokenKind::Colon as u32 {
        LineStart::Gives {
            key,
            from: skip_blanks(&line, mark + 1),
        }
    } else if kind == TokenKind::Equals as u32 {
        LineStart::Assigns {
            key,
            from: skip_blanks(&line, mark + 1),
        }
    } else {
        LineStart::WrongAfter(mark)
    }
}

// How the line of the tokens from `from` up to `end` starts.
#[tactic(auto, using(crate::proofs::Starts::starting))]
pub fn line_start(tokens: &Table, end: usize, from: usize) -> LineStart
    requires inside { end ≤ length tokens.now }
    requires on { from ≤ end }
    ensures starts { Starts tokens.now end from (read_line (line_at tokens.now end from)) result }
    ensures by_kinds { (ts : List Token) → SameKinds ts tokens.now → Starts ts end from (read_line (line_at ts end from)) result }
{
    let line = tokens.until(end);
    let key = skip_blanks(&line, from);
    if end <= key {
        LineStart::Empty
    } else if line.kind(key) == TokenKind::Text as u32 {
        after_key(tokens, end, key)
    } else {
        LineStart::WrongStart(key)
    }
}

// Where a string value ends that starts at token `from`: "Of the blanks before a newline only the last drops; at the end of the text all stay."
#[tactic(auto, using(crate::proofs::Starts::ending))]
pub fn value_end(tokens: &Table, end: usize, from: usize) -> usize
    requires inside { end ≤ length tokens.now }
    requires on { from ≤ end }
    ensures ends { EndsValue tokens.now end from result }
    ensures by_kinds { (ts : List Token) → SameKinds ts tokens.now → EndsValue ts end from result }
{
    if end < tokens.len() && from < end && tokens.kind(end - 1) == TokenKind::Blank as u32 {
        end - 1
    } else {
        end
    }
}

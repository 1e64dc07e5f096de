// A list value (document 01, "Lines": fields 8 to 10): quotes, escapes, arguments.
// A quote that opens or closes and a backslash that escapes are dropped: that becomes their kind. Each argument gets a row, its first token and the token past it,
// in the columns at 5n and 6n; the rows stand at the value's own tokens, from its first on, since there are never more arguments than tokens.
// Kept: the workspace as one slice, since a turn writes a token's kind or the two cells of a row: three slices would go along in place of one.
ghost use Rattle.std.specs.Prelude.{◌≡◌, true, false, List, ℕ, ◌+◌, ◌*◌, ◌≤◌, ◌<◌, eqb, length, drop, is_some};
ghost use Rattle.rules.specs.Bytes.{pick};
ghost use Rattle.rules.specs.Tokens.{Token};
ghost use Rattle.rules.specs.Lines.{part, next_is, role_outside, role_inside, role};
ghost use Rattle.tokens.specs.Entries.{token_at};
ghost use Rattle.lines.specs.Rows.{role_of, kind_of, start_of, with_row, NoneDropped, Keeps, Flushable, Fits, ReadAs, Lists};

use crate::value::{ListPlace, Quote, is_quote};
use tokens::TokenKind;
use tokens::table::Table;

// What a token does in a list value.
#[derive(Clone, Copy)]
pub enum Role {
    Part,
    Splits,
    Opens,
    Closes,
    Escapes,
}

#[tactic(auto, using(crate::proofs::Roles::outside))]
fn role_outside(kind: u32) -> Role
    ensures { (t : Token) → t.kind ≡ kind → role_of result ≡ role_outside t }
{
    if kind == TokenKind::Blank as u32 {
        Role::Splits
    } else if is_quote(kind) {
        Role::Opens
    } else if kind == TokenKind::Backslash as u32 {
        Role::Escapes
    } else {
        Role::Part
    }
}

// Inside quotes of the kind `quote`; `next` is the kind of the next token.
#[tactic(auto, using(crate::proofs::Roles::inside))]
fn role_inside(kind: u32, next: u32, quote: u32) -> Role
    ensures { (t : Token) (ts : List Token) → t.kind ≡ kind → next_is quote ts ≡ eqb next quote → role_of result ≡ role_inside quote t ts }
{
    if kind == quote {
        Role::Closes
    } else if kind == TokenKind::Backslash as u32 && next == quote {
        Role::Escapes
    } else {
        Role::Part
    }
}

// How far a list value is read: arguments found, the token where the one being read starts once it has a part, whether the next token is escaped, and the quotes that are open.
#[derive(Clone, Copy)]
pub struct ListState {
    pub rows: usize,
    pub start: Option<usize>,
    pub escaped: bool,
    pub quote: Option<Quote>,
}

// The role of token i, by how far the value is read: what is escaped is a part.
fn role_at(tokens: &Table, i: usize, state: ListState) -> Role
    requires inside { i < length tokens.now }
    requires small { length tokens.now ≤ 65535 }
    ensures escaped { state.escaped ≡ true → role_of result ≡ part }
    ensures role { state.escaped ≡ false → (q : Token) → q.kind ≡ kind_of state.quote → role_of result ≡ role q (token_at tokens.now i) (drop (i + 1) tokens.now) }
{
    if state.escaped {
        return Role::Part;
    }
    let kind = tokens.kind(i);
    match state.quote {
        None => role_outside(kind),
        Some(open) => role_inside(kind, tokens.kind(i + 1), open.kind),
    }
}

// The argument being read ends before token i: it gets the next row, if it has a part. Returns the number of rows.
#[tactic(auto, unfolding(rules::specs::Bytes::pick))]
fn flush(ws: &mut [u32], place: ListPlace, i: usize, rows: usize, start: Option<usize>) -> usize
    requires { Flushable place.n place.from i rows (start_of start i) (is_some start) ws.old }
    ensures rows { result ≡ pick (is_some start) (rows + 1) rows }
    ensures stored { ws.new ≡ pick (is_some start) (with_row place rows (start_of start i) i ws.old) ws.old }
{
    let Some(first) = start else {
        return rows;
    };
    let row = place.from + rows;
    ws[5 * place.n + row] = first as u32;
    ws[6 * place.n + row] = i as u32;
    rows + 1
}

// Reads token i.
fn turn(ws: &mut [u32], place: ListPlace, i: usize, state: ListState) -> ListState
    requires fits { Fits place i state ws.old }
    requires left { i < place.end }
    ensures fits { Fits place (i + 1) result ws.new }
    ensures reads { (ws₀ : List ℕ) → ReadAs place ws₀ ws.old i state → ReadAs place ws₀ ws.new (i + 1) result }
{
    let tokens = Table::new(ws, &[], place.end);
    match role_at(&tokens, i, state) {
        Role::Part => ListState {
            start: Some(state.start.unwrap_or(i)),
            escaped: false,
            ..state
        },
        Role::Splits => ListState {
            rows: flush(ws, place, i, state.rows, state.start),
            start: None,
            ..state
        },
        Role::Opens => {
            let kind = tokens.kind(i);
            ws[4 * i] = TokenKind::Dropped as u32;
            ListState {
                quote: Some(Quote { kind, opener: i }),
                ..state
            }
        }
        Role::Closes => {
            ws[4 * i] = TokenKind::Dropped as u32;
            ListState {
                quote: None,
                ..state
            }
        }
        Role::Escapes => {
            ws[4 * i] = TokenKind::Dropped as u32;
            ListState {
                escaped: true,
                ..state
            }
        }
    }
}

// Reads all of its tokens.
fn turns(ws: &mut [u32], place: ListPlace) -> ListState
    requires room { 7 * place.n ≤ length ws.old }
    requires none_dropped { NoneDropped place.from place.end ws.old }
    ensures fits { Fits place place.end result ws.new }
    ensures reads { ReadAs place ws.old ws.new place.end result }
{
    let mut state = ListState {
        rows: 0,
        start: None,
        escaped: false,
        quote: None,
    };
    for i in place.from..place.end {
        state = turn(ws, place, i, state);
    }
    state
}

// Reads a list value into rows: how many arguments there are, or the token of the quote that isn't closed.
pub fn list_value(ws: &mut [u32], place: ListPlace) -> Result<usize, usize>
    requires room { 7 * place.n ≤ length ws.old }
    requires none_dropped { NoneDropped place.from place.end ws.old }
    ensures keeps { Keeps place.n place.from place.end ws.old ws.new }
    ensures lists { Lists place.n place.from place.end ws.old ws.new result }
{
    let state = turns(ws, place);
    match state.quote {
        Some(open) => Err(open.opener),
        None => Ok(flush(ws, place, place.end, state.rows, state.start)),
    }
}

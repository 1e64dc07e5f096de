// From bytes to tokens (document 01, "Lexing"; upstream lexer.rs): a pass that looks for the first refusal, and a pass that fills workspace and pool.
// Kept: places in text and pool, and not what is left of them, since tokens and refusals tell places.
#![tactic(auto)]

pub mod blocks;
pub mod keep;
pub mod lexeme;

ghost use Rattle.std.specs.Prelude.{◌≡◌, ◌+◌, ◌*◌, ◌≤◌, ◌<◌, length, drop, eqb};
ghost use Rattle.rules.specs.Bytes.{pick, run};
ghost use Rattle.lexer.specs.Marks.{free, dollar_stop};
ghost use Rattle.scan.specs.Stores.{puts};
ghost use Rattle.tokens.specs.Entries.{entry, pool_text};
ghost use Rattle.lexer.specs.Lexes.{Room, Holds, Lexes, refusal_of};
ghost use Rattle.lexer.specs.Pieces.{kind_of};
ghost use Rattle.lexer.specs.Inner.{Judges, Fillable, flushed, flushed_count, FlushRoom, made, PutRoom};

use answers::Refusal;
use blocks::{any_in, next_stop};
use keep::{keep_piece, keep_text};
use lexeme::{BadReference, Piece, backslash_at, comment_end, dollar_at};
use scan::class::{ByteClass, class_of};
use scan::store::put4;
use tokens::TokenKind;

// Why a text can't be lexed.
#[derive(Clone, Copy, Debug, PartialEq, Eq)]
pub enum LexError {
    MissingCloseVariable,
    // with the code point
    InvalidVariableChar(u32),
}

// The first refusal: why, and the place of the `$`.
#[derive(Clone, Copy, Debug, PartialEq, Eq)]
pub struct LexRefusal {
    pub error: LexError,
    pub at: usize,
}

// Answer 5, or 6 with its code point.
impl From<LexRefusal> for Refusal {
    ghost from_gives = { λ r e. e ≡ refusal_of r.error };

    fn from(r: LexRefusal) -> Refusal {
        match r.error {
            LexError::MissingCloseVariable => Refusal::MissingCloseVariable,
            LexError::InvalidVariableChar(c) => Refusal::InvalidVariableChar(c),
        }
    }
}

// At a `$`, or what may hide one.
fn dollar_end(text: &[u8], i: usize) -> usize
    requires { i ≤ length text.now }
    ensures { result ≡ i + run (free dollar_stop) (drop i text.now) }
{
    next_stop(|b| (b == b'#') | (b == b'$') | (b == b'\\'), text, i)
}

// The first pass. Only `$` can be refused, and only `#` and a backslash can hide one: the other bytes are passed.
fn find_refusal(text: &[u8]) -> Result<(), LexRefusal>
    ensures { Judges text.now result }
{
    let mut i = 0;
    // Kept: a `while`, as a turn passes any number of bytes.
    while i < text.len() {
        i = match class_of(text[i]) {
            ByteClass::Dollar => match dollar_at(text, i) {
                Ok(piece) => piece.next,
                Err(BadReference { error, .. }) => return Err(LexRefusal { error, at: i }),
            },
            ByteClass::Hash => comment_end(text, i + 1),
            ByteClass::Backslash => backslash_at(text, i).next,
            _ => dollar_end(text, i + 1),
        };
    }
    Ok(())
}

// Text that is gathered from pieces: it stands in the pool from `start` up to `end`, and its first byte comes from place `source` of the text.
#[derive(Clone, Copy)]
struct Gathered {
    start: usize,
    end: usize,
    source: usize,
}

impl Gathered {
    // No text yet; what comes goes to the pool from this place on.
    fn none(start: usize) -> Gathered
        ensures { result ≡ record { start = start; end = start; source = 0 } }
    {
        Gathered {
            start,
            end: start,
            source: 0,
        }
    }

    // With `len` more bytes, from place `at` of the text.
    fn with(self, at: usize, len: usize) -> Gathered
        requires { self.end + len < 18446744073709551616 }
        ensures { result ≡ record { start = self.start; end = self.end + len; source = pick (eqb self.start self.end) at self.source } }
    {
        let end = self.end + len;
        if self.start == self.end {
            return Gathered {
                end,
                source: at,
                ..self
            };
        }
        Gathered { end, ..self }
    }
}

// Gathered Text ends: its token, where there is any. Returns the number of tokens.
fn flush_text(ws: &mut [u32], count: usize, text: Gathered) -> usize
    requires { FlushRoom ws.old count text.start text.end text.source }
    ensures { (result ≡ count + flushed_count text.start text.end) × (ws.new ≡ puts ws.old (4 * count) (flushed text.start text.end text.source)) }
{
    if text.start < text.end {
        put4(
            ws,
            4 * count,
            TokenKind::Text as u32,
            text.start as u32,
            (text.end - text.start) as u32,
            text.source as u32,
        );
        return count + 1;
    }
    count
}

// The number of a kind, as the workspace holds it.
// Kept: `as` with its clause; a `From` would have the same body.
fn kind_number(kind: TokenKind) -> u32
    ensures { result ≡ kind_of kind }
{
    kind as u32
}

// A token that isn't Text, at place i. Returns the pool's end.
// Kept: no plainer: three lent buffers and a place in each; a struct of them would be made for one call.
fn put_token(
    text: &[u8],
    ws: &mut [u32],
    pool: &mut [u8],
    i: usize,
    piece: Piece<TokenKind>,
    count: usize,
    used: usize,
) -> usize
    requires { PutRoom text.now ws.old pool.old i (kind_of piece.kind) piece.from piece.len count used }
    ensures { (result ≡ used + length (pool_text (made text.now i (kind_of piece.kind) piece.from piece.len used)))
        × (ws.new ≡ puts ws.old (4 * count) (entry (made text.now i (kind_of piece.kind) piece.from piece.len used)))
        × (pool.new ≡ puts pool.old used (pool_text (made text.now i (kind_of piece.kind) piece.from piece.len used))) }
{
    let kind = kind_number(piece.kind);
    match piece.kind {
        TokenKind::Variable => {
            put4(ws, 4 * count, kind, used as u32, piece.len as u32, i as u32);
            keep_text(text, piece.from, piece.len, pool, used);
            used + piece.len
        }
        _ => {
            put4(ws, 4 * count, kind, text[i] as u32, 1, i as u32);
            used
        }
    }
}

// How many tokens the workspace holds, and how many bytes of text the pool.
#[derive(Clone, Copy, Debug, PartialEq, Eq)]
pub struct Filled {
    pub count: usize,
    pub used: usize,
}

// The second pass: the tokens of a text that isn't refused.
fn fill(text: &[u8], ws: &mut [u32], pool: &mut [u8]) -> Filled
    requires { Fillable text.now ws.old pool.old }
    ensures { Holds text.now ws.old ws.new pool.old pool.new result.count result.used }
{
    let mut i = 0;
    let mut count = 0;
    let mut gathered = Gathered::none(0);
    // Kept: a `while`, as a piece has any number of bytes.
    while i < text.len() {
        // the first pass found no reference that can't be lexed
        let Ok(piece) = keep_piece(text, i, pool, gathered.end) else {
            unreachable!();
        };
        match piece.kind {
            TokenKind::Text => gathered = gathered.with(i, piece.len),
            _ => {
                count = flush_text(ws, count, gathered);
                let end = put_token(text, ws, pool, i, piece, count, gathered.end);
                count += 1;
                gathered = Gathered::none(end);
            }
        }
        i = piece.next;
    }
    count = flush_text(ws, count, gathered);
    Filled {
        count,
        used: gathered.end,
    }
}

// The first pass, which only a text with a `$` needs.
fn judge(text: &[u8]) -> Result<(), LexRefusal>
    ensures { Judges text.now result }
{
    if any_in(&|b| b == b'$', text) {
        return find_refusal(text);
    }
    Ok(())
}

// The whole text: a pass that looks for the first refusal, and one that fills workspace and pool. Nothing is written where it is refused.
pub fn lex(text: &[u8], ws: &mut [u32], pool: &mut [u8]) -> Result<Filled, LexRefusal>
    requires { Room text.now ws.old pool.old }
    ensures { Lexes text.now ws.old ws.new pool.old pool.new result }
{
    judge(text)?;
    Ok(fill(text, ws, pool))
}

// Tokens as workspace and pool hold them: four entries a token, which are its kind, the place of its text in the pool (or its byte), the text's length,
// and its place in the source. The functions read one token of the first `count`; past the last there is none, and all is 0 or empty.
#![tactic(auto, using(crate::proofs::TokenLaws::reading))]

ghost use Rattle.std.specs.Prelude.{◌≡◌, ◌+◌, ◌*◌, ◌≤◌, ◌<◌, length};
ghost use Rattle.answers.specs.Tells.{Names};
ghost use Rattle.scan.specs.Stores.{puts};
ghost use Rattle.tokens.specs.Entries.{decode, token_at, pool_text, kind_at, place_at, source_at, byte_at, entry_at};

pub mod table;

use answers::Name;
use scan::column::part;
use scan::store::copy;

// The kinds of tokens, by the numbers that the workspace holds and a refusal tells: `kind as u32`. No token of a text is Dropped: a token becomes so that a
// list value drops.
#[derive(Clone, Copy, Debug, PartialEq, Eq)]
pub enum TokenKind {
    Dropped,
    Text,
    Variable,
    Blank,
    Equals,
    Colon,
    SingleQuote,
    DoubleQuote,
    Backslash,
    NewLine,
}

// The entry `f` of token `j`.
// Kept, here and below: over plain slices, of which the check knows that each entry fits 32 bits; of the fields of a `Table` it does not.
fn entry_at(ws: &[u32], count: usize, j: usize, f: usize) -> u32
    requires { (4 * count ≤ length ws.now) × (f < 4) }
    ensures { result ≡ entry_at count ws.now j f }
{
    if j < count { ws[4 * j + f] } else { 0 }
}

// The kind.
fn kind_at(ws: &[u32], count: usize, j: usize) -> u32
    requires { 4 * count ≤ length ws.now }
    ensures { result ≡ kind_at count ws.now j }
{
    entry_at(ws, count, j, 0)
}

// The place in the source.
fn source_at(ws: &[u32], count: usize, j: usize) -> u32
    requires { 4 * count ≤ length ws.now }
    ensures { result ≡ source_at count ws.now j }
{
    entry_at(ws, count, j, 3)
}

// The place in the pool; 0 where it has none.
fn place_at(ws: &[u32], count: usize, j: usize) -> u32
    requires { 4 * count ≤ length ws.now }
    ensures { result ≡ place_at count ws.now j }
{
    if entry_at(ws, count, j, 0) <= TokenKind::Variable as u32 {
        entry_at(ws, count, j, 1)
    } else {
        0
    }
}

// The byte of a token that is neither Text nor Variable, else 0.
fn byte_at(ws: &[u32], count: usize, j: usize) -> u8
    requires { 4 * count ≤ length ws.now }
    ensures { result ≡ byte_at count ws.now j }
{
    if entry_at(ws, count, j, 0) <= TokenKind::Variable as u32 {
        0
    } else {
        (entry_at(ws, count, j, 1) % 256) as u8
    }
}

// The text of a Text or Variable token, a part of the pool; else nothing, and `byte_at` has the text's one byte.
pub fn text_at<'a>(ws: &[u32], pool: &'a [u8], count: usize, j: usize) -> &'a [u8]
    requires { 4 * count ≤ length ws.now }
    ensures { result.now ≡ pool_text (token_at (decode count ws.now pool.now) j) }
{
    let at = entry_at(ws, count, j, 1) as usize;
    let len = entry_at(ws, count, j, 2) as usize;
    if entry_at(ws, count, j, 0) <= TokenKind::Variable as u32 {
        part(pool, at, len)
    } else {
        part(pool, 0, 0)
    }
}

// The length of the text, of any kind.
fn length_at(ws: &[u32], pool: &[u8], count: usize, j: usize) -> usize
    requires { 4 * count ≤ length ws.now }
    ensures { result ≡ length (token_at (decode count ws.now pool.now) j).text }
{
    if entry_at(ws, count, j, 0) <= TokenKind::Variable as u32 {
        let text = text_at(ws, pool, count, j);
        return text.len();
    }
    1
}

// What a refusal shows of the token: its place in the pool, and the length of its text.
fn name_at(ws: &[u32], pool: &[u8], count: usize, j: usize) -> Name
    requires { 4 * count ≤ length ws.now }
    ensures { Names result (token_at (decode count ws.now pool.now) j) }
{
    Name {
        place: place_at(ws, count, j),
        length: length_at(ws, pool, count, j) as u32,
    }
}

// The text, of any kind, goes to `out` from place `to` on. Returns the place past it.
fn copy_text(ws: &[u32], pool: &[u8], count: usize, j: usize, out: &mut [u8], to: usize) -> usize
    requires { (4 * count ≤ length ws.now) × (to + length (token_at (decode count ws.now pool.now) j).text ≤ length out.old) }
    ensures { (result ≡ to + length (token_at (decode count ws.now pool.now) j).text)
        × (out.new ≡ puts out.old to (token_at (decode count ws.now pool.now) j).text) }
{
    if entry_at(ws, count, j, 0) <= TokenKind::Variable as u32 {
        let text = text_at(ws, pool, count, j);
        copy(text, out, to);
        return to + text.len();
    }
    out[to] = byte_at(ws, count, j);
    to + 1
}

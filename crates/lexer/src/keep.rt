// One piece of the text, and its bytes to the pool where it is Text: a run of text is kept while its end is looked for.
// Kept: places in text and pool, and not what is left of them, since tokens and refusals tell places.
ghost use Rattle.std.specs.Prelude.{◌≡◌, ◌+◌, ◌≤◌, ◌<◌, length, take, drop};
ghost use Rattle.rules.specs.Bytes.{run};
ghost use Rattle.scan.specs.Stores.{puts};
ghost use Rattle.lexer.specs.Pieces.{is_plain};
ghost use Rattle.lexer.specs.Inner.{KeepRoom, Keeps};

use crate::lexeme::{BadReference, Piece, is_plain, lexeme_at, long_plain_end};
use scan::store::copy;
use tokens::TokenKind;

// so many bytes of a run of text are read one by one, before any block: most runs end there
const NEAR: usize = 32;

// The `len` bytes of the text from place `from` on go to the pool from place `used` on.
// Kept: a part of one buffer, and a place in another; a struct of them would be made for one call.
pub fn keep_text(text: &[u8], from: usize, len: usize, pool: &mut [u8], used: usize)
    requires { (from + len ≤ length text.now) × (used + len ≤ length pool.old) }
    ensures { pool.new ≡ puts pool.old used (take len (drop from text.now)) }
{
    copy(&text[from..from + len], pool, used);
}

// Up to here a run from place i on is kept byte by byte.
fn near_end(len: usize, i: usize) -> usize
    requires { i ≤ len }
    ensures { (i ≤ result) × (result ≤ len) }
{
    i + (len - i).min(NEAR)
}

// The bytes from place i on that are text by themselves go to the pool from place `used` on. Returns the place past them in the text.
fn keep_plain(text: &[u8], i: usize, pool: &mut [u8], used: usize) -> usize
    requires { KeepRoom text.now pool.old i used }
    ensures { (result ≡ i + run is_plain (drop i text.now))
        × (pool.new ≡ puts pool.old used (take (run is_plain (drop i text.now)) (drop i text.now))) }
{
    let stop = near_end(text.len(), i);
    for j in i..stop {
        let b = text[j];
        if !is_plain(b) {
            return j;
        }
        pool[used + (j - i)] = b;
    }
    let end = long_plain_end(text, stop);
    keep_text(text, stop, end - stop, pool, used + (stop - i));
    end
}

// All the bytes from place i on that are text by themselves, or else one lexeme. What is Text goes to the pool from place `used` on.
// Where a reference there can't be lexed, the pool stays as it was.
pub fn keep_piece(
    text: &[u8],
    i: usize,
    pool: &mut [u8],
    used: usize,
) -> Result<Piece<TokenKind>, BadReference>
    requires { (i < length text.now) × KeepRoom text.now pool.old i used }
    ensures { Keeps text.now i used pool.old pool.new result }
{
    let b = text[i];
    if is_plain(b) {
        pool[used] = b;
        let end = keep_plain(text, i + 1, pool, used + 1);
        return Ok(Piece::new(TokenKind::Text, i, end - i, end));
    }
    let piece = lexeme_at(text, i)?;
    if let TokenKind::Text = piece.kind {
        keep_text(text, piece.from, piece.len, pool, used);
    }
    Ok(piece)
}

// One piece at a place of the text (document 01, "Lexing"), by the classes of its bytes.
// Kept: places in text and pool, and not what is left of them, since tokens and refusals tell places.
ghost use Rattle.std.specs.Prelude.{◌≡◌, ◌+◌, ◌≤◌, ◌<◌, ℕ, Bool, length, drop, get_or};
ghost use Rattle.rules.specs.Bytes.{run};
ghost use Rattle.rules.specs.Lexing.{is_identifier, comment, second, after_backslash, after_brace, after_dollar};
ghost use Rattle.rules.specs.Numbers.{invalid_variable_char};
ghost use Rattle.rules.specs.Utf8.{code_point};
ghost use Rattle.lexer.specs.Lexes.{error_of};
ghost use Rattle.lexer.specs.Marks.{free, text_stop};
ghost use Rattle.lexer.specs.Pieces.{Shows, Answers, kind_of, lexeme_at, is_plain};

use crate::LexError;
use crate::blocks::{next_stop, run_end};
use scan::class::{ByteClass, class_at, class_of, is_valid_identifier};
use tokens::TokenKind;
use utf8::code_point_at;

// A piece of the text: its kind, its own text, which is the `len` bytes from `from` on, and where the next one starts.
#[derive(Clone, Copy)]
pub struct Piece<K> {
    pub kind: K,
    pub from: usize,
    pub len: usize,
    pub next: usize,
}

impl<K> Piece<K> {
    pub fn new(kind: K, from: usize, len: usize, next: usize) -> Piece<K>
        ensures { result ≡ record { kind = kind; from = from; len = len; next = next } }
    {
        Piece {
            kind,
            from,
            len,
            next,
        }
    }
}

// A reference that can't be lexed: why, and where, which is at the bad character, or at the end of the text.
#[derive(Clone, Copy, Debug, PartialEq, Eq)]
pub struct BadReference {
    pub error: LexError,
    pub at: usize,
}

// Whether the byte is text by itself.
pub fn is_plain(b: u8) -> bool
    ensures { result ≡ is_plain b }
{
    matches!(class_of(b), ByteClass::Other | ByteClass::Identifier)
}

// Past the characters of a name.
fn name_end(text: &[u8], i: usize) -> usize
    requires { i ≤ length text.now }
    ensures { result ≡ i + run is_identifier (drop i text.now) }
{
    run_end(|b| is_valid_identifier(b), text, i)
}

// At the next line end, or the end of the text.
pub fn comment_end(text: &[u8], i: usize) -> usize
    requires { i ≤ length text.now }
    ensures { result ≡ i + comment (drop i text.now) }
{
    next_stop(|b| (b == b'\n') | (b == b'\r'), text, i)
}

// Past the line end at place i: LF CR and CR LF are one.
fn maybe_consume_second_newline(text: &[u8], i: usize) -> usize
    requires { i < length text.now }
    ensures { result ≡ i + 1 + second (get_or text.now i 0) (drop (i + 1) text.now) }
{
    match class_at(text, i + 1) {
        ByteClass::LineEnd => { if text[i] == text[i + 1] { i + 1 } else { i + 2 } }
        _ => i + 1,
    }
}

// Backslash before `#` is text `#`. Before a line end all vanish and Text goes on. Else it is a token.
pub fn backslash_at(text: &[u8], i: usize) -> Piece<TokenKind>
    requires { i < length text.now }
    ensures { Shows text.now i (after_backslash (drop (i + 1) text.now)) (kind_of result.kind) result.from result.len result.next }
{
    match class_at(text, i + 1) {
        ByteClass::Hash => Piece::new(TokenKind::Text, i + 1, 1, i + 2),
        ByteClass::LineEnd => {
            let next = maybe_consume_second_newline(text, i + 1);
            Piece::new(TokenKind::Text, i, 0, next)
        }
        _ => Piece::new(TokenKind::Backslash, i, 1, i + 1),
    }
}

// The error of a bad character in a reference, which stands at place i. Few texts have one.
#[cold]
#[inline(never)]
fn bad_character(text: &[u8], i: usize) -> LexError
    ensures { error_of result ≡ invalid_variable_char (code_point (get_or text.now i 0) (drop (i + 1) text.now)) }
{
    LexError::InvalidVariableChar(code_point_at(text, i))
}

// `${` at place i opens a reference, up to `}`.
fn reference_at(text: &[u8], i: usize) -> Result<Piece<TokenKind>, BadReference>
    requires { i + 2 ≤ length text.now }
    ensures { Answers text.now i (after_brace (drop (i + 2) text.now)) result }
{
    let name = i + 2;
    let end = name_end(text, name);
    match class_at(text, end) {
        ByteClass::CloseBrace => Ok(Piece::new(TokenKind::Variable, name, end - name, end + 1)),
        ByteClass::Past => Err(BadReference {
            error: LexError::MissingCloseVariable,
            at: end,
        }),
        _ => Err(BadReference {
            error: bad_character(text, end),
            at: end,
        }),
    }
}

// `$$` is text `$`. `$` before anything else but `{` puts both into Text. `$` at the end is text `$`.
pub fn dollar_at(text: &[u8], i: usize) -> Result<Piece<TokenKind>, BadReference>
    requires { i < length text.now }
    ensures { Answers text.now i (after_dollar (get_or text.now i 0) (drop (i + 1) text.now)) result }
{
    match class_at(text, i + 1) {
        ByteClass::OpenBrace => reference_at(text, i),
        ByteClass::Dollar => Ok(Piece::new(TokenKind::Text, i, 1, i + 2)),
        ByteClass::Past => Ok(Piece::new(TokenKind::Text, i, 1, i + 1)),
        _ => Ok(Piece::new(TokenKind::Text, i, 2, i + 2)),
    }
}

// A token that is the byte at place i by itself.
fn byte_token(kind: TokenKind, i: usize) -> Piece<TokenKind>
    requires { i < 18446744073709551615 }
    ensures { result ≡ record { kind = kind; from = i; len = 1; next = i + 1 } }
{
    Piece::new(kind, i, 1, i + 1)
}

// The lexeme at place i, by the class of its first byte; where it is a reference that can't be lexed, why and where.
pub fn lexeme_at(text: &[u8], i: usize) -> Result<Piece<TokenKind>, BadReference>
    requires { i < length text.now }
    ensures { Answers text.now i (lexeme_at text.now i) result }
{
    match class_of(text[i]) {
        ByteClass::Blank => Ok(byte_token(TokenKind::Blank, i)),
        ByteClass::Equals => Ok(byte_token(TokenKind::Equals, i)),
        ByteClass::Colon => Ok(byte_token(TokenKind::Colon, i)),
        ByteClass::Single => Ok(byte_token(TokenKind::SingleQuote, i)),
        ByteClass::Double => Ok(byte_token(TokenKind::DoubleQuote, i)),
        ByteClass::Backslash => Ok(backslash_at(text, i)),
        ByteClass::LineEnd => {
            let next = maybe_consume_second_newline(text, i);
            Ok(Piece::new(TokenKind::NewLine, i, 1, next))
        }
        ByteClass::Dollar => dollar_at(text, i),
        ByteClass::Hash => {
            let next = comment_end(text, i + 1);
            Ok(Piece::new(TokenKind::Text, i, 0, next))
        }
        _ => Ok(byte_token(TokenKind::Text, i)),
    }
}

// At a byte at which a run of text may end.
fn text_end(text: &[u8], i: usize) -> usize
    requires { i ≤ length text.now }
    ensures { result ≡ i + run (free text_stop) (drop i text.now) }
{
    next_stop(
        |b| (b < b'(') | (b == b':') | (b == b'=') | (b == b'\\') | (b == b'{') | (b == b'}'),
        text,
        i,
    )
}

// Past the bytes that are text by themselves: by blocks, and one by one from the first byte on at which the run may end.
pub fn long_plain_end(text: &[u8], i: usize) -> usize
    requires { i ≤ length text.now }
    ensures { result ≡ i + run is_plain (drop i text.now) }
{
    run_end(|b| is_plain(b), text, text_end(text, i))
}

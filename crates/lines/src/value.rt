// What a list value is read by: where it stands, and its quotes.
ghost use Rattle.std.specs.Prelude.{◌≡◌, ◌≤◌, IsTrue};
ghost use Rattle.lines.specs.Quotes.{is_quote_kind};

use tokens::TokenKind;

// A list value's tokens: those from `from` up to `end`, in the workspace of a text of n bytes.
#[derive(Clone, Copy)]
pub struct ListPlace {
    pub n: usize,
    pub from: usize,
    pub end: usize,
    pub ghost small: { n ≤ 65535 },
    pub ghost on: { from ≤ end },
    pub ghost inside: { end ≤ n },
}

// The quotes that are open: their kind, and the token that opened them.
#[derive(Clone, Copy)]
pub struct Quote {
    pub kind: u32,
    pub opener: usize,
    pub ghost quotes: { IsTrue (is_quote_kind kind) },
}

// The kind of a token that opens and closes quotes.
pub fn is_quote(kind: u32) -> bool
    ensures { result ≡ is_quote_kind kind }
{
    kind == TokenKind::SingleQuote as u32 || kind == TokenKind::DoubleQuote as u32
}

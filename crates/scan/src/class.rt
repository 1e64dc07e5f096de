// The class of each byte value, from one constant table (document 01, "Lexing").
ghost use Rattle.std.specs.Prelude.{◌≡◌, drop};
ghost use Rattle.rules.specs.Lexing.{class, is_identifier};
ghost use Rattle.scan.specs.Classes.{class_number, class_at, number_of};

use ByteClass::{
    Backslash, Blank, CloseBrace, Colon, Dollar, Double, Equals, Hash, Identifier, LineEnd,
    OpenBrace, Other, Past, Single,
};

// The classes, for which the rules have their names. Identifier bytes and other ones are text by themselves. 3 to 9 are the kinds of the tokens that such
// a byte makes.
#[derive(Clone, Copy, Debug, PartialEq, Eq)]
pub enum ByteClass {
    Other = 0,
    Identifier = 1,
    Blank = 3,
    Equals = 4,
    Colon = 5,
    Single = 6,
    Double = 7,
    Backslash = 8,
    LineEnd = 9,
    Dollar = 10,
    Hash = 11,
    OpenBrace = 12,
    CloseBrace = 13,
    // the end of the text
    Past = 15,
}

// The class of each byte, by its value.
pub static CLASS: [ByteClass; 256] = [
    // 0x00 to 0x0F
    Other, Other, Other, Other, Other, Other, Other, Other, Other, Blank, LineEnd, Other, Other,
    LineEnd, Other, Other,
    // 0x10 to 0x1F
    Other, Other, Other, Other, Other, Other, Other, Other, Other, Other, Other, Other, Other,
    Other, Other, Other,
    // 0x20 to 0x2F
    Blank, Other, Double, Hash, Dollar, Other, Other, Single, Other, Other, Other, Other, Other,
    Other, Identifier, Other,
    // 0x30 to 0x3F
    Identifier, Identifier, Identifier, Identifier, Identifier, Identifier, Identifier, Identifier,
    Identifier, Identifier, Colon, Other, Other, Equals, Other, Other,
    // 0x40 to 0x4F
    Other, Identifier, Identifier, Identifier, Identifier, Identifier, Identifier, Identifier,
    Identifier, Identifier, Identifier, Identifier, Identifier, Identifier, Identifier, Identifier,
    // 0x50 to 0x5F
    Identifier, Identifier, Identifier, Identifier, Identifier, Identifier, Identifier, Identifier,
    Identifier, Identifier, Identifier, Other, Backslash, Other, Other, Identifier,
    // 0x60 to 0x6F
    Other, Identifier, Identifier, Identifier, Identifier, Identifier, Identifier, Identifier,
    Identifier, Identifier, Identifier, Identifier, Identifier, Identifier, Identifier, Identifier,
    // 0x70 to 0x7F
    Identifier, Identifier, Identifier, Identifier, Identifier, Identifier, Identifier, Identifier,
    Identifier, Identifier, Identifier, OpenBrace, Other, CloseBrace, Other, Other,
    // 0x80 to 0x8F
    Other, Other, Other, Other, Other, Other, Other, Other, Other, Other, Other, Other, Other,
    Other, Other, Other,
    // 0x90 to 0x9F
    Other, Other, Other, Other, Other, Other, Other, Other, Other, Other, Other, Other, Other,
    Other, Other, Other,
    // 0xA0 to 0xAF
    Other, Other, Other, Other, Other, Other, Other, Other, Other, Other, Other, Other, Other,
    Other, Other, Other,
    // 0xB0 to 0xBF
    Other, Other, Other, Other, Other, Other, Other, Other, Other, Other, Other, Other, Other,
    Other, Other, Other,
    // 0xC0 to 0xCF
    Other, Other, Other, Other, Other, Other, Other, Other, Other, Other, Other, Other, Other,
    Other, Other, Other,
    // 0xD0 to 0xDF
    Other, Other, Other, Other, Other, Other, Other, Other, Other, Other, Other, Other, Other,
    Other, Other, Other,
    // 0xE0 to 0xEF
    Other, Other, Other, Other, Other, Other, Other, Other, Other, Other, Other, Other, Other,
    Other, Other, Other,
    // 0xF0 to 0xFF
    Other, Other, Other, Other, Other, Other, Other, Other, Other, Other, Other, Other, Other,
    Other, Other, Other,
];

// The class of a byte.
pub fn class_of(b: u8) -> ByteClass
    ensures { number_of result ≡ class_number (class b) }
{
    CLASS[b as usize]
}

// ASCII letters, digits, `.`, `_`.
pub fn is_valid_identifier(b: u8) -> bool
    ensures { result ≡ is_identifier b }
{
    matches!(class_of(b), Identifier)
}

// The class of the byte at place i; at the end of the text and past it a class of its own.
// Kept: a place, so that the end of the text has a class too.
pub fn class_at(text: &[u8], i: usize) -> ByteClass
    ensures { number_of result ≡ class_at (drop i text.now) }
{
    if i < text.len() {
        class_of(text[i])
    } else {
        Past
    }
}

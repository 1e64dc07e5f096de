// A version cut into runs of ASCII letters and of ASCII digits: all other bytes only separate.
ghost use Rattle.std.specs.Prelude.{◌≡◌, take, drop};
ghost use Rattle.rules.specs.Bytes.{run};
ghost use Rattle.rules.specs.Versions.{value, is_digit, is_letter};
ghost use Rattle.versions.specs.Kinds.{kind_of, Fronts};

use crate::number::Number;
use crate::prefix::split_while;

// The kinds of runs: letters are below digits.
#[derive(Clone, Copy, PartialEq, Eq, PartialOrd, Ord)]
pub enum Kind {
    Letters,
    Digits,
}

// The kind of the runs that have this byte; none has a byte that only separates.
#[tactic(auto, unfolding(rules::specs::Versions::is_digit, rules::specs::Versions::is_letter, rules::specs::Bytes::within, rules::specs::Bytes::pick))]
#[inline]
fn kind_of(b: u8) -> Option<Kind>
    ensures { result ≡ kind_of b }
{
    match b {
        b'0'..=b'9' => Some(Kind::Digits),
        b'A'..=b'Z' | b'a'..=b'z' => Some(Kind::Letters),
        _ => None,
    }
}

// The text from its first run on, and that run's kind, where there is a run.
#[inline]
pub fn first_kind(text: &[u8]) -> Option<(Kind, &[u8])>
    ensures { Fronts text.now result }
{
    for (i, b) in text.iter().enumerate() {
        if let Some(kind) = kind_of(*b) {
            return Some((kind, &text[i..]));
        }
    }
    None
}

// The digits at the front, as a number, and what comes after them.
#[inline]
pub fn split_number(text: &[u8]) -> (Number<'_>, &[u8])
    ensures number { value 0 result.0.digits.now ≡ value 0 (take (run is_digit text.now) text.now) }
    ensures rest { result.1.now ≡ drop (run is_digit text.now) text.now }
{
    let (digits, rest) = split_while(|b| b.is_ascii_digit(), text);
    (Number::new(digits), rest)
}

// The letters at the front, and what comes after them.
#[inline]
pub fn split_letters(text: &[u8]) -> (&[u8], &[u8])
    ensures letters { result.0.now ≡ take (run is_letter text.now) text.now }
    ensures rest { result.1.now ≡ drop (run is_letter text.now) text.now }
{
    split_while(|b| b.is_ascii_alphabetic(), text)
}

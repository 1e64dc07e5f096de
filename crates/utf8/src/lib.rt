// Well-formed UTF-8 by the Unicode Standard, section 3.9: Table 3-7, one row of it a line below; and the code point at a place.
#![tactic(auto)]

ghost use Rattle.std.specs.Prelude.{◌≡◌, ◌+◌, ◌≤◌, get_or, length, drop};
ghost use Rattle.rules.specs.Utf8.{due_after, rows, well_formed, leading, trailing, code_point};
ghost use Rattle.utf8.specs.Dues.{ranges, due_of, after};

use scan::column::part;

// What is due: `count` bytes, the first of them from `low` to `high` and the others from 0x80 to 0xBF.
#[derive(Clone, Copy)]
struct Due {
    count: u8,
    low: u8,
    high: u8,
}

impl Due {
    const fn bytes(count: u8, low: u8, high: u8) -> Due
        ensures { result ≡ record { count = count; low = low; high = high } }
    {
        Due { count, low, high }
    }

    // What is due after the byte b, where this was due. None: no text goes on so.
    fn next(self, b: u8) -> Option<Due>
        ensures { due_of result ≡ after (ranges self.count self.low self.high) b }
    {
        if self.count == 0 {
            return row_of(b);
        }
        if b < self.low {
            return None;
        }
        if self.high < b {
            return None;
        }
        Some(Due::bytes(self.count - 1, 0x80, 0xBF))
    }
}

// Table 3-7: what is due after a first byte. None: no character begins so.
#[tactic(auto, using(crate::proofs::Rows::two_byte_row))]
fn row_of(b: u8) -> Option<Due>
    ensures { due_of result ≡ due_after b rows }
{
    match b {
        0x00..=0x7F => Some(Due::bytes(0, 0x80, 0xBF)),
        0xC2..=0xDF => Some(Due::bytes(1, 0x80, 0xBF)),
        0xE0..=0xE0 => Some(Due::bytes(2, 0xA0, 0xBF)),
        0xE1..=0xEC => Some(Due::bytes(2, 0x80, 0xBF)),
        0xED..=0xED => Some(Due::bytes(2, 0x80, 0x9F)),
        0xEE..=0xEF => Some(Due::bytes(2, 0x80, 0xBF)),
        0xF0..=0xF0 => Some(Due::bytes(3, 0x90, 0xBF)),
        0xF1..=0xF3 => Some(Due::bytes(3, 0x80, 0xBF)),
        0xF4..=0xF4 => Some(Due::bytes(3, 0x80, 0x8F)),
        _ => None,
    }
}

// Byte by byte, by the rows of the table.
fn goes_by_rows(text: &[u8]) -> bool
    ensures { result ≡ well_formed text.now }
{
    let mut due = Due {
        count: 0,
        low: 0x80,
        high: 0xBF,
    };
    for b in text {
        let Some(next) = due.next(*b) else {
            return false;
        };
        due = next;
    }
    due.count == 0
}

// Whether the text is well-formed UTF-8. ASCII is the table's first row alone, and is tested by blocks.
pub fn is_well_formed(text: &[u8]) -> bool
    ensures { result ≡ well_formed text.now }
{
    text.is_ascii() || goes_by_rows(text)
}

// Table 3-6: what a first byte gives, by how many bytes are due after it.
fn first_bits(count: u8, b: u8) -> u32
    ensures { result ≡ leading (ranges count 0x80 0xBF) b }
{
    let mark = match count {
        0 => 0,
        1 => 0xC0,
        2 => 0xE0,
        _ => 0xF0,
    };
    b.saturating_sub(mark) as u32
}

// Table 3-6: each byte due adds its last six bits to those so far.
fn more_bits(due: &[u8], bits: u32) -> u32
    requires { (length due.now ≤ 3) × (bits ≤ 255) }
    ensures { result ≡ trailing (ranges (length due.now) 0x80 0xBF) bits due.now }
{
    let mut n = bits;
    for b in due {
        n = n * 0x40 + b.saturating_sub(0x80) as u32;
    }
    n
}

// The code point at place i; 0 past the end.
// Kept: a place, so that past the end it is 0.
pub fn code_point_at(text: &[u8], i: usize) -> u32
    ensures { result ≡ code_point (get_or text.now i 0) (drop (i + 1) text.now) }
{
    if text.len() <= i {
        return 0;
    }
    let b = text[i];
    match row_of(b) {
        None => b as u32,
        Some(due) => {
            let rest = part(text, i + 1, due.count as usize);
            more_bits(rest, first_bits(due.count, b))
        }
    }
}

// Whole records from the front of bytes on, whatever their kinds.
ghost use Rattle.std.specs.Prelude.{◌≡◌, MatchOption};
ghost use Rattle.std.proofs.Math.Option.{none, some};
ghost use Rattle.rules.specs.Listing.{front};
ghost use Rattle.std.specs.Iterator.{YieldsFirstBy, item_count};

use crate::RecordForm;

// A record: its kind, and its payload.
#[derive(Clone, Copy)]
pub struct Record<'a> {
    pub kind: u16,
    pub payload: &'a [u8],
}

// The record at the front, where one stands there whole and its payload is within the limit, and the bytes after it.
#[tactic(auto, using(crate::proofs::Heads::fronts), unfolding(rules::specs::Variables::limit))]
pub fn split_first_record(bytes: &[u8]) -> Option<(Record<'_>, &[u8])>
    ensures { MatchOption result
        (front bytes.now ≡ none)
        (λ r. front bytes.now ≡ some (record { kind = r.0.kind; payload = r.0.payload.now; rest = r.1.now })) }
{
    let [a, b, c, d, low, high, rest @ ..] = bytes else {
        return None;
    };
    let size = u32::from_le_bytes([*a, *b, *c, *d]) as usize;
    if RecordForm::LIMIT < size {
        return None;
    }
    let (payload, rest) = rest.split_at_checked(size)?;
    let kind = u16::from_le_bytes([*low, *high]);
    Some((Record { kind, payload }, rest))
}

// The whole records from the front on, up to the first place where none stands.
#[derive(Clone, Copy)]
pub struct Records<'a> {
    rest: &'a [u8],
}

impl<'a> Records<'a> {
    ghost use Rattle.walker.specs.Records.{records_of};
    ghost use Rattle.walker.specs.Views.{records_left};

    pub fn new(bytes: &'a [u8]) -> Self
        ensures { records_left result ≡ records_of bytes.now }
    {
        Records { rest: bytes }
    }
}

impl<'a> Iterator for Records<'a> {
    ghost use Rattle.walker.specs.Views.{told_of, records_left};

    type Item = Record<'a>;

    ghost next_gives = { YieldsFirstBy told_of records_left };

    ghost remaining = { item_count records_left };

    #[tactic(auto, using(crate::proofs::Heads::lists))]
    fn next(&mut self) -> Option<Record<'a>> {
        let (first, rest) = split_first_record(self.rest)?;
        self.rest = rest;
        Some(first)
    }
}

// Records in form: fields once each by rising kind, a list's arguments after it.
ghost use Rattle.std.specs.Prelude.{◌≡◌, ◌≢◌, ◌&&◌, length, eqb, MatchResult};
ghost use Rattle.std.proofs.Math.Option.{none, some};
ghost use Rattle.rules.specs.Bytes.{from_little};

use crate::RecordForm;
use crate::front::{Record, split_first_record};

// The bytes break the form.
#[derive(Clone, Copy)]
pub struct NotRecords;

// What a record holds: the bytes of a string or of an argument, or how many arguments of a list come after it.
#[derive(Clone, Copy)]
pub enum Content<'a> {
    Bytes(&'a [u8]),
    Count(u32),
}

// A record where the form lets it stand.
#[derive(Clone, Copy)]
pub struct FormedRecord<'a> {
    pub kind: u16,
    pub content: Content<'a>,
}

// How many arguments a list has: its payload is four bytes.
fn count_in(payload: &[u8]) -> Result<u32, NotRecords>
    ensures { MatchResult result (λ n. (length payload.now ≡ 4) × (from_little payload.now ≡ n)) (λ _. length payload.now ≢ 4) }
{
    match payload.try_into() {
        Ok(bytes) => Ok(u32::from_le_bytes(bytes)),
        Err(_) => Err(NotRecords),
    }
}

// The records in form, one after another; where they break it one error, and nothing after that. It holds what is left, the last
// field's kind, and how many arguments are due.
#[derive(Clone, Copy)]
pub struct Walk<'a> {
    rest: &'a [u8],
    last: u16,
    due: u32,
}

impl<'a> Walk<'a> {
    ghost use Rattle.std.specs.Prelude.{ℕ, List};
    ghost use Rattle.walker.specs.Forms.{first_of, formed_front};
    ghost use Rattle.walker.specs.Walks.{content_told, told_first, items_left, items_of};

    // From the first record on.
    pub fn new(bytes: &'a [u8]) -> Self
        ensures { items_left result ≡ items_of bytes.now }
    {
        Walk {
            rest: bytes,
            last: 0,
            due: 0,
        }
    }

    // All is read, and no argument is due.
    fn is_done(&self) -> bool
        ensures { result ≡ (eqb (length self.now.rest.now) 0 && eqb self.now.due 0) }
    {
        self.rest.is_empty() && self.due == 0
    }

    // What a record holds where it may stand next, with the last field's kind and how many arguments are due after it.
    #[tactic(auto, using(crate::proofs::Items::forms))]
    fn read(&self, kind: u16, payload: &'a [u8]) -> Result<(Content<'a>, u16, u32), NotRecords>
        ensures { MatchResult result
            (λ p. (rest : List ℕ) → formed_front self.now.last self.now.due (record { kind = kind; payload = payload.entry.now; rest = rest })
            ≡ some (record { item = content_told kind p.0; rest = rest; last = p.1; due = p.2 }))
            (λ _. (rest : List ℕ) → formed_front self.now.last self.now.due (record { kind = kind; payload = payload.entry.now; rest = rest }) ≡ none) }
    {
        if 0 < self.due {
            if u64::from(kind) != RecordForm::ARGUMENT {
                return Err(NotRecords);
            }
            return Ok((Content::Bytes(payload), self.last, self.due - 1));
        }
        if kind <= self.last || RecordForm::LAST_LIST < u64::from(kind) {
            return Err(NotRecords);
        }
        if u64::from(kind) <= RecordForm::LAST_STRING {
            return Ok((Content::Bytes(payload), kind, 0));
        }
        let count = count_in(payload)?;
        Ok((Content::Count(count), kind, count))
    }

    // The first record, and the walk after it.
    fn first(&self) -> Result<(FormedRecord<'a>, Walk<'a>), NotRecords>
        ensures { MatchResult result
            (λ p. first_of self.now.last self.now.due self.now.rest.now ≡ some (told_first p.0 p.1))
            (λ _. first_of self.now.last self.now.due self.now.rest.now ≡ none) }
    {
        let Some((Record { kind, payload }, rest)) = split_first_record(self.rest) else {
            return Err(NotRecords);
        };
        let (content, last, due) = self.read(kind, payload)?;
        Ok((FormedRecord { kind, content }, Walk { rest, last, due }))
    }
}

impl<'a> Iterator for Walk<'a> {
    ghost use Rattle.std.specs.Iterator.{YieldsFirstBy, item_count};
    ghost use Rattle.walker.specs.Walks.{item_told, items_left};

    type Item = Result<FormedRecord<'a>, NotRecords>;

    ghost next_gives = { YieldsFirstBy item_told items_left };

    ghost remaining = { item_count items_left };

    #[tactic(auto, using(crate::proofs::Items::lefts))]
    fn next(&mut self) -> Option<Result<FormedRecord<'a>, NotRecords>> {
        if self.is_done() {
            return None;
        }
        match self.first() {
            Ok((record, left)) => {
                *self = left;
                Some(Ok(record))
            }
            Err(error) => {
                *self = Walk::new(&[]);
                Some(Err(error))
            }
        }
    }
}

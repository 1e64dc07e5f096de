// One line: kind, length of payload, payload, one blank between, LF after.
ghost use Rattle.std.specs.Prelude.{◌≡◌, [], ◌∷◌, ◌++◌, ◌+◌, ◌≤◌, length};
ghost use Rattle.rules.specs.Listing.{decimal};
ghost use Rattle.walker.specs.Forms.{value, count};
ghost use Rattle.walker.specs.Walks.{record_told};
ghost use Rattle.walker.specs.Lines.{line_of};

use sink::Sink;
use walker::{Content, FormedRecord};

const BLANK: u8 = 32;

const LF: u8 = 10;

// A list's payload: its count in four bytes.
const COUNT_SIZE: u64 = 4;

// A number, and this byte after it.
#[tactic(auto, using(crate::proofs::LineLengths::line_lengths))]
fn push_number<S: Sink>(sink: &mut S, n: u64, after: u8)
    requires { length (decimal n ++ after ∷ []) ≤ S.room sink.old }
    ensures taken { S.Takes sink.old (decimal n ++ after ∷ []) sink.new }
    ensures left { S.room sink.new + length (decimal n ++ after ∷ []) ≡ S.room sink.old }
{
    sink.push_decimal(n);
    sink.push(after);
}

// The line of a string or an argument: its payload shows as it is.
#[tactic(auto, using(crate::proofs::LineLengths::line_lengths))]
fn push_value<S: Sink>(sink: &mut S, kind: u64, payload: &[u8])
    requires { length (line_of (value kind payload.now)) ≤ S.room sink.old }
    ensures taken { S.Takes sink.old (line_of (value kind payload.now)) sink.new }
    ensures left { S.room sink.new + length (line_of (value kind payload.now)) ≡ S.room sink.old }
{
    push_number(sink, kind, BLANK);
    push_number(sink, payload.len() as u64, BLANK);
    sink.push_bytes(payload);
    sink.push(LF);
}

// The line of a list: its payload shows as its count.
#[tactic(auto, using(crate::proofs::LineLengths::line_lengths))]
fn push_count<S: Sink>(sink: &mut S, kind: u64, n: u32)
    requires { length (line_of (count kind n)) ≤ S.room sink.old }
    ensures taken { S.Takes sink.old (line_of (count kind n)) sink.new }
    ensures left { S.room sink.new + length (line_of (count kind n)) ≡ S.room sink.old }
{
    push_number(sink, kind, BLANK);
    push_number(sink, COUNT_SIZE, BLANK);
    sink.push_decimal(n as u64);
    sink.push(LF);
}

// The line of a record.
pub fn push_line<S: Sink>(sink: &mut S, record: &FormedRecord)
    requires { length (line_of (record_told record.now)) ≤ S.room sink.old }
    ensures taken { S.Takes sink.old (line_of (record_told record.now)) sink.new }
    ensures left { S.room sink.new + length (line_of (record_told record.now)) ≡ S.room sink.old }
{
    match record.content {
        Content::Bytes(payload) => push_value(sink, u64::from(record.kind), payload),
        Content::Count(count) => push_count(sink, u64::from(record.kind), count),
    }
}

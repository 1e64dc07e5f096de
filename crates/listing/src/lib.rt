// Records as lines (document 01, "Records and listing").
#![tactic(auto)]

mod line;

ghost use Rattle.std.specs.Prelude.{◌≡◌, ◌≤◌, length, true, false, MatchResult, is_ok};
ghost use Rattle.rules.specs.Listing as Rules;
ghost use Rattle.scan.specs.Stores.{puts};
ghost use Rattle.answers.specs.Tells.{Tells};
ghost use Rattle.walker.specs.Forms.{all_formed};
ghost use Rattle.walker.specs.Walks.{items_of};
ghost use Rattle.walker.specs.Lines.{lines_of};

use answers::{Answer, Number, plain};
use sink::{Buffer, Counter, Sink};
use walker::{NotRecords, Walk};

// The lines of the records go there, up to where they break the form.
fn push_lines<S: Sink>(sink: &mut S, records: &[u8]) -> Result<(), NotRecords>
    requires { length (lines_of (items_of records.now)) ≤ S.room sink.old }
    ensures taken { S.Takes sink.old (lines_of (items_of records.now)) sink.new }
    ensures answer { is_ok result ≡ all_formed (items_of records.now) }
{
    for record in Walk::new(records) {
        line::push_line(sink, &record?);
    }
    Ok(())
}

// How many bytes the lines have.
fn measure(records: &[u8]) -> Result<usize, NotRecords>
    ensures { MatchResult result
        (λ need. (all_formed (items_of records.now) ≡ true) × (need ≡ length (lines_of (items_of records.now))))
        (λ _. all_formed (items_of records.now) ≡ false) }
{
    let mut counter = Counter::default();
    push_lines(&mut counter, records)?;
    Ok(counter.count)
}

// The lines go to the front of the output, which has room for them.
fn write_lines(records: &[u8], output: &mut [u8])
    requires { length (lines_of (items_of records.now)) ≤ length output.old }
    ensures { output.new ≡ puts output.old 0 (lines_of (items_of records.now)) }
{
    let mut buffer = Buffer::new(output);
    let _formed = push_lines(&mut buffer, records);
}

// The lines of the records, to the front of the output: 18 where the bytes break the form, then 17 with the need where the
// output is short; both write nothing. On 0 nothing past the lines is touched.
pub fn listing(records: &[u8], output: &mut [u8]) -> Answer
    ensures answer { Tells result (Rules.listing records.now output.old).answer }
    ensures written { output.new ≡ (Rules.listing records.now output.old).output }
{
    let Ok(need) = measure(records) else {
        return plain(Number::NotRecords, 0);
    };
    if output.len() < need {
        return plain(Number::OutputShort, need as u64);
    }
    write_lines(records, output);
    plain(Number::Accepted, need as u64)
}

// Requires as packages, for C.
ghost use Rattle.std.specs.Prelude.{◌≡◌};
ghost use Rattle.rules.specs.Packages.{number, answer_number, answer_index};
ghost use Rattle.packages.specs.Answers.{rules_answer};
ghost use Rattle.export.specs.Packages.{ExportsPackages};

use crate::detail::put_numbers;
use packages::{Refusal, packages};

// The sizes of this call. Kept: sizes belong to a named type, as limits do.
#[derive(Clone, Copy)]
pub struct Room;

impl Room {
    // the bytes of its detail: three numbers of eight bytes
    pub const DETAIL: usize = 24;
}

// What the detail says: the answer's number; bytes written, field or need; the index.
#[tactic(auto, unfolding(rules::specs::Packages::number, rules::specs::Packages::answer_number, rules::specs::Packages::answer_index))]
fn tell(answer: Result<usize, Refusal>) -> (u32, u64, u64)
    ensures number { result.0 ≡ number (rules_answer answer) }
    ensures value { result.1 ≡ answer_number (rules_answer answer) }
    ensures index { result.2 ≡ answer_index (rules_answer answer) }
{
    match answer {
        Ok(written) => (0, written as u64, 0),
        Err(Refusal::NotRecords) => (18, 0, 0),
        Err(Refusal::Malformed(item)) => (20, item.field.number() as u64, item.index as u64),
        Err(Refusal::OutputShort(need)) => (17, need as u64, 0),
    }
}

pub fn cabbagelute_packages(records: &[u8], output: &mut [u8], detail: &mut [u8]) -> u32
    ensures { ExportsPackages records.now output.old detail.old output.new detail.new result }
{
    if detail.len() < Room::DETAIL {
        return 19;
    }
    let (number, value, index) = tell(packages(records, output));
    put_numbers(detail, &[number as u64, value, index]);
    number
}

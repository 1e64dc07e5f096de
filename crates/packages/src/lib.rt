// Fields 5 and 6, the packages that a file requires, as items written as records.
#![tactic(auto)]

pub mod cut;
pub mod field;
pub mod items;
mod values;

ghost use Rattle.std.specs.Prelude.{◌≡◌};
ghost use Rattle.rules.specs.Packages as Rules;
ghost use Rattle.packages.specs.Answers.{rules_answer, MalformedIs};

use field::Malformed;
use values::Values;
use walker::is_records;

// Why nothing is written: 18; 20 with the first malformed item; 17 with how many bytes the records need.
#[derive(Clone, Copy)]
pub enum Refusal {
    NotRecords,
    Malformed(Malformed),
    OutputShort(usize),
}

impl From<Malformed> for Refusal {
    ghost from_gives = { MalformedIs };

    fn from(item: Malformed) -> Refusal {
        Refusal::Malformed(item)
    }
}

// The items of fields 5 and 6 as records, to the front of the output, and how many bytes they are: 18 where the bytes are no records
// in form, then 20 for the first malformed item, field 5 before 6, then 17 where the output is short; none of these writes anything.
// On success nothing past the records is touched.
pub fn packages(records: &[u8], output: &mut [u8]) -> Result<usize, Refusal>
    ensures answer { rules_answer result ≡ (Rules.packages records.now output.old).answer }
    ensures written { output.new ≡ (Rules.packages records.now output.old).output }
{
    if !is_records(records) {
        return Err(Refusal::NotRecords);
    }
    let values = Values::new(records);
    let need = values.measure()?;
    if output.len() < need {
        return Err(Refusal::OutputShort(need));
    }
    values.write(output);
    Ok(need)
}

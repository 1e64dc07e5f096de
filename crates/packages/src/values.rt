// The values of fields 5 and 6, and their items as records.
ghost use Rattle.std.specs.Prelude.{◌≡◌, ◌≤◌, length, OnOk, MatchResult};
ghost use Rattle.rules.specs.Variables.{limit};
ghost use Rattle.rules.specs.Packages.{value_of};
ghost use Rattle.scan.specs.Stores.{puts};
ghost use Rattle.packages.specs.Numbers.{field_number};

use crate::field::{Field, Malformed};
use crate::items::{push_items, write_items};
use sink::{Counter, Sink};
use walker::Records;

// The value of a field, from records in form; empty where the field is absent.
#[tactic(auto, using(crate::proofs::Finding::value_first))]
fn value_of(records: &[u8], field: Field) -> &[u8]
    ensures { result.now ≡ value_of (field_number field) records.now }
{
    for record in Records::new(records) {
        if record.kind == u16::from(field.number()) {
            return record.payload;
        }
    }
    &[]
}

// The values of fields 5 and 6, as long as a payload may be.
#[derive(Clone, Copy)]
pub struct Values<'a> {
    fifth: &'a [u8],
    sixth: &'a [u8],
    ghost fifth_small: { length fifth.now ≤ limit },
    ghost sixth_small: { length sixth.now ≤ limit },
}

impl<'a> Values<'a> {
    ghost use Rattle.packages.specs.Values.{all_records, first_malformed};

    // From records in form.
    #[tactic(auto, using(crate::proofs::Finding::values_small))]
    pub fn new(records: &'a [u8]) -> Self
        ensures fifth { result.fifth.now ≡ value_of 5 records.now }
        ensures sixth { result.sixth.now ≡ value_of 6 records.now }
    {
        Values {
            fifth: value_of(records, Field::Requires),
            sixth: value_of(records, Field::RequiresPrivate),
        }
    }

    // The records of both fields' items go there; an error tells the first malformed item.
    fn push<S: Sink>(&self, sink: &mut S) -> Result<(), Malformed>
        requires { length (all_records self.now) ≤ S.room sink.old }
        ensures taken { OnOk result (S.Takes sink.old (all_records self.now) sink.new) }
        ensures answer { result ≡ first_malformed self.now }
    {
        push_items(sink, Field::Requires, self.fifth)?;
        push_items(sink, Field::RequiresPrivate, self.sixth)
    }

    // How many bytes the records of all items are.
    #[tactic(auto, using(crate::proofs::Entering::both_few))]
    pub fn measure(&self) -> Result<usize, Malformed>
        ensures { MatchResult result
            (λ need. (need ≡ length (all_records self.now)) × (first_malformed self.now ≡ Ok tt))
            (λ item. first_malformed self.now ≡ Err item) }
    {
        let mut counter = Counter { count: 0 };
        self.push(&mut counter)?;
        Ok(counter.count)
    }

    // The records go to the front of the output, which has room for them.
    pub fn write(&self, output: &mut [u8])
        requires formed { first_malformed self.now ≡ Ok tt }
        requires room { length (all_records self.now) ≤ length output.old }
        ensures { output.new ≡ puts output.old 0 (all_records self.now) }
    {
        let at = write_items(self.fifth, Field::Requires.number(), output, 0);
        write_items(self.sixth, Field::RequiresPrivate.number(), output, at);
    }
}

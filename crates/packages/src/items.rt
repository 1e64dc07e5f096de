// The items of a value, as records: a counter measures them, a buffer stores them.
ghost use Rattle.std.specs.Prelude.{◌≡◌, ◌+◌, ◌≤◌, ◌++◌, [], ◌∷◌, length};
ghost use Rattle.rules.specs.Records.{record_bytes};
ghost use Rattle.rules.specs.Packages.{items_of, item_records};
ghost use Rattle.scan.specs.Stores.{puts};
ghost use Rattle.packages.specs.Cuts.{told_item};
ghost use Rattle.packages.specs.Entries.{entries_of, records_in, first_broken};
ghost use Rattle.packages.specs.Items.{records_of, Fitting};
ghost use Rattle.packages.specs.Numbers.{kind_number, field_number, malformed_in};

use crate::cut::{Item, Items};
use crate::field::{Field, Malformed};
use sink::{Buffer, Sink};

// The kinds of an item's records.
#[derive(Clone, Copy)]
enum Kind {
    Item = 12,
    Name = 13,
    Version = 14,
}

impl Kind {
    // Kept: `as` with its clause; a `From` would have the same body.
    fn number(self) -> u16
        ensures { result ≡ kind_number self }
    {
        self as u16
    }
}

// The record of this kind. Its length is told by its lowest four bytes.
#[tactic(auto, using(crate::proofs::Records::record_pieces))]
fn push_record<S: Sink>(sink: &mut S, kind: Kind, payload: &[u8])
    requires { length (record_bytes (kind_number kind) payload.now) ≤ S.room sink.old }
    ensures taken { S.Takes sink.old (record_bytes (kind_number kind) payload.now) sink.new }
    ensures left { S.room sink.new + length (record_bytes (kind_number kind) payload.now) ≡ S.room sink.old }
{
    let [a, b, c, d] = ((payload.len() % 0x1_0000_0000) as u32).to_le_bytes();
    let [low, high] = kind.number().to_le_bytes();
    sink.push_bytes(&[a, b, c, d, low, high]);
    sink.push_bytes(payload);
}

// The three records of an item.
#[tactic(auto, using(crate::proofs::Records::record_pieces))]
fn push_item<S: Sink>(sink: &mut S, field: u8, item: &Item)
    requires { length (item_records field (told_item item.now)) ≤ S.room sink.old }
    ensures taken { S.Takes sink.old (item_records field (told_item item.now)) sink.new }
    ensures left { S.room sink.new + length (item_records field (told_item item.now)) ≡ S.room sink.old }
{
    push_record(sink, Kind::Item, &[field, item.operator.number()]);
    push_record(sink, Kind::Name, item.name);
    push_record(sink, Kind::Version, item.version);
}

// The records of a value's items go there, up to a malformed one: an error tells its index.
fn push_records<S: Sink>(sink: &mut S, field: u8, value: &[u8]) -> Result<(), usize>
    requires { length (records_in field (entries_of value.now)) ≤ S.room sink.old }
    ensures taken { S.Takes sink.old (records_in field (entries_of value.now)) sink.new }
    ensures left { S.room sink.new + length (records_in field (entries_of value.now)) ≡ S.room sink.old }
    ensures answer { result ≡ first_broken (items_of value.now) }
{
    for (index, item) in Items::new(value).enumerate() {
        let Ok(item) = item else {
            return Err(index);
        };
        push_item(sink, field, &item);
    }
    Ok(())
}

// The same of field 5 or 6: an error tells the field and the index.
pub fn push_items<S: Sink>(sink: &mut S, field: Field, value: &[u8]) -> Result<(), Malformed>
    requires { length (records_in (field_number field) (entries_of value.now)) ≤ S.room sink.old }
    ensures taken { S.Takes sink.old (records_in (field_number field) (entries_of value.now)) sink.new }
    ensures left { S.room sink.new + length (records_in (field_number field) (entries_of value.now)) ≡ S.room sink.old }
    ensures answer { result ≡ malformed_in field (items_of value.now) }
{
    match push_records(sink, field.number(), value) {
        Ok(()) => Ok(()),
        Err(index) => Err(Malformed { field, index }),
    }
}

// The records of all items go to the output from `at` on, which has room for them; the place after them.
pub fn write_items(value: &[u8], field: u8, output: &mut [u8], at: usize) -> usize
    requires { Fitting field (items_of value.now) output.old at }
    ensures stored { output.new ≡ puts output.old at (records_of field (items_of value.now)) }
    ensures next { result ≡ at + length (records_of field (items_of value.now)) }
{
    let mut buffer = Buffer { at, bytes: output };
    let _formed = push_records(&mut buffer, field, value);
    buffer.at
}

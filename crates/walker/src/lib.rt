// The record form read back, one record at a time (document 01, "Records and listing").
#![tactic(auto)]

mod form;
mod front;

ghost use Rattle.std.specs.Prelude.{◌≡◌};
ghost use Rattle.rules.specs.Listing.{lines_of_records};
ghost use Rattle.walker.specs.Forms.{is_some};

pub use form::{Content, FormedRecord, NotRecords, Walk};
pub use front::{Record, Records, split_first_record};

// The numbers of the form.
// Kept, as numbers: bytes may hold any kind, and the form compares them by order.
#[derive(Clone, Copy)]
pub struct RecordForm;

impl RecordForm {
    // the length of payload and the kind, before the payload
    pub const HEAD: usize = 6;

    // the most bytes that a payload may have
    pub const LIMIT: usize = 67108864;

    // the kind of an argument
    pub const ARGUMENT: u64 = 11;

    // fields up to this kind are strings
    pub const LAST_STRING: u64 = 7;

    // fields up to this kind are lists
    pub const LAST_LIST: u64 = 10;
}

// The bytes are records in form: a listing wouldn't answer 18.
#[tactic(auto, using(crate::proofs::Rules::formed_some))]
pub fn is_records(records: &[u8]) -> bool
    ensures { result ≡ is_some (lines_of_records records.now) }
{
    for record in Walk::new(records) {
        if record.is_err() {
            return false;
        }
    }
    true
}

// Records (document 01, "Records and listing"): what those of all fields need, or the first refusal; then the records themselves.
#![tactic(auto)]

pub mod measure;
pub mod write;

// The kinds of records: fields by number, and arguments. Kept: limits and field numbers belong to named types as constants (docs/PROMISES.md).
#[derive(Clone, Copy)]
pub struct RecordKind;

impl RecordKind {
    // The fields with smaller numbers are strings, this one and the later ones are lists.
    pub const FIRST_LIST: usize = 8;

    pub const LAST_FIELD: usize = 10;

    pub const ARGUMENT: usize = 11;
}

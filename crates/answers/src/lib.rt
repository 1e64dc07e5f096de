// Document 01, "Numbers returned": the answers as an enum, with the detail beside it.
#![tactic(auto)]

ghost use Rattle.std.specs.Prelude.{◌≡◌};
ghost use Rattle.answers.specs.Tells.{number_of, plain_answer};
ghost use Rattle.answers.specs.Refusals.{refusal_number, refusal_detail, refusal_answer, answer_of};

// Every answer of the reader, the listing and the exported calls, by document 01's numbers 0 to 19.
#[derive(Clone, Copy, Debug, PartialEq, Eq)]
pub enum Number {
    Accepted,
    TooLong,
    WorkspaceShort,
    PoolShort,
    NotUtf8,
    MissingCloseVariable,
    InvalidVariableChar,
    UnexpectedAtStart,
    UnexpectedAfterKey,
    EndedAfterKey,
    InvalidVariableName,
    DuplicateVariable,
    UnknownField,
    DuplicateField,
    UnterminatedQuote,
    UndefinedVariable,
    ContentTooLarge,
    OutputShort,
    NotRecords,
    DetailShort,
}

// A name: its place in the pool, and its length.
#[derive(Clone, Copy, Debug, PartialEq, Eq)]
pub struct Name {
    pub place: u32,
    pub length: u32,
}

impl Name {
    // No name.
    pub const NONE: Name = Name {
        place: 0,
        length: 0,
    };
}

// A number with two names. All that isn't listed is 0.
#[derive(Clone, Copy, Debug, PartialEq, Eq)]
pub struct Detail {
    pub value: u64,
    pub first: Name,
    pub second: Name,
}

impl Detail {
    // A detail of these three.
    pub fn new(value: u64, first: Name, second: Name) -> Self
        ensures { result ≡ record { value = value; first = first; second = second } }
    {
        Detail {
            value,
            first,
            second,
        }
    }
}

#[derive(Clone, Copy, Debug, PartialEq, Eq)]
pub struct Answer {
    pub number: Number,
    pub detail: Detail,
}

// An answer whose detail has no names.
pub fn plain(number: Number, value: u64) -> Answer
    ensures { result ≡ plain_answer number value }
{
    Answer {
        number,
        detail: Detail::new(value, Name::NONE, Name::NONE),
    }
}

// The document's number: the place of its case.
pub fn number_of(n: Number) -> u32
    ensures { result ≡ number_of n }
{
    n as u32
}

impl From<Number> for u32 {
    ghost from_gives = { λ n r. r ≡ number_of n };

    fn from(n: Number) -> u32 {
        number_of(n)
    }
}

// Why a text has no records: the reader's answers 1 to 17, with what their details tell.
// Kept: fields and kinds by the numbers that a detail tells (the C interface); field 0 is none, where a variable is resolved.
#[derive(Clone, Copy, Debug, PartialEq, Eq)]
pub enum Refusal {
    TooLong,
    WorkspaceShort,
    PoolShort,
    NotUtf8,
    MissingCloseVariable,
    // with the code point
    InvalidVariableChar(u32),
    // with the token's kind, and its text
    UnexpectedAtStart(u32, Name),
    UnexpectedAfterKey(u32, Name),
    EndedAfterKey,
    // with the key
    InvalidVariableName(Name),
    DuplicateVariable(Name),
    UnknownField(Name),
    DuplicateField(Name),
    UnterminatedQuote,
    // with the field, the reference and the variable being resolved
    UndefinedVariable(usize, Name, Name),
    // with the field and the variable being resolved
    ContentTooLarge(usize, Name),
    // with the bytes needed
    OutputShort(u64),
}

impl Refusal {
    // The document's number.
    pub fn number(self) -> Number
        ensures { result ≡ refusal_number self }
    {
        match self {
            Refusal::TooLong => Number::TooLong,
            Refusal::WorkspaceShort => Number::WorkspaceShort,
            Refusal::PoolShort => Number::PoolShort,
            Refusal::NotUtf8 => Number::NotUtf8,
            Refusal::MissingCloseVariable => Number::MissingCloseVariable,
            Refusal::InvalidVariableChar(_) => Number::InvalidVariableChar,
            Refusal::UnexpectedAtStart(_, _) => Number::UnexpectedAtStart,
            Refusal::UnexpectedAfterKey(_, _) => Number::UnexpectedAfterKey,
            Refusal::EndedAfterKey => Number::EndedAfterKey,
            Refusal::InvalidVariableName(_) => Number::InvalidVariableName,
            Refusal::DuplicateVariable(_) => Number::DuplicateVariable,
            Refusal::UnknownField(_) => Number::UnknownField,
            Refusal::DuplicateField(_) => Number::DuplicateField,
            Refusal::UnterminatedQuote => Number::UnterminatedQuote,
            Refusal::UndefinedVariable(_, _, _) => Number::UndefinedVariable,
            Refusal::ContentTooLarge(_, _) => Number::ContentTooLarge,
            Refusal::OutputShort(_) => Number::OutputShort,
        }
    }

    // What is told beside the number.
    pub fn detail(self) -> Detail
        ensures { result ≡ refusal_detail self }
    {
        match self {
            Refusal::InvalidVariableChar(c) => Detail::new(c as u64, Name::NONE, Name::NONE),
            Refusal::UnexpectedAtStart(kind, shown) | Refusal::UnexpectedAfterKey(kind, shown) => {
                Detail::new(kind as u64, shown, Name::NONE)
            }
            Refusal::InvalidVariableName(key)
            | Refusal::DuplicateVariable(key)
            | Refusal::UnknownField(key)
            | Refusal::DuplicateField(key) => Detail::new(0, key, Name::NONE),
            Refusal::UndefinedVariable(field, reference, variable) => {
                Detail::new(field as u64, reference, variable)
            }
            Refusal::ContentTooLarge(field, variable) => {
                Detail::new(field as u64, Name::NONE, variable)
            }
            Refusal::OutputShort(need) => Detail::new(need, Name::NONE, Name::NONE),
            _ => Detail::new(0, Name::NONE, Name::NONE),
        }
    }

    // Both.
    pub fn answer(self) -> Answer
        ensures { result ≡ refusal_answer self }
    {
        Answer {
            number: self.number(),
            detail: self.detail(),
        }
    }
}

// What a call answers: the bytes written, or the refusal.
impl From<Result<u64, Refusal>> for Answer {
    ghost from_gives = { λ r a. a ≡ answer_of r };

    fn from(r: Result<u64, Refusal>) -> Answer {
        match r {
            Ok(written) => plain(Number::Accepted, written),
            Err(e) => e.answer(),
        }
    }
}

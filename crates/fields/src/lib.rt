// The longest text, the ten fields and the fields already seen (document 01).
#![tactic(auto)]

ghost use Rattle.std.specs.Prelude.{find, ◌≡◌, ◌≤◌, ◌^◌};
ghost use Rattle.std.specs.Int.Bits.{bit_or};
ghost use Rattle.rules.specs.Lines.{is_string};
ghost use Rattle.fields.specs.Seen.{field_number, bit_at};
ghost use Rattle.fields.specs.Numbers.{number_of, number_or_zero, key_of, has_key};

// Kept: limits belong to a named type, as constants, a rule here.
#[derive(Clone, Copy)]
pub struct Limit;

impl Limit {
    // The most bytes that a text may have.
    pub const TEXT: usize = 65535;
}

// A field of a file; `as u32` is its number.
#[derive(Clone, Copy, PartialEq, Eq)]
pub enum Field {
    Name = 1,
    Description = 2,
    Url = 3,
    Version = 4,
    Requires = 5,
    RequiresPrivate = 6,
    Conflicts = 7,
    Cflags = 8,
    Libs = 9,
    LibsPrivate = 10,
}

impl Field {
    // All fields, in the order of their numbers.
    pub const ALL: [Field; 10] = [
        Field::Name,
        Field::Description,
        Field::Url,
        Field::Version,
        Field::Requires,
        Field::RequiresPrivate,
        Field::Conflicts,
        Field::Cflags,
        Field::Libs,
        Field::LibsPrivate,
    ];

    // The key that gives the field.
    #[tactic(auto, unfolding(rules::specs::Bytes::bytes))]
    pub fn key(self) -> &'static [u8]
        ensures { result.now ≡ key_of self }
    {
        match self {
            Field::Name => b"Name",
            Field::Description => b"Description",
            Field::Url => b"URL",
            Field::Version => b"Version",
            Field::Requires => b"Requires",
            Field::RequiresPrivate => b"Requires.private",
            Field::Conflicts => b"Conflicts",
            Field::Cflags => b"Cflags",
            Field::Libs => b"Libs",
            Field::LibsPrivate => b"Libs.private",
        }
    }

    // The field of a key; none where it is no field's.
    pub fn of_key(key: &[u8]) -> Option<Field>
        ensures { number_or_zero result ≡ field_number key.now }
    {
        with_key(&Field::ALL, key)
    }

    // Fields 1 to 7 are strings, 8 to 10 lists.
    pub fn is_string(self) -> bool
        ensures { result ≡ is_string (number_of self) }
    {
        Field::is_string_number(self as u32)
    }

    // The same by number, which need be no field's.
    #[tactic(auto, unfolding(rules::specs::Lines::is_string))]
    pub fn is_string_number(f: u32) -> bool
        ensures { result ≡ is_string f }
    {
        f <= Field::Conflicts as u32
    }
}

// The first of these fields that has the key.
fn with_key(fields: &[Field], key: &[u8]) -> Option<Field>
    ensures { result ≡ find (λ f. has_key key.now f) fields.now }
{
    fields.iter().copied().find(|field| field.key() == key)
}

// "The fields already seen are kept as ten bits, one for each field number."
#[derive(Clone, Copy)]
pub struct Seen(pub u32);

impl Seen {
    pub const NONE: Seen = Seen(0);

    // The field was seen.
    pub fn has(self, field: Field) -> bool
        ensures { result ≡ bit_at self.0 (number_of field) }
    {
        self.has_number(field as u32)
    }

    // The field is seen too.
    pub fn with(self, field: Field) -> Seen
        ensures { result.0 ≡ bit_or self.0 (2 ^ number_of field) }
    {
        self.with_number(field as u32)
    }

    // The same by number; 0 is no field's, and its bit is free.
    pub fn has_number(self, number: u32) -> bool
        requires { number ≤ 10 }
        ensures { result ≡ bit_at self.0 number }
    {
        (self.0 >> number) % 2 == 1
    }

    pub fn with_number(self, number: u32) -> Seen
        requires { number ≤ 10 }
        ensures { result.0 ≡ bit_or self.0 (2 ^ number) }
    {
        Seen(self.0 | (1 << number))
    }
}

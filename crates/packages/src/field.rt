// The fields that are read as items.
ghost use Rattle.std.specs.Prelude.{◌≡◌};
ghost use Rattle.packages.specs.Numbers.{field_number};

#[derive(Clone, Copy)]
pub enum Field {
    Requires = 5,
    RequiresPrivate = 6,
}

impl Field {
    // The kind of its record.
    // Kept: `as` with its clause; a `From` would have the same body.
    pub fn number(self) -> u8
        ensures { result ≡ field_number self }
    {
        self as u8
    }
}

// The first malformed item, by its field and its index within it.
#[derive(Clone, Copy)]
pub struct Malformed {
    pub field: Field,
    pub index: usize,
}

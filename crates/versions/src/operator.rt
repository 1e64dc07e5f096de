// The operators between a package's name and its version.
ghost use Rattle.std.specs.Prelude.{◌≡◌};
ghost use Rattle.versions.specs.Operators.{holds, number_of, IsOperator};

use std::cmp::Ordering;

// Any version, and `=`, `<`, `>`, `<=`, `>=`, `!=`: by number 0 to 6.
#[derive(Clone, Copy, PartialEq, Eq)]
pub enum Operator {
    Any,
    Equal,
    Less,
    Greater,
    AtMost,
    AtLeast,
    Unequal,
}

// No operator has this number.
#[derive(Clone, Copy)]
pub struct NoOperator;

impl TryFrom<u32> for Operator {
    type Error = NoOperator;

    ghost try_from_gives = { IsOperator };

    fn try_from(number: u32) -> Result<Operator, NoOperator> {
        match number {
            0 => Ok(Operator::Any),
            1 => Ok(Operator::Equal),
            2 => Ok(Operator::Less),
            3 => Ok(Operator::Greater),
            4 => Ok(Operator::AtMost),
            5 => Ok(Operator::AtLeast),
            6 => Ok(Operator::Unequal),
            _ => Err(NoOperator),
        }
    }
}

impl Operator {
    // Whether a version that stands so to the one asked for meets it.
    pub fn holds(self, order: Ordering) -> bool
        ensures { result ≡ holds self order }
    {
        match self {
            Operator::Any => true,
            Operator::Equal => order.is_eq(),
            Operator::Less => order.is_lt(),
            Operator::Greater => order.is_gt(),
            Operator::AtMost => order.is_le(),
            Operator::AtLeast => order.is_ge(),
            Operator::Unequal => order.is_ne(),
        }
    }

    // Its number, as records have it.
    // Kept: `as` with its clause; a `From` would have the same body.
    pub fn number(self) -> u8
        ensures { result ≡ number_of self }
    {
        self as u8
    }
}

// Numbers of any length, by their digits.
ghost use Rattle.std.specs.Prelude.{◌≡◌, true, length};
ghost use Rattle.rules.specs.Bytes.{run, is, all};
ghost use Rattle.rules.specs.Versions.{is_digit, value};

use crate::prefix::split_while;

// The digits of a number, of any length, without leading zeros: a number of fewer digits is lower, and of two as long the
// bytes decide.
#[derive(Clone, Copy, PartialEq, Eq, PartialOrd, Ord)]
pub struct Number<'a> {
    count: usize,
    digits: &'a [u8],
    ghost counted: { count ≡ length digits.now },
    ghost plain: { all is_digit digits.now ≡ true },
    ghost bare: { run (is "0") digits.now ≡ 0 },
}

impl<'a> Number<'a> {
    // The number that these digits make.
    #[inline]
    pub fn new(digits: &'a [u8]) -> Self
        requires { all is_digit digits.now ≡ true }
        ensures { value 0 result.digits.now ≡ value 0 digits.now }
    {
        let (_, digits) = split_while(|b| b == b'0', digits);
        Number {
            count: digits.len(),
            digits,
        }
    }
}

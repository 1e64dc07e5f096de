// The calls for C that compare versions.
ghost use Rattle.std.specs.Prelude.{◌≡◌};
ghost use Rattle.rules.specs.Versions.{compare_versions, order_number, meets, met_number};

use std::cmp::Ordering;
use versions::operator::NoOperator;

// 0 equal, 1 the first is lower, 2 the first is higher.
pub fn cabbagelute_compare_versions(a: &[u8], b: &[u8]) -> u32
    ensures { result ≡ order_number (compare_versions a.now b.now) }
{
    match versions::compare(a, b) {
        Ordering::Equal => 0,
        Ordering::Less => 1,
        Ordering::Greater => 2,
    }
}

// 0 not met, 1 met, 2 no such operator.
pub fn cabbagelute_version_meets(version: &[u8], operator: u32, asked: &[u8]) -> u32
    ensures { result ≡ met_number (meets version.now operator asked.now) }
{
    match versions::meets(version, operator, asked) {
        Ok(false) => 0,
        Ok(true) => 1,
        Err(NoOperator) => 2,
    }
}

// Versions compared by runs, and whether a version meets what was asked for. Nothing is copied: runs are
// parts of the lent bytes, and a digit run compares as a number of any length by its digits without leading zeros.
#![tactic(auto)]

mod number;
pub mod operator;
pub mod prefix;
mod runs;
pub mod version;

ghost use Rattle.std.specs.Prelude.{◌≡◌};
ghost use Rattle.rules.specs.Versions.{compare_versions, meets};
ghost use Rattle.versions.specs.Told.{told, told_met};

use operator::{NoOperator, Operator};
use std::cmp::Ordering;
use version::Version;

// How the first version stands to the second: run by run, and the version with runs left over is higher.
pub fn compare(a: &[u8], b: &[u8]) -> Ordering
    ensures { result ≡ told (compare_versions a.now b.now) }
{
    Version(a).cmp(&Version(b))
}

// Whether a version meets an operator, by its number, and a version asked for; an error where there is no such operator.
pub fn meets(version: &[u8], operator: u32, asked: &[u8]) -> Result<bool, NoOperator>
    ensures { result ≡ told_met (meets version.now operator asked.now) }
{
    match Operator::try_from(operator)? {
        Operator::Any => Ok(true),
        asks => Ok(asks.holds(compare(version, asked))),
    }
}

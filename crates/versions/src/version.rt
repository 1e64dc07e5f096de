// Versions in their order.
ghost use Rattle.std.specs.Prelude.{◌≡◌, refl};
ghost use Rattle.std.specs.Cmp.{partial_order_from_total, eq_by_cmp_equiv, partial_equiv_from_equiv};
ghost use Rattle.std.specs.Ordering.{nat_cmp};
ghost use Rattle.std.specs.Cmp.Lexicographic.{slice_cmp};
ghost use Rattle.rules.specs.Versions.{compare_run};
ghost use Rattle.versions.specs.Kinds.{run_of, after};
ghost use Rattle.versions.specs.Told.{told};

use crate::runs::{Kind, first_kind, split_letters, split_number};
use std::cmp::Ordering;

// The runs of this kind at the fronts of both texts: how they stand, and what comes after each.
#[inline]
fn compare_fronts<'a>(kind: Kind, a: &'a [u8], b: &'a [u8]) -> (Ordering, &'a [u8], &'a [u8])
    ensures order { result.0 ≡ told (compare_run (run_of kind a.now) (run_of kind b.now)) }
    ensures first { result.1.now ≡ after kind a.now }
    ensures second { result.2.now ≡ after kind b.now }
{
    match kind {
        Kind::Letters => {
            let (x, rest) = split_letters(a);
            let (y, other) = split_letters(b);
            (x.cmp(y), rest, other)
        }
        Kind::Digits => {
            let (m, rest) = split_number(a);
            let (n, other) = split_number(b);
            (m.cmp(&n), rest, other)
        }
    }
}

// The bytes of a version. Two are equal where their runs are, as 1.07 and 1-7.
#[derive(Clone, Copy)]
pub struct Version<'a>(pub &'a [u8]);

impl<'a> Ord for Version<'a> {
    ghost use Rattle.versions.specs.Orders.{version_cmp};
    ghost use Rattle.versions.specs.Total.{version_total};

    ghost cmp = { version_cmp };

    ghost total = { version_total };

    ghost matches_partial_cmp = { λ a b. refl };

    ghost matches_eq = { λ a b. refl };

    // Run by run, and the version with runs left over is higher. Where the kinds differ no run is cut.
    fn cmp(&self, other: &Version<'a>) -> Ordering {
        let mut a = self.0;
        let mut b = other.0;
        loop {
            let Some((kind, x)) = first_kind(a) else {
                return match first_kind(b) {
                    None => Ordering::Equal,
                    Some(_) => Ordering::Less,
                };
            };
            let Some((against, y)) = first_kind(b) else {
                return Ordering::Greater;
            };
            let kinds = kind.cmp(&against);
            if kinds.is_ne() {
                return kinds;
            }
            let (order, rest, other) = compare_fronts(kind, x, y);
            if order.is_ne() {
                return order;
            }
            a = rest;
            b = other;
        }
    }
}

impl<'a> PartialOrd for Version<'a> {
    ghost use Rattle.std.specs.Ordering.{as_partial_cmp};
    ghost use Rattle.versions.specs.Orders.{version_cmp};
    ghost use Rattle.versions.specs.Total.{version_total};

    ghost partial_cmp = { as_partial_cmp version_cmp };

    ghost laws = { partial_order_from_total version_total };

    fn partial_cmp(&self, other: &Version<'a>) -> Option<Ordering> {
        Some(self.cmp(other))
    }
}

impl<'a> PartialEq for Version<'a> {
    ghost use Rattle.versions.specs.Orders.{version_eq};
    ghost use Rattle.versions.specs.Total.{version_total};

    ghost eq = { version_eq };

    ghost laws = { partial_equiv_from_equiv (eq_by_cmp_equiv version_total) };

    fn eq(&self, other: &Version<'a>) -> bool {
        self.cmp(other).is_eq()
    }
}

impl<'a> Eq for Version<'a> {
    ghost use Rattle.versions.specs.Total.{version_total};

    ghost laws = { eq_by_cmp_equiv version_total };
}

ghost use Rattle.std.specs.Prelude.{◌≡◌, ◌≤◌, unsigned_abs};
ghost use Rattle.sharing.specs.Rules.{limit, part_down, part_rest, within_limit};
ghost use Rattle.std.specs.NonZero.{non_zero_u32_get};

use std::num::NonZeroU32;
use units::floor::{floor, rest};

// The largest amount that a rule shares, in cents, either way.
const LIMIT: u64 = 1_000_000_000_000;

// So many parts of a whole.
#[derive(Clone, Copy)]
pub(crate) struct Fraction {
    pub(crate) parts: u32,
    pub(crate) whole: NonZeroU32,
    ghost at_most_all: { parts ≤ non_zero_u32_get whole },
    ghost few: { non_zero_u32_get whole ≤ 1000000 },
}

// An amount that a rule shares, in cents.
#[derive(Clone, Copy)]
pub struct Shareable {
    pub(crate) cents: i64,
    ghost bound: { unsigned_abs cents ≤ limit },
}

impl Shareable {
    // The amount, or 0 where it is beyond the limit.
    pub(crate) fn of(amount: i64) -> Shareable
        ensures { result.cents ≡ within_limit amount }
    {
        Shareable {
            cents: if amount.unsigned_abs() <= LIMIT {
                amount
            } else {
                0
            },
        }
    }

    // A part of the amount, rounded down.
    pub(crate) fn part(self, fraction: Fraction) -> Shareable
        ensures { result.cents ≡ part_down self.cents fraction.parts (non_zero_u32_get fraction.whole) }
    {
        Shareable {
            cents: floor(self.cents * i64::from(fraction.parts), fraction.whole),
        }
    }

    // What that rounding leaves, in parts of the whole.
    pub(crate) fn rest(self, fraction: Fraction) -> u32
        ensures { result ≡ part_rest self.cents fraction.parts (non_zero_u32_get fraction.whole) }
    {
        rest(self.cents * i64::from(fraction.parts), fraction.whole)
    }
}

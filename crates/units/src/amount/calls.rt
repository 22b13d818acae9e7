ghost use Rattle.std.specs.Prelude.{◌≡◌, ◌+ℤ◌};
ghost use Rattle.std.specs.Option.{option_map};
ghost use Rattle.units.specs.Amounts.{worth, checked, held, whole_cents, odd_grains};

use crate::amount::Amount;
use crate::floor::{floor, rest};
use std::num::NonZeroU32;

const GRAINS_PER_CENT: u32 = 10_000_000;

impl Amount {
    // The amount that is stored as `cents` and `grains`, if the grains make less than a cent.
    pub fn of_row(cents: i64, grains: u32) -> Option<Amount>
        ensures { option_map worth result ≡ checked cents grains }
    {
        if grains < GRAINS_PER_CENT {
            Some(Amount { cents, grains })
        } else {
            None
        }
    }

    pub fn of_grains(grains: i64) -> Amount
        ensures { worth result ≡ grains }
    {
        let per_cent = NonZeroU32::new(GRAINS_PER_CENT).unwrap();
        Amount {
            cents: floor(grains, per_cent),
            grains: rest(grains, per_cent),
        }
    }

    // Both together, unless their whole cents do not fit.
    pub fn plus(self, other: Amount) -> Option<Amount>
        ensures { option_map worth result ≡ held (worth self +ℤ worth other) }
    {
        let grains = self.grains + other.grains;
        let carry = grains / GRAINS_PER_CENT;
        let cents = i128::from(self.cents) + i128::from(other.cents) + i128::from(carry);
        let Ok(cents) = i64::try_from(cents) else {
            return None;
        };
        Some(Amount {
            cents,
            grains: grains % GRAINS_PER_CENT,
        })
    }

    // The whole cents, rounded down.
    pub fn cents(self) -> i64
        ensures { result ≡ whole_cents (worth self) }
    {
        self.cents
    }

    // The grains beside the whole cents.
    pub fn grains(self) -> u32
        ensures { result ≡ odd_grains (worth self) }
    {
        self.grains
    }
}

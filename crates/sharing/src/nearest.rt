ghost use Rattle.std.specs.Prelude.{◌≡◌};
ghost use Rattle.sharing.specs.Fillings.{of_weights};
ghost use Rattle.sharing.specs.NearestLaws.{nearest_lawful};
ghost use Rattle.sharing.specs.Weighted.{ahead, goes_first, nearest_share, odd_cents};
ghost use Rattle.units.specs.FixedLists.{listed};

use crate::amount::Shareable;
use crate::method::Method;
use crate::weighted::Weighted;
use crate::weights::Weights;
use std::cmp::Reverse;

// Nearest cents: each part is rounded down, and the odd cents go to the largest remainders, ties to the lower place.
#[derive(Clone, Copy)]
pub struct NearestCents;

pub type Nearest = Weighted<NearestCents>;

// Whether the place `j`, which leaves `x`, comes before the place `k`, which leaves `y`, for an odd cent.
fn goes_first(x: u32, j: usize, y: u32, k: usize) -> bool
    ensures { result ≡ goes_first x j y k }
{
    (Reverse(x), j) < (Reverse(y), k)
}

impl Weights {
    // The cents that rounding each part down leaves: what the remainders come to.
    fn odd_cents(&self, amount: Shareable) -> u64
        ensures { result ≡ of_weights odd_cents (listed self.now.parts) amount.cents }
    {
        // By place: `fraction` of a place is a part of the total by its type.
        let rests: u64 = (0..self.owners())
            .map(|k| u64::from(self.rest(amount, k)))
            .sum();
        rests / u64::from(self.total.get())
    }

    // How many owners come before the owner `k` for an odd cent.
    fn ahead(&self, amount: Shareable, k: usize) -> u64
        ensures { result ≡ of_weights ahead (listed self.now.parts) amount.cents k }
    {
        // By place, since a tie is decided by it.
        let own = self.rest(amount, k);
        let before = (0..self.owners()).filter(|j| goes_first(self.rest(amount, *j), *j, own, k));
        // By `as`: a count fits in a `u64`, and `try_from` would need an answer for what cannot happen.
        before.count() as u64
    }
}

impl Method for NearestCents {
    ghost share = { nearest_share };

    ghost lawful = { nearest_lawful };

    fn give(weights: &Weights, amount: Shareable, row: &mut [i64]) {
        let count = row.len().min(weights.owners());
        let odd = weights.odd_cents(amount);
        for (k, share) in row[..count].iter_mut().enumerate() {
            let extra = weights.ahead(amount, k) < odd;
            *share = amount.part(weights.fraction(k)).cents + i64::from(extra);
        }
    }
}

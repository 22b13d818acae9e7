ghost use Rattle.std.specs.Prelude.{◌≡◌, ◌≤◌, [], ◌∷◌, length, cond, None, Some, MatchResult};
ghost use Rattle.std.specs.Option.{option_map};
ghost use Rattle.sharing.specs.Fillings.{all, from_to, of_weights, unfit_weights, weight_at};
ghost use Rattle.sharing.specs.Weighted.{remainder};
ghost use Rattle.std.specs.NonZero.{non_zero_u32_get};
ghost use Rattle.units.specs.FixedLists.{listed};
ghost use Rattle.units.specs.Refusals.{filling, told, turned_down};

use crate::amount::{Fraction, Shareable};
use std::num::NonZeroU32;
use units::fixed_list::FixedList;
use units::refusal::Refusal;

const MOST: usize = 16;

const MOST_TOTAL: u32 = 1_000_000;

// The weights of 1 to 16 owners, and what they come to.
#[derive(Clone, Copy)]
pub struct Weights {
    parts: FixedList<u32, MOST>,
    pub(crate) total: NonZeroU32,
    ghost sound: { non_zero_u32_get total ≡ all (listed parts) },
    ghost bound: { non_zero_u32_get total ≤ 1000000 },
}

impl Weights {
    // One owner of weight 1.
    pub(crate) fn one() -> Weights
        ensures { listed result.parts ≡ 1 ∷ [] }
    {
        Weights {
            parts: FixedList::first_of([1; MOST], 1),
            total: NonZeroU32::MIN,
        }
    }

    // Refuses weights that are none, too many, or come to 0 or too much.
    pub(crate) fn of(weights: &[u32]) -> Result<Weights, Refusal>
        ensures { MatchResult result (λ w. (unfit_weights weights.now ≡ None) × (listed w.parts ≡ weights.now)) (λ e. turned_down (told e) ≡ filling (unfit_weights weights.now)) }
    {
        let unfit = Refusal::Unfit(weights.len());
        let parts = FixedList::of(weights).ok_or(unfit)?;
        let total = total_of(&parts).ok_or(unfit)?;
        Ok(Weights { parts, total })
    }

    // The number of owners.
    pub(crate) fn owners(&self) -> usize
        ensures value { result ≡ length (listed self.now.parts) }
        ensures bound { result ≤ 16 }
    {
        self.parts.len()
    }

    // The part of the owner `k` in all.
    pub(crate) fn fraction(&self, k: usize) -> Fraction
        ensures parts { result.parts ≡ weight_at (listed self.now.parts) k }
        ensures whole { non_zero_u32_get result.whole ≡ all (listed self.now.parts) }
    {
        Fraction {
            parts: self.parts.get(k).unwrap_or(0),
            whole: self.total,
        }
    }

    // What rounding the part of the owner `k` down leaves, in parts of what the weights come to.
    pub(crate) fn rest(&self, amount: Shareable, k: usize) -> u32
        ensures { result ≡ of_weights remainder (listed self.now.parts) amount.cents k }
    {
        amount.rest(self.fraction(k))
    }
}

// What the weights come to, if that is from 1 to 1,000,000.
fn total_of(weights: &FixedList<u32, MOST>) -> Option<NonZeroU32>
    ensures { option_map non_zero_u32_get result ≡ cond (from_to 1 1000000 (all (listed weights.now))) (Some (all (listed weights.now))) None }
{
    let total: u64 = weights.as_slice().iter().map(|w| u64::from(*w)).sum();
    let total = u32::try_from(total)
        .ok()
        .filter(|total| *total <= MOST_TOTAL)?;
    NonZeroU32::new(total)
}

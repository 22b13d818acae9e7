ghost use Rattle.sharing.specs.Fillings.{unfit_owners};
ghost use Rattle.sharing.specs.Views.{equal_by};
ghost use Rattle.sharing.specs.Weighted.{equal};
ghost use Rattle.units.specs.Refusals.{answer, filling, unless};
ghost use Rattle.std.specs.Prelude.{◌≡◌, min};
ghost use Rattle.std.specs.NonZero.{non_zero_u32_get};
ghost use Rattle.sharing.specs.RunningLaws.{equal_lawful};

use crate::amount::{Fraction, Shareable};
use crate::equal::Equal;
use crate::rule::SharingRule;
use std::num::NonZeroU32;
use units::refusal::Refusal;

const MOST: u32 = 64;

impl Equal {
    // One owner.
    pub fn new() -> Equal
        ensures { equal_by result ≡ equal 1 }
    {
        Equal {
            owners: NonZeroU32::MIN,
        }
    }

    // Takes another number of owners; refuses one that is not from 1 to 64, and changes nothing then.
    pub fn fill(&mut self, owners: u32) -> Result<(), Refusal>
        ensures answer { answer result ≡ filling (unfit_owners owners) }
        ensures after { equal_by self.new ≡ unless (unfit_owners owners) (equal owners) (equal_by self.old) }
    {
        self.owners = NonZeroU32::new(owners)
            .filter(|owners| owners.get() <= MOST)
            .ok_or(Refusal::Unfit(0))?;
        Ok(())
    }

    // What the first `count` owners have in all.
    fn of_first(self, count: usize) -> Fraction
        ensures parts { result.parts ≡ min count (non_zero_u32_get self.owners) }
        ensures whole { result.whole ≡ self.owners }
    {
        Fraction {
            parts: u32::try_from(count)
                .unwrap_or(u32::MAX)
                .min(self.owners.get()),
            whole: self.owners,
        }
    }
}

impl SharingRule for Equal {
    ghost meaning = { equal_by };

    ghost lawful = { λ s. equal_lawful (non_zero_u32_get s.owners) s.owners.ok };

    fn owners(&self) -> u32 {
        self.owners.get()
    }

    fn give(&self, amount: i64, row: &mut [i64]) {
        let shared = Shareable::of(amount);
        // By `as`: a `u32` fits in a `usize`.
        let count = row.len().min(self.owners.get() as usize);
        for (k, share) in row[..count].iter_mut().enumerate() {
            *share = shared.part(self.of_first(k + 1)).cents - shared.part(self.of_first(k)).cents;
        }
    }
}

ghost use Rattle.sharing.specs.Derogated.{derogated};
ghost use Rattle.sharing.specs.Views.{derogated_by};
ghost use Rattle.std.specs.Prelude.{◌≡◌};
ghost use Rattle.sharing.specs.DerogatedLaws.{derogated_lawful};

use crate::amount::{Fraction, Shareable};
use crate::rule::SharingRule;
use std::num::NonZeroU32;

const WHOLE: u32 = 10_000;

// Place 0 gets a part in ten-thousandths, and the rule below shares the rest.
#[derive(Drop)]
pub struct Derogation<R> {
    part: u32,
    below: R,
}

impl<R: SharingRule> Derogation<R> {
    // A part above 10,000 counts as 10,000.
    pub fn new(part: u32, below: R) -> Derogation<R>
        ensures { derogated_by R.SharingRule.meaning result ≡ derogated part (R.SharingRule.meaning below) }
    {
        Derogation { part, below }
    }
}

impl<R: SharingRule> SharingRule for Derogation<R> {
    ghost meaning = { derogated_by R.SharingRule.meaning };

    ghost lawful = { λ s. derogated_lawful s.part (R.SharingRule.meaning s.below) (R.SharingRule.lawful s.below) };

    fn owners(&self) -> u32 {
        (self.below.owners() + 1).min(65)
    }

    fn give(&self, amount: i64, row: &mut [i64]) {
        if let Some((first, others)) = row.split_first_mut() {
            let part = Fraction {
                parts: self.part.min(WHOLE),
                whole: NonZeroU32::new(WHOLE).unwrap(),
            };
            let share = Shareable::of(amount).part(part).cents;
            *first = share;
            self.below.give(amount - share, others);
        }
    }
}

ghost use Rattle.sharing.specs.RunningLaws.{running_lawful};
ghost use Rattle.sharing.specs.Weighted.{running_share};

use crate::amount::{Fraction, Shareable};
use crate::method::Method;
use crate::weighted::Weighted;
use crate::weights::Weights;

// Running charges: each owner gets what falls to it and those before it, rounded down, less what those before it have.
#[derive(Clone, Copy)]
pub struct RunningCharges;

pub type Running = Weighted<RunningCharges>;

impl Method for RunningCharges {
    ghost share = { running_share };

    ghost lawful = { running_lawful };

    fn give(weights: &Weights, amount: Shareable, row: &mut [i64]) {
        let count = row.len().min(weights.owners());
        let mut weight = 0;
        let mut paid = 0;
        for (k, share) in row[..count].iter_mut().enumerate() {
            let own = weights.fraction(k);
            weight += own.parts;
            let upto = amount.part(Fraction {
                parts: weight,
                whole: own.whole,
            });
            *share = upto.cents - paid;
            paid = upto.cents;
        }
    }
}

ghost use Rattle.std.specs.Prelude.{◌≡◌, [], ◌∷◌};
ghost use Rattle.sharing.specs.Fillings.{by_weights, unfit_weights};
ghost use Rattle.sharing.specs.Views.{weighted_by};
ghost use Rattle.sharing.specs.WeightedLaws.{weighted_lawful};
ghost use Rattle.units.specs.Refusals.{answer, filling, unless};

use crate::amount::Shareable;
use crate::method::Method;
use crate::rule::SharingRule;
use crate::weights::Weights;
use std::marker::PhantomData;
use units::refusal::Refusal;

// A rule by weights, whose shares follow from them by the method M.
#[derive(Clone, Copy)]
pub struct Weighted<M> {
    weights: Weights,
    method: PhantomData<M>,
}

impl<M: Method> Weighted<M> {
    // One owner of weight 1.
    pub fn new() -> Self
        ensures { weighted_by M.Method.share result ≡ by_weights M.Method.share (1 ∷ []) }
    {
        Weighted {
            weights: Weights::one(),
            method: PhantomData,
        }
    }

    // Takes other weights; refuses unfit ones, and changes nothing then.
    pub fn fill(&mut self, weights: &[u32]) -> Result<(), Refusal>
        ensures answer { answer result ≡ filling (unfit_weights weights.now) }
        ensures after { weighted_by M.Method.share self.new ≡ unless (unfit_weights weights.now) (by_weights M.Method.share weights.now) (weighted_by M.Method.share self.old) }
    {
        self.weights = Weights::of(weights)?;
        Ok(())
    }
}

impl<M: Method> SharingRule for Weighted<M> {
    ghost meaning = { weighted_by M.Method.share };

    ghost lawful = { weighted_lawful M.Method.share M.Method.lawful };

    fn owners(&self) -> u32 {
        // By `as`: at most 16, and `try_from` would need an answer for what cannot happen.
        self.weights.owners() as u32
    }

    fn give(&self, amount: i64, row: &mut [i64]) {
        M::give(&self.weights, Shareable::of(amount), row);
    }
}

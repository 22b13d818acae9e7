// One asset, where all assets upstream of it are worked.
ghost use Rattle.std.specs.Prelude.{◌≡◌, ℕ, ◌+◌, ◌<◌, ◌≤◌, length, unsigned_abs, MatchResult};
ghost use Rattle.interval.specs.Metered.{network_of, figures_of};
ghost use Rattle.assets.specs.Assets.{senders, takers};
ghost use Rattle.assets.specs.Sides.{Feeding};
ghost use Rattle.assets.specs.Estimates.{upstream_of, FedFrom, Estimates, TooLarge};

use crate::balance::Balance;
use crate::estimate::Estimate;
use crate::sides::Sides;
use interval::metered::Metered;
use register::entry::Dna;
use units::refusal::Refusal;

// An asset of what is metered, by its number.
#[derive(Clone, Copy)]
pub struct Asset<'a> {
    pub metered: Metered<'a>,
    pub number: usize,
    ghost entered: { number < length (network_of metered).dnas },
}

// What feeds each asset where none is worked yet: what its points sent and took.
pub(crate) fn of_points(metered: &Metered) -> [Sides; 8]
    ensures { FedFrom metered.now (length (network_of metered.now).dnas) result }
{
    let mut sides = [Sides::default(); 8];
    let points = metered.grid.grid.points.as_slice();
    for (point, reading) in points.iter().zip(&metered.interval.readings) {
        if let Some(asset) = point.asset() {
            sides[asset].add(reading.sent, reading.taken, point.factor());
        }
    }
    sides
}

impl<'a> Asset<'a> {
    // Adds the asset's flow to what feeds the one downstream.
    pub(crate) fn pass_on(&self, estimate: &Estimate, sides: &mut [Sides; 8])
        requires fed { FedFrom self.now.metered (self.now.number + 1) sides.old }
        requires small { (k : ℕ) → unsigned_abs (upstream_of self.now.metered self.now.number k) ≤ 200000 }
        requires estimated { Estimates (network_of self.now.metered) (figures_of self.now.metered) (upstream_of self.now.metered self.now.number) self.now.number estimate.now }
        ensures { FedFrom self.now.metered self.now.number sides.new }
    {
        let dna = self.metered.grid.grid.entry_at::<Dna>(self.number);
        if let Some(below) = dna.below() {
            sides[below].add(estimate.sent(), estimate.taken(), u64::from(dna.boundary));
        }
    }

    // What the asset does where these sides feed it, or the refusal of a flow that is too large.
    pub(crate) fn estimate(&self, sides: Sides) -> Result<Estimate, Refusal>
        requires { Feeding (senders (network_of self.now.metered) (figures_of self.now.metered) (upstream_of self.now.metered self.now.number) self.now.number) (takers (network_of self.now.metered) (figures_of self.now.metered) (upstream_of self.now.metered self.now.number) self.now.number) sides }
        ensures { MatchResult result (Estimates (network_of self.now.metered) (figures_of self.now.metered) (upstream_of self.now.metered self.now.number) self.now.number) (TooLarge (network_of self.now.metered) (figures_of self.now.metered) (upstream_of self.now.metered self.now.number) self.now.number) }
    {
        let dna = self.metered.grid.grid.entry_at::<Dna>(self.number);
        let balance = Balance {
            sides,
            boundary: dna.boundary,
        };
        // By `as`, here and below: an asset's number is below 8, a `u32` fits in a `usize`, and `try_from` would need
        // an answer for what cannot happen.
        let too_large = Refusal::FlowTooLarge(self.number as u32);
        let flow = balance.flow().ok_or(too_large)?;
        let loss = balance.loss();
        let price = i64::from(self.metered.price_in(dna.region as usize));
        Ok(Estimate {
            flow,
            loss,
            residue: loss * price,
        })
    }
}

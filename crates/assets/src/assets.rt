ghost use Rattle.std.specs.Prelude.{◌≡◌, ℕ, ◌<◌, length};
ghost use Rattle.std.specs.Result.{result_map_both};
ghost use Rattle.units.specs.Refusals.{answer};
ghost use Rattle.interval.specs.Metered.{network_of, figures_of};
ghost use Rattle.assets.specs.Assets.{estimates};
ghost use Rattle.assets.specs.Laws.{AssetEstimated};
ghost use Rattle.assets.specs.Views.{of_assets};

use crate::asset::{Asset, of_points};
use crate::estimate::Estimate;
use interval::metered::Metered;
use units::refusal::Refusal;

// What each asset does in an interval; zeros beyond the last.
#[derive(Clone, Copy)]
pub struct Assets {
    pub found: [Estimate; 8],
}

impl Assets {
    // Works the assets from the highest number down, or refuses the first whose flow is too large. Each loss and flow
    // is what the published formulas give, rounded down.
    pub fn of(metered: &Metered) -> Result<Assets, Refusal>
        ensures value { answer (result_map_both of_assets (λ e. e) result) ≡ estimates (network_of metered.now) (figures_of metered.now) }
        ensures estimated { (d : ℕ) → d < length (network_of metered.now).dnas → AssetEstimated (network_of metered.now) (figures_of metered.now) d }
    {
        let mut sides = of_points(metered);
        let mut found = [Estimate::default(); 8];
        // By number, and not over the slots: each asset adds to what feeds the one downstream.
        for number in (0..metered.grid.grid.dnas.len()).rev() {
            let asset = Asset {
                metered: *metered,
                number,
            };
            let estimate = asset.estimate(sides[number])?;
            asset.pass_on(&estimate, &mut sides);
            found[number] = estimate;
        }
        Ok(Assets { found })
    }
}

ghost use Rattle.std.specs.Prelude.{◌≡◌, ℕ, ◌+◌, ◌*◌, ◌<◌, ◌≤◌, Bool, length, IfSome};
ghost use Rattle.std.specs.Option.{option_map};
ghost use Rattle.std.specs.List.{list_all, range_with_len};
ghost use Rattle.std.proofs.Common.{rules};
ghost use Rattle.units.specs.Refusals.{answer};
ghost use Rattle.units.specs.Sums.{first_failure};
ghost use Rattle.register.specs.Contents.{Network};
ghost use Rattle.grid.specs.References.{other_pair, refers, corridor_holds, link_holds, names_asset, point_holds, fed_by, dna_holds, broken, unless_broken};
ghost use Rattle.grid.specs.Views.{of_grid};

use crate::entered::Entered;
use crate::grid::Grid;
use register::entry::{Corridor, Dna, Entry, Link, Point};
use units::refusal::Refusal;

// An entry that refers to entries of other rolls.
trait Referring: Entered {
    // The number of its roll.
    const ROLL: u32;

    ghost ROLL: { ℕ };

    ghost holds: { Network → ℕ → Bool };

    // The references of entry `i` hold.
    fn holds(grid: &Grid, i: usize) -> bool
        ensures { result ≡ holds (of_grid grid.now) i };

    ghost few_rolls: { ROLL ≤ 4 };
}

// The entry's fields are in range, and its field `number` is that of one of the `end` entries of another roll.
fn refers<E: Entry>(entry: E, number: u32, end: usize) -> bool
    ensures { result ≡ refers (E.unfit entry) number end }
{
    // By `as`, here and below: a `u32` fits in a `usize`, and `try_from` would need an answer for what cannot happen.
    entry.unfit_field().is_none() && (number as usize) < end
}

impl Referring for Corridor {
    const ROLL: u32 = 1;

    ghost ROLL = { 1 };

    ghost holds = { corridor_holds };

    ghost few_rolls = { Prim.search rules };

    #[tactic(auto, using(crate::proofs::Chains::all_in_range))]
    fn holds(grid: &Grid, i: usize) -> bool {
        let c = grid.entry_at::<Corridor>(i);
        refers(c, c.region2, grid.region_count) && c.region1 < c.region2 && grid.has_fresh_pair(i)
    }
}

impl Referring for Link {
    const ROLL: u32 = 2;

    ghost ROLL = { 2 };

    ghost holds = { link_holds };

    ghost few_rolls = { Prim.search rules };

    fn holds(grid: &Grid, i: usize) -> bool {
        let l = grid.entry_at::<Link>(i);
        refers(l, l.corridor, grid.corridors.len())
    }
}

impl Referring for Point {
    const ROLL: u32 = 3;

    ghost ROLL = { 3 };

    ghost holds = { point_holds };

    ghost few_rolls = { Prim.search rules };

    fn holds(grid: &Grid, i: usize) -> bool {
        let p = grid.entry_at::<Point>(i);
        refers(p, p.region, grid.region_count)
            && grid.names_asset(grid.dnas.len(), p.region, p.asset())
    }
}

impl Referring for Dna {
    const ROLL: u32 = 4;

    ghost ROLL = { 4 };

    ghost holds = { dna_holds };

    ghost few_rolls = { Prim.search rules };

    fn holds(grid: &Grid, i: usize) -> bool {
        let d = grid.entry_at::<Dna>(i);
        refers(d, d.region, grid.region_count)
            && grid.names_asset(i, d.region, d.below())
            && grid.fed_by(i) <= 16
    }
}

impl Grid {
    // No corridor before corridor `i` has its pair of regions.
    fn has_fresh_pair(&self, i: usize) -> bool
        ensures { result ≡ list_all (other_pair (of_grid self.now) i) (range_with_len 0 i) }
    {
        let c = self.entry_at::<Corridor>(i);
        // By number, since it is asked for any `i`, also beyond the last.
        (0..i).all(|j| self.entry_at::<Corridor>(j) != c)
    }

    // An asset that is named is below asset `end` and of the region.
    fn names_asset(&self, end: usize, region: u32, asset: Option<usize>) -> bool
        ensures { result ≡ names_asset (of_grid self.now) end region asset }
    {
        asset.is_none_or(|d| d < end && self.entry_at::<Dna>(d).region == region)
    }

    // How many points and assets feed asset `n`.
    fn fed_by(&self, n: usize) -> usize
        ensures { result ≡ fed_by (of_grid self.now) n }
    {
        let points = self.points.as_slice().iter();
        let dnas = self.dnas.as_slice().iter();
        points.filter(|p| p.asset() == Some(n)).count()
            + dnas.filter(|d| d.below() == Some(n)).count()
    }

    // The first entry of a kind whose reference fails.
    fn first_failure<E: Referring>(&self) -> Option<usize>
        ensures value { result ≡ first_failure (length (E.roll (of_grid self.now))) (E.holds (of_grid self.now)) }
        ensures few { IfSome result (λ k. k < 128) }
    {
        // By number, which `holds` is asked with.
        (0..E::entered(self).len()).find(|i| !E::holds(self, *i))
    }

    // The same, as 256 × roll + entry.
    fn first_place<E: Referring>(&self) -> Option<u32>
        ensures { result ≡ option_map (λ k. 256 * E.ROLL + k) (first_failure (length (E.roll (of_grid self.now))) (E.holds (of_grid self.now))) }
    {
        let i = self.first_failure::<E>()?;
        Some(256 * E::ROLL + i as u32)
    }

    // The first entry of all whose reference fails, as 256 × roll + entry.
    pub(crate) fn first_broken(&self) -> Option<u32>
        ensures { result ≡ broken (of_grid self.now) }
    {
        self.first_place::<Corridor>()
            .or_else(|| self.first_place::<Link>())
            .or_else(|| self.first_place::<Point>())
            .or_else(|| self.first_place::<Dna>())
    }

    // All references hold, or the refusal of the first entry whose reference fails.
    pub fn references(&self) -> Result<(), Refusal>
        ensures { answer result ≡ unless_broken (of_grid self.now) tt }
    {
        // By `match`: `map_or(Ok(()), ..)` names the good outcome first, and hides that it is one of two.
        match self.first_broken() {
            Some(place) => Err(Refusal::BrokenReference(place)),
            None => Ok(()),
        }
    }
}

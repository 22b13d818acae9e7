ghost use Rattle.std.specs.Prelude.{◌≡◌, ◌≤◌, pos, length, slice_index_or, take, unsigned_abs};
ghost use Rattle.interval.specs.Figures.{price, flow};
ghost use Rattle.interval.specs.Metered.{figures_of};

use crate::interval::Interval;
use grid::checked::Checked;

// A grid whose references hold, with the figures of an interval.
#[derive(Clone, Copy)]
pub struct Metered<'a> {
    pub grid: &'a Checked,
    pub interval: &'a Interval,
}

// The figure of number `i` of the first `count`, and 0 beyond them.
fn figure(figures: &[i32], count: usize, i: usize) -> i32
    requires { count ≤ length figures.now }
    ensures { result ≡ slice_index_or (take count figures.now) i (pos 0) }
{
    figures[..count].get(i).copied().unwrap_or_default()
}

impl<'a> Metered<'a> {
    // The price in a region, and 0 where none is entered.
    pub fn price_in(&self, region: usize) -> i32
        ensures value { result ≡ price (figures_of self.now) region }
        ensures small { unsigned_abs result ≤ 2000000 }
    {
        figure(&self.interval.prices, self.grid.grid.region_count, region)
    }

    // The flow over a link, and 0 where none is entered.
    pub fn flow_over(&self, link: usize) -> i32
        ensures value { result ≡ flow (figures_of self.now) link }
        ensures small { unsigned_abs result ≤ 200000 }
    {
        figure(&self.interval.flows, self.grid.grid.links.len(), link)
    }
}

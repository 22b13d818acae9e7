ghost use Rattle.std.specs.Prelude.{◌≡◌, ◌*◌, ◌≤◌, ◌*ℤ◌, unsigned_abs};
ghost use Rattle.interval.specs.Figures.{price};
ghost use Rattle.interval.specs.Metered.{figures_of};

use interval::metered::Metered;

// Node units at a region's price, in grains.
pub(crate) fn worth(metered: &Metered, region: usize, units: i64) -> i64
    requires { unsigned_abs units ≤ 1000000000000 }
    ensures value { result ≡ units *ℤ price (figures_of metered.now) region }
    ensures small { unsigned_abs result ≤ unsigned_abs units * 2000000 }
{
    units * i64::from(metered.price_in(region))
}

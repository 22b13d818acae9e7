// Division that rounds toward minus infinity, at both signs.
ghost use Rattle.std.specs.Prelude.{◌≡◌};
ghost use Rattle.std.specs.NonZero.{non_zero_u32_get};
ghost use Rattle.units.specs.Floor as page;

use std::num::NonZeroU32;

// `value` divided by `by`, rounded toward minus infinity.
pub fn floor(value: i64, by: NonZeroU32) -> i64
    ensures { result ≡ page.floor value (non_zero_u32_get by) }
{
    value.div_euclid(i64::from(by.get()))
}

// What that division leaves, from 0 to `by` - 1.
pub fn rest(value: i64, by: NonZeroU32) -> u32
    ensures { result ≡ page.rest value (non_zero_u32_get by) }
{
    // By `as`: it is below `by`, and `try_from` would need an answer for what cannot happen.
    value.rem_euclid(i64::from(by.get())) as u32
}

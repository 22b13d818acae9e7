ghost use Rattle.std.specs.Prelude.{◌≤◌};
ghost use Rattle.std.specs.NonZero.{non_zero_u32_get};

use std::num::NonZeroU32;

mod calls;

// Equal parts for 1 to 64 owners. Not running charges by weights of 1: those are held for 16 owners at most.
#[derive(Clone, Copy)]
pub struct Equal {
    owners: NonZeroU32,
    ghost few: { non_zero_u32_get owners ≤ 64 },
}

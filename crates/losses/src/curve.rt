ghost use Rattle.std.specs.Prelude.{◌≡◌, true};
ghost use Rattle.losses.specs.Fillings.{rising};
ghost use Rattle.units.specs.FixedLists.{listed};

use units::fixed_list::FixedList;

mod calls;

// A slope of 1 in ten-thousandths.
pub(crate) const WHOLE: u32 = 10_000;

const MOST: usize = 8;

// A part of a flow up to an upper end in kWh, with what a kWh of it loses in ten-thousandths.
#[derive(Clone, Copy, Default, PartialEq, Eq)]
pub(crate) struct Segment {
    upper: u32,
    slope: u32,
}

// The segments of one link in one direction.
#[derive(Clone, Copy)]
pub(crate) struct Curve {
    segments: FixedList<Segment, MOST>,
    ghost sound: { rising 0 (listed segments) ≡ true },
}

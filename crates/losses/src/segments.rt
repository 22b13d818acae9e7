ghost use Rattle.losses.specs.Books.{segmented};
ghost use Rattle.losses.specs.Fillings.{filled, index, segments_at, unfit};
ghost use Rattle.losses.specs.Views.{table};
ghost use Rattle.units.specs.Refusals.{answer, filling};
ghost use Rattle.std.specs.Prelude.{◌≡◌, ◌<◌, [], replicate};
ghost use Rattle.losses.specs.Table.{segmented_bounded};

use crate::book::{LARGEST_FLOW, LossBook};
use crate::curve::{Curve, WHOLE};
use crate::direction::Direction;
use units::refusal::Refusal;

const LINKS: u32 = 8;

// A book of segments, for 8 links in each direction.
#[derive(Clone, Copy)]
pub struct Segments {
    curves: [Curve; 16],
}

// Where the curves have that of a link in a direction: the table is defined in this order.
fn index(link: u32, direction: Direction) -> usize
    requires { link < 8 }
    ensures at { result ≡ index link direction }
    ensures within { result < 16 }
{
    // By `as`: a `u32` fits in a `usize`, and `try_from` would need an answer for what cannot happen.
    2 * link as usize + usize::from(direction)
}

impl Segments {
    pub fn new() -> Segments
        ensures { table result ≡ replicate 16 [] }
    {
        Segments {
            curves: [Curve::new(); 16],
        }
    }

    // Adds a segment to a link in a direction, 0 from region 1 and 1 from region 2; refuses an unfit one, and changes nothing then.
    // All four are numbers, as a caller over the C interface hands them in, so that any can be refused by its place.
    pub fn fill(&mut self, link: u32, direction: u32, upper: u32, slope: u32) -> Result<(), Refusal>
        ensures answer { answer result ≡ filling (unfit (table self.old) link direction upper slope) }
        ensures after { table self.new ≡ filled (table self.old) link direction upper slope }
    {
        if link >= LINKS {
            return Err(Refusal::Unfit(0));
        }
        let direction = Direction::try_from(direction).map_err(|_| Refusal::Unfit(1))?;
        self.curves[index(link, direction)].add(upper, slope)
    }
}

impl LossBook for Segments {
    ghost meaning = { λ s. segmented (segments_at (table s)) };

    ghost bounded = { λ s. segmented_bounded s.curves };

    fn loss(&self, link: u32, flow: i32) -> u32 {
        let size = flow.unsigned_abs();
        if link >= LINKS || size > LARGEST_FLOW {
            return 0;
        }
        let direction = Direction::of(i64::from(flow));
        self.curves[index(link, direction)].along(size) / WHOLE
    }
}

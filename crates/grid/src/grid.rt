ghost use Rattle.std.specs.Prelude.{◌≤◌};

use register::entry::{Corridor, Dna, Link, Point};
use units::fixed_list::FixedList;

mod calls;
mod references;

// The register's entries, copied out of its rolls.
#[derive(Clone, Copy)]
pub struct Grid {
    pub region_count: usize,
    pub corridors: FixedList<Corridor, 8>,
    pub links: FixedList<Link, 8>,
    pub points: FixedList<Point, 128>,
    pub dnas: FixedList<Dna, 8>,
    ghost few_regions: { region_count ≤ 8 },
}

// The register: five rolls, each over memory of the caller's.
ghost use Rattle.std.specs.Prelude.{◌≡◌, length};
ghost use Rattle.register.specs.Rolls.{empty};
ghost use Rattle.register.specs.Contents.{contents};

use crate::entry::{Corridor, Dna, Link, Point, Region};
use crate::roll::Roll;

#[derive(Drop)]
pub struct Register<'a> {
    pub regions: Roll<'a, Region>,
    pub corridors: Roll<'a, Corridor>,
    pub links: Roll<'a, Link>,
    pub points: Roll<'a, Point>,
    pub dnas: Roll<'a, Dna>,
}

impl<'a> Register<'a> {
    // An empty register, whatever the memory holds.
    pub fn new(
        regions: &'a mut [Region],
        corridors: &'a mut [Corridor],
        links: &'a mut [Link],
        points: &'a mut [Point],
        dnas: &'a mut [Dna],
    ) -> Self
        ensures regions { (contents result).regions ≡ empty (length regions.old) }
        ensures corridors { (contents result).corridors ≡ empty (length corridors.old) }
        ensures links { (contents result).links ≡ empty (length links.old) }
        ensures points { (contents result).points ≡ empty (length points.old) }
        ensures dnas { (contents result).dnas ≡ empty (length dnas.old) }
    {
        Register {
            regions: Roll::new(regions),
            corridors: Roll::new(corridors),
            links: Roll::new(links),
            points: Roll::new(points),
            dnas: Roll::new(dnas),
        }
    }
}

// The kinds of entries that a grid holds.
ghost use Rattle.std.specs.Prelude.{◌≡◌, ◌≤◌, List, length};
ghost use Rattle.std.proofs.Common.{rules};
ghost use Rattle.register.specs.Contents.{Network};
ghost use Rattle.grid.specs.References.{no_corridor, no_link, no_point, no_dna};
ghost use Rattle.grid.specs.Views.{of_grid};

use crate::grid::Grid;
use register::entry::{Corridor, Dna, Entry, Link, Point};

pub trait Entered: Entry + Default {
    // The entry of zeros.
    ghost zero: { Self };

    // The entries of this kind, in a network.
    ghost roll: { Network → List Self };

    // The grid's entries of this kind.
    fn entered(grid: &Grid) -> &[Self]
        ensures value { result.now ≡ roll (of_grid grid.now) }
        ensures few { length result.now ≤ 128 };

    // A default entry is the entry of zeros.
    ghost only_zero: { (e : Self) → Self.is_default e → e ≡ zero };
}

impl Entered for Corridor {
    ghost zero = { no_corridor };

    ghost roll = { λ net. net.corridors };

    ghost only_zero = { Prim.search rules };

    fn entered(grid: &Grid) -> &[Corridor] {
        grid.corridors.as_slice()
    }
}

impl Entered for Link {
    ghost zero = { no_link };

    ghost roll = { λ net. net.links };

    ghost only_zero = { Prim.search rules };

    fn entered(grid: &Grid) -> &[Link] {
        grid.links.as_slice()
    }
}

impl Entered for Point {
    ghost zero = { no_point };

    ghost roll = { λ net. net.points };

    ghost only_zero = { Prim.search rules };

    fn entered(grid: &Grid) -> &[Point] {
        grid.points.as_slice()
    }
}

impl Entered for Dna {
    ghost zero = { no_dna };

    ghost roll = { λ net. net.dnas };

    ghost only_zero = { Prim.search rules };

    fn entered(grid: &Grid) -> &[Dna] {
        grid.dnas.as_slice()
    }
}

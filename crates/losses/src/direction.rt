ghost use Rattle.std.specs.Prelude.{◌≡◌};
ghost use Rattle.losses.specs.Books.{direction};
ghost use Rattle.losses.specs.Directions.{number, Names};

// The side that a flow comes from.
#[derive(Clone, Copy, PartialEq, Eq)]
pub enum Direction {
    FromRegion1,
    FromRegion2,
}

// A number that no direction has.
#[derive(Clone, Copy, PartialEq, Eq)]
pub struct NoDirection;

impl Direction {
    // The direction of a flow.
    pub fn of(flow: i64) -> Direction
        ensures { result ≡ direction flow }
    {
        if flow < 0 {
            Direction::FromRegion2
        } else {
            Direction::FromRegion1
        }
    }
}

impl TryFrom<u32> for Direction {
    type Error = NoDirection;

    ghost try_from_gives = { Names };

    fn try_from(number: u32) -> Result<Direction, NoDirection> {
        match number {
            0 => Ok(Direction::FromRegion1),
            1 => Ok(Direction::FromRegion2),
            _ => Err(NoDirection),
        }
    }
}

impl From<Direction> for usize {
    ghost from_gives = { λ direction n. n ≡ number direction };

    fn from(direction: Direction) -> usize {
        match direction {
            Direction::FromRegion1 => 0,
            Direction::FromRegion2 => 1,
        }
    }
}

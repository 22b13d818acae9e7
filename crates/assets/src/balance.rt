// An asset's two sides against each other.
ghost use Rattle.std.specs.Prelude.{◌≡◌, ◌*◌, ◌≤◌, Some, None, pos, ◌-ℤ◌, ◌*ℤ◌, if◌then◌else◌, nat_le, unsigned_abs};
ghost use Rattle.assets.specs.Assets.{Side, loss_at, size_at, flow_at};
ghost use Rattle.assets.specs.Sides.{Feeding, surplus_of, larger_of};

use crate::sides::Sides;
use std::num::NonZeroU32;
use units::floor::floor;

// The largest flow at a boundary, in kWh.
const MOST: i32 = 200_000;

// The two sides, and the factor of the boundary.
#[derive(Clone, Copy)]
pub struct Balance {
    pub sides: Sides,
    pub boundary: u32,
    ghost high: { boundary ≤ 15000 },
}

impl Balance {
    // The larger side at what the boundary's factor is above the own ones, in node units.
    fn difference(self) -> i64
        ensures { result ≡ (pos (larger_of self.sides).energy *ℤ pos self.boundary) -ℤ pos (larger_of self.sides).at_own }
    {
        let larger = self.sides.larger();
        // By `as`: it is at most 18,000 times the energy, and `try_from` would need an answer for what cannot happen.
        i64::from(larger.energy) * i64::from(self.boundary) - larger.at_own as i64
    }

    // The estimated loss in node units, rounded down.
    pub(crate) fn loss(self) -> i64
        ensures value { (sent taken : Side) → Feeding sent taken self.sides → result ≡ loss_at sent taken self.boundary }
        ensures small { unsigned_abs result ≤ 57600000000 }
    {
        match NonZeroU32::new(self.sides.larger().energy) {
            None => 0,
            Some(gross) => floor(self.sides.surplus() * self.difference(), gross),
        }
    }

    // The size of the flow at the boundary in kWh, rounded down.
    fn size(self) -> u64
        ensures { (sent taken : Side) → Feeding sent taken self.sides → result ≡ size_at sent taken self.boundary }
    {
        let larger = self.sides.larger();
        let energy = u64::from(larger.energy) * u64::from(self.boundary);
        let product = self.sides.surplus().unsigned_abs() * larger.at_own;
        product.checked_div(energy).unwrap_or_default()
    }

    // The flow at the boundary in kWh, unless it is too large.
    pub(crate) fn flow(self) -> Option<i32>
        ensures { (sent taken : Side) → Feeding sent taken self.sides → result ≡ (if nat_le (unsigned_abs (flow_at sent taken self.boundary)) 200000 then Some (flow_at sent taken self.boundary) else None) }
    {
        let size = i32::try_from(self.size()).ok()?;
        if size > MOST {
            return None;
        }
        if self.sides.surplus() > 0 {
            Some(size)
        } else {
            Some(-size)
        }
    }
}

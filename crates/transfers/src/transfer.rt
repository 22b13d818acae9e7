ghost use Rattle.std.specs.Prelude.{◌≡◌, ◌-◌, ◌*◌, ◌≤◌, min, pos, ◌-ℤ◌, ◌≤ℤ◌, unsigned_abs};
ghost use Rattle.transfers.specs.Ends.{entering, leaving, exporting};

// The whole of a loss, in ten-thousandths.
const WHOLE: u32 = 10_000;

// A part of a loss, in ten-thousandths.
#[derive(Clone, Copy)]
struct Part {
    ten_thousandths: u32,
    ghost at_most_all: { ten_thousandths ≤ 10000 },
}

impl Part {
    // What the exporting region bears, where region 1 bears `part1`; more than all counts as all.
    fn exporting(flow: i32, part1: u32) -> Part
        ensures { result.ten_thousandths ≡ exporting flow (min part1 10000) }
    {
        let by_region1 = Part {
            ten_thousandths: part1.min(WHOLE),
        };
        if flow > 0 {
            by_region1
        } else {
            by_region1.rest()
        }
    }

    // What the other region bears.
    fn rest(self) -> Part
        ensures { result.ten_thousandths ≡ 10000 - self.ten_thousandths }
    {
        Part {
            ten_thousandths: WHOLE - self.ten_thousandths,
        }
    }

    // That part of an energy in kWh, in node units.
    fn of(self, energy: u32) -> i64
        ensures value { result ≡ pos (self.ten_thousandths * energy) }
        ensures small { self.ten_thousandths * energy ≤ 10000 * energy }
    {
        i64::from(self.ten_thousandths) * i64::from(energy)
    }
}

// What enters a link at the exporting region and leaves it at the importing one, where `loss` is lost between them.
pub(crate) fn ends(flow: i32, part1: u32, loss: u32) -> (i64, i64)
    ensures entry { result.0 ≡ entering (exporting flow (min part1 10000)) (unsigned_abs flow) loss }
    ensures exit { result.1 ≡ leaving (exporting flow (min part1 10000)) (unsigned_abs flow) loss }
    ensures part { exporting flow (min part1 10000) ≤ 10000 }
{
    let part = Part::exporting(flow, part1);
    let carried = Part {
        ten_thousandths: WHOLE,
    }
    .of(flow.unsigned_abs());
    (carried + part.of(loss), carried - part.rest().of(loss))
}

// What enters a link at the exporting region and leaves it at the importing one, in node units: entry and exit.
// Region 1 bears `part1` ten-thousandths of the loss, and region 2 the rest. The flow is from region 1 where it is
// above 0, and from region 2 below. A part above 10,000 counts as 10,000, and a loss above the size of the flow as
// that size.
pub fn transfer(flow: i32, part1: u32, loss: u32) -> (i64, i64)
    ensures entry { result.0 ≡ entering (exporting flow (min part1 10000)) (unsigned_abs flow) (min loss (unsigned_abs flow)) }
    ensures exit { result.1 ≡ leaving (exporting flow (min part1 10000)) (unsigned_abs flow) (min loss (unsigned_abs flow)) }
    ensures lost { result.0 -ℤ result.1 ≡ pos (10000 * min loss (unsigned_abs flow)) }
    ensures outward { pos 0 ≤ℤ result.1 }
{
    ends(flow, part1, loss.min(flow.unsigned_abs()))
}

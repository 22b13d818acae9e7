ghost use Rattle.std.specs.Prelude.{◌≡◌, ◌≤◌, [], ◌∷◌, ◌++◌};
ghost use Rattle.losses.specs.Books as page;
ghost use Rattle.losses.specs.Fillings.{last_end, segment, unfit_segment};
ghost use Rattle.losses.specs.Views.{segments};
ghost use Rattle.units.specs.Refusals.{answer, filling, unless};

use crate::book::LARGEST_FLOW;
use crate::curve::{Curve, Segment, WHOLE};
use units::fixed_list::FixedList;
use units::refusal::Refusal;

impl Curve {
    pub(crate) fn new() -> Curve
        ensures { segments result ≡ [] }
    {
        Curve {
            segments: FixedList::new(),
        }
    }

    // Adds a segment above the others; refuses an unfit one by its first unfit parameter, counted from the link on, and changes nothing then.
    #[tactic(auto, using(crate::specs::Rising::rising_fit))]
    pub(crate) fn add(&mut self, upper: u32, slope: u32) -> Result<(), Refusal>
        ensures answer { answer result ≡ filling (unfit_segment (segments self.old) upper slope) }
        ensures after { segments self.new ≡ unless (unfit_segment (segments self.old) upper slope) (segments self.old ++ (segment upper slope ∷ [])) (segments self.old) }
    {
        if upper <= self.last_end() || upper > LARGEST_FLOW {
            return Err(Refusal::Unfit(2));
        }
        if slope > WHOLE {
            return Err(Refusal::Unfit(3));
        }
        self.segments
            .push(Segment { upper, slope })
            .map_err(|_| Refusal::Unfit(4))
    }

    // The last upper end, or 0.
    #[tactic(auto, using(crate::specs::Rising::last_end_at))]
    fn last_end(&self) -> u32
        ensures { result ≡ last_end 0 (segments self.now) }
    {
        self.segments.as_slice().last().map_or(0, |last| last.upper)
    }

    // Slope times length, over the segments up to a flow of the size, in ten-thousandths of a kWh.
    #[tactic(auto, using(crate::specs::Rising::along_step, crate::specs::Rising::along_last, crate::specs::Rising::along_le))]
    pub(crate) fn along(&self, size: u32) -> u32
        requires { size ≤ 200000 }
        ensures { result ≡ page.along 0 (segments self.now) size }
    {
        let Some((last, inner)) = self.segments.as_slice().split_last() else {
            return 0;
        };
        let mut low = 0;
        let mut sum = 0;
        for segment in inner {
            sum += segment.slope * size.min(segment.upper).saturating_sub(low);
            low = segment.upper;
        }
        sum + last.slope * size.saturating_sub(low)
    }
}

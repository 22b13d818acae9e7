ghost use Rattle.losses.specs.Books.{Bounded, Losses};
ghost use Rattle.std.specs.Prelude.{◌≡◌};

// The largest flow of a link in kWh, either way.
pub(crate) const LARGEST_FLOW: u32 = 200_000;

// Says what each link loses.
pub trait LossBook {
    ghost meaning: { Self → Losses };

    // The loss of a link in whole kWh, at a flow in kWh.
    fn loss(&self, link: u32, flow: i32) -> u32
        ensures { result ≡ meaning self.now link flow };

    ghost bounded: { (s : Self) → Bounded (meaning s) };
}

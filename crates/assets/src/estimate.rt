ghost use Rattle.std.specs.Prelude.{◌≡◌, ◌≤◌, pos, unsigned_abs};
ghost use Rattle.assets.specs.Assets.{above_0, below_0};

// What an asset does in an interval: its flow at its boundary in kWh, its estimated loss in node units, and its residue
// in grains.
#[derive(Clone, Copy, PartialEq, Eq)]
pub struct Estimate {
    pub flow: i32,
    pub loss: i64,
    pub residue: i64,
    ghost residue_small: { unsigned_abs residue ≤ 115200000000000000 },
}

// By hand, since a type with a ghost field derives no `Default`.
impl Default for Estimate {
    ghost is_default = { λ e. (e.flow ≡ pos 0) × (e.loss ≡ pos 0) × (e.residue ≡ pos 0) };

    fn default() -> Estimate {
        Estimate {
            flow: 0,
            loss: 0,
            residue: 0,
        }
    }
}

impl Estimate {
    // What the asset sends downstream, in kWh.
    pub(crate) fn sent(&self) -> u32
        ensures { result ≡ above_0 self.now.flow }
    {
        self.flow.max(0).unsigned_abs()
    }

    // What it takes from downstream, in kWh.
    pub(crate) fn taken(&self) -> u32
        ensures { result ≡ below_0 self.now.flow }
    {
        self.flow.min(0).unsigned_abs()
    }
}

ghost use Rattle.std.specs.Prelude.{◌≡◌, ◌+◌, ◌*◌, ◌≤◌};

// What feeds an asset from one side: kWh, and the same at the feeders' own factors in node units. At most 16 points and
// assets feed an asset.
#[derive(Clone, Copy)]
pub struct Feed {
    pub energy: u32,
    pub at_own: u64,
    ghost few: { energy ≤ 3200000 },
    ghost light: { at_own ≤ 18000 * energy },
}

// By hand, since a type with a ghost field derives no `Default`.
impl Default for Feed {
    ghost is_default = { λ f. (f.energy ≡ 0) × (f.at_own ≡ 0) };

    fn default() -> Feed {
        Feed {
            energy: 0,
            at_own: 0,
        }
    }
}

impl Feed {
    // Adds an energy at its own factor.
    pub(crate) fn add(&mut self, energy: u32, own: u64)
        requires room { self.old.energy + energy ≤ 3200000 }
        requires own { own ≤ 18000 }
        ensures energy { self.new.energy ≡ self.old.energy + energy }
        ensures at_own { self.new.at_own ≡ self.old.at_own + energy * own }
    {
        self.energy += energy;
        self.at_own += u64::from(energy) * own;
    }
}

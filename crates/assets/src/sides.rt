ghost use Rattle.std.specs.Prelude.{◌≡◌, ◌+◌, ◌≤◌};
ghost use Rattle.assets.specs.Sides.{Added, surplus_of, larger_of};

use crate::feed::Feed;

// What feeds an asset: its senders and its takers.
#[derive(Clone, Copy, Default)]
pub struct Sides {
    pub senders: Feed,
    pub takers: Feed,
}

impl Sides {
    // Adds what is sent and what is taken at one factor.
    pub(crate) fn add(&mut self, sent: u32, taken: u32, own: u64)
        requires sent_room { self.old.senders.energy + sent ≤ 3200000 }
        requires taken_room { self.old.takers.energy + taken ≤ 3200000 }
        requires own { own ≤ 18000 }
        ensures senders { Added self.old.senders sent own self.new.senders }
        ensures takers { Added self.old.takers taken own self.new.takers }
    {
        self.senders.add(sent, own);
        self.takers.add(taken, own);
    }

    // What the senders bring beyond the takers, in kWh.
    pub(crate) fn surplus(self) -> i64
        ensures { result ≡ surplus_of self }
    {
        i64::from(self.senders.energy) - i64::from(self.takers.energy)
    }

    // The side with more energy.
    pub(crate) fn larger(self) -> Feed
        ensures { result ≡ larger_of self }
    {
        if self.takers.energy < self.senders.energy {
            self.senders
        } else {
            self.takers
        }
    }
}

ghost use Rattle.std.specs.Prelude.{◌≡◌, min};
ghost use Rattle.sharing.specs.Rules.{Lawful, Rule, given};

// A rule that shares an amount of cents among owners. Asking it changes nothing.
pub trait SharingRule {
    ghost meaning: { Self → Rule };

    // The number of owners, or 65 where there are more than 64: the refusal table has 65 as the place of a payout to too many.
    fn owners(&self) -> u32
        ensures { result ≡ min (meaning self.now).owners 65 };

    // Writes each owner's share to its place, as far as the row goes, and leaves the other places.
    fn give(&self, amount: i64, row: &mut [i64])
        ensures { row.new ≡ given (meaning self.now) amount row.old };

    ghost lawful: { (s : Self) → Lawful (meaning s) };
}

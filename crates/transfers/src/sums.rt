ghost use Rattle.std.specs.Prelude.{◌≡◌, ◌+◌, ◌^◌, ◌<◌, pos, slice_index_or, unsigned_abs};
ghost use Rattle.transfers.specs.Sums.{added};

// Adds an amount at one place of eight sums.
pub(crate) fn add_at(sums: &mut [i64; 8], place: usize, amount: i64)
    requires low { place < 8 }
    requires fits { unsigned_abs (slice_index_or sums.old place (pos 0)) + unsigned_abs amount < 2 ^ 63 }
    ensures { sums.new ≡ added sums.old place amount }
{
    sums[place] += amount;
}

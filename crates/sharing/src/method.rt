ghost use Rattle.std.specs.Prelude.{◌≡◌, ℕ, ℤ, ◌≤◌, length};
ghost use Rattle.sharing.specs.Fillings.{of_weights};
ghost use Rattle.sharing.specs.Rules.{Lawful};
ghost use Rattle.sharing.specs.Weighted.{by_weight};
ghost use Rattle.units.specs.FixedLists.{listed};
ghost use Rattle.units.specs.Rows.{over};
ghost use Rattle.units.specs.Sums.{sum};

use crate::amount::Shareable;
use crate::weights::Weights;

// How the shares of an amount follow from the weights of its owners.
pub trait Method {
    // by the number of owners, their weights, the place and the amount
    ghost share: { ℕ → (ℕ → ℕ) → ℕ → ℤ → ℤ };

    // Writes each owner's share to its place, as far as the row goes, and leaves the other places.
    fn give(weights: &Weights, amount: Shareable, row: &mut [i64])
        ensures { row.new ≡ over (length (listed weights.now.parts)) (λ k. of_weights share (listed weights.now.parts) k amount.cents) row.old };

    ghost lawful: { (n : ℕ) (w : ℕ → ℕ) → 1 ≤ sum n w → Lawful (by_weight n w (share n w)) };
}

ghost use Rattle.chosen.specs.Books.{losses_of};
ghost use Rattle.std.proofs.Common.{arith};
ghost use Rattle.std.specs.Prelude.{refl};
ghost use Rattle.losses.specs.Table.{segmented_bounded};
ghost use Rattle.chosen.specs.declared.book.AnyBook.TheVariants.{Lossless, Segments};

use losses::book::LossBook;
use losses::lossless::Lossless;
use losses::segments::Segments;

// A loss book whose kind is chosen while a program runs.
// An enum and not a `Box<dyn LossBook>`, since the library has no heap; it has a `match`, since no function may hand out a `dyn`.
#[derive(Clone, Copy)]
pub enum AnyBook {
    Lossless(Lossless),
    Segments(Segments),
}

impl LossBook for AnyBook {
    ghost meaning = { losses_of };

    ghost bounded = { elim [
      | Lossless book ↦ record { at_most = λ link flow. omega arith; elsewhere = λ link flow e. refl }
      | Segments book ↦ segmented_bounded book.curves
    ] };

    fn loss(&self, link: u32, flow: i32) -> u32 {
        match self {
            AnyBook::Lossless(book) => book.loss(link, flow),
            AnyBook::Segments(book) => book.loss(link, flow),
        }
    }
}

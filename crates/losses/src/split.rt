ghost use Rattle.losses.specs.Books.{split};
ghost use Rattle.losses.specs.Views.{split_losses};
ghost use Rattle.std.specs.Prelude.{◌≡◌};
ghost use Rattle.std.proofs.Common.{rules};

use crate::book::LossBook;

// One book for the links below a number, and another for the others.
#[derive(Clone, Copy)]
pub struct Split<A, B> {
    below: u32,
    first: A,
    second: B,
}

impl<A: LossBook, B: LossBook> Split<A, B> {
    pub fn new(below: u32, first: A, second: B) -> Split<A, B>
        ensures { split_losses A.LossBook.meaning B.LossBook.meaning result ≡ split below (A.LossBook.meaning first) (B.LossBook.meaning second) }
    {
        Split {
            below,
            first,
            second,
        }
    }
}

impl<A: LossBook, B: LossBook> LossBook for Split<A, B> {
    ghost meaning = { split_losses A.LossBook.meaning B.LossBook.meaning };

    ghost bounded = { Prim.search rules };

    fn loss(&self, link: u32, flow: i32) -> u32 {
        if link < self.below {
            self.first.loss(link, flow)
        } else {
            self.second.loss(link, flow)
        }
    }
}

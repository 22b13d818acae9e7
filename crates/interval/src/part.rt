// The parts of a word.
ghost use Rattle.std.specs.Prelude.{◌≡◌, ◌/◌, ◌%◌, ◌^◌, ◌<◌, ◌==◌};
ghost use Rattle.interval.specs.Words.{kind, count, ordinal, signed, point, energy, rank};
ghost use Rattle.interval.specs.Kinds.{named, number};

use crate::kind::Kind;

// A word of 32 bits.
#[derive(Clone, Copy)]
pub(crate) struct Word(pub(crate) u32);

impl Word {
    // `size` bits from bit `low` on.
    fn part(self, low: u32, size: u32) -> u32
        requires low { low < 32 }
        requires size { size < 32 }
        ensures { result ≡ self.0 / 2 ^ low % 2 ^ size }
    {
        (self.0 >> low) & ((1 << size) - 1)
    }

    // None where the top four bits name no kind.
    fn kind(self) -> Option<Kind>
        ensures { result ≡ named (kind self.0) }
    {
        match self.part(28, 4) {
            1 => Some(Kind::Opening),
            2 => Some(Kind::Price),
            3 => Some(Kind::Flow),
            4 => Some(Kind::Sent),
            5 => Some(Kind::Taken),
            6 => Some(Kind::Closing),
            _ => None,
        }
    }

    pub(crate) fn is(self, of: Kind) -> bool
        ensures { result ≡ (kind self.0 == number of) }
    {
        self.kind() == Some(of)
    }

    pub(crate) fn count(self) -> u32
        ensures { result ≡ count self.0 }
    {
        self.part(0, 28)
    }

    pub(crate) fn ordinal(self) -> u32
        ensures { result ≡ ordinal self.0 }
    {
        self.part(24, 4)
    }

    pub(crate) fn signed(self) -> i32
        ensures { result ≡ signed self.0 }
    {
        let n = self.part(0, 24);
        if n < 0x80_0000 {
            n.cast_signed()
        } else {
            n.cast_signed() - 0x100_0000
        }
    }

    pub(crate) fn point(self) -> u32
        ensures { result ≡ point self.0 }
    {
        self.part(20, 8)
    }

    pub(crate) fn energy(self) -> u32
        ensures { result ≡ energy self.0 }
    {
        self.part(0, 20)
    }

    pub(crate) fn rank(self) -> u32
        ensures { result ≡ rank self.0 }
    {
        2 * self.point() + self.part(28, 4)
    }
}

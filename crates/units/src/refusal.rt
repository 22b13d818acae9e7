// Why a call is refused: each case is a row of the refusal table, and carries its place.
ghost use Rattle.std.specs.Prelude.{◌≡◌, Some};
ghost use Rattle.units.specs.Refusals.{told, name, line};

use std::fmt;

// The part of the box that refuses.
#[derive(Clone, Copy, PartialEq, Eq)]
pub enum Layer {
    Words,
    Month,
    Register,
    Network,
    Making,
    Payout,
}

#[derive(Clone, Copy, PartialEq, Eq)]
pub enum Refusal {
    WordMissing(usize),
    KindNotAllowed(usize),
    OutOfRange(usize),
    OutOfOrder(usize),
    WrongCount(usize),
    NotNext(u32),
    MonthFull(u32),
    BrokenReference(u32),
    FlowTooLarge(u32),
    RollFull(usize),
    FieldOutOfRange(u32),
    Unfit(usize),
    NoSuchPot(u32),
    NotWhole(u32),
    AlreadyPaid(u32),
    TooManyOwners,
    SumTooLarge(u32),
    RowTooShort(usize),
}

impl Refusal {
    // The row of the refusal table, 1 to 18.
    pub fn number(self) -> u32
        ensures { result ≡ (told self).number }
    {
        match self {
            Refusal::WordMissing(_) => 1,
            Refusal::KindNotAllowed(_) => 2,
            Refusal::OutOfRange(_) => 3,
            Refusal::OutOfOrder(_) => 4,
            Refusal::WrongCount(_) => 5,
            Refusal::NotNext(_) => 6,
            Refusal::MonthFull(_) => 7,
            Refusal::BrokenReference(_) => 8,
            Refusal::FlowTooLarge(_) => 9,
            Refusal::RollFull(_) => 10,
            Refusal::FieldOutOfRange(_) => 11,
            Refusal::Unfit(_) => 12,
            Refusal::NoSuchPot(_) => 13,
            Refusal::NotWhole(_) => 14,
            Refusal::AlreadyPaid(_) => 15,
            Refusal::TooManyOwners => 16,
            Refusal::SumTooLarge(_) => 17,
            Refusal::RowTooShort(_) => 18,
        }
    }

    pub fn layer(self) -> Layer
        ensures { result ≡ (told self).layer }
    {
        match self {
            Refusal::WordMissing(_)
            | Refusal::KindNotAllowed(_)
            | Refusal::OutOfRange(_)
            | Refusal::OutOfOrder(_)
            | Refusal::WrongCount(_) => Layer::Words,
            Refusal::NotNext(_) | Refusal::MonthFull(_) | Refusal::NotWhole(_) => Layer::Month,
            Refusal::BrokenReference(_) | Refusal::RollFull(_) | Refusal::FieldOutOfRange(_) => {
                Layer::Register
            }
            Refusal::FlowTooLarge(_) => Layer::Network,
            Refusal::Unfit(_) => Layer::Making,
            Refusal::NoSuchPot(_)
            | Refusal::AlreadyPaid(_)
            | Refusal::TooManyOwners
            | Refusal::SumTooLarge(_)
            | Refusal::RowTooShort(_) => Layer::Payout,
        }
    }

    // Where the fault lies: an index, a number of entries, a pot; the table says which.
    pub fn place(self) -> usize
        ensures { result ≡ (told self).place }
    {
        match self {
            Refusal::WordMissing(place)
            | Refusal::KindNotAllowed(place)
            | Refusal::OutOfRange(place)
            | Refusal::OutOfOrder(place)
            | Refusal::WrongCount(place)
            | Refusal::RollFull(place)
            | Refusal::Unfit(place)
            | Refusal::RowTooShort(place) => place,
            // By `as`: a `u32` fits in a `usize`, and `try_from` would need an answer for what cannot happen.
            Refusal::NotNext(place)
            | Refusal::MonthFull(place)
            | Refusal::BrokenReference(place)
            | Refusal::FlowTooLarge(place)
            | Refusal::FieldOutOfRange(place)
            | Refusal::NoSuchPot(place)
            | Refusal::NotWhole(place)
            | Refusal::AlreadyPaid(place)
            | Refusal::SumTooLarge(place) => place as usize,
            Refusal::TooManyOwners => 65,
        }
    }
}

impl fmt::Display for Layer {
    ghost output = { λ l. Some (name l) };

    fn fmt<W: fmt::Write>(&self, f: &mut fmt::Formatter<W>) -> fmt::Result {
        f.write_str(match self {
            Layer::Words => "words",
            Layer::Month => "month",
            Layer::Register => "register",
            Layer::Network => "network",
            Layer::Making => "making",
            Layer::Payout => "payout",
        })
    }
}

// `refused NUMBER LAYER PLACE`
impl fmt::Display for Refusal {
    ghost output = { λ e. Some (line (told e)) };

    fn fmt<W: fmt::Write>(&self, f: &mut fmt::Formatter<W>) -> fmt::Result {
        let number = self.number();
        let layer = self.layer();
        let place = self.place();
        write!(f, "refused {number} {layer} {place}")
    }
}

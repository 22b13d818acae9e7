ghost use Rattle.std.specs.Prelude.{◌≤ℤ◌, pos};

use crate::kind::Kind;

// What the word of a price or a flow has to be: its kind, and the range of its figure.
#[derive(Clone, Copy)]
pub(crate) struct Form {
    pub(crate) kind: Kind,
    pub(crate) low: i32,
    pub(crate) high: i32,
    ghost below: { low ≤ℤ pos 0 },
    ghost above: { pos 0 ≤ℤ high },
}

pub(crate) const PRICE: Form = Form {
    kind: Kind::Price,
    low: -100_000,
    high: 2_000_000,
};

pub(crate) const FLOW: Form = Form {
    kind: Kind::Flow,
    low: -200_000,
    high: 200_000,
};

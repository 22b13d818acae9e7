// The kinds of words; their numbers are 1 to 6 in this order.
#[derive(Clone, Copy, PartialEq, Eq)]
pub(crate) enum Kind {
    Opening,
    Price,
    Flow,
    Sent,
    Taken,
    Closing,
}

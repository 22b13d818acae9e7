// A roll: the entries of one kind, in the order in which they came, over memory of the caller's with a count beside it, since
// the library has no heap.
ghost use Rattle.std.specs.Prelude.{◌≤◌, length};

use crate::entry::Entry;

mod calls;

#[derive(Drop)]
pub struct Roll<'a, E: Entry> {
    slots: &'a mut [E],
    count: usize,
    ghost inside: { count ≤ length slots.now },
    ghost few: { count ≤ E.MOST },
}

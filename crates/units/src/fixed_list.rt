ghost use Rattle.std.specs.Prelude.{◌≡◌, ◌≤◌, length};

mod calls;

// A list of at most N items in memory of its own: no call of it allocates.
#[derive(Copy)]
pub struct FixedList<T, const N: usize> {
    items: [T; N],
    count: usize,
    ghost few: { count ≤ N },
    ghost slots: { length items ≡ N },
}

// The answer of a full list to one more item.
#[derive(Clone, Copy)]
pub struct Full;

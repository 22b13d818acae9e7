ghost use Rattle.std.specs.Prelude.{◌≡◌, ◌++◌, [], ◌∷◌, length, take, nat_le, cond, MatchResult, ◌<◌, ⊤};
ghost use Rattle.std.specs.Option.{option_map};
ghost use Rattle.std.specs.List.{slice_get};
ghost use Rattle.units.specs.FixedLists.{listed};

use crate::fixed_list::{FixedList, Full};
use std::alloc::AllocError;

// By hand, since a generic struct with a ghost field derives no `Clone`.
impl<T: Copy, const N: usize> Clone for FixedList<T, N> {
    ghost is_clone = { λ x y. y ≡ x };

    ghost is_infallible = { λ _. ⊤ };

    fn clone(&self) -> Result<Self, AllocError> {
        Ok(*self)
    }
}

impl<T: Copy + Default, const N: usize> FixedList<T, N> {
    // An empty list.
    pub fn new() -> Self
        ensures { listed result ≡ [] }
    {
        FixedList {
            items: [T::default(); N],
            count: 0,
        }
    }

    // The items in a list, if they are at most N.
    pub fn of(items: &[T]) -> Option<Self>
        ensures { option_map listed result ≡ cond (nat_le (length items.now) N) (Some items.now) None }
    {
        if items.len() > N {
            return None;
        }
        let mut memory = [T::default(); N];
        memory[..items.len()].copy_from_slice(items);
        Some(Self::first_of(memory, items.len()))
    }
}

impl<T: Copy, const N: usize> FixedList<T, N> {
    // The first `count` of the items, or all where there are fewer.
    pub fn first_of(items: [T; N], count: usize) -> Self
        ensures { listed result ≡ take count items }
    {
        FixedList {
            items,
            count: count.min(N),
        }
    }

    pub fn as_slice(&self) -> &[T]
        ensures { result.now ≡ listed self.now }
    {
        &self.items[..self.count]
    }

    // The number of items.
    pub fn len(&self) -> usize
        ensures { result ≡ length (listed self.now) }
    {
        self.as_slice().len()
    }

    // The item of number `i`, or none beyond the last.
    pub fn get(&self, i: usize) -> Option<T>
        ensures { result ≡ slice_get (listed self.now) i }
    {
        self.as_slice().get(i).copied()
    }

    // Puts one more item at the end; a full list answers so and stays as it was.
    pub fn push(&mut self, item: T) -> Result<(), Full>
        ensures { MatchResult result (λ _. (length (listed self.old) < N) × (listed self.new ≡ listed self.old ++ item ∷ [])) (λ _. (length (listed self.old) ≡ N) × (self.new ≡ self.old)) }
    {
        if self.count >= N {
            return Err(Full);
        }
        self.items[self.count] = item;
        self.count += 1;
        Ok(())
    }
}

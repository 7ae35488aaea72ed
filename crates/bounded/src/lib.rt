// A list of at most N items, in place.
#![tactic(auto)]

ghost use Rattle.std.specs.Prelude.{◌≡◌, ◌<◌, ◌≤◌, [], ◌∷◌, ◌++◌, length, slice_get};

use std::alloc::AllocError;

// The items come first; the places behind them hold whatever they held.
#[derive(Copy)]
pub struct Bounded<T, const N: usize> {
    items: [T; N],
    len: usize,
    ghost few: { len ≤ N },
}

impl<T: Copy, const N: usize> Clone for Bounded<T, N> {
    ghost is_clone = { λ a b. b ≡ a };

    ghost is_infallible = { λ a. Unit {0} };

    fn clone(&self) -> Result<Self, AllocError> {
        Ok(*self)
    }
}

impl<T: Copy, const N: usize> Bounded<T, N> {
    ghost use Rattle.bounded.specs.Listed.{listed};

    // An empty list, with `blank` in each place.
    pub fn new(blank: T) -> Self
        ensures { listed result ≡ [] }
    {
        Bounded {
            items: [blank; N],
            len: 0,
        }
    }

    // How many items there are.
    pub fn len(&self) -> usize
        ensures is { result ≡ length (listed self.now) }
        ensures few { result ≤ N }
    {
        self.as_slice().len()
    }

    // Puts an item behind the others.
    pub fn push(&mut self, item: T)
        requires { length (listed self.old) < N }
        ensures { listed self.new ≡ listed self.old ++ item ∷ [] }
    {
        self.items[self.len] = item;
        self.len += 1;
    }

    pub fn as_slice(&self) -> &[T]
        ensures { result.now ≡ listed self.now }
    {
        &self.items[..self.len]
    }

    pub fn get(&self, i: usize) -> Option<T>
        ensures { result ≡ slice_get (listed self.now) i }
    {
        self.as_slice().get(i).copied()
    }
}

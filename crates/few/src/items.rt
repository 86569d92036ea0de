//! Making a list, adding to it, and reading it.
ghost use Rattle.std.specs.Prelude.{◌≡◌, ◌<◌, ◌≤◌, ◌↔◌, ◌++◌, [], ◌∷◌, length, IsOk, OnOk, OnErr, MatchOption, IsSorted, IsPermutation};
ghost use Rattle.few.specs.Few.{items};

use crate::few::Few;
use std::error::Error;
use std::fmt;
use std::ops::DerefSlice;

/// There is no place left.
#[derive(Debug, Clone, Copy, PartialEq, Eq)]
pub struct Full;

impl fmt::Display for Full {
    fn fmt<W: fmt::Write>(&self, f: &mut fmt::Formatter<W>) -> fmt::Result {
        write!(f, "no place is left")
    }
}

impl Error for Full {}

impl<T: Copy, const N: usize> Few<T, N> {
    /// No items; the blank fills the places. It is needed, since places hold a value from the start.
    pub fn new(blank: T) -> Few<T, N>
        ensures { items result ≡ [] }
    {
        Few {
            places: [blank; N],
            len: 0,
        }
    }

    /// These items; nothing where they are more than N.
    pub fn from_slice(blank: T, all: &[T]) -> Option<Few<T, N>>
        ensures { MatchOption result (N < length all.now) (λ f. items f ≡ all.now) }
    {
        if all.len() > N {
            return None;
        }
        let mut places = [blank; N];
        places[..all.len()].copy_from_slice(all);
        Some(Few {
            places,
            len: all.len(),
        })
    }

    /// The items.
    pub fn as_slice(&self) -> &[T]
        ensures items { result.now ≡ items self.now }
        ensures few { length result.now ≤ N }
    {
        &self.places[..self.len]
    }

    /// How many items there are.
    pub fn len(&self) -> usize
        ensures { result ≡ length (items self.now) }
    {
        self.as_slice().len()
    }

    // A list is filled by pushing: the library's `collect` asks for an allocator.
    /// Puts an item behind the others; where there is no place left, it stays out.
    pub fn push(&mut self, item: T) -> Result<(), Full>
        ensures room { IsOk result ↔ (length (items self.old) < N) }
        ensures put { OnOk result (items self.new ≡ items self.old ++ item ∷ []) }
        ensures full { OnErr result (self.new ≡ self.old) }
    {
        if self.len == N {
            return Err(Full);
        }
        self.places[self.len] = item;
        self.len += 1;
        Ok(())
    }

    /// Puts the items in their order.
    pub fn sort(&mut self)
    where
        T: Ord,
        ensures sorted { IsSorted T.cmp (items self.new) }
        ensures same { IsPermutation (items self.old) (items self.new) }
    {
        self.places[..self.len].sort_unstable();
    }
}

impl<T: Copy, const N: usize> DerefSlice for Few<T, N> {
    type Elem = T;

    ghost deref_gives = { λ f xs. (xs ≡ items f) × (length xs ≤ N) };

    fn deref(&self) -> &[T] {
        self.as_slice()
    }
}

ghost use Rattle.std.specs.Prelude.{◌≡◌, ◌≤◌, [], length, drop, set, ⊤, slice_get};
ghost use Rattle.precedence.specs.Sorted.{by_key};

use super::{Keyed, Precedence, insert};
use std::alloc::AllocError;

// At most `N` records: the first `len` of `slots`.
pub struct BoundedList<T, const N: usize> {
    slots: [T; N],
    len: usize,
    ghost few: { len ≤ N },
}

// `Clone` is not derived: a derive over a ghost field is refused where the struct is generic.
impl<T: Copy, const N: usize> Copy for BoundedList<T, N> {}

impl<T: Copy, const N: usize> Clone for BoundedList<T, N> {
    ghost is_clone = { λ x y. y ≡ x };

    ghost is_infallible = { λ _. ⊤ };

    fn clone(&self) -> Result<Self, AllocError> {
        Ok(*self)
    }
}

impl<T: Copy, const N: usize> BoundedList<T, N> {
    ghost use Rattle.precedence.specs.Bounded.{records, Adds};

    // The empty list; `blank` only fills the places that are not in use.
    pub fn empty(blank: T) -> Self
        ensures { records result ≡ [] }
    {
        BoundedList {
            slots: [blank; N],
            len: 0,
        }
    }

    // How many records the list holds.
    pub fn len(&self) -> usize
        ensures { result ≡ length (records self.now) }
    {
        self.as_slice().len()
    }

    // The records, the first one in front.
    pub fn as_slice(&self) -> &[T]
        ensures { result.now ≡ records self.now }
    {
        &self.slots[..self.len]
    }

    // The record at a place, counted from 0.
    pub fn get(&self, place: usize) -> Option<T>
        ensures { result ≡ slice_get (records self.now) place }
    {
        self.as_slice().get(place).copied()
    }

    // The first record.
    pub fn first(&self) -> Option<T>
        ensures { result ≡ slice_get (records self.now) 0 }
    {
        self.as_slice().first().copied()
    }

    // Puts a record behind those that it does not go before, or hands it back where `N` are there.
    pub fn insert<K: Drop, O: Precedence<K>>(&mut self, order: &O, x: T) -> Result<(), T>
    where
        T: Keyed<K>,
        ensures { Adds (by_key T.Keyed.key (O.Precedence.before order.now)) x self.old self.new result }
    {
        insert(order, &mut self.slots, self.len, x)?;
        self.len += 1;
        Ok(())
    }

    // Takes the first record out.
    pub fn remove_first(&mut self) -> Option<T>
        ensures first { result ≡ slice_get (records self.old) 0 }
        ensures rest { records self.new ≡ drop 1 (records self.old) }
    {
        let first = self.first()?;
        self.slots.copy_within(1..self.len, 0);
        self.len -= 1;
        Some(first)
    }

    // Puts a record into the place of the first one, and answers the old one.
    pub fn replace_first(&mut self, x: T) -> Option<T>
        ensures first { result ≡ slice_get (records self.old) 0 }
        ensures set { records self.new ≡ set (records self.old) 0 x }
    {
        let first = self.first()?;
        self.slots[0] = x;
        Some(first)
    }
}

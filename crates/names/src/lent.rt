// A list in a slice that is lent to it, since a table of names has no memory of its own: the items are the first of the
// slice, the others are free.
ghost use Rattle.std.specs.Prelude.{◌≡◌, ◌≤◌, ◌<◌, ◌++◌, ◌∷◌, [], length, take, slice_set, MatchResult};
ghost use Rattle.std.specs.List.{slice_get};

use std::marker::Model;

// There is no free place.
#[derive(Clone, Copy, PartialEq, Eq, Debug)]
pub(crate) struct Full;

#[derive(Drop)]
pub(crate) struct LentVec<'a, T> {
    slots: &'a mut [T],
    len: usize,
}

impl<'a, T> Model for LentVec<'a, T> {
    ghost use Rattle.std.specs.Prelude.{◌≤◌, length, take};
    ghost use Rattle.names.specs.Room.{Room};

    ghost Value = { Room T };

    ghost view = { λ v. record { items = take v.len v.slots.now; capacity = length v.slots.now } };

    ghost invariant = { λ v. v.len ≤ length v.slots.now };
}

impl<'a, T: Copy> LentVec<'a, T> {
    // No item.
    pub(crate) fn new(slots: &'a mut [T]) -> LentVec<'a, T>
        ensures { result ≡ record { items = []; capacity = length slots.old } }
    {
        LentVec { slots, len: 0 }
    }

    pub(crate) fn len(&self) -> usize
        ensures { result ≡ length self.now.items }
    {
        self.len
    }

    pub(crate) fn as_slice(&self) -> &[T]
        ensures items { result.now ≡ self.now.items }
        ensures within { length self.now.items ≤ self.now.capacity }
    {
        &self.slots[..self.len]
    }

    // The item at a place, if there is one.
    pub(crate) fn get(&self, place: usize) -> Option<T>
        ensures { result ≡ slice_get self.now.items place }
    {
        self.slots[..self.len].get(place).copied()
    }

    // One item more, unless every place has one.
    pub(crate) fn push(&mut self, item: T) -> Result<(), Full>
        ensures { let v = self.old in
            MatchResult result
            (λ _. (length v.items < v.capacity) × (self.new ≡ record { items = v.items ++ item ∷ []; capacity = v.capacity }))
            (λ _. (v.capacity ≤ length v.items) × (self.new ≡ v)) }
    {
        if self.len >= self.slots.len() {
            return Err(Full);
        }
        self.slots[self.len] = item;
        self.len += 1;
        Ok(())
    }

    // The first `len` items stay.
    pub(crate) fn truncate(&mut self, len: usize)
        ensures { let v = self.old in self.new ≡ record { items = take len v.items; capacity = v.capacity } }
    {
        self.len = self.len.min(len);
    }

    // Another item at a place, if there is one.
    pub(crate) fn set(&mut self, place: usize, item: T)
        ensures { let v = self.old in self.new ≡ record { items = slice_set v.items place item; capacity = v.capacity } }
    {
        if place < self.len {
            self.slots[place] = item;
        }
    }
}

//! An array of entries that knows the place of each slot.
ghost use Rattle.std.specs.Prelude.{◌≡◌, ◌+◌, ◌-◌, ◌^◌, ◌<◌, ◌≤◌, [], ◌∷◌, ◌++◌, None, OnOk, OnErr, IfSome, length, swap, take, option_to_list};
ghost use Rattle.uv_heap.specs.Array.{entry_at, place_in, SlotsDiffer, SlotsFit};

use crate::entry::Entry;
use std::alloc::{AllocError, Global};
use std::marker::Model;

/// The heap's array, in any order, and beside it the place of each slot.
#[derive(Drop)]
pub(crate) struct PlacedEntries {
    entries: Vec<Entry>,
    /// By slot. There is memory for as many entries.
    places: Vec<Option<u32>>,
}

impl Model for PlacedEntries {
    ghost use Rattle.uv_heap.specs.Array.{Heap};

    ghost Value = { Heap };

    ghost use Rattle.std.specs.Prelude.{vec_capacity, length};
    ghost use Rattle.uv_heap.specs.Places.{ArePlaces};

    ghost view = { λ a. record { array = a.entries.items; room = length a.places.items } };

    ghost invariant = { λ a. ArePlaces a.entries.items a.places.items (vec_capacity a.entries) };
}

impl PlacedEntries {
    pub(crate) fn new(alloc: Global) -> PlacedEntries
        ensures array { result.array ≡ [] }
        ensures room { result.room ≡ 0 }
    {
        PlacedEntries {
            entries: Vec::new(alloc),
            places: Vec::new(alloc),
        }
    }

    /// Makes room for an entry of this slot, and of each below it.
    pub(crate) fn reserve(&mut self, slot: u32) -> Result<(), AllocError>
        ensures array { self.new.array ≡ self.old.array }
        ensures room { OnOk result (slot < self.new.room) }
        ensures kept { self.old.room ≤ self.new.room }
        ensures err { OnErr result (self.new.room ≡ self.old.room) }
        ensures wanted { OnErr result (self.old.room ≤ slot) }
    {
        let width = slot as usize + 1;
        if width <= self.places.len() {
            return Ok(());
        }
        self.entries.reserve(width - self.entries.len())?;
        self.places.resize(width, None)?;
        Ok(())
    }

    pub(crate) fn as_slice(&self) -> &[Entry]
        ensures array { result.now ≡ self.now.array }
        ensures slots { SlotsDiffer self.now.array }
        ensures room { SlotsFit self.now.array self.now.room }
        ensures narrow { length self.now.array ≤ 2 ^ 32 }
    {
        self.entries.as_slice()
    }

    pub(crate) fn place_of(&self, slot: u32) -> Option<u32>
        ensures place { result ≡ place_in self.now.array slot }
        ensures within { IfSome result (λ place. place < length self.now.array) }
        ensures slot { IfSome result (λ place. (entry_at self.now.array place).slot ≡ slot) }
    {
        match self.places.get(slot as usize) {
            Some(place) => *place,
            None => None,
        }
    }

    /// Puts an entry last.
    pub(crate) fn push(&mut self, entry: Entry)
        requires room { entry.slot < self.old.room }
        requires absent { place_in self.old.array entry.slot ≡ None }
        ensures array { self.new.array ≡ self.old.array ++ entry ∷ [] }
        ensures narrow { length self.old.array < 2 ^ 32 }
        ensures room { self.new.room ≡ self.old.room }
    {
        let place = self.entries.len() as u32;
        self.entries.push_reserved(entry);
        self.places[entry.slot as usize] = Some(place);
    }

    /// Takes the last entry away.
    pub(crate) fn pop(&mut self) -> Option<Entry>
        ensures last { self.old.array ≡ self.new.array ++ option_to_list result }
        ensures array { self.new.array ≡ take (length self.old.array - 1) self.old.array }
        ensures room { self.new.room ≡ self.old.room }
    {
        let entry = self.entries.pop()?;
        self.places[entry.slot as usize] = None;
        Some(entry)
    }

    /// The entries at two places change places.
    pub(crate) fn swap(&mut self, a: usize, b: usize)
        requires a_within { a < length self.old.array }
        requires b_within { b < length self.old.array }
        ensures array { self.new.array ≡ swap self.old.array a b }
        ensures room { self.new.room ≡ self.old.room }
    {
        let (first, second) = (self.entries[a], self.entries[b]);
        self.entries[a] = second;
        self.entries[b] = first;
        self.places[second.slot as usize] = Some(a as u32);
        self.places[first.slot as usize] = Some(b as u32);
    }
}

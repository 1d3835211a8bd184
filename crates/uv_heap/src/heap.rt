//! The heap of the timers that are set.
ghost use Rattle.std.specs.Prelude.{◌≡◌, ℕ, ◌+◌, ◌<◌, ◌≤◌, ◌==◌, [], ◌∷◌, List, None, Some, OnOk, OnErr, IfErr, IfSome, length, slice_get};
ghost use Rattle.uv_ids.specs.declared.fault.Fault.TheVariants.{Memory};
ghost use Rattle.uv_heap.specs.Array.{IsHeap, SlotsDiffer, SlotsFit, entry_at, place_in};
ghost use Rattle.uv_heap.specs.Moves.{pushed, removed};
ghost use Rattle.uv_heap.specs.Order.{IsInOrder, NoneBefore, IsBeforeAll, inserted, without};
ghost use Rattle.uv_heap.specs.Undo.{push_undone, removal_undone, CanUndoPush, CanUndoRemove};

use crate::changes;
use crate::entry::Entry;
use crate::placed::PlacedEntries;
use crate::undo::{HeapPushUndo, HeapRemoveUndo};
use std::alloc::Global;
use std::marker::Model;
use uv_ids::Fault;

/// The timers that are set, each with its slot, as an array heap: the least one is at place 0.
///
/// A change touches no more entries than one path from a place to the root or to a leaf has, and its undo walks that
/// path the other way: it gives back the array from before the change, and so the place of each slot.
#[derive(Drop)]
pub struct TimerHeap {
    entries: PlacedEntries,
}

impl Model for TimerHeap {
    ghost use Rattle.uv_heap.specs.Array.{Heap, IsHeap};

    ghost Value = { Heap };

    ghost view = { λ h. h.entries };

    ghost invariant = { λ h. IsHeap h.entries.array };
}

impl TimerHeap {
    /// An empty heap, with room for nothing.
    pub fn new(alloc: Global) -> TimerHeap
        ensures array { result.array ≡ [] }
        ensures room { result.room ≡ 0 }
    {
        TimerHeap {
            entries: PlacedEntries::new(alloc),
        }
    }

    /// Makes room for a push of this slot, whatever is pushed and removed until then. Room stays.
    ///
    /// `Memory` is the only fault, and comes only where the room isn't there yet.
    pub fn reserve(&mut self, slot: u32) -> Result<(), Fault>
        ensures array { self.new.array ≡ self.old.array }
        ensures ok { OnOk result (slot < self.new.room) }
        ensures kept { self.old.room ≤ self.new.room }
        ensures err { OnErr result (self.new.room ≡ self.old.room) }
        ensures wanted { OnErr result (self.old.room ≤ slot) }
        ensures memory { IfErr result (λ fault. fault ≡ Memory) }
    {
        Ok(self.entries.reserve(slot)?)
    }

    pub fn len(&self) -> usize
        ensures { result ≡ length self.now.array }
    {
        self.entries().len()
    }

    pub fn is_empty(&self) -> bool
        ensures { result ≡ (length self.now.array == 0) }
    {
        self.entries().is_empty()
    }

    /// The array, from place 0.
    pub fn entries(&self) -> &[Entry]
        ensures array { result.now ≡ self.now.array }
        ensures heap { IsHeap self.now.array }
        ensures slots { SlotsDiffer self.now.array }
        ensures room { SlotsFit self.now.array self.now.room }
    {
        self.entries.as_slice()
    }

    /// What always holds of a heap: no entry comes before its parent, a slot has one entry at the most, and room for it. It
    /// costs nothing when it runs.
    pub fn is_sound(&self)
        ensures heap { IsHeap self.now.array }
        ensures slots { SlotsDiffer self.now.array }
        ensures room { SlotsFit self.now.array self.now.room }
    {
        let _ = self.entries.as_slice();
    }

    /// The place of a slot in the array, if it is on the heap.
    pub fn place_of(&self, slot: u32) -> Option<u32>
        ensures place { result ≡ place_in self.now.array slot }
        ensures within { IfSome result (λ place. place < length self.now.array) }
        ensures slot { IfSome result (λ place. (entry_at self.now.array place).slot ≡ slot) }
    {
        self.entries.place_of(slot)
    }

    /// The least entry.
    pub fn least(&self) -> Option<Entry>
        ensures root { result ≡ slice_get self.now.array 0 }
        ensures least { IfSome result (λ least. NoneBefore least self.now.array) }

        // It is the first in the order of timers, where no other is due alike.
        ensures first { (first : Entry) (others : List Entry) → IsInOrder self.now.array (first ∷ others)
            → IsBeforeAll first others → result ≡ Some first }
    {
        self.entries().first().copied()
    }

    /// Puts an entry on the heap.
    pub fn push(&mut self, entry: Entry) -> HeapPushUndo
        requires room { entry.slot < self.old.room }
        requires absent { place_in self.old.array entry.slot ≡ None }

        ensures array { self.new.array ≡ (pushed self.old.array entry).array }
        ensures place { result.place ≡ (pushed self.old.array entry).place }
        ensures room { self.new.room ≡ self.old.room }
        ensures order { (timers : List Entry) → IsInOrder self.old.array timers
            → IsInOrder self.new.array (inserted entry timers) }

        // The undo gives back the array from before.
        ensures can_undo { CanUndoPush self.new.array result.place }
        ensures undone { push_undone self.new.array result.place ≡ self.old.array }
    {
        let place = changes::push(&mut self.entries, entry);
        HeapPushUndo { place }
    }

    /// Takes a push back, where the heap is as the push left it.
    pub fn undo_push(&mut self, undo: HeapPushUndo)
        requires { CanUndoPush self.old.array undo.place }
        ensures array { self.new.array ≡ push_undone self.old.array undo.place }
        ensures room { self.new.room ≡ self.old.room }
    {
        changes::undo_push(&mut self.entries, undo.place as usize);
    }

    /// Takes the entry at a place off the heap.
    pub fn remove_at(&mut self, place: u32) -> HeapRemoveUndo
        requires { place < length self.old.array }

        ensures array { self.new.array ≡ (removed self.old.array place).array }
        ensures place { result.place ≡ place }
        ensures rest { result.rest ≡ (removed self.old.array place).place }
        ensures entry { result.entry ≡ entry_at self.old.array place }
        ensures room { self.new.room ≡ self.old.room }
        ensures order { (timers : List Entry) → IsInOrder self.old.array timers
            → IsInOrder self.new.array (without result.entry timers) }

        // The undo gives back the array from before.
        ensures can_undo { CanUndoRemove self.new result }
        ensures undone { removal_undone self.new.array result ≡ self.old.array }
    {
        changes::remove(&mut self.entries, place as usize)
    }

    /// Takes a removal back, where the heap is as the removal left it.
    pub fn undo_remove(&mut self, undo: HeapRemoveUndo)
        requires { CanUndoRemove self.old undo }
        ensures array { self.new.array ≡ removal_undone self.old.array undo }
        ensures room { self.new.room ≡ self.old.room }
    {
        changes::undo_remove(&mut self.entries, undo);
    }
}

//! The active timers in their order.
ghost use Rattle.std.specs.Prelude.{◌≡◌, IfOk, map};
ghost use Rattle.uv_heap.specs.declared.entry.Entry.{Entry};
ghost use Rattle.uv_heap.specs.Order.{IsInOrder};
ghost use Rattle.uv_model.specs.Queries.{timer_ids};
ghost use Rattle.uv_requests.specs.Working.{id_in};
ghost use Rattle.uv_memory.specs.Image.{held};
ghost use Rattle.uv_stands.specs.Doing.{OfEach};

use crate::packed_place::PackedPlace;
use std::alloc::{AllocError, Global};
use uv_arena::Slots;
use uv_heap::{Entry, TimerHeap};
use uv_ids::Id;
use uv_memory::Memory;
use uv_work::Content;

/// The active timers, in the order in which they are due.
pub fn timer_ids(memory: &Memory<PackedPlace>, alloc: Global) -> Result<Vec<Id>, AllocError>
    ensures { IfOk result (λ ids. OfEach (held memory.now).image (λ s. ids.items ≡ timer_ids s)) }
{
    let entries = in_order(memory.heap(), alloc)?;
    ids_of(memory.slots(), &entries, alloc)
}

/// The entries of a heap, in the order in which they are due.
fn in_order(heap: &TimerHeap, alloc: Global) -> Result<Vec<Entry>, AllocError>
    ensures { IfOk result (λ entries. IsInOrder heap.now.array entries.items) }
{
    let mut entries = Vec::from_slice(alloc, heap.entries())?;
    entries.sort_unstable_by_key(|entry| entry.due);
    Ok(entries)
}

/// The ids of these entries.
fn ids_of(slots: &Slots<Content>, entries: &[Entry], alloc: Global) -> Result<Vec<Id>, AllocError>
    ensures { IfOk result (λ ids. ids.items ≡ map (λ (e : Entry). id_in slots.now.image e.slot) entries.now) }
{
    let mut ids = Vec::new(alloc);
    for entry in entries {
        ids.push(id_in(slots, entry.slot))?;
    }
    Ok(ids)
}

/// The id that a slot has, whatever it holds.
fn id_in(slots: &Slots<Content>, slot: u32) -> Id
    ensures { result ≡ id_in slots.now.image slot }
{
    let generation = if slot < slots.used() {
        slots.slot_at(slot).generation
    } else {
        0
    };
    Id { slot, generation }
}

//! The timers section: all that are due are collected, and then the ready ones are called one after another.
ghost use Rattle.std.specs.Prelude.{◌≡◌, ◌≢◌, Some, None, IfSome, IfNone, option_map};
ghost use Rattle.uv_ids.specs.declared.id.Id.{Id};
ghost use Rattle.uv_records.specs.declared.handle.HandleRecord.{HandleRecord};
ghost use Rattle.uv_records.specs.declared.lists.ListName.TheVariants.{Ready};
ghost use Rattle.uv_records.specs.Slots.{id_of};
ghost use Rattle.uv_arena.specs.Calls.{IsFirst};
ghost use Rattle.uv_arena.specs.Image.{slot_at};
ghost use Rattle.uv_handle.specs.Counted.{counted, record_at, IsCounted};
ghost use Rattle.uv_timer.specs.Timed.{before, after, timed_in, CanSet, collect_undone, CanUndoCollect};
ghost use Rattle.uv_timer.specs.Timers.{first_due, first_ready, IsDue, NoneIsDue, NoneIsReady, IsCollected, IsFired};

use crate::change::TimerChange;
use crate::parts::TimerParts;
use crate::rescheduling::{reschedule, undo_reschedule};
use crate::undo::{CollectUndo, TimerUndo};
use uv_arena::Slots;
use uv_handle::handle_at;
use uv_heap::TimerHeap;
use uv_ids::Id;
use uv_records::{HandleRecord, HoldsHandle, ListName};

/// Moves the first timer, if it is due, to the end of the ready list: its id. None, and nothing changed, where none is due.
pub fn collect_one<T: HoldsHandle>(parts: TimerParts<'_, T>) -> Option<(Id, CollectUndo)>
    requires { IsCounted T.held_record (counted parts.slots.now.image parts.handles.now) }
    ensures which { option_map (λ r. r.0) result
        ≡ first_due T.held_record parts.entry.slots.now.image parts.entry.heap.now.array parts.entry.times.now.time }
    ensures none { IfNone result (NoneIsDue T.held_record parts.entry.slots.now.image parts.entry.heap.now.array parts.entry.times.now.time
        × (timed_in (after parts.exit) ≡ timed_in (before parts.entry))) }
    ensures some { IfSome result (λ r. IsCollected T.held_record T.of_record (after parts.exit).heap.room
        (timed_in (before parts.entry)) (timed_in (after parts.exit)) r.0 r.1) }
    ensures room { (after parts.exit).heap.room ≡ parts.entry.heap.now.room }
    ensures pieces { (after parts.exit).slots.room ≡ parts.entry.slots.now.room }
{
    let TimerParts {
        handles,
        slots,
        heap,
        times,
    } = parts;
    let (id, handle) = first_due(slots, heap, times.time)?;
    let parts = TimerParts {
        handles,
        slots,
        heap,
        times,
    };
    Some((id, collect(parts, id, handle)))
}

/// The first timer and its record, if it is due.
pub fn first_due<T: HoldsHandle>(
    slots: &Slots<T>,
    heap: &TimerHeap,
    time: u64,
) -> Option<(Id, HandleRecord)>
    ensures which { option_map (λ r. r.0) result ≡ first_due T.held_record slots.now.image heap.now.array time }
    ensures none { IfNone result (NoneIsDue T.held_record slots.now.image heap.now.array time) }
    ensures some { IfSome result (λ r. IsDue T.held_record slots.now.image heap.now.array time r.0 r.1) }
{
    match heap.least() {
        None => None,
        Some(entry) => {
            if entry.due.at > time {
                None
            } else {
                handle_in(slots, entry.slot)
            }
        }
    }
}

/// The handle that a slot holds, if it holds one.
fn handle_in<T: HoldsHandle>(slots: &Slots<T>, slot: u32) -> Option<(Id, HandleRecord)>
    ensures none { IfNone result (record_at T.held_record slots.now.image (id_of slot (slot_at slots.now.image.memory slot)) ≡ None) }
    ensures some { IfSome result (λ r. (r.0.slot ≡ slot) × (record_at T.held_record slots.now.image r.0 ≡ Some r.1)) }
{
    match slots.id_in(slot) {
        None => None,
        Some(id) => match handle_at(slots, id) {
            Err(_) => None,
            Ok(handle) => Some((id, handle)),
        },
    }
}

/// Moves a timer that is due to the end of the ready list.
fn collect<T: HoldsHandle>(parts: TimerParts<'_, T>, id: Id, handle: HandleRecord) -> CollectUndo
    requires counts { IsCounted T.held_record (counted parts.slots.now.image parts.handles.now) }
    requires due { IsDue T.held_record parts.slots.now.image parts.heap.now.array parts.times.now.time id handle }
    ensures collected { IsCollected T.held_record T.of_record (after parts.exit).heap.room
        (timed_in (before parts.entry)) (timed_in (after parts.exit)) id result }
    ensures room { (after parts.exit).heap.room ≡ parts.entry.heap.now.room }
    ensures pieces { (after parts.exit).slots.room ≡ parts.entry.slots.now.room }
{
    let change = TimerChange::collecting(handle);
    let TimerParts {
        handles,
        slots,
        heap,
        times,
    } = parts;
    let timer = reschedule(
        TimerParts {
            handles,
            slots,
            heap,
            times,
        },
        id,
        change,
    );
    let pushed = slots.push_back(ListName::Ready, id);
    CollectUndo { timer, pushed }
}

/// Takes back that a timer was collected.
pub fn undo_collect_one<T: HoldsHandle>(parts: TimerParts<'_, T>, undo: CollectUndo)
    requires { CanUndoCollect T.held_record T.of_record parts.heap.now.room (timed_in (before parts)) undo }
    ensures undone { timed_in (after parts.exit)
        ≡ collect_undone T.held_record T.of_record undo (timed_in (before parts.entry)) }
    ensures room { (after parts.exit).heap.room ≡ parts.entry.heap.now.room }
    ensures pieces { (after parts.exit).slots.room ≡ parts.entry.slots.now.room }
{
    parts.slots.undo_push(undo.pushed);
    undo_reschedule(parts, undo.timer);
}

/// Takes the front of the ready list off it, and sets it again from now if it repeats: its id, whose callback is to be called. None,
/// and nothing changed, where none is ready. For one that repeats, the room on the heap has to be reserved before.
pub fn fire_one<T: HoldsHandle>(parts: TimerParts<'_, T>) -> Option<(Id, TimerUndo)>
    requires counts { IsCounted T.held_record (counted parts.slots.now.image parts.handles.now) }
    requires set { (d : Id) (h : HandleRecord) → IsFirst parts.slots.now.image Ready d
        → record_at T.held_record parts.slots.now.image d ≡ Some h → h.repeat ≢ 0 → CanSet d.slot parts.heap.now parts.times.now }
    ensures which { option_map (λ r. r.0) result ≡ first_ready T.held_record parts.entry.slots.now.image }
    ensures none { IfNone result (NoneIsReady T.held_record parts.entry.slots.now.image
        × (timed_in (after parts.exit) ≡ timed_in (before parts.entry))) }
    ensures some { IfSome result (λ r. IsFired T.held_record T.of_record (after parts.exit).heap.room
        (timed_in (before parts.entry)) (timed_in (after parts.exit)) r.0 r.1) }
    ensures room { (after parts.exit).heap.room ≡ parts.entry.heap.now.room }
    ensures pieces { (after parts.exit).slots.room ≡ parts.entry.slots.now.room }
{
    match parts.slots.first(ListName::Ready) {
        None => None,
        Some(id) => match handle_at(parts.slots, id) {
            Err(_) => None,
            Ok(handle) => {
                let change = TimerChange::firing(parts.times, handle);
                Some((id, reschedule(parts, id, change)))
            }
        },
    }
}

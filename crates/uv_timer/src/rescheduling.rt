//! What becomes of a timer, all at once.
ghost use Rattle.std.specs.Prelude.{◌≡◌, ◌<◌, ◌^◌, ◌-◌, Some, IfSome};
ghost use Rattle.uv_handle.specs.Counted.{counted, record_at, IsCounted};
ghost use Rattle.uv_timer.specs.Timed.{before, after, timed_in, timer_undone, CanUndoTimer};
ghost use Rattle.uv_timer.specs.Timers.{IsRescheduled};

use crate::change::TimerChange;
use crate::hook::{hook, undo_hook, unhook};
use crate::parts::TimerParts;
use crate::undo::TimerUndo;
use uv_ids::Id;
use uv_records::HoldsHandle;

/// Takes a timer off the heap, and off its list if it is to leave it; writes its other record; and puts it on the heap if it is due
/// at some time. The room there has to be reserved before.
pub fn reschedule<T: HoldsHandle>(
    parts: TimerParts<'_, T>,
    id: Id,
    change: TimerChange,
) -> TimerUndo
    requires found { record_at T.held_record parts.slots.now.image id ≡ Some change.from }
    requires counts { IsCounted T.held_record (counted parts.slots.now.image parts.handles.now) }
    requires room { IfSome change.due (λ _. id.slot < parts.heap.now.room) }
    requires starts { IfSome change.due (λ _. parts.times.now.next_start < 2 ^ 64 - 1) }
    ensures changed { IsRescheduled T.held_record T.of_record (after parts.exit).heap.room
        (timed_in (before parts.entry)) (timed_in (after parts.exit)) id change result }
    ensures room { (after parts.exit).heap.room ≡ parts.entry.heap.now.room }
    ensures pieces { (after parts.exit).slots.room ≡ parts.entry.slots.now.room }
{
    let TimerParts {
        handles,
        slots,
        heap,
        times,
    } = parts;
    let removed = unhook(heap, id.slot);
    let delisted = handles.delist(slots, id, change.from, change.to, change.leaves);
    let set = hook(heap, times, id.slot, change.due);
    TimerUndo {
        removed,
        delisted,
        set,
    }
}

/// Takes back what became of a timer, by a start, a stop, an `again` or as it was called.
pub fn undo_reschedule<T: HoldsHandle>(parts: TimerParts<'_, T>, undo: TimerUndo)
    requires { CanUndoTimer T.held_record T.of_record parts.heap.now.room (timed_in (before parts)) undo }
    ensures undone { timed_in (after parts.exit)
        ≡ timer_undone T.held_record T.of_record undo (timed_in (before parts.entry)) }
    ensures room { (after parts.exit).heap.room ≡ parts.entry.heap.now.room }
    ensures pieces { (after parts.exit).slots.room ≡ parts.entry.slots.now.room }
{
    let TimerParts {
        handles,
        slots,
        heap,
        times,
    } = parts;
    undo_hook(heap, times, undo.set);
    handles.undo_delist(slots, undo.delisted);
    if let Some(removed) = undo.removed {
        heap.undo_remove(removed);
    }
}

//! Taking a timer off the heap, and setting it there.
ghost use Rattle.std.specs.Prelude.{◌≡◌, ◌<◌, ◌^◌, ◌-◌, None, IfSome};
ghost use Rattle.uv_heap.specs.Array.{place_in};
ghost use Rattle.uv_timer.specs.Hook.{IsUnhooked, IsHooked};
ghost use Rattle.uv_timer.specs.Timed.{unset, CanUnset, undrawn};

use crate::change::Times;
use crate::undo::SetUndo;
use uv_heap::{Entry, HeapRemoveUndo, TimerHeap};
use uv_ids::Due;

/// Takes the timer of a slot off the heap, if it is there.
pub(crate) fn unhook(heap: &mut TimerHeap, slot: u32) -> Option<HeapRemoveUndo>
    ensures { IsUnhooked slot heap.old heap.new result }
{
    heap.is_sound();
    let place = heap.place_of(slot)?;
    Some(heap.remove_at(place))
}

/// Puts the timer of a slot on the heap, under the next start number, if it is due at some time.
pub(crate) fn hook(
    heap: &mut TimerHeap,
    times: &mut Times,
    slot: u32,
    due: Option<Due>,
) -> Option<SetUndo>
    requires absent { place_in heap.old.array slot ≡ None }
    requires room { IfSome due (λ _. slot < heap.old.room) }
    requires starts { IfSome due (λ _. times.old.next_start < 2 ^ 64 - 1) }
    ensures { IsHooked slot due heap.old heap.new times.old times.new result }
{
    let due = due?;
    let pushed = heap.push(Entry { due, slot });
    let start = times.next_start;
    times.next_start += 1;
    Some(SetUndo { pushed, start })
}

/// Takes the timer that was set off the heap, and gives its start number back.
pub(crate) fn undo_hook(heap: &mut TimerHeap, times: &mut Times, undo: Option<SetUndo>)
    requires { CanUnset undo heap.old.array }
    ensures heap { heap.new.array ≡ unset undo heap.old.array }
    ensures times { times.new ≡ undrawn undo times.old }
    ensures room { heap.new.room ≡ heap.old.room }
{
    if let Some(set) = undo {
        heap.undo_push(set.pushed);
        times.next_start = set.start;
    }
}

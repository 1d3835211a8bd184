//! How a section walks a list: all of it is yet to run, and each goes to the end of the list as it is called.
ghost use Rattle.std.specs.Prelude.{◌≡◌, []};
ghost use Rattle.uv_records.specs.Lists.{yet_of};
ghost use Rattle.uv_arena.specs.Image.{members};
ghost use Rattle.uv_arena.specs.Calls.{IsFirst};
ghost use Rattle.uv_handle.specs.Counted.{counted, IsCounted};
ghost use Rattle.uv_handle.specs.Walks.{walk_undone, CanUndoWalk};
ghost use Rattle.uv_handle.specs.Watch.{IsBegun, IsMovedOn, IsWoken};

use crate::closing::handle_at;
use crate::handles::Handles;
use crate::undo::{RecordUndo, WalkUndo};
use uv_arena::{Slots, SpliceUndo};
use uv_ids::Id;
use uv_records::{HoldsHandle, WatcherKind};

/// Begins a section: the whole list is yet to run.
pub fn begin<T: HoldsHandle>(slots: &mut Slots<T>, kind: WatcherKind) -> SpliceUndo
    requires { members slots.old.image (yet_of kind) ≡ [] }
    ensures begun { IsBegun slots.old.image slots.new.image kind result }
    ensures pieces { slots.new.room ≡ slots.old.room }
{
    slots.splice(kind.list(), kind.yet())
}

/// Moves this one, the front of those yet to run, to the end of its list: whether a callback was due by a send.
pub fn move_on<T: HoldsHandle>(
    handles: &mut Handles,
    slots: &mut Slots<T>,
    kind: WatcherKind,
    id: Id,
) -> (bool, WalkUndo)
    requires counts { IsCounted T.held_record (counted slots.old.image handles.old) }
    requires first { IsFirst slots.old.image (yet_of kind) id }
    ensures moved { IsMovedOn T.held_record T.of_record (counted slots.old.image handles.old)
        (counted slots.new.image handles.new) kind id result.0 result.1 }
    ensures pieces { slots.new.room ≡ slots.old.room }
{
    slots.rotate(kind.yet(), kind.list(), id);
    let (pending, woken) = wake(handles, slots, kind, id);
    (pending, WalkUndo { kind, woken })
}

/// Wakes a handle of the async section, if it waits for its callback.
fn wake<T: HoldsHandle>(
    handles: &mut Handles,
    slots: &mut Slots<T>,
    kind: WatcherKind,
    id: Id,
) -> (bool, Option<RecordUndo>)
    requires { IsCounted T.held_record (counted slots.old.image handles.old) }
    ensures woken { IsWoken T.held_record T.of_record (counted slots.old.image handles.old)
        (counted slots.new.image handles.new) kind id result.0 result.1 }
    ensures pieces { slots.new.room ≡ slots.old.room }
{
    if kind != WatcherKind::Async {
        return (false, None);
    }
    match handle_at(slots, id) {
        Err(_) => (false, None),
        Ok(handle) => {
            if handle.pending {
                let changed = handles.change(slots, id, handle, handle.woken());
                (true, Some(changed))
            } else {
                (false, None)
            }
        }
    }
}

/// Takes one step of a walk back.
pub fn undo_take<T: HoldsHandle>(handles: &mut Handles, slots: &mut Slots<T>, undo: WalkUndo)
    requires { CanUndoWalk T.held_record T.of_record (counted slots.old.image handles.old) undo }
    ensures undone { counted slots.new.image handles.new ≡ walk_undone T.held_record T.of_record undo (counted slots.old.image handles.old) }
    ensures pieces { slots.new.room ≡ slots.old.room }
{
    if let Some(woken) = undo.woken {
        handles.undo_change(slots, woken);
    }
    slots.undo_rotate(undo.kind.yet(), undo.kind.list());
}

//! Starting and stopping watchers.
ghost use Rattle.std.specs.Prelude.{◌≡◌, Some, None, false};
ghost use Rattle.uv_records.specs.Lists.{watcher_kind};
ghost use Rattle.uv_records.specs.Refusals.{start_watcher_refusal};
ghost use Rattle.uv_arena.specs.Image.{on_list};
ghost use Rattle.uv_handle.specs.Counted.{counted, record_at, IsCounted};
ghost use Rattle.uv_handle.specs.Watch.{IsStarted, IsStopped};

use crate::handles::Handles;
use crate::undo::{DelistUndo, ListUndo};
use uv_arena::Slots;
use uv_ids::Id;
use uv_records::{HandleRecord, HoldsHandle, WatcherKind};

/// Makes an idle, prepare or check handle that is inactive and on no list active, and puts it at the front of its list, as a start does.
pub fn enlist<T: HoldsHandle>(
    handles: &mut Handles,
    slots: &mut Slots<T>,
    id: Id,
    handle: HandleRecord,
    kind: WatcherKind,
) -> ListUndo
    requires counts { IsCounted T.held_record (counted slots.old.image handles.old) }
    requires found { record_at T.held_record slots.old.image id ≡ Some handle }
    requires kind { watcher_kind handle.kind ≡ Some kind }
    requires allowed { start_watcher_refusal handle ≡ None }
    requires inactive { handle.active ≡ false }
    requires loose { on_list slots.old.image id ≡ false }
    ensures started { IsStarted T.held_record T.of_record (counted slots.old.image handles.old) (counted slots.new.image handles.new) id result }
    ensures pieces { slots.new.room ≡ slots.old.room }
{
    handles.enlist(slots, id, handle, handle.activated(), kind.list())
}

/// Takes a handle that isn't a timer off its list, and makes it inactive, as a stop or a close does. A closing handle stays on the
/// closing list.
pub fn halt<T: HoldsHandle>(
    handles: &mut Handles,
    slots: &mut Slots<T>,
    id: Id,
    handle: HandleRecord,
) -> DelistUndo
    requires counts { IsCounted T.held_record (counted slots.old.image handles.old) }
    requires found { record_at T.held_record slots.old.image id ≡ Some handle }
    ensures stopped { IsStopped T.held_record T.of_record (counted slots.old.image handles.old)
        (counted slots.new.image handles.new) id handle result }
    ensures pieces { slots.new.room ≡ slots.old.room }
{
    handles.delist(slots, id, handle, handle.stopped(), !handle.closing)
}

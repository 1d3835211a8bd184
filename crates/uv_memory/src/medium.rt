//! The medium changes.
ghost use Rattle.std.specs.Prelude.{◌≡◌, IfSome};
ghost use Rattle.uv_memory.specs.Change as change;
ghost use Rattle.uv_memory.specs.Forms.{change_of};

use uv_arena::{ChainPlace, PushUndo};
use uv_handle::{DelistUndo, ListUndo, RecordUndo, TakeUndo};
use uv_heap::HeapRemoveUndo;
use uv_records::{HandleRecord, WatcherKind};
use uv_requests::CancelUndo;
use uv_timer::{SetUndo, TimerUndo};

/// A change of at most twelve words. The parts of a change stand in the variant: as a struct they would take a word more.
#[derive(Clone, Copy)]
pub enum Medium {
    Edited(RecordUndo),
    Enlisted(ListUndo),
    Delisted(DelistUndo),
    /// A timer that wasn't set got another record, and was taken off its list.
    Reset(DelistUndo),
    /// A timer that wasn't set was taken off its list, and set.
    Fired(ChainPlace, RecordUndo, SetUndo),
    /// A timer that wasn't set, and was on no list, was set.
    Started(RecordUndo, SetUndo),
    /// A timer that was on no list was taken off the heap.
    Stopped(HeapRemoveUndo, RecordUndo),
    /// A timer that was on no list was taken off the heap, and put on a list.
    Collected(PushUndo, HeapRemoveUndo, RecordUndo),
    /// A watcher was called that a send had woken.
    Woken(WatcherKind, RecordUndo),
    Closed(TakeUndo, HandleRecord),
    Cancelled(CancelUndo),
}

// A change in this row has at most twelve words.
const _: () = prove!(std::mem::size_of::<Medium>() <= 96);

impl Medium {
    /// What takes back what became of a timer, if it is as small.
    pub(crate) fn timer(timer: TimerUndo) -> Option<Medium>
        ensures { IfSome result (λ medium. change_of medium ≡ change.Timer timer) }
    {
        let changed = timer.delisted.changed;
        match (timer.removed, timer.delisted.unlinked, timer.set) {
            (None, _, None) => Some(Medium::Reset(timer.delisted)),
            (None, Some(place), Some(set)) => Some(Medium::Fired(place, changed, set)),
            (None, None, Some(set)) => Some(Medium::Started(changed, set)),
            (Some(removed), None, None) => Some(Medium::Stopped(removed, changed)),
            _ => None,
        }
    }

    /// What takes back that a handle was taken off its list and the heap, and put on another list, if it is as small.
    pub(crate) fn moved(put: PushUndo, timer: TimerUndo) -> Option<Medium>
        ensures { IfSome result (λ medium. change_of medium ≡ change.Moved put timer) }
    {
        match (timer.removed, timer.delisted.unlinked, timer.set) {
            (Some(removed), None, None) => {
                Some(Medium::Collected(put, removed, timer.delisted.changed))
            }
            _ => None,
        }
    }
}

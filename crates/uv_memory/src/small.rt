//! The small changes.

use crate::record::{Added, Polled};
use uv_arena::SpliceUndo;
use uv_records::WatcherKind;
use uv_requests::{FinishUndo, QueueUndo, TakeWorkUndo};

/// A change of at most four words.
#[derive(Clone, Copy)]
pub enum Small {
    Nothing,
    Time(u64),
    Clock(u64),
    Stop(bool),
    Idled(bool),
    Iterated(u64, bool),
    Added(Added),
    Begun(SpliceUndo),
    Polled(Polled),
    /// A watcher was called that no send had woken.
    Passed(WatcherKind),
    Queued(QueueUndo),
    Taken(TakeWorkUndo),
    Finished(FinishUndo),
}

// A change in this row has at most four words.
const _: () = prove!(std::mem::size_of::<Small>() <= 32);

//! What takes a change of a timer back.
use uv_arena::PushUndo;
use uv_handle::DelistUndo;
use uv_heap::{HeapPushUndo, HeapRemoveUndo};

/// Takes back that a timer was put on the heap: where it came to rest there, and the start number that it drew.
#[derive(Clone, Copy)]
pub struct SetUndo {
    pub pushed: HeapPushUndo,
    pub start: u64,
}

/// Takes back what became of a timer: where it was taken off the heap, if it was there; its record and its list; and that it was
/// set, if it was.
#[derive(Clone, Copy)]
pub struct TimerUndo {
    pub removed: Option<HeapRemoveUndo>,
    pub delisted: DelistUndo,
    pub set: Option<SetUndo>,
}

/// Takes back that a timer was collected.
#[derive(Clone, Copy)]
pub struct CollectUndo {
    pub timer: TimerUndo,
    pub pushed: PushUndo,
}

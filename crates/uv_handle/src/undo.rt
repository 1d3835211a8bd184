//! What takes a change of a handle back.
use uv_arena::{ChainPlace, InsertUndo, PushUndo, RemoveUndo};
use uv_records::{HandleRecord, WatcherKind};

/// Takes a change of a record back: its slot, the count of active referenced handles, and the record from before.
#[derive(Clone, Copy)]
pub struct RecordUndo {
    pub slot: u32,
    pub active: u32,
    pub old: HandleRecord,
}

/// Takes a new handle back: its slot, and the count from before.
#[derive(Clone, Copy)]
pub struct AddUndo {
    pub inserted: InsertUndo,
    pub active: u32,
}

/// Takes back that a handle got another record and was put on a list.
#[derive(Clone, Copy)]
pub struct ListUndo {
    pub changed: RecordUndo,
    pub pushed: PushUndo,
}

/// Takes back that a handle got another record and was taken off its list: where it stood there, if it was on one.
#[derive(Clone, Copy)]
pub struct DelistUndo {
    pub unlinked: Option<ChainPlace>,
    pub changed: RecordUndo,
}

/// Takes back that a closing handle was taken off its list and freed, together with what its slot held.
#[derive(Clone, Copy)]
pub struct TakeUndo {
    pub unlinked: ChainPlace,
    pub active: u32,
    pub removed: RemoveUndo,
}

/// Takes one step of a walk back: of which watchers it is, which tells the two lists, and the record of an async handle that was woken.
#[derive(Clone, Copy)]
pub struct WalkUndo {
    pub kind: WatcherKind,
    pub woken: Option<RecordUndo>,
}

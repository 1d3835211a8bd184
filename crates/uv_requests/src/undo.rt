//! What takes a change of a request back.

use uv_arena::{ChainPlace, InsertUndo, RemoveUndo};
use uv_ids::Id;

/// Takes a queue back: the slot that was taken, and how many requests were open before.
#[derive(Clone, Copy)]
pub struct QueueUndo {
    pub inserted: InsertUndo,
    pub count: u32,
}

/// Takes a take back: the worker, and where the request stood among those that wait.
#[derive(Clone, Copy)]
pub struct TakeWorkUndo {
    pub worker: u16,
    pub unlinked: ChainPlace,
}

/// Takes a finish back: the worker, and the request that it ran.
#[derive(Clone, Copy)]
pub struct FinishUndo {
    pub worker: u16,
    pub id: Id,
}

/// Takes a cancel back: the request, and where it stood among those that wait.
#[derive(Clone, Copy)]
pub struct CancelUndo {
    pub id: Id,
    pub unlinked: ChainPlace,
}

/// Takes a collect back, together with the request that was collected: where it stood, its slot, and how many requests were open
/// before.
#[derive(Clone, Copy)]
pub struct CollectWorkUndo {
    pub unlinked: ChainPlace,
    pub count: u32,
    pub removed: RemoveUndo,
}

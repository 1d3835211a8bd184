//! The events of the thread pool.

use uv_ids::Id;

/// One event of the thread pool. `specs/Pool.antt` has the rule of each.
#[derive(Clone, Copy, PartialEq, Eq)]
pub enum PoolEvent {
    /// A request was queued (uv_queue_work).
    Queue(Id),
    /// The worker of that number, from 0, took the request that waited longest.
    Take(u16, Id),
    /// The worker finished the request that it ran.
    Finish(u16, Id),
    /// A request was cancelled while it waited (uv_cancel).
    Cancel(Id),
    /// The loop collected the request that was done first: its after callback is next.
    Collect(Id),
}

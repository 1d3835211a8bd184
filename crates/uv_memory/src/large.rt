//! The largest changes.

use uv_arena::PushUndo;
use uv_requests::CollectWorkUndo;
use uv_timer::TimerUndo;
use uv_work::Request;

/// A change of more than twelve words. Its parts stand in the variant, the small one first: as a struct they would take a word more.
#[derive(Clone, Copy)]
pub enum Large {
    /// A timer was started, stopped or called, whatever it was before.
    Timer(TimerUndo),
    /// A handle was taken off its list and the heap, and put on another list.
    Moved(PushUndo, TimerUndo),
    /// A request that was done was freed, which was this.
    Ended(CollectWorkUndo, Request),
}

// A change in this row has at most twenty words.
const _: () = prove!(std::mem::size_of::<Large>() <= 160);

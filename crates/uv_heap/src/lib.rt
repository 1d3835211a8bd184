//! The timers that are set, as an array heap that knows the place of each slot, and whose every change can be taken
//! back: its undo gives the very array again.
//!
//! The main type is `TimerHeap`. Read `specs/Order.antt` first, of which the heap is one representation, then `Array.antt` and
//! `Undo.antt`.
#![tactic(auto)]

mod changes;
mod entry;
mod heap;
mod placed;
mod sift;
mod undo;

pub use entry::Entry;
pub use heap::TimerHeap;
pub use undo::{HeapPushUndo, HeapRemoveUndo};

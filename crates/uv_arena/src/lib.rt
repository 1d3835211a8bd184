//! The slots of handles and requests in pieces that never move, each on at most one doubly linked list, and every change with an
//! undo that gives back the very links that stood before.
//!
//! The main type is `Slots`. Read `specs/Image.antt` first: the lists as lists of ids, and the slots; then `Calls.antt` for what
//! each call leaves, and `Undo.antt` for what takes it back.
#![tactic(auto)]

mod arena;
mod cells;
mod links;
mod memory;
mod undo;

pub use arena::{InsertFault, Slots};
pub use links::{CHAIN_COUNT, Cell, ChainPlace, FREE, Links};
pub use undo::{InsertUndo, PushUndo, RemoveUndo, SpliceUndo};

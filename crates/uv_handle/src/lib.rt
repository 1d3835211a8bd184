//! Handles in the arena: their records, the count of those that keep the loop alive, the closing list, and the lists of watchers, of
//! which a section walks one. Every change has an exact undo.
//!
//! The main type is `Handles`, the count beside an arena. Read `specs/Counted.antt`, then `Changes.antt`; of watchers `Watch.antt`,
//! and `Walks.antt` for what takes a step of a walk back. No call refuses: who makes it has looked the handle up (`handle_at`), and
//! knows that it may be done.
#![tactic(auto)]

mod closing;
mod handles;
mod listing;
mod undo;
mod walk;
mod watchers;

pub use closing::handle_at;
pub use handles::Handles;
pub use undo::{AddUndo, DelistUndo, ListUndo, RecordUndo, TakeUndo, WalkUndo};
pub use walk::{begin, move_on, undo_take};
pub use watchers::{enlist, halt};

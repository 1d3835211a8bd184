//! What the plain loop and the arena share: the records of handles, what each op does to one of them, when it is refused, the
//! names of the lists, what a slot holds, a count beside what it counts, and what names are bound to.
//!
//! `HandleRecord` is what is kept of a handle (`specs/Handles.antt`), and `Lists.antt` names the lists that a slot can be on.
//! Read `Slots.antt` first: taking and freeing a slot in plain lists.
#![tactic(auto)]

mod count;
mod handle;
mod lists;
mod named;
mod refusals;
mod slot;

pub use count::recounted;
pub use handle::{HandleRecord, due_after};
pub use lists::{Ends, LIST_COUNT, ListName, WatcherKind};
pub use named::{Calls, Named};
pub use slot::{HoldsHandle, Pends, Slot};

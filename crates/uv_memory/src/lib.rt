//! The memory of a loop, all that a step changes of it, and for each change a small record that gives back the very memory from
//! before. Taking a step back takes no memory and can't fail.
//!
//! The main types are `Memory` and `Trail`. Read `specs/Image.antt` for what a memory has, `Undo.antt` (`Recorded`) for what each
//! change leaves, and `Trail.antt` with `steps_unwind` (`law.rt`) for any number of them; `Does.antt` says what each change did.
#![tactic(auto)]

mod entry;
mod handles;
mod kept;
mod large;
mod last;
mod law;
mod medium;
mod memory;
mod pool;
mod reading;
mod record;
mod row;
mod small;
mod timers;
mod trail;
mod unwinding;
mod values;
mod watchers;

pub use entry::Entry;
pub use kept::{Form, KeptRecord};
pub use large::Large;
pub use last::LastStep;
pub use law::steps_unwind;
pub use medium::Medium;
pub use memory::Memory;
pub use record::{Added, Naming, Polled};
pub use row::Row;
pub use small::Small;
pub use trail::Trail;

//! The bytes that name a state of the loop, or what is told of it.
//!
//! The main call is `push_key`, and `keys_tell` and `forms_tell` (`laws.rt`) are its theorems: equal bytes are equal states, or equal
//! tales. Read `specs/Key.antt`, and `TaleKey.antt` for the bytes of a tale, then `Formed.antt`, and of which states the second theorem
//! holds `Told.antt`.
#![tactic(auto)]

mod bases;
mod bound;
mod contents;
mod forms;
mod holds;
mod laws;
mod lists;
mod places;
mod runs;
mod state;
mod tale;

pub use contents::kind_number;
pub use laws::{forms_tell, keys_tell};
pub use state::push_key;

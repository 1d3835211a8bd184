//! Slots that were freed more often: the loop goes on alike.
//!
//! Its calls have no code: each is a theorem. Read `specs/Renamed.antt`, `More.antt` and
//! `Youngest.antt`.
#![tactic(auto)]

mod laws;

pub use laws::{generations_rename, stays_young, youngest_form};

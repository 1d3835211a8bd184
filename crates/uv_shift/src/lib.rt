//! All times of a state moved by as many ms: the loop goes on alike.
//!
//! Its calls have no code: each is a theorem. Read `specs/Retimed.antt`, `Shift.antt` and `Earliest.antt`.
#![tactic(auto)]

mod laws;

pub use laws::{earliest_form, next_back, stays_timed, times_shift};

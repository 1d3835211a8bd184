//! A session: a machine with the steps that stand, and those that were taken back and can be run again.
//!
//! The main type is `Session`, over any `Machine`; its main clauses are those of `do_event`, `back` and `forward` (`session.rt`).
//! Read `specs/Shown.antt` first, then `Breaks.antt` and `Moving.antt`.
#![tactic(auto)]

mod break_sets;
mod breaks;
mod session;

pub use breaks::{Break, Stop};
pub use session::{BREAKS, Session};

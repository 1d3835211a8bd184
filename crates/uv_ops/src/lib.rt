//! The ops of a script over a loop's memory: each does what the plain loop's does, and leaves the record
//! that takes it back in the memory.
//!
//! The main call is `perform`. Its clauses are in the words of uv_stands' `Doing.antt`, over the ops of uv_model's `Ops.antt`.
#![tactic(auto)]

mod cancelling;
mod edits;
mod making;
mod performing;
mod queries;
mod sending;
mod timers;
mod values;
mod watchers;

pub use cancelling::cancel;
pub use performing::perform;
pub use sending::send;

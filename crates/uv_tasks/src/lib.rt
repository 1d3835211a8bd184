//! Requests that ask for the same work: the loop goes on alike, whatever they ask for.
//!
//! Its call has no code: it is a theorem. Read `specs/Tasks.antt`.
#![tactic(auto)]

mod laws;

pub use laws::work_is_free;

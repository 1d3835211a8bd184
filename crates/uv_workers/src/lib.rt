//! The workers of the thread pool are alike: which of them runs which request matters to nothing that a loop does later.
//!
//! Read `specs/Workers.antt`, then the laws (`laws.rt`).
#![tactic(auto)]

mod laws;

pub use laws::{finishes_alike, others_alike, takes_alike};

//! What a loop keeps of its names matters only so far: how often their callbacks were called up to a number, and of a handle that is gone
//! that it was there.
//!
//! Read `specs/Counts.antt` and `specs/Stale.antt`, then the laws (`laws.rt`).
#![tactic(auto)]

mod laws;

pub use laws::{counts_capped, names_staled, script_counts};

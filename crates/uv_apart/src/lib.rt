//! Where the loop's own step is apart from what comes from outside: both orders of the two come to the same state.
//!
//! Its calls have no code: each is a theorem. Read `specs/Apart.antt`, then the laws (`laws.rt`).
#![tactic(auto)]

mod laws;

pub use laws::{
    apart_cancels, apart_goes, finishes_apart, loop_leaves, outside_leaves, takes_apart,
    takes_beside, ticks_apart,
};

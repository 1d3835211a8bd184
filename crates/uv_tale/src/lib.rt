//! What is told of a state: states of which the same is told go on alike, at whatever time, in whichever slots their handles and requests
//! stand, and whichever of their workers runs which request. So do states with the same pooled form, which keeps the slots.
//!
//! Its calls have no code: they are theorems. Read `specs/Tale.antt` and `specs/Alike.antt`, then the laws (`laws.rt`); how the proof comes to
//! them, form by form, is in `proofs/Steps.antt`.
#![tactic(auto)]

mod laws;

pub use laws::{
    finishes_alike, others_alike, pooled_finishes_alike, pooled_others_alike, pooled_takes_alike,
    takes_alike,
};

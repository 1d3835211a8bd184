//! A state that is changed in a way that no step can tell, and one walk through the rows of `next` for every such change.
//!
//! Its call has no code: it is a theorem. Read `specs/Changed.antt`, then `specs/Hides.antt`.
#![tactic(auto)]

mod laws;

pub use laws::steps_alike;

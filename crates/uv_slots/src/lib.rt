//! Slots in another order, and names that forget the slot of what is gone: the loop goes on alike.
//!
//! Its calls have no code: each is a theorem. Read `specs/Relabeled.antt`, `specs/Arranged.antt`, `specs/Tidy.antt`, `specs/Buried.antt` and
//! `specs/Alike.antt`.
#![tactic(auto)]

mod buried;
mod laws;
mod swapped;

pub use buried::{burying_stays, names_buried};
pub use laws::{slots_arrange, stays_tidy};
pub use swapped::names_change_places;

//! The documented order of phases, a grammar over the lines of a trace, and what happens once by these lines; and that the lines of
//! every list of steps keep both.
//!
//! Its calls have no code: each is a theorem. Read `specs/Documented.antt` for `documented_order` (`phase_order.rt`), `Once.antt`
//! for `closes_once`, `PoolEvents.antt` for `pool_follows`; none of them knows the model's step.
#![tactic(auto)]

mod answers;
mod dues;
mod once;
mod outside;
mod phase_order;
mod pool;
mod reached;
mod refused;
mod told;
mod turns;
mod waits;

pub use answers::answers_told;
pub use dues::dues_told;
pub use once::closes_once;
pub use outside::{events_say, io_comes};
pub use phase_order::documented_order;
pub use pool::pool_follows;
pub use reached::lists_agree;
pub use refused::orders_refuse;
pub use told::handles_told;
pub use turns::called_in_turn;
pub use waits::{goes_on_told, loop_goes_on, steps_get_on};

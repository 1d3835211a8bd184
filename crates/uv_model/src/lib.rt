//! The model of the loop: its state, what one step does to it, and what every machine does.
//!
//! The main trait is `Machine` (`machine.rt`): what any loop answers to a step, and what stands behind it. Read
//! `specs/State.antt`, then `Next.antt` with `Ops.antt` and `Timeout.antt`: one step of the loop. A machine that does just these
//! definitions is the plain loop, uv_plain.
#![tactic(auto)]

mod bodies;
mod layout;
mod limits;
mod machine;
mod numbers;
mod place;
mod running;
mod turns;

pub use bodies::body_from;
pub use layout::{LaidSlot, Layout, ListEnds};
pub use limits::{LATEST, LONGEST_POLL};
pub use machine::{Machine, Outcome, STEPS};
pub use numbers::Numbers;
pub use place::{Body, Place, Run, Stage, TimersOf, Timing, Turn, Way};
pub use running::runner_of;
pub use turns::way;

//! The timers over the arena and the heap: what becomes of a timer, collecting those that are due, and firing them. Every change has
//! an exact undo.
//!
//! All that a call may change is lent as `TimerParts`. Read `specs/Timed.antt`, then `Timers.antt`. No op is refused here: who
//! makes `reschedule` by a `TimerChange` has looked the timer up, and knows that it may be done.
#![tactic(auto)]

mod change;
mod hook;
mod parts;
mod rescheduling;
mod section;
mod undo;

pub use change::{TimerChange, Times};
pub use parts::TimerParts;
pub use rescheduling::{reschedule, undo_reschedule};
pub use section::{collect_one, fire_one, first_due, undo_collect_one};
pub use undo::{CollectUndo, SetUndo, TimerUndo};

//! The thread pool: its book, which real threads share under a lock, and its workers (libuv's "Thread pool work
//! scheduling").
//!
//! The main types are `PoolBook` and, for threads, `LockedBook`; `worker` (`shift.rt`) is what a worker's thread does. Read
//! `specs/Contents.antt`, then `Calls.antt`.
#![tactic(auto)]

mod bell;
mod bench;
mod book;
mod calls;
mod desk;
mod gate;
mod guard;
mod held;
mod locked;
mod places;
mod queue;
mod shift;
mod sightings;
mod sleepers;

pub use bench::Bench;
pub use book::PoolBook;
pub use desk::Desk;
pub use gate::{Computed, Gate};
pub use guard::{BookGuard, LetGo, Woken, WokenWorker};
pub use locked::LockedBook;
pub use places::Collected;
pub use shift::{Shift, worker};
pub use sightings::{HasFinished, WasClosed, WasOpen, WasTended};
pub use sleepers::Sleepers;

//! The sections of a run over a loop's memory.
//!
//! The main calls are `in_walk`, `in_timers`, `in_done` and `in_closing`, a section each or a kind of section. Their clauses are
//! in the words of uv_stands' `Doing.antt`, over uv_model's `Next.antt`.
#![tactic(auto)]

mod beginning;
mod calling;
mod freeing;
mod iterating;
mod polling;
mod sections;
mod standing;
mod timers;
mod walking;

pub use beginning::{begin_closing, begin_run, begin_walk, leave_poll};
pub use calling::call_io;
pub use iterating::turn;
pub use polling::{begin_poll, begin_unwoken_async, leave_polled};
pub use sections::{in_closing, in_done, in_walk};
pub use standing::stand_at;
pub use timers::in_timers;

//! The loop over one memory: a machine whose every step has a record that takes it back.
//!
//! The main type is `ArenaLoop`, the machine that the program runs. Its main clauses are `records` of `step` and `drops` of
//! `back` (`machine.rt`), beside those of `Machine`. Read `specs/Course.antt` first, and `specs/Laid.antt` for what a layout of
//! the memory shows.
#![tactic(auto)]

mod acting;
mod arena_loop;
mod bodies;
mod io;
mod laying;
mod line_row;
mod listing;
mod looping;
mod machine;
mod plan;
mod planning;
mod pooling;
mod sending;
mod showing;
mod staging;
mod stepping;
mod steps;

pub use arena_loop::ArenaLoop;

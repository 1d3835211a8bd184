//! What the program does by its words, over any reader and writers.
//!
//! The main call is `run` (`program.rt`). Read `specs/Status.antt` for the exit statuses, and `Live.antt` for what a live run
//! writes.
#![tactic(auto)]

mod live;
mod program;

pub use live::{NoRecording, run_live};
pub use program::{bad_words, fail, run};

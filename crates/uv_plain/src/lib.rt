//! The plain loop: a machine of lists and an ordered map, which does each definition of uv_model's step as it stands. It runs in no
//! program but those of tests: it is the model that can be run, beside which the program's machine is held, and in which a wrong
//! loop is written for the documented order to refuse.
#![tactic(auto)]

mod arena;
mod content;
mod ids;
mod plain;
mod state;
mod walked;
mod watchers;

pub use plain::PlainLoop;

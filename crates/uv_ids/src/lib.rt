//! The plain words that every crate of the loop shares: ids, names, events, answers, trace lines and faults.
//!
//! The words are in `specs/Words.antt`, in one table a kind of word. `Fault` is what every call of the program may answer beside
//! its result, and `Why` why a step was refused.
#![tactic(auto)]

mod code;
mod due;
mod event;
mod fault;
mod id;
mod limits;
mod order;
mod phase;
mod seen;
mod thread_line;
mod word;

pub use code::{Answer, Code};
pub use due::Due;
pub use event::Event;
pub use fault::{Fault, Why};
pub use id::{Id, Var};
pub use limits::{LONGEST_TEXT, MOST_ROUNDS, MOST_SENDERS, MOST_STEPS, MOST_WORKERS};
pub use order::Order;
pub use phase::{Kind, Mode, Phase};
pub use seen::{Callback, Seen, Site};
pub use thread_line::ThreadLine;
pub use word::is;

//! What the words of a command line ask the program to do.
//!
//! The one call is `read_words`; read `specs/Words.antt`.
#![tactic(auto)]

mod command_line;

pub use command_line::{Job, NoJob, read_words};

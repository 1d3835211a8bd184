//! Scripts: what a person writes to say which handles there are, what the main program does, and what the callbacks do.
//!
//! The main type is `Script`, its main clauses those of `Script::parse` (`parse.rt`: the script of a text by the grammar alone,
//! or its first bad line) and of `text_read_back`. Read `specs/Program.antt` and then `Grammar.antt`; `Reading.antt` and
//! `Checks.antt` are the code's own tests, and nobody has to believe them.
#![tactic(auto)]

mod callback_lines;
mod limits;
mod lines;
mod names;
mod op;
mod parse;
mod same_work;
mod script;
mod settings;
mod size;
mod statement;
mod text;
mod words;

pub use lines::{Fields, Lines, is_line, is_skipped, line_count};
pub use names::Names;
pub use op::{CallbackLine, MainOp, Op};
pub use parse::{one_reading, read_without_io, text_read_back};
pub use script::Script;
pub use size::ArenaSize;
pub use text::{push_number, push_task_text};
pub use words::{is_name, number};

//! What a search through the orders of a run is asked: what may come from outside, how far it goes, and what it looks for.
//!
//! The main type is `Asking`; `read_part` reads a line. Read `specs/Grammar.antt`; `Tests.antt` has the code's own tests.
#![tactic(auto)]

mod asking;
mod field;
mod line;
mod part;
mod question;
mod words;

pub use asking::{Asking, Most, Offer, Offered, Question, Recorded, Takes, Which};
pub use line::{every_line_says, read_part};
pub use part::{Part, Said};

//! A script with what is asked of it: how such an input is read, and the texts of the answers.
//!
//! The main call is `read_inquiry`, over any `Source`. Read `specs/Grammar.antt` for the input, and `Texts.antt` for the answers.
#![tactic(auto)]

mod answer;
mod draft;
mod front;
mod input;
mod inquiry;
mod repeats;
mod session;

pub use answer::{
    at_least_text, found_text, latest_text, never_text, no_end_text, out_of_memory_text,
    push_at_least, push_found, push_latest, push_never, push_out_of_memory, push_too_deep,
    push_unsettled, too_deep_text, unsettled_text,
};
pub use input::read_inquiry;
pub use inquiry::{Inquiry, one_inquiry};
pub use repeats::may_never_end;
pub use session::session_read_back;

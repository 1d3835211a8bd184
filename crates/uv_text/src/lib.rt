//! The texts that a person sees, and the readers of commands and of recordings.
//!
//! Each text has a definition, a function that makes it whole, and one that makes it in parts (`Parts`), by which the program
//! writes it. Read `specs/Trace.antt` for a line, `State.antt`, `Image.antt` and `Recording.antt` for the others, and
//! `Commands.antt` for what a line asks.
#![tactic(auto)]

mod breaks;
mod command;
mod image;
mod parts;
mod recorded;
mod recording;
mod room;
mod state;
mod trace;
mod traced;

pub use command::{Asked, Command, asked_in, every_line_asks, has_step, read_command};
pub use image::{LayoutParts, image_text};
pub use parts::Parts;
pub use recorded::{is_callback_line, read_step};
pub use recording::{RecordingParts, is_callback, push_step, recording_text};
pub use state::{StateParts, push_named, state_text};
pub use trace::{push_line, push_seen, seen_text};
pub use traced::{TraceParts, WalkParts, push_appended};

//! A conversation: bytes in, bytes out.
//!
//! The main calls are `converse` (`conversation.rt`, clause `text`) and `replay` (`replaying.rt`, clause `text`). Read
//! `specs/Out.antt` and `Reply.antt` for what a conversation writes, `Recordings.antt` and `Verdict.antt` for a replay. What
//! reads and writes is any `Source` and `Sink`.
#![tactic(auto)]

mod alone;
mod answer;
mod conversation;
mod devices;
mod input;
mod numbered;
mod replaying;
mod reply;
mod rerun;
mod script;
mod showing;
mod sink;
mod source;
mod verdict;
mod version;

pub use alone::read_alone;
pub use conversation::{Ended, converse, converse_within, one_answer};
pub use devices::{Reader, Writer, memory_tells};
pub use replaying::{one_verdict, recordings_rerun_same, replay, replay_within};
pub use sink::{Sink, WriteFailed, write_text};
pub use source::{LIMIT, ReadFailed, Source};
pub use verdict::Verdict;

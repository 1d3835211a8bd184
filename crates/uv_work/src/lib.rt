//! Work requests: what one asks for, its record, the job of it, the result of a job, and the rules of the thread pool (libuv's
//! "Thread pool work scheduling"). And what a slot of the loop holds, which is a request or a handle.
//!
//! Read `specs/Pool.antt` first: the pool's rules by the ids of its requests. `Task`, `Job` and `WorkResult` are what is asked,
//! handed out and handed in; `WorkResult::compute` does a job (`specs/Digests.antt`).
#![tactic(auto)]

mod content;
mod event;
mod job;
mod outcome;
mod request;
mod result;
mod task;

pub use content::{Content, HoldsWork};
pub use event::PoolEvent;
pub use job::Job;
pub use outcome::Outcome;
pub use request::Request;
pub use result::WorkResult;
pub use task::Task;

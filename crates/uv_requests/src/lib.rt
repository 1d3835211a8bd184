//! Work requests over the arena: those that wait, those that the workers run and those that are done (libuv's "Thread pool work
//! scheduling"), and the count of those that are open.
//!
//! Each call says that it is a rule of the pool (`uv_work`), of the lists that the arena has. What changes slots has a call that
//! takes it back, which answers no `Result`: it takes no memory.
//!
//! The main type is `Requests`. Read `specs/Working.antt`, then `Calls.antt`. A worker takes a request by `next_work`, which may
//! refuse, and then `start_work`; it finishes one by `work_of` and then `hand_in`.
#![tactic(auto)]

mod done;
mod requests;
mod undo;
mod waiting;
mod workers;

pub use requests::{Requests, fresh_requests, request_at};
pub use undo::{CancelUndo, CollectWorkUndo, FinishUndo, QueueUndo, TakeWorkUndo};

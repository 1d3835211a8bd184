//! The steps that a session is made of.

use crate::id::Var;

/// One step of the core.
#[derive(Clone, Copy, PartialEq, Eq)]
pub enum Event {
    /// The loop's thread does its next step.
    Loop,
    /// The worker of this number, from 0, takes the request that waits longest.
    Take(u16),
    /// The worker of this number finishes the request that it runs.
    Finish(u16),
    /// A request is cancelled between two steps of the loop (uv_cancel).
    Cancel(Var),
    /// Another thread sends to an async handle (uv_async_send).
    Send(Var),
    /// What a handle of I/O waits for has come, and its callback begins: the order of these is the environment's (own).
    Io(Var),
    /// The clock goes on by so many milliseconds.
    Tick(u64),
}

// An event has at most two words: a session holds one for each step.
const _: () = prove!(std::mem::size_of::<Event>() <= 16);

//! The lines of a trace.

use crate::code::{Answer, Code};
use crate::id::{Id, Var};
use crate::phase::{Mode, Phase};

/// Which callback of a name.
#[derive(Clone, Copy, PartialEq, Eq)]
pub enum Callback {
    /// That of its handle: `on` in scripts (uv_timer_cb and the like).
    Handle,
    /// That of its request: `after` in scripts (uv_after_work_cb).
    After,
    /// That of its close: `closed` in scripts (uv_close_cb).
    Close,
}

/// Where an op stands in the script.
#[derive(Clone, Copy, PartialEq, Eq)]
pub enum Site {
    /// The line of the main program, from 0.
    Main(usize),
    /// The line of a name's callback, from 0.
    In(Callback, Var, usize),
}

/// One line of the trace. An op is named by its place in the script, which has its text.
#[derive(Clone, Copy, PartialEq, Eq)]
pub enum Seen {
    /// An op was done, and answered this.
    Op(Site, Answer),
    /// A run began.
    Run(Mode),
    /// A section began.
    Section(Phase),
    /// The poll began, with its timeout in ms; none is infinite.
    Poll(Option<u64>),
    /// The callback of a handle began.
    Call(Var, Id),
    /// The callback of a handle of I/O began, since what it waits for has come.
    Io(Var, Id),
    /// The after callback of a request began, whose slot was freed: a worker finished it with this digest, or it was
    /// cancelled. Fields lie in the order of the source, and with the digest first a line is smaller.
    After(Option<[u8; 32]>, Var, Id),
    /// The close callback of a handle began, whose slot was freed.
    Closed(Var, Id),
    /// The run ended; the loop was alive or not.
    End(bool),
    /// A worker took the request that waited longest.
    Take(u16, Var, Id),
    /// A worker finished the request that it ran.
    Finish(u16, Var, Id),
    /// A request was cancelled from outside, which was answered this.
    Cancel(Var, Answer),
    /// An async handle was sent to from outside, which was answered this.
    Send(Var, Code),
    /// The clock went on by so many ms.
    Tick(u64),
}

// A trace line has at most six words: a machine holds one for each step.
const _: () = prove!(std::mem::size_of::<Seen>() <= 48);

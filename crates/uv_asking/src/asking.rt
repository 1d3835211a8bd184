//! What is asked of a search.

use uv_ids::{Code, Event, Phase, Var};

/// What one move does.
#[derive(Clone, Copy, PartialEq, Eq)]
pub enum Offer {
    /// This step.
    Step(Event),
    /// A send to the first name, while a worker runs the request that the second one names.
    SendDuring(Var, Var),
    /// The worker of the least number that runs no request takes one.
    Take,
    /// The clock goes on to the deadline of the poll in which the loop is blocked.
    Wait,
    /// The clock goes on by so many ms where the loop is blocked in a poll, and no further than to its deadline.
    WaitFor(u64),
}

/// An offer, and how often it may be taken: none is as often as one likes.
#[derive(Clone, Copy, PartialEq, Eq)]
pub struct Offered {
    pub offer: Offer,
    pub times: Option<u32>,
}

/// An event from outside that came in a recording, and its place there: so many polls began behind the place of the one before it (or behind
/// the beginning), and behind the last of these the loop took so many steps. A time that the loop waited until something came goes by only where
/// it is blocked so long.
#[derive(Clone, Copy, PartialEq, Eq)]
pub struct Recorded {
    pub event: Event,
    pub waits: bool,
    pub polls: u32,
    pub steps: u32,
}

/// At most so many calls of each callback of a name.
#[derive(Clone, Copy, PartialEq, Eq)]
pub struct Most {
    pub name: Var,
    pub calls: u32,
}

/// How long the callback of a name takes, that of its handle or of its request: each time, or with a number the call that the script
/// names `@N`. The clock goes on by that at its end, and by nothing else there.
#[derive(Clone, Copy, PartialEq, Eq)]
pub struct Takes {
    pub name: Var,
    pub call: Option<u32>,
    pub ms: u64,
}

/// Which callbacks of a name are meant.
#[derive(Clone, Copy, PartialEq, Eq)]
pub enum Which {
    /// `call`: any of them.
    Any,
    /// `on`: that of its handle.
    Handle,
    /// `after`: that of its request.
    After,
    /// `closed`: that of its close.
    Close,
}

/// What is looked for: a step, or a place, of which this holds.
#[derive(Clone, Copy, PartialEq, Eq)]
pub enum Question {
    /// `find call NAME [N]`, `find on NAME [N]`, `find after NAME [N]`, `find closed NAME [N]`: such a callback of this name begins; with a
    /// number, the one that the script names `@N`.
    Call(Which, Var, Option<u32>),
    /// `find code CODE [of NAME]`: a line answers this code; with a name, it is the answer to an op, a cancel or a send that names it,
    /// or its after callback.
    Code(Code, Option<Var>),
    /// `find section WORD`: this section begins.
    Section(Phase),
    /// `find section poll`: a poll begins.
    Poll,
    /// `find never NAME`: the main program is at its end, and no callback of this name was called.
    Never(Var),
    /// `find stuck`: the loop is blocked, and nothing that is offered is accepted.
    Stuck,
    /// `find late NAME MS`: the callback of this timer begins so many ms after it was due, or later.
    Late(Var, u64),
    /// `find NAME before NAME`: a callback of the first name begins where none of the second was called. They are two names.
    Before(Var, Var),
    /// `find NAME after NAME`: a callback of the first name begins where one of the second was called. They are two names.
    Behind(Var, Var),
}

/// What is offered beside the steps of the loop and its workers, how far the search goes, and what it looks for.
#[derive(Drop)]
pub struct Asking {
    /// `may send NAME N`, `may send NAME N during JOB`, `may cancel NAME N`, `may io NAME N`, `may tick MS N`, `may wait`, `may wait MS N`.
    pub offers: Vec<Offered>,
    /// `may differ K`: what comes is what came in a recording, at most so many of it at another place.
    pub differ: Option<u32>,
    /// `recorded POLLS STEPS EVENT`, in the order of the recording.
    pub recorded: Vec<Recorded>,
    /// `takes NAME [@K] MS`.
    pub takes: Vec<Takes>,
    /// `most clock MS`: the clock goes no further.
    pub clock: Option<u64>,
    /// `most NAME CALLS`.
    pub most: Vec<Most>,
    /// `most states N`: so many states are kept.
    pub states: u32,
    /// `full`: each state is kept whole, with its times, counts and generations.
    pub full: bool,
    pub question: Question,
    /// `find latest NAME`: the question is how late the timer is at all, and what is looked for the greatest number of ms that is answered.
    pub greatest: bool,
}

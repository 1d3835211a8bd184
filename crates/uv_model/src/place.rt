//! Where the loop stands.

use uv_ids::{Callback, Mode, Var};
use uv_records::WatcherKind;

/// Where the loop stands.
#[derive(Clone, Copy, PartialEq, Eq)]
pub enum Place {
    /// At a line of the main program, from 0.
    Main(usize),
    /// In a run.
    Running(Run),
}

/// A run under way.
#[derive(Clone, Copy, PartialEq, Eq)]
pub struct Run {
    pub mode: Mode,
    /// The line of the main program that began the run.
    pub line: usize,
    pub stage: Stage,
    /// The callback's body under way.
    pub body: Option<Body>,
}

/// How far a run is.
#[derive(Clone, Copy, PartialEq, Eq)]
pub enum Stage {
    /// After the run's line.
    Entry,
    Pending,
    /// In the section that walks the handles of a kind.
    Walking(WatcherKind),
    /// In the poll, with its deadline in ms; none is infinite.
    Poll(Option<u64>),
    /// Behind the first callback of I/O in a poll, which left it; whether the poll was woken.
    Polled(bool),
    Done,
    /// In the done section of an iteration whose poll nobody woke: nobody is called there, nor in its async section.
    DoneUnwoken,
    Closing,
    /// In a timers section.
    Timers(TimersOf, Timing),
}

/// Which timers section it is.
#[derive(Clone, Copy, PartialEq, Eq)]
pub enum TimersOf {
    /// The first: the one at the entry of a default run (own), and in the order of 1.44 the one with which an iteration begins.
    Entry,
    /// The one at the end of an iteration.
    Iteration,
}

/// Where a run has to choose how it goes on.
#[derive(Clone, Copy)]
pub enum Turn {
    /// After its line.
    AtEntry,
    /// After a timers section.
    Behind(TimersOf),
    /// After the closing section.
    BehindClosing,
}

/// How a run goes on from a turn.
#[derive(Clone, Copy)]
pub enum Way {
    /// A timers section begins.
    ToTimers(TimersOf),
    /// An iteration begins, with the pending section.
    ToPending,
    /// The run ends.
    ToEnd,
}

/// How far a timers section is.
#[derive(Clone, Copy, PartialEq, Eq)]
pub enum Timing {
    /// The due timers are moved to the ready list (own).
    Collecting,
    /// The ready timers are called.
    Firing,
}

/// A callback's body: the call that it belongs to, and its next line.
#[derive(Clone, Copy, PartialEq, Eq)]
pub struct Body {
    pub callback: Callback,
    pub name: Var,
    /// Which call of that callback it is, from 1.
    pub call: u32,
    /// The next line of that callback, from 0.
    pub next: usize,
}

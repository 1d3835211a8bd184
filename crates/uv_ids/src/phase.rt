//! The words of the loop: kinds of handle, modes of a run, sections of an iteration.
ghost use Rattle.std.specs.Prelude.{◌≡◌, IfSome, IfNone};
ghost use Rattle.uv_ids.specs.Words.{kind_word, mode_word, phase_word, phase_named, IsNoKind, IsNoMode};

use crate::word::is;

/// The kind of a handle (uv_handle_type).
#[derive(Clone, Copy, PartialEq, Eq)]
pub enum Kind {
    /// Called when its time has come (uv_timer_t).
    Timer,
    /// Called once in each iteration, before the prepare handles (uv_idle_t).
    Idle,
    /// Called once in each iteration, right before the poll (uv_prepare_t).
    Prepare,
    /// Called once in each iteration, right after the poll (uv_check_t).
    Check,
    /// Called in the poll after a send, from any thread (uv_async_t).
    Async,
    /// Called in the poll when what it waits for has come: a handle of I/O, as a stream, a socket for datagrams, a watched
    /// descriptor, a signal (uv_tcp_t, uv_pipe_t, uv_udp_t, uv_poll_t and the like).
    Io,
}

impl Kind {
    /// The word of scripts, traces and states.
    pub fn word(self) -> &'static str
        ensures { result.now ≡ kind_word self }
    {
        match self {
            Kind::Timer => "timer",
            Kind::Idle => "idle",
            Kind::Prepare => "prepare",
            Kind::Check => "check",
            Kind::Async => "async",
            Kind::Io => "io",
        }
    }

    /// The kind that a word names.
    pub fn from_word(word: &[u8]) -> Option<Kind>
        ensures some { IfSome result (λ kind. word.now ≡ kind_word kind) }
        ensures none { IfNone result (IsNoKind word.now) }
    {
        if is(word, b"timer") {
            Some(Kind::Timer)
        } else if is(word, b"idle") {
            Some(Kind::Idle)
        } else if is(word, b"prepare") {
            Some(Kind::Prepare)
        } else if is(word, b"check") {
            Some(Kind::Check)
        } else if is(word, b"async") {
            Some(Kind::Async)
        } else if is(word, b"io") {
            Some(Kind::Io)
        } else {
            None
        }
    }
}

/// How far a run goes (uv_run_mode).
#[derive(Clone, Copy, PartialEq, Eq)]
pub enum Mode {
    /// Until the loop isn't alive or is stopped.
    Default,
    /// One iteration, whose poll may block.
    Once,
    /// One iteration, whose poll doesn't block.
    Nowait,
}

impl Mode {
    /// The word of scripts, traces and states.
    pub fn word(self) -> &'static str
        ensures { result.now ≡ mode_word self }
    {
        match self {
            Mode::Default => "default",
            Mode::Once => "once",
            Mode::Nowait => "nowait",
        }
    }

    /// The mode that a word names.
    pub fn from_word(word: &[u8]) -> Option<Mode>
        ensures some { IfSome result (λ mode. word.now ≡ mode_word mode) }
        ensures none { IfNone result (IsNoMode word.now) }
    {
        if is(word, b"default") {
            Some(Mode::Default)
        } else if is(word, b"once") {
            Some(Mode::Once)
        } else if is(word, b"nowait") {
            Some(Mode::Nowait)
        } else {
            None
        }
    }
}

/// A section of the loop, as its trace line names it; the poll has a line of its own, which shows its timeout.
///
/// An iteration has them in the order of this list, except the timers, whose place the script's `Order` says.
#[derive(Clone, Copy, PartialEq, Eq)]
pub enum Phase {
    Pending,
    Idle,
    Prepare,
    Done,
    Async,
    Check,
    Closing,
    Timers,
}

impl Phase {
    /// The word of traces.
    pub fn word(self) -> &'static str
        ensures { result.now ≡ phase_word self }
    {
        match self {
            Phase::Pending => "pending",
            Phase::Idle => "idle",
            Phase::Prepare => "prepare",
            Phase::Done => "done",
            Phase::Async => "async",
            Phase::Check => "check",
            Phase::Closing => "closing",
            Phase::Timers => "timers",
        }
    }

    /// The section that a word names.
    #[tactic(auto, unfolding(crate::specs::Words::phase_named))]
    pub fn from_word(word: &[u8]) -> Option<Phase>
        ensures named { result ≡ phase_named word.now }
    {
        if is(word, b"pending") {
            Some(Phase::Pending)
        } else if is(word, b"idle") {
            Some(Phase::Idle)
        } else if is(word, b"prepare") {
            Some(Phase::Prepare)
        } else if is(word, b"done") {
            Some(Phase::Done)
        } else if is(word, b"async") {
            Some(Phase::Async)
        } else if is(word, b"check") {
            Some(Phase::Check)
        } else if is(word, b"closing") {
            Some(Phase::Closing)
        } else if is(word, b"timers") {
            Some(Phase::Timers)
        } else {
            None
        }
    }
}

//! The record of a handle, and what the ops make of it.
ghost use Rattle.std.specs.Prelude.{◌≡◌};
ghost use Rattle.uv_records.specs.Dues.{due_in, due_after};
ghost use Rattle.uv_records.specs.Handles.{
  is_io,
  no_due,
  inited,
  stopped,
  activated,
  begun_at,
  repeating,
  referenced_as,
  closed,
  sent,
  woken,
  keeps_alive,
  is_timer,
  is_async,
};

use uv_ids::{Due, Kind, Var};

/// The due time and the start number of a timer that isn't active (own).
const NO_DUE: Due = Due { at: 0, start: 0 };

/// A handle's record.
#[derive(Clone, Copy, PartialEq, Eq)]
pub struct HandleRecord {
    /// The name that its `init` bound to it.
    pub name: Var,
    pub kind: Kind,
    /// Whether it keeps the loop alive while it is active (uv_has_ref).
    pub referenced: bool,
    /// Whether it is started (uv_is_active).
    pub active: bool,
    /// Whether its close was asked for (uv_is_closing).
    pub closing: bool,
    /// Whether a timer was ever started.
    pub begun: bool,
    /// Whether an async handle was sent to since its last callback began.
    pub pending: bool,
    /// When an active timer is due; zeros for one that isn't active (own).
    pub due: Due,
    /// A timer's repeat in ms, and 0 for none.
    pub repeat: u64,
}

/// When a timer is due that is started at this time, with this start number and this timeout in ms: no later than the largest time
/// (uv_timer_start).
pub fn due_after(time: u64, start: u64, timeout: u64) -> Due
    ensures { result ≡ due_after time start timeout }
{
    Due {
        at: time.saturating_add(timeout),
        start,
    }
}

impl HandleRecord {
    /// A handle as `init` makes it: referenced, and inactive, except an async one.
    pub fn new(name: Var, kind: Kind) -> HandleRecord
        ensures { result ≡ inited name kind }
    {
        HandleRecord {
            name,
            kind,
            referenced: true,
            active: matches!(kind, Kind::Async),
            closing: false,
            begun: false,
            pending: false,
            due: NO_DUE,
            repeat: 0,
        }
    }

    /// The handle, stopped.
    pub fn stopped(self) -> HandleRecord
        ensures { result ≡ stopped self }
    {
        HandleRecord {
            active: false,
            due: NO_DUE,
            ..self
        }
    }

    /// A watcher, started.
    pub fn activated(self) -> HandleRecord
        ensures { result ≡ activated self }
    {
        HandleRecord {
            active: true,
            ..self
        }
    }

    /// A timer, started: when it is due, and its repeat in ms.
    pub fn begun_at(self, due: Due, repeat: u64) -> HandleRecord
        ensures { result ≡ begun_at due repeat self }
    {
        HandleRecord {
            active: true,
            begun: true,
            due,
            repeat,
            ..self
        }
    }

    /// A timer with another repeat, in ms.
    pub fn repeating(self, repeat: u64) -> HandleRecord
        ensures { result ≡ repeating repeat self }
    {
        HandleRecord { repeat, ..self }
    }

    /// The handle, referenced or not.
    pub fn referenced_as(self, referenced: bool) -> HandleRecord
        ensures { result ≡ referenced_as referenced self }
    {
        HandleRecord { referenced, ..self }
    }

    /// The handle, closing: stopped, and no send pending.
    pub fn closed(self) -> HandleRecord
        ensures { result ≡ closed self }
    {
        HandleRecord {
            active: false,
            closing: true,
            pending: false,
            due: NO_DUE,
            ..self
        }
    }

    /// An async handle that was sent to.
    pub fn sent(self) -> HandleRecord
        ensures { result ≡ sent self }
    {
        HandleRecord {
            pending: true,
            ..self
        }
    }

    /// An async handle whose callback begins.
    pub fn woken(self) -> HandleRecord
        ensures { result ≡ woken self }
    {
        HandleRecord {
            pending: false,
            ..self
        }
    }

    /// In how many ms a timer is due (uv_timer_get_due_in): 0 where it is due already, and where it isn't active.
    pub fn due_in(self, time: u64) -> u64
        ensures { result ≡ due_in time self }
    {
        if self.active {
            self.due.at.saturating_sub(time)
        } else {
            0
        }
    }

    /// Whether it keeps the loop alive: it is active and referenced (uv_loop_alive).
    pub fn keeps_alive(self) -> bool
        ensures { result ≡ keeps_alive self }
    {
        self.active && self.referenced
    }

    /// Whether it is a timer.
    pub fn is_timer(self) -> bool
        ensures { result ≡ is_timer self.kind }
    {
        matches!(self.kind, Kind::Timer)
    }

    /// Whether it is an async handle.
    pub fn is_async(self) -> bool
        ensures { result ≡ is_async self.kind }
    {
        matches!(self.kind, Kind::Async)
    }

    /// Whether it is a handle of I/O.
    pub fn is_io(self) -> bool
        ensures { result ≡ is_io self.kind }
    {
        matches!(self.kind, Kind::Io)
    }
}

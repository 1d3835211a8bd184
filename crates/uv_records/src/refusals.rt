//! Which ops a handle refuses.
ghost use Rattle.std.specs.Prelude.{◌≡◌};
ghost use Rattle.uv_records.specs.Refusals.{timer_refusal, start_timer_refusal, start_watcher_refusal, stop_refusal, again_refusal, close_refusal, send_refusal};

use crate::handle::HandleRecord;
use crate::lists::WatcherKind;
use uv_ids::{Code, Kind};

impl HandleRecord {
    /// The code that an op on a timer answers for another handle.
    pub fn timer_refusal(self) -> Option<Code>
        ensures { result ≡ timer_refusal self }
    {
        if self.is_timer() {
            None
        } else {
            Some(Code::Ekind)
        }
    }

    /// Why it can't be started as a timer.
    pub fn start_timer_refusal(self) -> Option<Code>
        ensures { result ≡ start_timer_refusal self }
    {
        if !self.is_timer() {
            return Some(Code::Ekind);
        }
        if self.closing {
            Some(Code::Einval)
        } else {
            None
        }
    }

    /// Why it can't be started as an idle, prepare, check or I/O handle.
    pub fn start_watcher_refusal(self) -> Option<Code>
        ensures { result ≡ start_watcher_refusal self }
    {
        if matches!(self.kind, Kind::Timer | Kind::Async) {
            return Some(Code::Ekind);
        }
        if self.closing {
            Some(Code::Einval)
        } else {
            None
        }
    }

    /// Why it can't be stopped.
    pub fn stop_refusal(self) -> Option<Code>
        ensures { result ≡ stop_refusal self }
    {
        if self.is_async() {
            Some(Code::Ekind)
        } else {
            None
        }
    }

    /// Why it can't be started again with its repeat.
    pub fn again_refusal(self) -> Option<Code>
        ensures { result ≡ again_refusal self }
    {
        if !self.is_timer() {
            return Some(Code::Ekind);
        }
        if self.closing || !self.begun {
            Some(Code::Einval)
        } else {
            None
        }
    }

    /// Why it can't be closed.
    pub fn close_refusal(self) -> Option<Code>
        ensures { result ≡ close_refusal self }
    {
        if self.closing {
            Some(Code::Einval)
        } else {
            None
        }
    }

    /// Why it can't be sent to.
    pub fn send_refusal(self) -> Option<Code>
        ensures { result ≡ send_refusal self }
    {
        if !self.is_async() {
            return Some(Code::Ekind);
        }
        if self.closing {
            Some(Code::Einval)
        } else {
            None
        }
    }
}

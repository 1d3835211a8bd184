//! Whether the loop is alive, and how long its poll may wait.
ghost use Rattle.std.specs.Prelude.{◌≡◌, ◌<◌, ◌≤◌, ◌^◌, IfSome};
ghost use Rattle.uv_model.specs.Next.{is_woken, may_leave};
ghost use Rattle.uv_model.specs.Timeout.{is_alive, has_closing, has_pending, has_idle, until_first, backend_timeout, poll_timeout, deadline_of, has_passed};

use crate::state::LoopState;
use uv_ids::Mode;
use uv_model::LONGEST_POLL;
use uv_records::WatcherKind;

impl LoopState {
    /// Whether a handle closes whose close callback is still to come.
    fn has_closing(&self) -> bool
        ensures { result ≡ has_closing self.now }
    {
        self.closing.any()
    }

    /// Whether the loop is alive: some handle is active and referenced, or closes, or some request has yet to call back (uv_loop_alive).
    pub(super) fn is_alive(&self) -> bool
        ensures { result ≡ is_alive self.now }
    {
        self.arena.keeps_alive() || self.has_closing()
    }

    /// Whether some async handle was sent to, and not called since.
    fn has_pending(&self) -> bool
        ensures { result ≡ has_pending self.now }
    {
        self.arena.pends()
    }

    /// Whether an idle handle is active.
    fn has_idle(&self) -> bool
        ensures { result ≡ has_idle self.now }
    {
        self.watchers.of(WatcherKind::Idle).any()
    }

    /// Whether a poll is woken: a request is done, or an async handle was sent to.
    pub(super) fn is_woken(&self) -> bool
        ensures { result ≡ is_woken self.now }
    {
        self.done.any_listed() || self.has_pending()
    }

    /// Whether the poll may be left.
    pub(super) fn may_leave(&self, deadline: Option<u64>) -> bool
        ensures { result ≡ may_leave self.now deadline }
    {
        self.has_passed(deadline) || self.is_woken()
    }

    /// In how many ms the first timer is due; none is infinite.
    fn until_first(&self) -> Option<u64>
        ensures timeout { result ≡ until_first self.now.time self.now.timers }
        ensures short { IfSome result (λ ms. ms ≤ LONGEST_POLL) }
    {
        let (due, _) = self.timers.first_key_value()?;
        Some(due.at.saturating_sub(self.time).min(LONGEST_POLL))
    }

    /// How long a poll might wait, in ms; none is infinite (uv_backend_timeout).
    pub(super) fn backend_timeout(&self) -> Option<u64>
        ensures timeout { result ≡ backend_timeout self.now }
        ensures short { IfSome result (λ ms. ms ≤ LONGEST_POLL) }
    {
        if self.stop_flag || !self.is_alive() || self.has_idle() || self.has_closing() {
            return Some(0);
        }
        self.until_first()
    }

    /// How long the poll of a run may wait, in ms; none is infinite. In once it doesn't wait where an idle handle was active
    /// as the iteration began (own).
    pub(super) fn poll_timeout(&self, mode: Mode) -> Option<u64>
        ensures timeout { result ≡ poll_timeout self.now mode }
        ensures short { IfSome result (λ ms. ms ≤ LONGEST_POLL) }
    {
        match mode {
            Mode::Nowait => Some(0),
            Mode::Once if self.idled => Some(0),
            Mode::Default | Mode::Once => self.backend_timeout(),
        }
    }

    /// When a poll that begins now is over at the latest, in ms; none is never.
    pub(super) fn deadline_of(&self, timeout: Option<u64>) -> Option<u64>
        requires time { self.now.time < 2 ^ 63 }
        requires short { IfSome timeout (λ ms. ms ≤ LONGEST_POLL) }
        ensures { result ≡ deadline_of self.now timeout }
    {
        match timeout {
            None => None,
            Some(timeout) => Some(self.time + timeout),
        }
    }

    /// Whether the clock has reached a deadline.
    fn has_passed(&self, deadline: Option<u64>) -> bool
        ensures { result ≡ has_passed self.now.clock deadline }
    {
        match deadline {
            None => false,
            Some(deadline) => deadline <= self.clock,
        }
    }
}

//! What becomes of a timer, and the times that this is reckoned by.
ghost use Rattle.std.specs.Prelude.{◌≡◌};
ghost use Rattle.uv_timer.specs.Changes.{starting, stopping, collecting, starting_again, firing};

use uv_ids::Due;
use uv_records::{HandleRecord, due_after};

/// The loop's cached time in ms (uv_now), and the number that the next start of a timer draws.
#[derive(Clone, Copy, PartialEq, Eq)]
pub struct Times {
    pub time: u64,
    pub next_start: u64,
}

/// What becomes of a timer: its record, whether it leaves its list, and when it is due, if it is set.
#[derive(Clone, Copy)]
pub struct TimerChange {
    pub from: HandleRecord,
    pub to: HandleRecord,
    pub leaves: bool,
    pub due: Option<Due>,
}

impl TimerChange {
    /// It is started.
    pub fn starting(times: &Times, handle: HandleRecord, timeout: u64, repeat: u64) -> TimerChange
        ensures { result ≡ starting times.now handle timeout repeat }
    {
        let due = due_after(times.time, times.next_start, timeout);
        TimerChange {
            from: handle,
            to: handle.begun_at(due, repeat),
            leaves: true,
            due: Some(due),
        }
    }

    /// It is stopped. A closing one stays on the closing list.
    pub fn stopping(handle: HandleRecord) -> TimerChange
        ensures { result ≡ stopping handle }
    {
        TimerChange {
            from: handle,
            to: handle.stopped(),
            leaves: !handle.closing,
            due: None,
        }
    }

    /// It is collected: it leaves the heap, inactive.
    pub(crate) fn collecting(handle: HandleRecord) -> TimerChange
        ensures { result ≡ collecting handle }
    {
        TimerChange {
            from: handle,
            to: handle.stopped(),
            leaves: true,
            due: None,
        }
    }

    /// It is started again with its repeat, or stopped if it has none.
    pub fn again(times: &Times, handle: HandleRecord) -> TimerChange
        ensures { result ≡ starting_again times.now handle }
    {
        if handle.repeat == 0 {
            TimerChange::collecting(handle)
        } else {
            TimerChange::starting(times, handle, handle.repeat, handle.repeat)
        }
    }

    /// It is called: it leaves the ready list, and is started again if it repeats.
    pub(crate) fn firing(times: &Times, handle: HandleRecord) -> TimerChange
        ensures { result ≡ firing times.now handle }
    {
        if handle.repeat == 0 {
            TimerChange {
                from: handle,
                to: handle,
                leaves: true,
                due: None,
            }
        } else {
            TimerChange::starting(times, handle, handle.repeat, handle.repeat)
        }
    }
}

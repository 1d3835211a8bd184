//! The order of timers.

/// A timer's key: the time in ms at which it is due, and the number that its start drew.
///
/// Timers are ordered by due time, and of those due at the same time the one that was started first comes first
/// (uv_timer_t).
#[derive(Clone, Copy, PartialEq, Eq, PartialOrd, Ord)]
pub struct Due {
    pub at: u64,
    pub start: u64,
}

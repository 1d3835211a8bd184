//! The numbers and flags of a loop.

/// What a loop keeps beside its handles and its place.
#[derive(Clone, Copy, PartialEq, Eq)]
pub struct Numbers {
    /// The loop's cached time in ms (uv_now).
    pub time: u64,
    /// The clock in ms.
    pub clock: u64,
    /// The number that the next start of a timer draws.
    pub next_start: u64,
    /// The run is to end before its next iteration (uv_stop).
    pub stop_flag: bool,
    /// An idle handle was active as the iteration began.
    pub idled: bool,
}

//! The limits of the loop's numbers.

/// The latest time that the clock may show, in ms (own).
pub const LATEST: u64 = 1 << 62;

/// The longest poll, in ms: libuv hands the system's poll a number of 31 bits (own).
pub const LONGEST_POLL: u64 = 2_147_483_647;

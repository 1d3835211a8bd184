//! The limits of what a script may ask for, and of what a session keeps.

/// The most rounds of a job (own).
pub const MOST_ROUNDS: u16 = 1000;

/// The longest text of a job, in bytes (own).
pub const LONGEST_TEXT: usize = 64;

/// The most workers of a thread pool (libuv: UV_THREADPOOL_SIZE is at most 1024).
pub const MOST_WORKERS: u16 = 1024;

/// The most steps of a session, and the most entries of a pool's log (own).
pub const MOST_STEPS: usize = 16_777_216;

/// The most senders' threads of a live run: their numbers are below this (own).
pub const MOST_SENDERS: u8 = 64;

//! The limits of scripts (own).

/// The most slots of an arena.
pub(crate) const MOST_SLOTS: u32 = 16_777_215;

/// The most names of a script.
pub(crate) const MOST_NAMES: usize = 65_535;

/// The most lines of a script that count: all but `order`, `io`, `timers heap`, `workers`, `slots`, empty ones and comments.
pub(crate) const MOST_LINES: usize = 1_048_575;

//! The orders of a run's phases.
ghost use Rattle.std.specs.Prelude.{◌≡◌, IfSome, IfNone};
ghost use Rattle.uv_ids.specs.Words.{order_word, IsNoOrder};

use crate::word::is;

/// Where the timers stand in an iteration of the loop, by the version of libuv (design overview).
#[derive(Clone, Copy, PartialEq, Eq)]
pub enum Order {
    /// As in libuv up to 1.44: an iteration begins with its timers; in a run of one iteration they come at its end once more.
    V144,
    /// As in libuv from 1.45 on: an iteration ends with its timers.
    V145,
}

impl Order {
    /// The word of scripts.
    pub fn word(self) -> &'static str
        ensures { result.now ≡ order_word self }
    {
        match self {
            Order::V144 => "1.44",
            Order::V145 => "1.45",
        }
    }

    /// The order that a word names.
    pub fn from_word(word: &[u8]) -> Option<Order>
        ensures some { IfSome result (λ order. word.now ≡ order_word order) }
        ensures none { IfNone result (IsNoOrder word.now) }
    {
        if is(word, b"1.44") {
            Some(Order::V144)
        } else if is(word, b"1.45") {
            Some(Order::V145)
        } else {
            None
        }
    }
}

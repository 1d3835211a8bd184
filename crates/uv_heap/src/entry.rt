//! What the heap holds.
ghost use Rattle.std.specs.Prelude.{◌≡◌};
ghost use Rattle.uv_heap.specs.Order.{is_before};

use uv_ids::Due;

/// A timer that is set: when it is due, and the slot of its handle.
#[derive(Clone, Copy, PartialEq, Eq)]
pub struct Entry {
    pub due: Due,
    pub slot: u32,
}

impl Entry {
    /// Whether this timer comes before the other.
    pub fn is_before(&self, other: &Entry) -> bool
        ensures { result ≡ is_before self.now other.now }
    {
        self.due < other.due
    }
}

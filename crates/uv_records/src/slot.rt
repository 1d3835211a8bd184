//! What a slot of the arena holds.
use crate::handle::HandleRecord;

/// A slot that was used: how often it was freed, and what it holds. An empty one is free, or retired (own).
#[derive(Clone, Copy, PartialEq, Eq)]
pub struct Slot<T> {
    pub generation: u32,
    pub content: Option<T>,
}

/// A content of slots that may pend, as a handle does that was sent to, and not called since.
pub trait Pends: Copy {
    ghost use Rattle.std.specs.Prelude.{◌≡◌, Bool};

    ghost is_pending: { Self → Bool };

    /// Whether it pends.
    fn pends(&self) -> bool
        ensures { result ≡ is_pending self.now };
}

/// A content of slots that may be a handle's record.
pub trait HoldsHandle: Pends {
    ghost use Rattle.std.specs.Prelude.{◌≡◌, Option, Some};
    ghost use Rattle.uv_records.specs.declared.handle.HandleRecord.{HandleRecord};

    ghost of_record: { HandleRecord → Self };

    ghost held_record: { Self → Option HandleRecord };

    /// The content with this record.
    fn of(handle: HandleRecord) -> Self
        ensures { result ≡ of_record handle };

    /// The record, if it is a handle's.
    fn held(&self) -> Option<HandleRecord>
        ensures { result ≡ held_record self.now };

    ghost gives_back: { (r : HandleRecord) → held_record (of_record r) ≡ Some r };

    /// What holds a handle's record holds nothing else.
    ghost only_that: { (t : Self) (r : HandleRecord) → held_record t ≡ Some r → t ≡ of_record r };
}

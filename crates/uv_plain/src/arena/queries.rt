//! What can be asked of the slots.
ghost use Rattle.std.specs.Prelude.{◌≡◌, ◌==◌, length, slice_get};
ghost use Rattle.std.specs.List.{list_any};

use crate::arena::Arena;
use uv_records::Slot;
use uv_work::Content;

impl Arena {
    /// How many slots were ever used.
    pub fn used(&self) -> u32
        ensures { result ≡ length self.now.slots }
    {
        self.slots.len() as u32
    }

    /// A slot that was used.
    pub fn slot(&self, number: u32) -> Option<Slot<Content>>
        ensures { result ≡ slice_get self.now.slots number }
    {
        self.slots.get(number as usize).copied()
    }

    /// Whether a slot is on the free list.
    pub fn is_free(&self, number: u32) -> bool
        ensures { result ≡ list_any (λ n. n == number) self.now.free }
    {
        self.free.iter().any(|n| *n == number)
    }

    /// The numbers of the free slots, front first.
    pub fn free(&self) -> &[u32]
        ensures { result.now ≡ self.now.free }
    {
        &self.free
    }

    /// How many slots were never used.
    pub fn unused(&self) -> u32
        ensures { result ≡ self.now.unused }
    {
        self.unused as u32
    }
}

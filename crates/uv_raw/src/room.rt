//! One allocation, seen as a row of places. Each place is empty or holds a value.
ghost use Rattle.std.specs.Prelude.{◌≡◌, ◌<◌, List, Option, Some, None, length, replicate, slice_get, slice_set, IfOk};
ghost use Rattle.std.specs.Vec.Ownership.{FitsInBlock};
ghost use Rattle.uv_raw.specs.Ownership.{room_owns, room_shares};

use std::alloc::{AllocError, Allocator, Global};
use std::marker::Model;
use std::mem::{align_of, size_of};

/// The places from `start` on, and the right to give them back to the heap.
pub(crate) struct Room<T> {
    start: *mut T,
    ghost places: { List (Option T) },
}

impl<T> Model for Room<T> {
    ghost also_owns = { λ r. room_owns T.row r.start r.places };

    ghost also_shares = { λ r _ κ. room_shares T.row r.start r.places κ };
}

/// `count` empty places.
pub(crate) fn allocate<T>(alloc: &Global, count: usize) -> Result<Room<T>, AllocError>
    requires { FitsInBlock T.row count }
    ensures { IfOk result (λ r. r.places ≡ replicate count None) }
{
    match alloc.allocate(count * size_of::<T>(), align_of::<T>()) {
        Ok(block) => Ok(Room {
            start: block as *mut T,
        }),
        Err(error) => Err(error),
    }
}

/// What the `count` places hold is forgotten.
pub(crate) fn deallocate<T>(alloc: &Global, room: Room<T>, count: usize)
    requires { count ≡ length room.places }
{
    let Room { start } = room;
    unsafe {
        alloc.deallocate(start as *mut u8, count * size_of::<T>(), align_of::<T>());
    }
}

impl<T> Room<T> {
    /// What the place held is forgotten.
    pub(crate) fn put(&mut self, index: usize, value: T)
        requires { index < length self.old.places }
        ensures { self.new.places ≡ slice_set self.old.places index (Some value) }
    {
        unsafe { self.start.add(index).write(value) }
    }

    pub(crate) fn get(&self, index: usize) -> &T
        requires { (x : T) × (slice_get self.now.places index ≡ Some (Some x)) }
        ensures { slice_get self.now.places index ≡ Some (Some result.now) }
    {
        unsafe { &*self.start.add(index) }
    }
}

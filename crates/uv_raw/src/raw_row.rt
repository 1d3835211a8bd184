//! A row of items of fixed capacity, in one allocation.
ghost use Rattle.std.specs.Prelude.{◌≡◌, ◌+◌, ◌<◌, ◌≤◌, [], ◌∷◌, ◌++◌, length, slice_get, slice_set, Some, IfOk};
ghost use Rattle.uv_raw.specs.Row.{row};

use crate::room::{Room, allocate, deallocate};
use std::alloc::{AllocError, Global};
use std::marker::Model;
use std_alloc::room::may_hold;

pub struct RawRow<T: Copy> {
    room: Room<T>,
    capacity: usize,
    len: usize,
    alloc: Global,
}

impl<T: Copy> Model for RawRow<T> {
    ghost use Rattle.uv_raw.specs.Row.{Row, row_code};

    ghost Value = { Row T };

    ghost coded = { row_code T.code };

    ghost use Rattle.uv_raw.specs.Inside.{row_of, IsRow};

    ghost view = { row_of };

    ghost invariant = { IsRow };
}

impl<T: Copy> RawRow<T> {
    /// An empty row with room for `capacity` items.
    pub fn new(alloc: Global, capacity: usize) -> Result<RawRow<T>, AllocError>
        ensures { IfOk result (λ b. b ≡ row [] capacity) }
    {
        if !may_hold::<T>(capacity) {
            return Err(AllocError);
        }
        let room = allocate(&alloc, capacity)?;
        Ok(RawRow {
            room,
            capacity,
            len: 0,
            alloc,
        })
    }

    pub fn len(&self) -> usize
        ensures len { result ≡ length self.now.items }
        ensures within { result ≤ self.now.capacity }
    {
        self.len
    }

    pub fn capacity(&self) -> usize
        ensures { result ≡ self.now.capacity }
    {
        self.capacity
    }

    pub fn get(&self, index: usize) -> T
        requires { index < length self.now.items }
        ensures { slice_get self.now.items index ≡ Some result }
    {
        *self.room.get(index)
    }

    /// Returns the old item.
    pub fn set(&mut self, index: usize, item: T) -> T
        requires { index < length self.old.items }
        ensures old { slice_get self.old.items index ≡ Some result }
        ensures new { self.new ≡ row (slice_set self.old.items index item) self.old.capacity }
    {
        let old = *self.room.get(index);
        self.room.put(index, item);
        old
    }

    pub fn push(&mut self, item: T)
        requires { length self.old.items < self.old.capacity }
        ensures { self.new ≡ row (self.old.items ++ item ∷ []) self.old.capacity }
    {
        self.room.put(self.len, item);
        self.len += 1;
    }

    pub fn pop(&mut self) -> T
        requires { 0 < length self.old.items }
        ensures items { self.old.items ≡ self.new.items ++ result ∷ [] }
        ensures capacity { self.new.capacity ≡ self.old.capacity }
    {
        self.len -= 1;
        *self.room.get(self.len)
    }
}

impl<T: Copy> Drop for RawRow<T> {
    fn drop(self) {
        let RawRow {
            room,
            capacity,
            len: _,
            alloc,
        } = self;
        deallocate(&alloc, room, capacity);
    }
}

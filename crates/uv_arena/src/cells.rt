//! The slots with their links in pieces, and how many of them hold something, and something that pends.
ghost use Rattle.std.specs.Prelude.{◌≡◌, ◌+◌, ◌<◌, ◌≤◌, ◌^◌, [], ◌∷◌, ◌++◌, is_some, length, map, slice_get, slice_set, IfSome, OnOk, OnErr, Some};
ghost use Rattle.std.specs.List.{list_any};
ghost use Rattle.uv_raw.specs.Row.{row};
ghost use Rattle.uv_raw.specs.Pieced.{room_after};
ghost use Rattle.uv_records.specs.Count.{one_if, pends_in};
ghost use Rattle.uv_arena.specs.Holding.{one_of};

use crate::links::Cell;
use std::alloc::AllocError;
use std::marker::Model;
use uv_raw::Pieces;
use uv_records::{Pends, recounted};

/// The slots that were ever used with their links, of which it is known how many hold something, and how many something that pends.
#[derive(Drop)]
pub(crate) struct Cells<T: Pends> {
    pieces: Pieces<Cell<T>>,
    /// How many slots hold something.
    held: u32,
    /// How many slots hold what pends.
    pending: u32,
}

impl<T: Pends> Model for Cells<T> {
    ghost use Rattle.uv_raw.specs.Pieced.{Pieced};
    ghost use Rattle.uv_arena.specs.Holding.{AreCounted};
    ghost use Rattle.uv_arena.specs.declared.links.Cell.{Cell as Linked};

    ghost Value = { Pieced (Linked T) };

    ghost view = { λ c. c.pieces };

    ghost invariant = { λ c. AreCounted T.is_pending c.pieces.row c.held c.pending };
}

/// Whether a cell's slot holds something.
fn holds<T: Pends>(cell: Cell<T>) -> bool
    ensures { one_if result ≡ one_of is_some cell }
{
    cell.slot.content.is_some()
}

/// Whether a cell's slot holds what pends.
fn pends<T: Pends>(cell: Cell<T>) -> bool
    ensures { one_if result ≡ one_of (pends_in T.is_pending) cell }
{
    match cell.slot.content {
        Some(content) => content.pends(),
        None => false,
    }
}

impl<T: Pends> Cells<T> {
    /// No slot was ever used.
    pub(crate) fn new(pieces: Pieces<Cell<T>>) -> Cells<T>
        requires none { pieces.row.items ≡ [] }
        requires few { pieces.row.capacity < 2 ^ 32 }
        ensures { result ≡ pieces }
    {
        Cells {
            pieces,
            held: 0,
            pending: 0,
        }
    }

    /// Whether some slot holds something.
    pub(crate) fn holds_any(&self) -> bool
        ensures { result ≡ list_any (λ slot. is_some slot.content) (map (λ cell. cell.slot) self.now.row.items) }
    {
        self.held > 0
    }

    /// Whether some slot holds what pends.
    pub(crate) fn holds_pending(&self) -> bool
        ensures { result ≡ list_any (λ slot. pends_in T.is_pending slot.content) (map (λ cell. cell.slot) self.now.row.items) }
    {
        self.pending > 0
    }

    pub(crate) fn len(&self) -> usize
        ensures len { result ≡ length self.now.row.items }
        ensures within { result ≤ self.now.row.capacity }
    {
        self.pieces.len()
    }

    pub(crate) fn capacity(&self) -> usize
        ensures { result ≡ self.now.row.capacity }
    {
        self.pieces.capacity()
    }

    /// Makes the piece of the next slot, if it isn't there.
    pub(crate) fn reserve(&mut self) -> Result<(), AllocError>
        requires { length self.old.row.items < self.old.row.capacity }
        ensures row { self.new.row ≡ self.old.row }
        ensures ok { OnOk result (self.new.room ≡ room_after self.old) }
        ensures there { OnOk result (length self.new.row.items < self.new.room) }
        ensures err { OnErr result ((self.new.room ≡ self.old.room) × (self.old.room ≤ length self.old.row.items)) }
    {
        self.pieces.reserve()
    }

    pub(crate) fn get(&self, index: usize) -> Cell<T>
        requires { index < length self.now.row.items }
        ensures { slice_get self.now.row.items index ≡ Some result }
    {
        self.pieces.get(index)
    }

    /// Writes a cell where one lies that holds the same.
    pub(crate) fn set(&mut self, index: usize, item: Cell<T>)
        requires within { index < length self.old.row.items }
        requires alike { IfSome (slice_get self.old.row.items index) (λ was. was.slot.content ≡ item.slot.content) }
        ensures new { self.new.row ≡ row (slice_set self.old.row.items index item) self.old.row.capacity }
        ensures room { self.new.room ≡ self.old.room }
    {
        self.pieces.set(index, item);
    }

    /// Writes any cell.
    pub(crate) fn put(&mut self, index: usize, item: Cell<T>)
        requires { index < length self.old.row.items }
        ensures new { self.new.row ≡ row (slice_set self.old.row.items index item) self.old.row.capacity }
        ensures room { self.new.room ≡ self.old.room }
    {
        let _ = self.pieces.len();
        let was = self.pieces.set(index, item);
        self.held = recounted(self.held, holds(was), holds(item));
        self.pending = recounted(self.pending, pends(was), pends(item));
    }

    /// Adds a cell, whose piece is there.
    pub(crate) fn push(&mut self, item: Cell<T>)
        requires within { length self.old.row.items < self.old.row.capacity }
        requires room { length self.old.row.items < self.old.room }
        ensures row { self.new.row ≡ row (self.old.row.items ++ item ∷ []) self.old.row.capacity }
        ensures room { self.new.room ≡ self.old.room }
    {
        let _ = self.pieces.capacity();
        self.pieces.push(item);
        self.held = recounted(self.held, false, holds(item));
        self.pending = recounted(self.pending, false, pends(item));
    }

    /// Takes the last cell off. Its piece stays.
    pub(crate) fn pop(&mut self) -> Cell<T>
        requires { 0 < length self.old.row.items }
        ensures items { self.old.row.items ≡ self.new.row.items ++ result ∷ [] }
        ensures capacity { self.new.row.capacity ≡ self.old.row.capacity }
        ensures room { self.new.room ≡ self.old.room }
    {
        let last = self.pieces.pop();
        self.held = recounted(self.held, holds(last), false);
        self.pending = recounted(self.pending, pends(last), false);
        last
    }
}

//! A row of items of fixed capacity, in pieces.
ghost use Rattle.std.specs.Prelude.{◌≡◌, ◌+◌, ◌<◌, ◌≤◌, [], ◌∷◌, ◌++◌, length, nat_lt, slice_get, slice_set, Some, IfOk, OnOk, OnErr};
ghost use Rattle.uv_raw.specs.Row.{row};
ghost use Rattle.uv_raw.specs.Pieced.{PIECE, room_after};

use crate::raw_row::RawRow;
use std::alloc::{AllocError, Global};
use std::marker::Model;

/// How many items a piece holds.
const PIECE: usize = 1024;

/// A row in pieces. A piece is made once, never moves, and stays when its items are taken off.
#[derive(Drop)]
pub struct Pieces<T: Copy> {
    /// The table, which has a place for each piece that there may be.
    pieces: Vec<RawRow<T>>,
    len: usize,
    capacity: usize,
    alloc: Global,
}

impl<T: Copy> Model for Pieces<T> {
    ghost use Rattle.uv_raw.specs.Pieced.{Pieced};

    ghost Value = { Pieced T };

    ghost use Rattle.uv_raw.specs.Laid.{pieced_of, IsPieced};

    ghost view = { pieced_of };

    ghost invariant = { IsPieced };
}

impl<T: Copy> Pieces<T> {
    /// An empty row of at most `capacity` items, without a piece: the table alone.
    pub fn new(alloc: Global, capacity: usize) -> Result<Pieces<T>, AllocError>
        ensures { IfOk result (λ p. p ≡ record { row = row [] capacity; room = 0 }) }
    {
        let pieces = Vec::with_capacity(alloc, capacity.div_ceil(PIECE))?;
        Ok(Pieces {
            pieces,
            len: 0,
            capacity,
            alloc,
        })
    }

    pub fn len(&self) -> usize
        ensures len { result ≡ length self.now.row.items }
        ensures within { result ≤ self.now.row.capacity }
    {
        self.len
    }

    pub fn capacity(&self) -> usize
        ensures { result ≡ self.now.row.capacity }
    {
        self.capacity
    }

    /// Whether the piece of the next item is there.
    pub fn has_room(&self) -> bool
        ensures { result ≡ nat_lt (length self.now.row.items) self.now.room }
    {
        self.len / PIECE < self.pieces.len()
    }

    /// Makes the piece of the next item, if it isn't there. No other call takes memory.
    pub fn reserve(&mut self) -> Result<(), AllocError>
        requires { length self.old.row.items < self.old.row.capacity }
        ensures row { self.new.row ≡ self.old.row }
        ensures ok { OnOk result (self.new.room ≡ room_after self.old) }
        ensures there { OnOk result (length self.new.row.items < self.new.room) }
        ensures err { OnErr result ((self.new.room ≡ self.old.room) × (self.old.room ≤ length self.old.row.items)) }
    {
        if self.has_room() {
            return Ok(());
        }
        self.add_piece()
    }

    fn add_piece(&mut self) -> Result<(), AllocError>
        requires full { self.old.room ≤ length self.old.row.items }
        requires within { length self.old.row.items < self.old.row.capacity }
        ensures row { self.new.row ≡ self.old.row }
        ensures ok { OnOk result (self.new.room ≡ self.old.room + PIECE) }
        ensures there { OnOk result (length self.new.row.items < self.new.room) }
        ensures err { OnErr result (self.new.room ≡ self.old.room) }
    {
        let piece = RawRow::new(self.alloc, PIECE)?;
        self.pieces.push_reserved(piece);
        Ok(())
    }

    pub fn get(&self, index: usize) -> T
        requires { index < length self.now.row.items }
        ensures { slice_get self.now.row.items index ≡ Some result }
    {
        self.pieces[index / PIECE].get(index % PIECE)
    }

    /// Returns the old item.
    pub fn set(&mut self, index: usize, item: T) -> T
        requires { index < length self.old.row.items }
        ensures old { slice_get self.old.row.items index ≡ Some result }
        ensures new { self.new.row ≡ row (slice_set self.old.row.items index item) self.old.row.capacity }
        ensures room { self.new.room ≡ self.old.room }
    {
        self.pieces[index / PIECE].set(index % PIECE, item)
    }

    /// Adds an item, whose piece is there.
    pub fn push(&mut self, item: T)
        requires within { length self.old.row.items < self.old.row.capacity }
        requires room { length self.old.row.items < self.old.room }
        ensures row { self.new.row ≡ row (self.old.row.items ++ item ∷ []) self.old.row.capacity }
        ensures room { self.new.room ≡ self.old.room }
    {
        let at = self.len / PIECE;
        self.pieces[at].push(item);
        self.len += 1;
    }

    /// Takes the last item off. Its piece stays.
    pub fn pop(&mut self) -> T
        requires { 0 < length self.old.row.items }
        ensures items { self.old.row.items ≡ self.new.row.items ++ result ∷ [] }
        ensures capacity { self.new.row.capacity ≡ self.old.row.capacity }
        ensures room { self.new.room ≡ self.old.room }
    {
        self.len -= 1;
        let at = self.len / PIECE;
        self.pieces[at].pop()
    }
}

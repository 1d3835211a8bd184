//! The arena: slots for what is held under ids.
ghost use Rattle.std.specs.Prelude.{◌≡◌, ◌≢◌, ◌<◌, ◌≤◌, ℕ, length, Option, None, Some, IfOk, IfErr, IfSome, IfNone, OnOk, OnErr, ◌++◌, ◌∷◌, [], false, is_some};
ghost use Rattle.std.specs.List.{list_any};
ghost use Rattle.uv_ids.specs.declared.id.Id.{Id};
ghost use Rattle.uv_records.specs.declared.lists.TheConstants.{LIST_COUNT};
ghost use Rattle.uv_records.specs.Count.{pends_in};
ghost use Rattle.uv_records.specs.Lists.{number};
ghost use Rattle.uv_arena.specs.declared.links.TheConstants.{CHAIN_COUNT, FREE};
ghost use Rattle.uv_arena.specs.Image.{fresh_arena, IsWithin, put_in, taken_out, edited, grown, shrunk, links_at, slot_at, head_at, tail_at, place_at, front_place, back_place, name_at, in_memory, IsSound, plain_slots, held_slots, held, on_list};
ghost use Rattle.uv_arena.specs.Undo.{set_undone};
ghost use Rattle.uv_arena.specs.Calls.{IsInserted, IsRemoved, IsSet, RefusesInsert, room_after, room_with_next};

mod lists;
mod readers;
mod undos;

use crate::cells::Cells;
use crate::links::{CHAIN_COUNT, ChainPlace, FREE, Links};
use crate::memory::Memory;
use crate::undo::{InsertUndo, RemoveUndo};
use std::alloc::{AllocError, Global};
use std::marker::Model;
use uv_ids::Id;
use uv_raw::Pieces;
use uv_records::{Ends, LIST_COUNT, ListName, Pends, Slot};

/// Why nothing is inserted.
#[derive(Clone, Copy, PartialEq, Eq)]
pub enum InsertFault {
    /// No slot is free, and none is unused.
    Full,
    /// No slot is free, and there is no memory for the piece of the next one.
    Memory,
}

/// Slots for what is held under ids. Each is on at most one of the lists.
#[derive(Drop)]
pub struct Slots<T: Pends> {
    memory: Memory<T>,
    /// Which chain each list is, by the list's number.
    names: [u8; LIST_COUNT],
    last_generation: u32,
}

impl<T: Pends> Model for Slots<T> {
    ghost use Rattle.uv_arena.specs.Image.{Arena, IsSound, memory_of};

    ghost Value = { Arena T };

    ghost view = { λ s. record {
      image = record { memory = memory_of s.memory; names = s.names; last = s.last_generation };
      room = s.memory.row.room;
    } };

    ghost invariant = { λ s. IsSound (record { memory = memory_of s.memory; names = s.names; last = s.last_generation }) };
}

impl<T: Pends> Slots<T> {
    /// An arena of so many slots, whose pieces are made by the inserts that first need them. A slot that is freed at the last
    /// generation is retired.
    pub fn new(alloc: Global, capacity: u32, last_generation: u32) -> Result<Self, AllocError>
        ensures { IfOk result (λ s. s ≡ fresh_arena _ capacity last_generation) }
    {
        let row = Pieces::new(alloc, capacity as usize)?;
        let ends = [Ends {
            head: None,
            tail: None,
        }; CHAIN_COUNT];
        Ok(Slots {
            memory: Memory {
                row: Cells::new(row),
                ends,
            },
            names: [0, 1, 2, 3, 4, 5, 6, 7, 8, 9, 10, 11, 12, 13],
            last_generation,
        })
    }

    /// What is held under an id.
    pub fn get(&self, id: Id) -> Option<T>
        ensures { result ≡ held self.now.image id }
    {
        if id.slot as usize >= self.memory.row.len() {
            return None;
        }
        let slot = self.memory.slot(id.slot);
        if slot.generation == id.generation {
            slot.content
        } else {
            None
        }
    }

    /// Puts this in a slot: the front of the free list, else the next one that was never used. Only this last one may have to make
    /// its piece; no other call takes memory.
    pub fn insert(&mut self, content: T) -> Result<(Id, InsertUndo), InsertFault>
        ensures ok { IfOk result (λ r. IsInserted self.old.image self.new.image content r.0 r.1) }
        ensures piece { IfOk result (λ _. self.new.room ≡ room_after self.old) }
        ensures room { self.old.room ≤ self.new.room }
        ensures err { IfErr result (λ fault. RefusesInsert fault self.old × (self.new ≡ self.old)) }
    {
        match self.head(FREE) {
            Some(slot) => Ok(self.insert_free(slot, content)),
            None => self.insert_unused(content),
        }
    }

    /// Puts this in the slot at the front of the free list.
    fn insert_free(&mut self, slot: u32, content: T) -> (Id, InsertUndo)
        requires { head_at self.old.image.memory FREE ≡ Some slot }
        ensures inserted { IsInserted self.old.image self.new.image content result.0 result.1 }
        ensures room { self.new.room ≡ self.old.room }
    {
        self.is_sound();
        let generation = self.slot_at(slot).generation;
        let place = self.place(slot);
        self.take_and_edit(
            place,
            Slot {
                generation,
                content: Some(content),
            },
        );
        (Id { slot, generation }, InsertUndo { slot, fresh: false })
    }

    /// Puts this in the next slot that was never used.
    fn insert_unused(&mut self, content: T) -> Result<(Id, InsertUndo), InsertFault>
        requires { head_at self.old.image.memory FREE ≡ None }
        ensures ok { IfOk result (λ r. IsInserted self.old.image self.new.image content r.0 r.1) }
        ensures piece { IfOk result (λ _. self.new.room ≡ room_after self.old) }
        ensures room { self.old.room ≤ self.new.room }
        ensures err { IfErr result (λ fault. RefusesInsert fault self.old × (self.new ≡ self.old)) }
    {
        self.is_sound();
        let slot = self.used();
        if slot >= self.capacity() {
            return Err(InsertFault::Full);
        }
        match self.reserve() {
            Err(_) => Err(InsertFault::Memory),
            Ok(()) => {
                self.grow(content);
                let id = Id {
                    slot,
                    generation: 0,
                };
                Ok((id, InsertUndo { slot, fresh: true }))
            }
        }
    }

    /// Frees the slot of an id, which is on no list; at the last generation it is retired. What it held, and what takes that back with
    /// it. None if nothing is held there.
    pub fn remove(&mut self, id: Id) -> Option<(T, RemoveUndo)>
        requires { on_list self.old.image id ≡ false }
        ensures none { IfNone result ((held self.old.image id ≡ None) × (self.new ≡ self.old)) }
        ensures some { IfSome result (λ r. IsRemoved self.old.image self.new.image id r.0 r.1) }
        ensures room { self.new.room ≡ self.old.room }
    {
        let content = self.get(id)?;
        let undo = if id.generation == self.last_generation() {
            self.retire(id, content)
        } else {
            self.free(id, content)
        };
        Some((content, undo))
    }

    /// Empties a slot, which holds this, for good.
    fn retire(&mut self, id: Id, content: T) -> RemoveUndo
        requires held { held self.old.image id ≡ Some content }
        requires loose { on_list self.old.image id ≡ false }
        requires last { id.generation ≡ self.old.image.last }
        ensures removed { IsRemoved self.old.image self.new.image id content result }
        ensures room { self.new.room ≡ self.old.room }
    {
        self.is_sound();
        self.edit(
            id.slot,
            Slot {
                generation: id.generation,
                content: None,
            },
        );
        RemoveUndo {
            slot: id.slot,
            retired: true,
        }
    }

    /// Empties a slot, which holds this, and puts it at the front of the free list.
    fn free(&mut self, id: Id, content: T) -> RemoveUndo
        requires held { held self.old.image id ≡ Some content }
        requires loose { on_list self.old.image id ≡ false }
        requires more { id.generation ≢ self.old.image.last }
        ensures removed { IsRemoved self.old.image self.new.image id content result }
        ensures room { self.new.room ≡ self.old.room }
    {
        self.is_sound();
        let place = self.front_place(FREE, id.slot);
        self.edit_and_put(
            Slot {
                generation: id.generation + 1,
                content: None,
            },
            place,
        );
        RemoveUndo {
            slot: id.slot,
            retired: false,
        }
    }

    /// Puts other content under an id; the old one. None if nothing is held there.
    pub fn set(&mut self, id: Id, content: T) -> Option<T>
        ensures none { IfNone result ((held self.old.image id ≡ None) × (self.new ≡ self.old)) }
        ensures some { IfSome result (λ was. (held self.old.image id ≡ Some was) × IsSet self.old.image self.new.image id content was) }
        ensures room { self.new.room ≡ self.old.room }
    {
        let was = self.get(id)?;
        self.change(id, content, was);
        Some(was)
    }

    fn change(&mut self, id: Id, content: T, was: T)
        requires { held self.old.image id ≡ Some was }
        ensures set { IsSet self.old.image self.new.image id content was }
        ensures room { self.new.room ≡ self.old.room }
    {
        self.is_sound();
        let generation = self.slot_at(id.slot).generation;
        self.edit(
            id.slot,
            Slot {
                generation,
                content: Some(content),
            },
        );
    }

    /// What always holds of an arena: the links agree with the lists both ways, a slot is on one list at the most and holds
    /// something there, no generation is past the last one, and an empty slot is on the free list or at the last generation.
    pub fn is_sound(&self)
        ensures { IsSound self.now.image }
    {
        let _ = self.memory.row.len();
    }

    /// How many slots were ever used.
    pub fn used(&self) -> u32
        ensures used { result ≡ length self.now.image.memory.row.items }
        ensures within { result ≤ self.now.image.memory.row.capacity }
    {
        self.memory.row.len() as u32
    }

    /// Whether some slot holds something. It takes no look at the slots.
    pub fn holds_any(&self) -> bool
        ensures { result ≡ list_any (λ slot. is_some slot.content) (held_slots self.now.image.memory) }
    {
        self.memory.row.holds_any()
    }

    /// Whether some slot holds what pends. It takes no look at the slots.
    pub fn holds_pending(&self) -> bool
        ensures { result ≡ list_any (λ slot. pends_in T.is_pending slot.content) (held_slots self.now.image.memory) }
    {
        self.memory.row.holds_pending()
    }

    /// How many slots there are.
    pub fn capacity(&self) -> u32
        ensures { result ≡ self.now.image.memory.row.capacity }
    {
        self.memory.row.capacity() as u32
    }

    /// The generation at which a slot that is freed is retired.
    pub fn last_generation(&self) -> u32
        ensures { result ≡ self.now.image.last }
    {
        self.last_generation
    }

    /// What a slot that was used holds.
    pub fn slot_at(&self, slot: u32) -> Slot<T>
        requires { slot < length self.now.image.memory.row.items }
        ensures { result ≡ slot_at self.now.image.memory slot }
    {
        self.memory.slot(slot)
    }

    /// The links of a slot that was used, those of a free one too.
    pub fn links(&self, slot: u32) -> Links
        requires { slot < length self.now.image.memory.row.items }
        ensures { result ≡ links_at self.now.image.memory slot }
    {
        self.memory.links(slot)
    }

    /// Where a slot stands.
    fn place(&self, slot: u32) -> ChainPlace
        requires { slot < length self.now.image.memory.row.items }
        ensures { result ≡ place_at self.now.image.memory slot }
    {
        self.memory.place(slot)
    }

    /// The front of a chain, for a slot that is put there.
    fn front_place(&self, chain: u8, slot: u32) -> ChainPlace
        requires { chain < CHAIN_COUNT }
        ensures { result ≡ front_place chain slot self.now.image.memory }
    {
        ChainPlace {
            list: chain,
            before: None,
            slot,
            after: self.head(chain),
        }
    }

    /// The end of a chain, for a slot that is put there.
    fn back_place(&self, chain: u8, slot: u32) -> ChainPlace
        requires { chain < CHAIN_COUNT }
        ensures { result ≡ back_place chain slot self.now.image.memory }
    {
        ChainPlace {
            list: chain,
            before: self.tail(chain),
            slot,
            after: None,
        }
    }

    /// The first slot of a chain.
    fn head(&self, chain: u8) -> Option<u32>
        requires { chain < CHAIN_COUNT }
        ensures { result ≡ head_at self.now.image.memory chain }
    {
        self.memory.head(chain)
    }

    /// The last slot of a chain.
    fn tail(&self, chain: u8) -> Option<u32>
        requires { chain < CHAIN_COUNT }
        ensures { result ≡ tail_at self.now.image.memory chain }
    {
        self.memory.tail(chain)
    }

    /// Which chain a list is.
    fn chain(&self, list: ListName) -> u8
        ensures name { result ≡ name_at self.now.image.names (number list) }
        ensures below { result < LIST_COUNT }
    {
        self.names[list.number() as usize]
    }

    /// Makes the piece of the next slot that was never used, if it isn't there.
    fn reserve(&mut self) -> Result<(), AllocError>
        requires { length self.old.image.memory.row.items < self.old.image.memory.row.capacity }
        ensures image { self.new.image ≡ self.old.image }
        ensures ok { OnOk result (self.new.room ≡ room_with_next [] (length self.old.image.memory.row.items) self.old.room) }
        ensures there { OnOk result (length self.new.image.memory.row.items < self.new.room) }
        ensures err { OnErr result ((self.new.room ≡ self.old.room) × (self.old.room ≤ length self.old.image.memory.row.items)) }
    {
        self.memory.reserve()
    }

    /// Puts this in the next slot that was never used, whose piece is there.
    fn grow(&mut self, content: T)
        requires within { length self.old.image.memory.row.items < self.old.image.memory.row.capacity }
        requires room { length self.old.image.memory.row.items < self.old.room }
        requires sound { IsSound (in_memory (grown content) self.old.image) }
        ensures image { self.new.image ≡ in_memory (grown content) self.old.image }
        ensures room { self.new.room ≡ self.old.room }
    {
        self.memory.grow(content);
    }

    /// Makes the last slot unused again.
    fn shrink(&mut self)
        requires some { 0 < length self.old.image.memory.row.items }
        requires sound { IsSound (in_memory shrunk self.old.image) }
        ensures image { self.new.image ≡ in_memory shrunk self.old.image }
        ensures room { self.new.room ≡ self.old.room }
    {
        self.memory.shrink();
    }

    /// Puts a slot in a place.
    fn put(&mut self, place: ChainPlace)
        requires within { IsWithin place (length self.old.image.memory.row.items) }
        requires sound { IsSound (in_memory (put_in place) self.old.image) }
        ensures image { self.new.image ≡ in_memory (put_in place) self.old.image }
        ensures room { self.new.room ≡ self.old.room }
    {
        self.memory.put(place);
    }

    /// Takes a slot out of a place.
    fn take(&mut self, place: ChainPlace)
        requires within { IsWithin place (length self.old.image.memory.row.items) }
        requires sound { IsSound (in_memory (taken_out place) self.old.image) }
        ensures image { self.new.image ≡ in_memory (taken_out place) self.old.image }
        ensures room { self.new.room ≡ self.old.room }
    {
        self.memory.take(place);
    }

    /// Takes a slot out of its place, and puts it in another one.
    #[inline(always)]
    fn shift(&mut self, from: ChainPlace, to: ChainPlace)
        requires slot { from.slot ≡ to.slot }
        requires from { IsWithin from (length self.old.image.memory.row.items) }
        requires to { IsWithin to (length self.old.image.memory.row.items) }
        requires sound { IsSound (in_memory (λ m. put_in to (taken_out from m)) self.old.image) }
        ensures image { self.new.image ≡ in_memory (λ m. put_in to (taken_out from m)) self.old.image }
        ensures room { self.new.room ≡ self.old.room }
    {
        self.memory.shift(from, to);
    }

    /// Writes what a slot holds.
    fn edit(&mut self, at: u32, slot: Slot<T>)
        requires within { at < length self.old.image.memory.row.items }
        requires sound { IsSound (in_memory (edited at slot) self.old.image) }
        ensures image { self.new.image ≡ in_memory (edited at slot) self.old.image }
        ensures room { self.new.room ≡ self.old.room }
    {
        self.memory.edit(at, slot);
    }

    /// Writes what the slot of a place holds, and puts it there.
    fn edit_and_put(&mut self, slot: Slot<T>, place: ChainPlace)
        requires within { IsWithin place (length self.old.image.memory.row.items) }
        requires sound { IsSound (in_memory (λ m. put_in place (edited place.slot slot m)) self.old.image) }
        ensures image { self.new.image ≡ in_memory (λ m. put_in place (edited place.slot slot m)) self.old.image }
        ensures room { self.new.room ≡ self.old.room }
    {
        self.memory.edit(place.slot, slot);
        self.memory.put(place);
    }

    /// Takes a slot out of its place, and writes what it holds.
    fn take_and_edit(&mut self, place: ChainPlace, slot: Slot<T>)
        requires within { IsWithin place (length self.old.image.memory.row.items) }
        requires sound { IsSound (in_memory (λ m. edited place.slot slot (taken_out place m)) self.old.image) }
        ensures image { self.new.image ≡ in_memory (λ m. edited place.slot slot (taken_out place m)) self.old.image }
        ensures room { self.new.room ≡ self.old.room }
    {
        self.memory.take(place);
        self.memory.edit(place.slot, slot);
    }
}

//! The slots with their links in pieces, and the ends of the chains: relinking one place.
ghost use Rattle.std.specs.Prelude.{◌≡◌, ◌<◌, ◌≤◌, ℕ, cond, eqb, length, Option, None, Some, OnOk, OnErr};
ghost use Rattle.uv_raw.specs.Pieced.{room_after};
ghost use Rattle.uv_arena.specs.declared.links.TheConstants.{CHAIN_COUNT};
ghost use Rattle.uv_arena.specs.Chains.{each, is_at, none_or, link, loose};
ghost use Rattle.uv_arena.specs.Image.{memory_of, with_links, with_cells, with_ends, relinked_memory, IsBelow, IsWithin, put_in, taken_out, edited, links_at, slot_at, head_at, tail_at, place_at, grown, shrunk};

use crate::cells::Cells;
use crate::links::{CHAIN_COUNT, Cell, ChainPlace, LOOSE, Links};
use std::alloc::AllocError;
use uv_records::{Ends, Pends, Slot};

/// The slots that were ever used with their links, and the ends of the chains.
#[derive(Drop)]
pub(crate) struct Memory<T: Pends> {
    pub(crate) row: Cells<T>,
    pub(crate) ends: [Ends; CHAIN_COUNT],
}

impl<T: Pends> Memory<T> {
    fn set_next(&mut self, at: u32, next: Option<u32>)
        requires { at < length self.old.row.row.items }
        ensures memory { memory_of self.new ≡ with_cells (λ j c. with_links
            (record { list = c.links.list; prev = c.links.prev; next = cond (eqb at j) next c.links.next }) c) (memory_of self.old) }
        ensures room { self.new.row.room ≡ self.old.row.room }
    {
        let cell = self.row.get(at as usize);
        let links = Links { next, ..cell.links };
        self.row.set(at as usize, Cell { links, ..cell });
    }

    fn set_prev(&mut self, at: u32, prev: Option<u32>)
        requires { at < length self.old.row.row.items }
        ensures memory { memory_of self.new ≡ with_cells (λ j c. with_links
            (record { list = c.links.list; prev = cond (eqb at j) prev c.links.prev; next = c.links.next }) c) (memory_of self.old) }
        ensures room { self.new.row.room ≡ self.old.row.room }
    {
        let cell = self.row.get(at as usize);
        let links = Links { prev, ..cell.links };
        self.row.set(at as usize, Cell { links, ..cell });
    }

    fn set_links(&mut self, at: u32, links: Links)
        requires { at < length self.old.row.row.items }
        ensures memory { memory_of self.new ≡ with_cells (λ j c. with_links (cond (eqb at j) links c.links) c) (memory_of self.old) }
        ensures room { self.new.row.room ≡ self.old.row.room }
    {
        let cell = self.row.get(at as usize);
        self.row.set(at as usize, Cell { links, ..cell });
    }

    fn set_head(&mut self, list: u8, head: Option<u32>)
        requires list { list < CHAIN_COUNT }
        requires all { length self.old.ends ≡ CHAIN_COUNT }
        ensures memory { memory_of self.new ≡ with_ends (λ j e. cond (eqb list j) (record { head = head; tail = e.tail }) e) (memory_of self.old) }
        ensures room { self.new.row.room ≡ self.old.row.room }
    {
        self.ends[list as usize].head = head;
    }

    fn set_tail(&mut self, list: u8, tail: Option<u32>)
        requires list { list < CHAIN_COUNT }
        requires all { length self.old.ends ≡ CHAIN_COUNT }
        ensures memory { memory_of self.new ≡ with_ends (λ j e. cond (eqb list j) (record { head = e.head; tail = tail }) e) (memory_of self.old) }
        ensures room { self.new.row.room ≡ self.old.row.room }
    {
        self.ends[list as usize].tail = tail;
    }

    /// Writes what comes after the slot before a place.
    fn relink_before(&mut self, place: ChainPlace, next: Option<u32>)
        requires list { place.list < CHAIN_COUNT }
        requires all { length self.old.ends ≡ CHAIN_COUNT }
        requires before { IsBelow place.before (length self.old.row.row.items) }
        ensures memory { memory_of self.new ≡ with_ends (λ j e. cond (eqb place.list j)
            (record { head = none_or place.before next e.head; tail = e.tail }) e)
            (with_cells (λ j c. with_links
            (record { list = c.links.list; prev = c.links.prev; next = cond (is_at place.before j) next c.links.next }) c) (memory_of self.old)) }
        ensures room { self.new.row.room ≡ self.old.row.room }
    {
        match place.before {
            Some(at) => self.set_next(at, next),
            None => self.set_head(place.list, next),
        }
    }

    /// Writes what comes before the slot after a place.
    fn relink_after(&mut self, place: ChainPlace, prev: Option<u32>)
        requires list { place.list < CHAIN_COUNT }
        requires all { length self.old.ends ≡ CHAIN_COUNT }
        requires after { IsBelow place.after (length self.old.row.row.items) }
        ensures memory { memory_of self.new ≡ with_ends (λ j e. cond (eqb place.list j)
            (record { head = e.head; tail = none_or place.after prev e.tail }) e)
            (with_cells (λ j c. with_links
            (record { list = c.links.list; prev = cond (is_at place.after j) prev c.links.prev; next = c.links.next }) c) (memory_of self.old)) }
        ensures room { self.new.row.room ≡ self.old.row.room }
    {
        match place.after {
            Some(at) => self.set_prev(at, prev),
            None => self.set_tail(place.list, prev),
        }
    }

    /// Writes the next of the slot before, the previous of the slot after, and the slot's own links.
    fn relink(&mut self, place: ChainPlace, next: Option<u32>, prev: Option<u32>, own: Links)
        requires all { length self.old.ends ≡ CHAIN_COUNT }
        requires within { IsWithin place (length self.old.row.row.items) }
        ensures memory { memory_of self.new ≡ relinked_memory place next prev own (memory_of self.old) }
        ensures room { self.new.row.room ≡ self.old.row.room }
    {
        self.relink_before(place, next);
        self.relink_after(place, prev);
        self.set_links(place.slot, own);
    }

    /// Puts a slot in a place.
    pub(crate) fn put(&mut self, place: ChainPlace)
        requires all { length self.old.ends ≡ CHAIN_COUNT }
        requires within { IsWithin place (length self.old.row.row.items) }
        ensures memory { memory_of self.new ≡ put_in place (memory_of self.old) }
        ensures room { self.new.row.room ≡ self.old.row.room }
    {
        let own = Links {
            list: Some(place.list),
            prev: place.before,
            next: place.after,
        };
        self.relink(place, Some(place.slot), Some(place.slot), own);
    }

    /// Takes a slot out of a place.
    pub(crate) fn take(&mut self, place: ChainPlace)
        requires all { length self.old.ends ≡ CHAIN_COUNT }
        requires within { IsWithin place (length self.old.row.row.items) }
        ensures memory { memory_of self.new ≡ taken_out place (memory_of self.old) }
        ensures room { self.new.row.room ≡ self.old.row.room }
    {
        self.relink(place, place.after, place.before, LOOSE);
    }

    /// Takes a slot out of a place, and puts it in another one. Its own links are written once.
    #[inline(always)]
    pub(crate) fn shift(&mut self, from: ChainPlace, to: ChainPlace)
        requires all { length self.old.ends ≡ CHAIN_COUNT }
        requires slot { from.slot ≡ to.slot }
        requires from { IsWithin from (length self.old.row.row.items) }
        requires to { IsWithin to (length self.old.row.row.items) }
        ensures memory { memory_of self.new ≡ put_in to (taken_out from (memory_of self.old)) }
        ensures room { self.new.row.room ≡ self.old.row.room }
    {
        self.relink_before(from, from.after);
        self.relink_after(from, from.before);
        self.put(to);
    }

    /// Writes what a slot holds.
    pub(crate) fn edit(&mut self, at: u32, slot: Slot<T>)
        requires { at < length self.old.row.row.items }
        ensures memory { memory_of self.new ≡ edited at slot (memory_of self.old) }
        ensures room { self.new.row.room ≡ self.old.row.room }
    {
        let cell = self.row.get(at as usize);
        self.row.put(at as usize, Cell { slot, ..cell });
    }

    /// The links of a slot.
    pub(crate) fn links(&self, at: u32) -> Links
        requires { at < length self.now.row.row.items }
        ensures { result ≡ links_at (memory_of self.now) at }
    {
        self.row.get(at as usize).links
    }

    /// What a slot holds.
    pub(crate) fn slot(&self, at: u32) -> Slot<T>
        requires { at < length self.now.row.row.items }
        ensures { result ≡ slot_at (memory_of self.now) at }
    {
        self.row.get(at as usize).slot
    }

    /// The first slot of a chain.
    pub(crate) fn head(&self, list: u8) -> Option<u32>
        requires list { list < CHAIN_COUNT }
        requires all { length self.now.ends ≡ CHAIN_COUNT }
        ensures { result ≡ head_at (memory_of self.now) list }
    {
        self.ends[list as usize].head
    }

    /// The last slot of a chain.
    pub(crate) fn tail(&self, list: u8) -> Option<u32>
        requires list { list < CHAIN_COUNT }
        requires all { length self.now.ends ≡ CHAIN_COUNT }
        ensures { result ≡ tail_at (memory_of self.now) list }
    {
        self.ends[list as usize].tail
    }

    /// Where a slot stands.
    pub(crate) fn place(&self, at: u32) -> ChainPlace
        requires { at < length self.now.row.row.items }
        ensures { result ≡ place_at (memory_of self.now) at }
    {
        let links = self.links(at);
        ChainPlace {
            list: links.list.unwrap_or(0),
            before: links.prev,
            slot: at,
            after: links.next,
        }
    }

    /// Makes the piece of the next slot that was never used, if it isn't there.
    pub(crate) fn reserve(&mut self) -> Result<(), AllocError>
        requires { length self.old.row.row.items < self.old.row.row.capacity }
        ensures memory { memory_of self.new ≡ memory_of self.old }
        ensures ok { OnOk result (self.new.row.room ≡ room_after self.old.row) }
        ensures there { OnOk result (length self.new.row.row.items < self.new.row.room) }
        ensures err { OnErr result ((self.new.row.room ≡ self.old.row.room) × (self.old.row.room ≤ length self.old.row.row.items)) }
    {
        self.row.reserve()
    }

    /// Puts this in the next slot that was never used, whose piece is there.
    pub(crate) fn grow(&mut self, content: T)
        requires within { length self.old.row.row.items < self.old.row.row.capacity }
        requires room { length self.old.row.row.items < self.old.row.room }
        ensures memory { memory_of self.new ≡ grown content (memory_of self.old) }
        ensures room { self.new.row.room ≡ self.old.row.room }
    {
        self.row.push(Cell {
            slot: Slot {
                generation: 0,
                content: Some(content),
            },
            links: LOOSE,
        });
    }

    /// Makes the last slot unused again.
    pub(crate) fn shrink(&mut self)
        requires { 0 < length self.old.row.row.items }
        ensures memory { memory_of self.new ≡ shrunk (memory_of self.old) }
        ensures room { self.new.row.room ≡ self.old.row.room }
    {
        self.row.pop();
    }
}

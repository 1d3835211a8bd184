//! The slots that hold the handles, as plain lists.
ghost use Rattle.std.specs.Prelude.{◌≡◌, ◌<◌, ◌^◌, OnOk, OnErr, Some, option_and_then, slice_get};
ghost use Rattle.std.specs.List.{list_any};
ghost use Rattle.uv_records.specs.Slots.{unused_slots, held, id_of, with_held, next_free, taken, freed};
ghost use Rattle.uv_records.specs.declared.slot.Slot as slot;
ghost use Rattle.uv_model.specs.Content.{content_keeps, content_pends, is_used};
ghost use Rattle.uv_work.specs.declared.content.Content as holds;

use crate::content::{content_keeps, content_pends, is_used};
use std::alloc::{AllocError, Global};
use std::marker::Model;
use uv_ids::Id;
use uv_records::Slot;
use uv_work::Content;

mod queries;

/// The slots that were ever used, the free ones of them, and the number of those that never were.
#[derive(Drop)]
pub struct Arena {
    slots: Vec<Slot<Content>>,
    /// The numbers of the free slots, front first.
    free: Vec<u32>,
    unused: usize,
}

impl Model for Arena {
    ghost use Rattle.std.specs.Prelude.{◌+◌, ◌<◌, ◌^◌, length};
    ghost use Rattle.uv_records.specs.Slots.{Slots};
    ghost use Rattle.uv_work.specs.declared.content.Content as holds;

    ghost Value = { Slots holds.Content };

    ghost view = { λ a. record { slots = a.slots.items; free = a.free.items; unused = a.unused } };

    ghost invariant = { λ a. length a.slots.items + a.unused < 2 ^ 32 };
}

impl Arena {
    /// An arena of so many slots, of which none was used.
    pub fn new(alloc: Global, slots: u32) -> Arena
        ensures { result ≡ unused_slots holds.Content slots }
    {
        Arena {
            slots: Vec::new(alloc),
            free: Vec::new(alloc),
            unused: slots as usize,
        }
    }

    /// What is held under an id.
    pub fn held(&self, id: Id) -> Option<Content>
        ensures { result ≡ held self.now.slots id }
    {
        let slot = self.slots.get(id.slot as usize)?;
        if slot.generation == id.generation {
            slot.content
        } else {
            None
        }
    }

    /// Has the slot of an id hold this.
    pub fn set(&mut self, id: Id, content: Content)
        ensures { self.new ≡ record self.old { slots = with_held self.old.slots id content } }
    {
        if let Some(slot) = self.slots.get_mut(id.slot as usize) {
            *slot = Slot {
                generation: id.generation,
                content: Some(content),
            };
        }
    }

    /// Whether some slot holds what keeps the loop alive.
    pub fn keeps_alive(&self) -> bool
        ensures { result ≡ list_any (λ (s : slot.Slot holds.Content). content_keeps s.content) self.now.slots }
    {
        self.slots.iter().any(|slot| content_keeps(slot.content))
    }

    /// Whether some slot holds an async handle that was sent to.
    pub fn pends(&self) -> bool
        ensures { result ≡ list_any (λ (s : slot.Slot holds.Content). content_pends s.content) self.now.slots }
    {
        self.slots.iter().any(|slot| content_pends(slot.content))
    }

    /// Whether some slot holds something.
    pub fn is_in_use(&self) -> bool
        ensures { result ≡ list_any (λ (s : slot.Slot holds.Content). is_used s.content) self.now.slots }
    {
        self.slots.iter().any(|slot| is_used(slot.content))
    }

    /// The id of a slot that was used.
    fn id_of(&self, number: u32) -> Option<Id>
        ensures { result ≡ option_and_then (λ s. Some (id_of number s)) (slice_get self.now.slots number) }
    {
        let slot = self.slots.get(number as usize)?;
        Some(Id {
            slot: number,
            generation: slot.generation,
        })
    }

    /// The id that the next taking gives: the front of the free list, else the next unused slot.
    #[tactic(auto, using(crate::proofs::Freeing::next_free_front))]
    pub fn next_free(&self) -> Option<Id>
        ensures { result ≡ next_free self.now }
    {
        match self.free.first() {
            Some(number) => self.id_of(*number),
            None if self.unused == 0 => None,
            None => Some(Id {
                slot: self.slots.len() as u32,
                generation: 0,
            }),
        }
    }

    /// Takes the slot of that id. Without memory nothing changes.
    pub fn take(&mut self, id: Id, content: Content) -> Result<(), AllocError>
        requires { next_free self.old ≡ Some id }
        ensures ok { OnOk result (self.new ≡ taken id content self.old) }
        ensures err { OnErr result (self.new ≡ self.old) }
    {
        if !self.free.is_empty() {
            self.free.remove(0);
            self.set(id, content);
            return Ok(());
        }
        self.slots.push(Slot {
            generation: 0,
            content: Some(content),
        })?;
        self.unused -= 1;
        Ok(())
    }

    /// Frees the slot of an id; at the last generation it is retired. Without memory nothing changes.
    pub fn release(&mut self, id: Id, last_generation: u32) -> Result<(), AllocError>
        requires { id.generation < 2 ^ 31 }
        ensures ok { OnOk result (self.new ≡ freed last_generation id self.old) }
        ensures err { OnErr result (self.new ≡ self.old) }
    {
        let generation = if id.generation == last_generation {
            id.generation
        } else {
            self.free.insert(0, id.slot)?;
            id.generation + 1
        };
        if let Some(slot) = self.slots.get_mut(id.slot as usize) {
            *slot = Slot {
                generation,
                content: None,
            };
        }
        Ok(())
    }
}

//! What stands on the lists and in the free list.
ghost use Rattle.std.specs.Prelude.{◌≡◌, ◌<◌, ◌==◌, List, ◌∷◌, ◌++◌, [], None, IfSome, IfNone, length, true, false, is_some, eqb, ℕ};
ghost use Rattle.std.specs.List.{list_any};
ghost use Rattle.uv_ids.specs.declared.id.Id.{Id};
ghost use Rattle.uv_records.specs.declared.lists.ListName.{ListName};
ghost use Rattle.uv_records.specs.Slots.{next_free, id_of};
ghost use Rattle.uv_records.specs.Walks.{without};
ghost use Rattle.uv_arena.specs.Chains.{first, last};
ghost use Rattle.uv_arena.specs.declared.links.TheConstants.{FREE};
ghost use Rattle.uv_arena.specs.Image.{chain, head_at, links_at, slot_at, members, plain_slots, held, on_list};
ghost use Rattle.uv_arena.specs.Calls.{IsListed, IsFirst, IsLast, slot_of};

use crate::arena::Slots;
use crate::links::{FREE, LOOSE, Links};
use uv_ids::Id;
use uv_records::{ListName, Pends};

impl<T: Pends> Slots<T> {
    /// The id that the next insert gives. None where no slot is free or unused.
    pub fn next_free(&self) -> Option<Id>
        ensures { result ≡ next_free (plain_slots self.now.image) }
    {
        self.is_sound();
        match self.head(FREE) {
            Some(slot) => Some(self.id_at(slot)),
            None => self.next_unused(),
        }
    }

    fn next_unused(&self) -> Option<Id>
        requires { head_at self.now.image.memory FREE ≡ None }
        ensures { result ≡ next_free (plain_slots self.now.image) }
    {
        self.is_sound();
        let slot = self.used();
        if slot < self.capacity() {
            Some(Id {
                slot,
                generation: 0,
            })
        } else {
            None
        }
    }

    /// The first of a list.
    pub fn first(&self, list: ListName) -> Option<Id>
        ensures none { IfNone result (members self.now.image list ≡ []) }
        ensures some { IfSome result (λ d. IsFirst self.now.image list d) }
    {
        self.is_sound();
        match self.head(self.chain(list)) {
            Some(slot) => Some(self.id_at(slot)),
            None => None,
        }
    }

    /// The last of a list.
    pub fn last(&self, list: ListName) -> Option<Id>
        ensures none { IfNone result (members self.now.image list ≡ []) }
        ensures some { IfSome result (λ d. IsLast self.now.image list d) }
    {
        self.is_sound();
        match self.tail(self.chain(list)) {
            Some(slot) => Some(self.id_at(slot)),
            None => None,
        }
    }

    /// The one after an id on its list. None at the list's end, and for an id that is on no list or that nothing is held under.
    pub fn next(&self, id: Id) -> Option<Id>
        ensures off { on_list self.now.image id ≡ false → result ≡ None }
        ensures next { on_list self.now.image id ≡ true
            → (l : ListName) (us : List ℕ) (vs : List ℕ) → members self.now.image l ≡ us ++ id.slot ∷ vs → slot_of result ≡ first vs None }
        ensures listed { IfSome result (λ d. IsListed self.now.image d) }
    {
        self.is_sound();
        let slot = self.links_on_list(id)?.next?;
        Some(self.id_at(slot))
    }

    /// The one before an id on its list. None at the list's front, and for an id that is on no list or that nothing is held under.
    pub fn prev(&self, id: Id) -> Option<Id>
        ensures off { on_list self.now.image id ≡ false → result ≡ None }
        ensures prev { on_list self.now.image id ≡ true
            → (l : ListName) (us : List ℕ) (vs : List ℕ) → members self.now.image l ≡ us ++ id.slot ∷ vs → slot_of result ≡ last None us }
        ensures listed { IfSome result (λ d. IsListed self.now.image d) }
    {
        self.is_sound();
        let slot = self.links_on_list(id)?.prev?;
        Some(self.id_at(slot))
    }

    /// Whether something is held under an id, and is on a list.
    pub fn on_list(&self, id: Id) -> bool
        ensures value { result ≡ on_list self.now.image id }
        ensures apart { is_some (held self.now.image id) ≡ true → result ≡ false
            → (l : ListName) → without eqb (members self.now.image l) id.slot ≡ members self.now.image l }
    {
        self.is_sound();
        self.is_linked(id)
    }

    fn is_linked(&self, id: Id) -> bool
        ensures { result ≡ on_list self.now.image id }
    {
        self.links_on_list(id).is_some()
    }

    /// The links of an id. None where it is on no list, or nothing is held under it.
    fn links_on_list(&self, id: Id) -> Option<Links>
        ensures none { IfNone result (on_list self.now.image id ≡ false) }
        ensures some { IfSome result (λ links. (on_list self.now.image id ≡ true) × (links ≡ links_at self.now.image.memory id.slot)) }
    {
        let _content = self.get(id)?;
        let links = self.links_or_loose(id.slot);
        let _list = links.list?;
        Some(links)
    }

    fn links_or_loose(&self, slot: u32) -> Links
        ensures { result ≡ links_at self.now.image.memory slot }
    {
        if slot < self.used() {
            self.links(slot)
        } else {
            LOOSE
        }
    }

    /// The first free slot.
    pub fn first_free(&self) -> Option<u32>
        ensures { result ≡ first (chain self.now.image.memory FREE) None }
    {
        self.is_sound();
        self.head(FREE)
    }

    /// Whether a slot is on the free list.
    pub fn is_free(&self, slot: u32) -> bool
        ensures { result ≡ list_any (λ n. n == slot) (chain self.now.image.memory FREE) }
    {
        self.is_sound();
        if slot >= self.used() {
            return false;
        }
        match self.memory.links(slot).list {
            None => false,
            Some(list) => list == FREE,
        }
    }

    /// The last free slot.
    pub fn last_free(&self) -> Option<u32>
        ensures { result ≡ last None (chain self.now.image.memory FREE) }
    {
        self.is_sound();
        self.tail(FREE)
    }

    /// The id of what a slot holds. None if it holds nothing.
    pub fn id_in(&self, slot: u32) -> Option<Id>
        ensures none { IfNone result ((d : Id) → d.slot ≡ slot → held self.now.image d ≡ None) }
        ensures some { IfSome result (λ d. (d ≡ id_of slot (slot_at self.now.image.memory slot)) × (is_some (held self.now.image d) ≡ true)) }
    {
        if slot >= self.used() {
            return None;
        }
        let id = self.id_at(slot);
        if self.get(id).is_none() {
            return None;
        }
        Some(id)
    }

    /// The id of what a slot that was used holds.
    fn id_at(&self, slot: u32) -> Id
        requires { slot < length self.now.image.memory.row.items }
        ensures { result ≡ record { slot = slot; generation = (slot_at self.now.image.memory slot).generation } }
    {
        Id {
            slot,
            generation: self.slot_at(slot).generation,
        }
    }
}

//! The lists: putting a slot on one, taking it off, and moving a whole list.
ghost use Rattle.std.specs.Prelude.{◌≡◌, ◌≢◌, ◌<◌, ◌∷◌, ◌++◌, [], true, false, is_some};
ghost use Rattle.uv_records.specs.Lists.{number};
ghost use Rattle.uv_arena.specs.Image.{name_at, front_place, back_place, place_at, put_in, taken_out, in_memory, members, held, on_list};
ghost use Rattle.uv_arena.specs.Undo.{spliced};
ghost use Rattle.uv_arena.specs.Calls.{IsPushed, IsUnlinked, IsSpliced, IsFirst, IsRotated};

use crate::arena::Slots;
use crate::links::ChainPlace;
use crate::undo::{PushUndo, SpliceUndo};
use uv_ids::Id;
use uv_records::{ListName, Pends};

impl<T: Pends> Slots<T> {
    /// Puts the slot of an id, which is on no list, at the front of one.
    pub fn push_front(&mut self, list: ListName, id: Id) -> PushUndo
        requires held { is_some (held self.old.image id) ≡ true }
        requires loose { on_list self.old.image id ≡ false }
        ensures token { result.slot ≡ id.slot }
        ensures image { self.new.image
            ≡ in_memory (put_in (front_place (name_at self.old.image.names (number list)) id.slot self.old.image.memory)) self.old.image }
        ensures pushed { IsPushed self.old.image self.new.image list id (id.slot ∷ members self.old.image list) }
        ensures room { self.new.room ≡ self.old.room }
    {
        self.is_sound();
        let place = self.front_place(self.chain(list), id.slot);
        self.put(place);
        PushUndo { slot: id.slot }
    }

    /// Puts the slot of an id, which is on no list, at the end of one.
    pub fn push_back(&mut self, list: ListName, id: Id) -> PushUndo
        requires held { is_some (held self.old.image id) ≡ true }
        requires loose { on_list self.old.image id ≡ false }
        ensures token { result.slot ≡ id.slot }
        ensures image { self.new.image
            ≡ in_memory (put_in (back_place (name_at self.old.image.names (number list)) id.slot self.old.image.memory)) self.old.image }
        ensures pushed { IsPushed self.old.image self.new.image list id (members self.old.image list ++ id.slot ∷ []) }
        ensures room { self.new.room ≡ self.old.room }
    {
        self.is_sound();
        let place = self.back_place(self.chain(list), id.slot);
        self.put(place);
        PushUndo { slot: id.slot }
    }

    /// Moves the front of a list to the end of another one.
    #[inline(always)]
    pub fn rotate(&mut self, from: ListName, to: ListName, id: Id)
        requires apart { from ≢ to }
        requires first { IsFirst self.old.image from id }
        ensures rotated { IsRotated self.old.image self.new.image from to id }
        ensures room { self.new.room ≡ self.old.room }
    {
        self.is_sound();
        let front = ChainPlace {
            list: self.chain(from),
            before: None,
            slot: id.slot,
            after: self.links(id.slot).next,
        };
        let back = self.back_place(self.chain(to), id.slot);
        self.shift(front, back);
    }

    /// Takes the slot of an id off its list; the place where it stood.
    pub fn unlink(&mut self, id: Id) -> ChainPlace
        requires { on_list self.old.image id ≡ true }
        ensures token { result ≡ place_at self.old.image.memory id.slot }
        ensures image { self.new.image ≡ in_memory (taken_out result) self.old.image }
        ensures unlinked { IsUnlinked self.old.image self.new.image id result }
        ensures room { self.new.room ≡ self.old.room }
    {
        self.is_sound();
        let place = self.place(id.slot);
        self.take(place);
        place
    }

    /// Moves all that is on one list to another one, which is empty. Takes as long for a long list as for a short one.
    pub fn splice(&mut self, from: ListName, to: ListName) -> SpliceUndo
        requires { members self.old.image to ≡ [] }
        ensures token { result ≡ record { from = from; to = to } }
        ensures image { self.new.image ≡ spliced from to self.old.image }
        ensures spliced { IsSpliced self.old.image self.new.image from to result }
        ensures room { self.new.room ≡ self.old.room }
    {
        self.is_sound();
        self.exchange(from, to);
        SpliceUndo { from, to }
    }

    /// Two lists change places.
    pub(super) fn exchange(&mut self, from: ListName, to: ListName)
        ensures image { self.new.image ≡ spliced from to self.old.image }
        ensures room { self.new.room ≡ self.old.room }
    {
        self.names
            .swap(from.number() as usize, to.number() as usize);
    }
}

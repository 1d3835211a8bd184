//! The calls that take a change back. Each gives the very image from before its change, and takes no memory.
ghost use Rattle.std.specs.Prelude.{◌≡◌};
ghost use Rattle.uv_arena.specs.Undo.{insert_undone, remove_undone, set_undone, push_undone, unlink_undone, splice_undone, CanUndoInsert, CanUndoRemove, CanUndoSet, CanUndoPush, CanUndoUnlink, CanUndoSplice, rotate_undone, CanUndoRotate};

use crate::arena::Slots;
use crate::links::{ChainPlace, FREE};
use crate::undo::{InsertUndo, PushUndo, RemoveUndo, SpliceUndo};
use uv_records::{ListName, Pends, Slot};

impl<T: Pends> Slots<T> {
    /// Takes an insert back.
    pub fn undo_insert(&mut self, undo: InsertUndo)
        requires { CanUndoInsert self.old.image undo }
        ensures undone { self.new.image ≡ insert_undone undo self.old.image }
        ensures room { self.new.room ≡ self.old.room }
    {
        if undo.fresh {
            self.shrink();
        } else {
            let place = self.front_place(FREE, undo.slot);
            let generation = self.slot_at(undo.slot).generation;
            self.edit_and_put(
                Slot {
                    generation,
                    content: None,
                },
                place,
            );
        }
    }

    /// Takes a removal back: the slot holds this again, which it held before.
    pub fn undo_remove(&mut self, undo: RemoveUndo, content: T)
        requires { CanUndoRemove self.old.image undo content }
        ensures undone { self.new.image ≡ remove_undone undo content self.old.image }
        ensures room { self.new.room ≡ self.old.room }
    {
        let generation = self.slot_at(undo.slot).generation;
        let content = Some(content);
        if undo.retired {
            self.edit(
                undo.slot,
                Slot {
                    generation,
                    content,
                },
            );
        } else {
            let place = self.place(undo.slot);
            self.take_and_edit(
                place,
                Slot {
                    generation: generation - 1,
                    content,
                },
            );
        }
    }

    /// Takes a change of what a slot holds back: the old content.
    pub fn undo_set(&mut self, slot: u32, content: T)
        requires { CanUndoSet self.old.image slot content }
        ensures undone { self.new.image ≡ set_undone slot content self.old.image }
        ensures room { self.new.room ≡ self.old.room }
    {
        let generation = self.slot_at(slot).generation;
        self.edit(
            slot,
            Slot {
                generation,
                content: Some(content),
            },
        );
    }

    /// Takes a push back.
    pub fn undo_push(&mut self, undo: PushUndo)
        requires { CanUndoPush self.old.image undo.slot }
        ensures undone { self.new.image ≡ push_undone undo.slot self.old.image }
        ensures room { self.new.room ≡ self.old.room }
    {
        let place = self.place(undo.slot);
        self.take(place);
    }

    /// Takes an unlinking back: the place where the slot stood.
    pub fn undo_unlink(&mut self, place: ChainPlace)
        requires { CanUndoUnlink self.old.image place }
        ensures undone { self.new.image ≡ unlink_undone place self.old.image }
        ensures room { self.new.room ≡ self.old.room }
    {
        self.put(place);
    }

    /// Takes back that the front of a list was moved to the end of another one: the last of that is the front again.
    #[inline(always)]
    pub fn undo_rotate(&mut self, from: ListName, to: ListName)
        requires { CanUndoRotate self.old.image from to }
        ensures undone { self.new.image ≡ rotate_undone from to self.old.image }
        ensures room { self.new.room ≡ self.old.room }
    {
        match self.tail(self.chain(to)) {
            None => unreachable!(),
            Some(slot) => {
                let back = self.place(slot);
                let front = self.front_place(self.chain(from), slot);
                self.shift(back, front);
            }
        }
    }

    /// Takes a splice back.
    pub fn undo_splice(&mut self, undo: SpliceUndo)
        requires { CanUndoSplice self.old.image undo }
        ensures undone { self.new.image ≡ splice_undone undo self.old.image }
        ensures room { self.new.room ≡ self.old.room }
    {
        self.exchange(undo.from, undo.to);
    }
}

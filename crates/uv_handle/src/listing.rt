//! A handle's record together with the list that the handle is on.
ghost use Rattle.std.specs.Prelude.{◌≡◌, Some, false};
ghost use Rattle.uv_arena.specs.Image.{on_list};
ghost use Rattle.uv_handle.specs.Counted.{counted, record_at, IsCounted, enlist_undone, CanUndoEnlist, delist_undone, CanUndoDelist};
ghost use Rattle.uv_handle.specs.Changes.{IsEnlisted, IsDelisted};

use crate::handles::Handles;
use crate::undo::{DelistUndo, ListUndo};
use uv_arena::Slots;
use uv_ids::Id;
use uv_records::{HandleRecord, HoldsHandle, ListName};

impl Handles {
    /// Writes another record of a handle that is on no list, and puts it at the front of one.
    pub fn enlist<T: HoldsHandle>(
        &mut self,
        slots: &mut Slots<T>,
        id: Id,
        old: HandleRecord,
        new: HandleRecord,
        list: ListName,
    ) -> ListUndo
        requires found { record_at T.held_record slots.old.image id ≡ Some old }
        requires counts { IsCounted T.held_record (counted slots.old.image self.old) }
        requires loose { on_list slots.old.image id ≡ false }
        ensures enlisted { IsEnlisted T.held_record T.of_record (counted slots.old.image self.old)
            (counted slots.new.image self.new) id old new list result }
        ensures pieces { slots.new.room ≡ slots.old.room }
    {
        let changed = self.change(slots, id, old, new);
        let pushed = slots.push_front(list, id);
        ListUndo { changed, pushed }
    }

    /// Takes back that a handle got another record and was put on a list, as a close does.
    pub fn undo_enlist<T: HoldsHandle>(&mut self, slots: &mut Slots<T>, undo: ListUndo)
        requires { CanUndoEnlist T.held_record T.of_record (counted slots.old.image self.old) undo }
        ensures undone { counted slots.new.image self.new ≡ enlist_undone T.held_record T.of_record undo (counted slots.old.image self.old) }
        ensures pieces { slots.new.room ≡ slots.old.room }
    {
        slots.undo_push(undo.pushed);
        self.undo_change(slots, undo.changed);
    }

    /// Writes another record of a handle, and takes the handle off the list that it is on, if it is to leave it.
    pub fn delist<T: HoldsHandle>(
        &mut self,
        slots: &mut Slots<T>,
        id: Id,
        old: HandleRecord,
        new: HandleRecord,
        leaves: bool,
    ) -> DelistUndo
        requires found { record_at T.held_record slots.old.image id ≡ Some old }
        requires counts { IsCounted T.held_record (counted slots.old.image self.old) }
        ensures delisted { IsDelisted T.held_record T.of_record (counted slots.old.image self.old)
            (counted slots.new.image self.new) id old new leaves result }
        ensures pieces { slots.new.room ≡ slots.old.room }
    {
        if leaves && slots.on_list(id) {
            let place = slots.unlink(id);
            let changed = self.change(slots, id, old, new);
            DelistUndo {
                unlinked: Some(place),
                changed,
            }
        } else {
            let changed = self.change(slots, id, old, new);
            DelistUndo {
                unlinked: None,
                changed,
            }
        }
    }

    /// Takes back that a handle got another record and was taken off its list, as a stop does.
    pub fn undo_delist<T: HoldsHandle>(&mut self, slots: &mut Slots<T>, undo: DelistUndo)
        requires { CanUndoDelist T.held_record T.of_record (counted slots.old.image self.old) undo }
        ensures undone { counted slots.new.image self.new ≡ delist_undone T.held_record T.of_record undo (counted slots.old.image self.old) }
        ensures pieces { slots.new.room ≡ slots.old.room }
    {
        self.undo_change(slots, undo.changed);
        if let Some(place) = undo.unlinked {
            slots.undo_unlink(place);
        }
    }
}

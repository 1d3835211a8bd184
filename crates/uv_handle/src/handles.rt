//! The count of active referenced handles, and the changes of records that keep it.
ghost use Rattle.std.specs.Prelude.{◌≡◌, ℕ, ◌+◌, ◌≤◌, Some, IfOk, IfErr};
ghost use Rattle.uv_ids.specs.declared.id.Id.{Id};
ghost use Rattle.uv_records.specs.declared.handle.HandleRecord.{HandleRecord};
ghost use Rattle.uv_records.specs.Count.{one_if, Fits32};
ghost use Rattle.uv_arena.specs.Calls.{RefusesInsert, room_after};
ghost use Rattle.uv_handle.specs.Changes.{IsAdded, IsChanged};
ghost use Rattle.uv_handle.specs.Counted.{counted, record_at, found, IsCounted, record_undone, CanUndoRecord, add_undone, CanUndoAdd};

use crate::undo::{AddUndo, RecordUndo};
use std::marker::Model;
use uv_arena::{InsertFault, Slots};
use uv_ids::{Id, Kind, Var};
use uv_records::{HandleRecord, HoldsHandle, recounted};

/// The count of active referenced handles of an arena.
#[derive(Drop)]
pub struct Handles {
    active: u32,
}

impl Model for Handles {
    ghost use Rattle.std.specs.Prelude.{ℕ};

    ghost Value = { ℕ };

    ghost view = { λ h. h.active };
}

impl Handles {
    /// Those of an arena without handles.
    pub fn new() -> Handles
        ensures { result ≡ 0 }
    {
        Handles { active: 0 }
    }

    /// How many handles are active and referenced.
    pub fn active_referenced(&self) -> u32
        ensures { result ≡ self.now }
    {
        self.active
    }

    /// Puts a new handle in a slot. It isn't put on a list: an async handle goes to the end of its list by a push.
    pub fn add<T: HoldsHandle>(
        &mut self,
        slots: &mut Slots<T>,
        name: Var,
        kind: Kind,
    ) -> Result<(Id, AddUndo), InsertFault>
        requires { IsCounted T.held_record (counted slots.old.image self.old) }
        ensures ok { IfOk result (λ r. IsAdded T.held_record T.of_record
            (counted slots.old.image self.old) (counted slots.new.image self.new) name kind r.0 r.1) }
        ensures err { IfErr result (λ fault. RefusesInsert fault slots.old × (slots.new ≡ slots.old) × (self.new ≡ self.old)) }
        ensures pieces { slots.old.room ≤ slots.new.room }
        ensures piece { IfOk result (λ _. slots.new.room ≡ room_after slots.old) }
    {
        let handle = HandleRecord::new(name, kind);
        let active = self.active;
        let (id, inserted) = slots.insert(T::of(handle))?;
        slots.is_sound();
        self.active = recounted(active, false, handle.keeps_alive());
        Ok((id, AddUndo { inserted, active }))
    }

    /// Takes a new handle back.
    pub fn undo_add<T: HoldsHandle>(&mut self, slots: &mut Slots<T>, undo: AddUndo)
        requires { CanUndoAdd T.held_record (counted slots.old.image self.old) undo }
        ensures undone { counted slots.new.image self.new ≡ add_undone T.held_record undo (counted slots.old.image self.old) }
        ensures pieces { slots.new.room ≡ slots.old.room }
    {
        slots.undo_insert(undo.inserted);
        self.active = undo.active;
    }

    /// Writes another record of a handle, and keeps the count.
    pub fn change<T: HoldsHandle>(
        &mut self,
        slots: &mut Slots<T>,
        id: Id,
        old: HandleRecord,
        new: HandleRecord,
    ) -> RecordUndo
        requires found { record_at T.held_record slots.old.image id ≡ Some old }
        requires counts { IsCounted T.held_record (counted slots.old.image self.old) }
        ensures changed { IsChanged T.held_record T.of_record (counted slots.old.image self.old)
            (counted slots.new.image self.new) id old new result }
        ensures pieces { slots.new.room ≡ slots.old.room }
    {
        slots.is_sound();
        let active = self.active;
        let _ = slots.set(id, T::of(new));
        slots.is_sound();
        self.active = recounted(active, old.keeps_alive(), new.keeps_alive());
        RecordUndo {
            slot: id.slot,
            active,
            old,
        }
    }

    /// Takes a change of a record back.
    pub fn undo_change<T: HoldsHandle>(&mut self, slots: &mut Slots<T>, undo: RecordUndo)
        requires { CanUndoRecord T.held_record T.of_record (counted slots.old.image self.old) undo }
        ensures undone { counted slots.new.image self.new ≡ record_undone T.held_record T.of_record undo (counted slots.old.image self.old) }
        ensures pieces { slots.new.room ≡ slots.old.room }
    {
        slots.undo_set(undo.slot, T::of(undo.old));
        self.active = undo.active;
    }

    /// The count without a handle that kept the loop alive, or didn't.
    pub(crate) fn set_count(&mut self, active: u32, before: bool)
        requires { Fits32 active (one_if before) 0 }
        ensures { self.new + one_if before ≡ active + 0 }
    {
        self.active = recounted(active, before, false);
    }

    /// Puts the count back.
    pub(crate) fn restore(&mut self, active: u32)
        ensures { self.new ≡ active }
    {
        self.active = active;
    }
}

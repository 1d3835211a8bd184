//! Handles are made, changed and closed.
ghost use Rattle.std.specs.Prelude.{◌≡◌, ◌≤◌, Some, None, IfOk, IfErr};
ghost use Rattle.uv_arena.specs.Calls.{RefusesInsert, room_after};
ghost use Rattle.uv_handle.specs.Counted.{record_at};
ghost use Rattle.uv_handle.specs.Changes.{IsChanged};
ghost use Rattle.uv_work.specs.declared.content.Content.TheVariants.{Handle as handle};
ghost use Rattle.uv_memory.specs.Change.{Added as added, Edited as edited};
ghost use Rattle.uv_work.specs.Content.{handle_of};
ghost use Rattle.uv_memory.specs.Image.{held, Untouched, counted_of, timed_of, OnlyHandles, OnlyTimed};
ghost use Rattle.uv_memory.specs.Undo.{Recorded};
ghost use Rattle.uv_memory.specs.Does.{By, IsMade, IsShut, changed, moved_by};

use crate::medium::Medium;
use crate::memory::Memory;
use crate::record::Added;
use crate::small::Small;
use uv_arena::InsertFault;
use uv_ids::{Id, Kind, Var};
use uv_records::{HandleRecord, ListName};
use uv_timer::{TimerParts, reschedule};

impl<P: Copy> Memory<P> {
    /// Makes a handle (uv_timer_init and the like). An async one goes to the end of its list. It takes memory where the piece of the
    /// handle's slot isn't there yet, before it changes anything.
    pub fn init(&mut self, name: Var, kind: Kind) -> Result<Id, InsertFault>
        ensures recorded { IfOk result (λ _. Recorded self.new.step_record (held self.old) (held self.new)) }
        ensures frame { IfOk result (λ _. OnlyHandles (held self.old).image (held self.new).image) }
        ensures made { IfOk result (λ id. By added (λ u. IsMade
            (counted_of (held self.old).image) (counted_of (held self.new).image) name kind id u) self.new.step_record.change) }
        ensures pieces { self.old.slots.room ≤ self.new.slots.room }
        ensures piece { IfOk result (λ _. self.new.slots.room ≡ room_after self.old.slots) }
        ensures err { IfErr result (λ fault. RefusesInsert fault self.old.slots × Untouched self.old self.new) }
    {
        let (id, added) = self.handles.add(&mut self.slots, name, kind)?;
        if kind == Kind::Async {
            self.slots.push_back(ListName::Async, id);
            let listed = true;
            self.step_record
                .note_small(self.place, Small::Added(Added { added, listed }));
        } else {
            let listed = false;
            self.step_record
                .note_small(self.place, Small::Added(Added { added, listed }));
        }
        Ok(id)
    }

    /// Gives a handle another record, and touches no list (uv_ref, uv_unref, uv_timer_set_repeat, uv_async_send).
    pub fn edit(&mut self, id: Id, from: HandleRecord, to: HandleRecord)
        requires found { record_at handle_of (held self.old).image.arena id ≡ Some from }
        ensures recorded { Recorded self.new.step_record (held self.old) (held self.new) }
        ensures frame { OnlyHandles (held self.old).image (held self.new).image }
        ensures does { By edited (λ u. IsChanged handle_of handle
            (counted_of (held self.old).image) (counted_of (held self.new).image) id from to u) self.new.step_record.change }
        ensures pieces { self.new.slots.room ≡ self.old.slots.room }
    {
        let undo = self.handles.change(&mut self.slots, id, from, to);
        self.step_record
            .note_medium(self.place, Medium::Edited(undo));
    }

    /// Closes a handle: it is stopped, and goes to the front of the closing list (uv_close).
    pub fn close(&mut self, id: Id, from: HandleRecord)
        requires found { record_at handle_of (held self.old).image.arena id ≡ Some from }
        ensures recorded { Recorded self.new.step_record (held self.old) (held self.new) }
        ensures frame { OnlyTimed (held self.old).image (held self.new).image }
        ensures does { By moved_by (λ u. IsShut (held self.new).room
            (timed_of (held self.old).image) (timed_of (held self.new).image) id from u) self.new.step_record.change }
        ensures pieces { self.new.slots.room ≡ self.old.slots.room }
    {
        let timer = reschedule(
            TimerParts {
                handles: &mut self.handles,
                slots: &mut self.slots,
                heap: &mut self.heap,
                times: &mut self.times,
            },
            id,
            uv_timer::TimerChange {
                from,
                to: from.closed(),
                leaves: true,
                due: None,
            },
        );
        let pushed = self.slots.push_front(ListName::Closing, id);
        self.step_record.note_moved(self.place, pushed, timer);
    }
}

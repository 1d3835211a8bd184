//! Timers are started and stopped, collected as they are due, and called.
ghost use Rattle.std.specs.Prelude.{◌≡◌, ◌<◌, ◌^◌, ◌-◌, Some, None, IfSome, IfNone};
ghost use Rattle.uv_ids.specs.declared.id.Id.{Id};
ghost use Rattle.uv_records.specs.declared.lists.ListName.TheVariants.{Ready};
ghost use Rattle.uv_arena.specs.Calls.{IsFirst};
ghost use Rattle.uv_handle.specs.Counted.{record_at};
ghost use Rattle.uv_timer.specs.Timers.{IsRescheduled, IsCollected, IsFired, NoneIsDue, NoneIsReady};
ghost use Rattle.uv_work.specs.declared.content.Content.TheVariants.{Handle as handle};
ghost use Rattle.uv_memory.specs.Change.{Timer as timer};
ghost use Rattle.uv_work.specs.Content.{handle_of};
ghost use Rattle.uv_memory.specs.Image.{held, Untouched, timed_of, OnlyTimed};
ghost use Rattle.uv_memory.specs.Undo.{Recorded};
ghost use Rattle.uv_memory.specs.Does.{By, moved_by};

use crate::memory::Memory;
use uv_ids::Id;
use uv_timer::TimerParts;

impl<P: Copy> Memory<P> {
    /// This becomes of a timer that is started, stopped or started again (uv_timer_start, uv_timer_stop, uv_timer_again). The room on
    /// the heap has to be reserved before.
    pub fn reschedule(&mut self, id: Id, change: uv_timer::TimerChange)
        requires found { record_at handle_of (held self.old).image.arena id ≡ Some change.from }
        requires room { IfSome change.due (λ _. id.slot < (held self.old).room) }
        requires starts { IfSome change.due (λ _. (held self.old).image.times.next_start < 2 ^ 64 - 1) }
        ensures recorded { Recorded self.new.step_record (held self.old) (held self.new) }
        ensures frame { OnlyTimed (held self.old).image (held self.new).image }
        ensures does { By timer (λ u. IsRescheduled handle_of handle (held self.new).room
            (timed_of (held self.old).image) (timed_of (held self.new).image) id change u) self.new.step_record.change }
        ensures pieces { self.new.slots.room ≡ self.old.slots.room }
    {
        let undo = uv_timer::reschedule(
            TimerParts {
                handles: &mut self.handles,
                slots: &mut self.slots,
                heap: &mut self.heap,
                times: &mut self.times,
            },
            id,
            change,
        );
        self.step_record.note_timer(self.place, undo);
    }

    /// Moves the first timer, if it is due, to the end of the ready list. None, and nothing changed, where none is due.
    pub fn collect_timer(&mut self) -> Option<Id>
        ensures recorded { IfSome result (λ _. Recorded self.new.step_record (held self.old) (held self.new)) }
        ensures frame { IfSome result (λ _. OnlyTimed (held self.old).image (held self.new).image) }
        ensures does { IfSome result (λ id. By moved_by (λ u. IsCollected handle_of handle (held self.new).room
            (timed_of (held self.old).image) (timed_of (held self.new).image) id u) self.new.step_record.change) }
        ensures none { IfNone result (NoneIsDue handle_of (held self.old).image.arena (held self.old).image.heap (held self.old).image.times.time
            × Untouched self.old self.new) }
        ensures pieces { self.new.slots.room ≡ self.old.slots.room }
    {
        match uv_timer::collect_one(TimerParts {
            handles: &mut self.handles,
            slots: &mut self.slots,
            heap: &mut self.heap,
            times: &mut self.times,
        }) {
            None => None,
            Some((id, undo)) => {
                self.step_record
                    .note_moved(self.place, undo.pushed, undo.timer);
                Some(id)
            }
        }
    }

    /// Takes the front of the ready list off it, and sets it again from now if it repeats: its callback is to be called. None, and
    /// nothing changed, where none is ready.
    pub fn fire_timer(&mut self) -> Option<Id>
        requires room { (d : Id) → IsFirst (held self.old).image.arena Ready d → d.slot < (held self.old).room }
        requires starts { (held self.old).image.times.next_start < 2 ^ 64 - 1 }
        ensures recorded { IfSome result (λ _. Recorded self.new.step_record (held self.old) (held self.new)) }
        ensures frame { IfSome result (λ _. OnlyTimed (held self.old).image (held self.new).image) }
        ensures does { IfSome result (λ id. By timer (λ u. IsFired handle_of handle (held self.new).room
            (timed_of (held self.old).image) (timed_of (held self.new).image) id u) self.new.step_record.change) }
        ensures none { IfNone result (NoneIsReady handle_of (held self.old).image.arena × Untouched self.old self.new) }
        ensures pieces { self.new.slots.room ≡ self.old.slots.room }
    {
        match uv_timer::fire_one(TimerParts {
            handles: &mut self.handles,
            slots: &mut self.slots,
            heap: &mut self.heap,
            times: &mut self.times,
        }) {
            None => None,
            Some((id, fired)) => {
                self.step_record.note_timer(self.place, fired);
                Some(id)
            }
        }
    }
}

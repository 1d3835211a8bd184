//! Records are unwound: part by part, the last first. It takes no memory and can't fail.
ghost use Rattle.std.specs.Prelude.{◌≡◌, ◌<◌, length};
ghost use Rattle.uv_memory.specs.Change as change;
ghost use Rattle.uv_memory.specs.Record.{at_place};
ghost use Rattle.uv_memory.specs.Image.{held};
ghost use Rattle.uv_memory.specs.Parts.{unwind, unwind_parts, undo, naming_parts, change_parts, Bound as bound};
ghost use Rattle.uv_memory.specs.Fit.{IsFit};
ghost use Rattle.uv_memory.specs.Undo.{CanUnwind, CanRename, CanUndo};
ghost use Rattle.uv_memory.specs.Does.{moved_by};
ghost use Rattle.uv_memory.specs.Forms.{smaller, change_of, larger, taken_off};
ghost use Rattle.uv_memory.specs.declared.small.Small.TheVariants.{Passed as passed};

use crate::large::Large;
use crate::last::Lying;
use crate::medium::Medium;
use crate::memory::Memory;
use crate::record::{Added, Naming};
use crate::small::Small;
use uv_arena::PushUndo;
use uv_handle::{DelistUndo, RecordUndo, WalkUndo, undo_take};
use uv_heap::HeapRemoveUndo;
use uv_ids::{Id, Var};
use uv_records::{Named, WatcherKind};
use uv_timer::{CollectUndo, TimerParts, TimerUndo, undo_collect_one, undo_reschedule};
use uv_work::Content;

impl<P: Copy> Memory<P> {
    /// Gives back the very memory from before the step of this record, where the loop stood at this place. The record may say another
    /// one.
    #[inline(always)]
    pub fn unwind_at(&mut self, place: P)
        requires { CanUnwind (held self.old).room (at_place place self.old.step_record) (held self.old).image }
        ensures image { (held self.new).image ≡ unwind (at_place place self.old.step_record) (held self.old).image }
        ensures fit { IsFit (held self.new).image }
        ensures room { (held self.new).room ≡ (held self.old).room }
        ensures pieces { self.new.slots.room ≡ self.old.slots.room }
    {
        let naming = self.step_record.naming();
        self.place = place;
        self.unname(naming);
        self.undo();
    }

    /// What became of a name is undone.
    fn unname(&mut self, naming: Naming)
        requires { CanRename naming (held self.old).image }
        ensures image { (held self.new).image ≡ unwind_parts (naming_parts naming) (held self.old).image }
        ensures room { (held self.new).room ≡ (held self.old).room }
        ensures pieces { self.new.slots.room ≡ self.old.slots.room }
        ensures same { self.new.step_record ≡ self.old.step_record }
    {
        match naming {
            Naming::Same => {}
            Naming::Unbound(name) => self.rebind(name, None),
            Naming::Bound(name, id) => self.rebind(name, Some(id)),
            Naming::Called(name, callback, count) => {
                let named = self.named(name);
                let calls = named.calls.with(callback, count);
                self.names[name.0 as usize] = Named {
                    id: named.id,
                    calls,
                };
            }
        }
    }

    /// A name is bound to this again, or to nothing.
    fn rebind(&mut self, name: Var, id: Option<Id>)
        requires { name.0 < length (held self.old).image.names }
        ensures image { (held self.new).image ≡ undo (bound name id) (held self.old).image }
        ensures room { (held self.new).room ≡ (held self.old).room }
        ensures pieces { self.new.slots.room ≡ self.old.slots.room }
        ensures same { self.new.step_record ≡ self.old.step_record }
    {
        let calls = self.named(name).calls;
        self.names[name.0 as usize] = Named { id, calls };
    }

    /// The change of the last step is undone.
    fn undo(&mut self)
        requires can { CanUndo (held self.old).room self.old.step_record.change (held self.old).image }
        requires fit { IsFit (unwind_parts (change_parts self.old.step_record.change) (held self.old).image) }
        ensures image { (held self.new).image ≡ unwind_parts (change_parts self.old.step_record.change) (held self.old).image }
        ensures room { (held self.new).room ≡ (held self.old).room }
        ensures pieces { self.new.slots.room ≡ self.old.slots.room }
    {
        match self.step_record.lying() {
            Lying::Small(small) => {
                let small = *small;
                self.undo_small(small);
            }
            Lying::Medium(medium) => {
                let medium = *medium;
                self.undo_medium(medium);
            }
            Lying::Large(large) => {
                let large = *large;
                self.undo_large(large);
            }
        }
    }

    /// A small change is undone.
    fn undo_small(&mut self, change: Small)
        requires can { CanUndo (held self.old).room (smaller change) (held self.old).image }
        requires fit { IsFit (unwind_parts (change_parts (smaller change)) (held self.old).image) }
        ensures image { (held self.new).image ≡ unwind_parts (change_parts (smaller change)) (held self.old).image }
        ensures room { (held self.new).room ≡ (held self.old).room }
        ensures pieces { self.new.slots.room ≡ self.old.slots.room }
    {
        match change {
            Small::Nothing => {}
            Small::Time(time) => self.times.time = time,
            Small::Clock(clock) => self.clock = clock,
            Small::Stop(stop) => self.stop_flag = stop,
            Small::Idled(idled) => self.idled = idled,
            Small::Iterated(time, idled) => {
                self.idled = idled;
                self.times.time = time;
            }
            Small::Added(undo) => self.undo_added(undo),
            Small::Begun(undo) => self.slots.undo_splice(undo),
            Small::Polled(undo) => {
                self.slots.undo_splice(undo.spliced);
                self.times.time = undo.time;
            }
            Small::Passed(kind) => self.undo_passed(kind),
            Small::Queued(undo) => self.requests.undo_queue(&mut self.slots, undo),
            Small::Taken(undo) => self.requests.undo_take(&mut self.slots, undo),
            Small::Finished(undo) => self.requests.undo_finish(&mut self.slots, undo),
        }
    }

    /// A medium change is undone.
    fn undo_medium(&mut self, change: Medium)
        requires can { CanUndo (held self.old).room (change_of change) (held self.old).image }
        requires fit { IsFit (unwind_parts (change_parts (change_of change)) (held self.old).image) }
        ensures image { (held self.new).image ≡ unwind_parts (change_parts (change_of change)) (held self.old).image }
        ensures room { (held self.new).room ≡ (held self.old).room }
        ensures pieces { self.new.slots.room ≡ self.old.slots.room }
    {
        match change {
            Medium::Edited(undo) => self.handles.undo_change(&mut self.slots, undo),
            Medium::Enlisted(undo) => self.handles.undo_enlist(&mut self.slots, undo),
            Medium::Delisted(undo) => self.handles.undo_delist(&mut self.slots, undo),
            Medium::Reset(delisted) => self.undo_timer(TimerUndo {
                removed: None,
                delisted,
                set: None,
            }),
            Medium::Fired(place, changed, set) => self.undo_timer(TimerUndo {
                removed: None,
                delisted: DelistUndo {
                    unlinked: Some(place),
                    changed,
                },
                set: Some(set),
            }),
            Medium::Started(changed, set) => self.undo_timer(TimerUndo {
                removed: None,
                delisted: DelistUndo {
                    unlinked: None,
                    changed,
                },
                set: Some(set),
            }),
            Medium::Stopped(removed, changed) => self.undo_timer(off_heap(removed, changed)),
            Medium::Collected(pushed, removed, changed) => {
                let timer = off_heap(removed, changed);
                self.undo_moved(CollectUndo { timer, pushed });
            }
            Medium::Woken(kind, woken) => self.undo_walked(WalkUndo {
                kind,
                woken: Some(woken),
            }),
            Medium::Closed(undo, handle) => {
                let content = Content::Handle(handle);
                self.handles
                    .undo_take_closing(&mut self.slots, undo, content);
            },
            Medium::Cancelled(undo) => self.requests.undo_cancel(&mut self.slots, undo),
        }
    }

    /// A large change is undone.
    fn undo_large(&mut self, change: Large)
        requires can { CanUndo (held self.old).room (larger change) (held self.old).image }
        requires fit { IsFit (unwind_parts (change_parts (larger change)) (held self.old).image) }
        ensures image { (held self.new).image ≡ unwind_parts (change_parts (larger change)) (held self.old).image }
        ensures room { (held self.new).room ≡ (held self.old).room }
        ensures pieces { self.new.slots.room ≡ self.old.slots.room }
    {
        match change {
            Large::Timer(undo) => self.undo_timer(undo),
            Large::Moved(pushed, timer) => self.undo_moved(CollectUndo { timer, pushed }),
            Large::Ended(undo, request) => {
                self.requests.undo_collect(&mut self.slots, undo, request);
            }
        }
    }

    fn undo_added(&mut self, undo: Added)
        requires can { CanUndo (held self.old).room (change.Added undo) (held self.old).image }
        requires fit { IsFit (unwind_parts (change_parts (change.Added undo)) (held self.old).image) }
        ensures image { (held self.new).image ≡ unwind_parts (change_parts (change.Added undo)) (held self.old).image }
        ensures room { (held self.new).room ≡ (held self.old).room }
        ensures pieces { self.new.slots.room ≡ self.old.slots.room }
    {
        if undo.listed {
            self.slots.undo_push(PushUndo {
                slot: undo.added.inserted.slot,
            });
        }
        self.handles.undo_add(&mut self.slots, undo.added);
    }

    fn undo_timer(&mut self, undo: TimerUndo)
        requires can { CanUndo (held self.old).room (change.Timer undo) (held self.old).image }
        requires fit { IsFit (unwind_parts (change_parts (change.Timer undo)) (held self.old).image) }
        ensures image { (held self.new).image ≡ unwind_parts (change_parts (change.Timer undo)) (held self.old).image }
        ensures room { (held self.new).room ≡ (held self.old).room }
        ensures pieces { self.new.slots.room ≡ self.old.slots.room }
    {
        undo_reschedule(
            TimerParts {
                handles: &mut self.handles,
                slots: &mut self.slots,
                heap: &mut self.heap,
                times: &mut self.times,
            },
            undo,
        );
    }

    fn undo_moved(&mut self, undo: CollectUndo)
        requires can { CanUndo (held self.old).room (moved_by undo) (held self.old).image }
        requires fit { IsFit (unwind_parts (change_parts (moved_by undo)) (held self.old).image) }
        ensures image { (held self.new).image ≡ unwind_parts (change_parts (moved_by undo)) (held self.old).image }
        ensures room { (held self.new).room ≡ (held self.old).room }
        ensures pieces { self.new.slots.room ≡ self.old.slots.room }
    {
        undo_collect_one(
            TimerParts {
                handles: &mut self.handles,
                slots: &mut self.slots,
                heap: &mut self.heap,
                times: &mut self.times,
            },
            undo,
        );
    }

    /// Of a watcher that no send had woken the slot alone is put back.
    fn undo_passed(&mut self, kind: WatcherKind)
        requires can { CanUndo (held self.old).room (smaller (passed kind)) (held self.old).image }
        requires fit { IsFit (unwind_parts (change_parts (smaller (passed kind))) (held self.old).image) }
        ensures image { (held self.new).image ≡ unwind_parts (change_parts (smaller (passed kind))) (held self.old).image }
        ensures room { (held self.new).room ≡ (held self.old).room }
        ensures pieces { self.new.slots.room ≡ self.old.slots.room }
    {
        self.slots.undo_rotate(kind.yet(), kind.list());
    }

    fn undo_walked(&mut self, undo: WalkUndo)
        requires can { CanUndo (held self.old).room (change.Walked undo) (held self.old).image }
        requires fit { IsFit (unwind_parts (change_parts (change.Walked undo)) (held self.old).image) }
        ensures image { (held self.new).image ≡ unwind_parts (change_parts (change.Walked undo)) (held self.old).image }
        ensures room { (held self.new).room ≡ (held self.old).room }
        ensures pieces { self.new.slots.room ≡ self.old.slots.room }
    {
        undo_take(&mut self.handles, &mut self.slots, undo);
    }
}

/// A timer that was on no list was taken off the heap.
fn off_heap(removed: HeapRemoveUndo, changed: RecordUndo) -> TimerUndo
    ensures { result ≡ taken_off removed changed }
{
    TimerUndo {
        removed: Some(removed),
        delisted: DelistUndo {
            unlinked: None,
            changed,
        },
        set: None,
    }
}

//! Watchers are started, handles stopped, and watchers called in their sections.
ghost use Rattle.std.specs.Prelude.{◌≡◌, Some, None, IfSome, IfNone, false, []};
ghost use Rattle.uv_records.specs.declared.lists.ListName.TheVariants.{Closing, ClosingYet};
ghost use Rattle.uv_records.specs.Lists.{watcher_kind, yet_of};
ghost use Rattle.uv_records.specs.Refusals.{start_watcher_refusal};
ghost use Rattle.uv_arena.specs.Image.{members, on_list};
ghost use Rattle.uv_arena.specs.Calls.{IsSpliced};
ghost use Rattle.uv_handle.specs.Counted.{record_at};
ghost use Rattle.uv_handle.specs.Changes.{IsTaken};
ghost use Rattle.uv_handle.specs.Watch.{IsStarted, IsStopped, IsBegun, IsMovedOn};
ghost use Rattle.uv_work.specs.declared.content.Content.{Content};
ghost use Rattle.uv_work.specs.declared.content.Content.TheVariants.{Handle as handle};
ghost use Rattle.uv_memory.specs.Change.{Enlisted as enlisted, Delisted as delisted, Begun as begun, Walked as walked};
ghost use Rattle.uv_work.specs.Content.{handle_of};
ghost use Rattle.uv_memory.specs.Image.{held, Untouched, counted_of, OnlyHandles, OnlySlots};
ghost use Rattle.uv_memory.specs.Undo.{Recorded};
ghost use Rattle.uv_memory.specs.Does.{By, FirstIs, NoHandleFirst, closed_by};

use crate::medium::Medium;
use crate::memory::Memory;
use crate::small::Small;
use uv_handle::handle_at;
use uv_ids::Id;
use uv_records::{HandleRecord, ListName, WatcherKind};

impl<P: Copy> Memory<P> {
    /// Starts an idle, prepare or check handle that is inactive and on no list: it goes to the front of its list (uv_idle_start and the
    /// like).
    pub fn start_watcher(&mut self, id: Id, from: HandleRecord, kind: WatcherKind)
        requires found { record_at handle_of (held self.old).image.arena id ≡ Some from }
        requires kind { watcher_kind from.kind ≡ Some kind }
        requires allowed { start_watcher_refusal from ≡ None }
        requires inactive { from.active ≡ false }
        requires loose { on_list (held self.old).image.arena id ≡ false }
        ensures recorded { Recorded self.new.step_record (held self.old) (held self.new) }
        ensures frame { OnlyHandles (held self.old).image (held self.new).image }
        ensures does { By enlisted (λ u. IsStarted handle_of handle
            (counted_of (held self.old).image) (counted_of (held self.new).image) id u) self.new.step_record.change }
        ensures pieces { self.new.slots.room ≡ self.old.slots.room }
    {
        let undo = uv_handle::enlist(&mut self.handles, &mut self.slots, id, from, kind);
        self.step_record
            .note_medium(self.place, Medium::Enlisted(undo));
    }

    /// Stops a handle that isn't a timer (uv_idle_stop and the like; uv_read_stop). One that closes stays on the closing list.
    pub fn stop_watcher(&mut self, id: Id, from: HandleRecord)
        requires found { record_at handle_of (held self.old).image.arena id ≡ Some from }
        ensures recorded { Recorded self.new.step_record (held self.old) (held self.new) }
        ensures frame { OnlyHandles (held self.old).image (held self.new).image }
        ensures does { By delisted (λ u. IsStopped handle_of handle
            (counted_of (held self.old).image) (counted_of (held self.new).image) id from u) self.new.step_record.change }
        ensures pieces { self.new.slots.room ≡ self.old.slots.room }
    {
        let undo = uv_handle::halt(&mut self.handles, &mut self.slots, id, from);
        self.step_record
            .note_medium(self.place, Medium::Delisted(undo));
    }

    /// Begins a section of watchers: the whole list is yet to run.
    pub fn begin(&mut self, kind: WatcherKind)
        requires empty { members (held self.old).image.arena (yet_of kind) ≡ [] }
        ensures recorded { Recorded self.new.step_record (held self.old) (held self.new) }
        ensures frame { OnlySlots (held self.old).image (held self.new).image }
        ensures does { By begun (λ u. IsBegun (held self.old).image.arena (held self.new).image.arena kind u) self.new.step_record.change }
        ensures pieces { self.new.slots.room ≡ self.old.slots.room }
    {
        let undo = uv_handle::begin(&mut self.slots, kind);
        self.step_record.note_small(self.place, Small::Begun(undo));
    }

    /// Moves the front of those yet to run to the end of its list: its id, its record as it was, and whether a callback was due by a
    /// send. None, and nothing changed, where there is none.
    pub fn walk(&mut self, kind: WatcherKind) -> Option<(Id, HandleRecord, bool)>
        ensures recorded { IfSome result (λ _. Recorded self.new.step_record (held self.old) (held self.new)) }
        ensures frame { IfSome result (λ _. OnlyHandles (held self.old).image (held self.new).image) }
        ensures front { IfSome result (λ r. FirstIs (held self.old).image.arena (yet_of kind) r.0 r.1) }
        ensures does { IfSome result (λ r. By walked (λ u. IsMovedOn handle_of handle
            (counted_of (held self.old).image) (counted_of (held self.new).image) kind r.0 r.2 u) self.new.step_record.change) }
        ensures none { IfNone result (NoHandleFirst (held self.old).image.arena (yet_of kind) × Untouched self.old self.new) }
        ensures pieces { self.new.slots.room ≡ self.old.slots.room }
    {
        let (id, handle) = self.first_handle(kind.yet())?;
        let (pending, undo) = uv_handle::move_on(&mut self.handles, &mut self.slots, kind, id);
        self.step_record.note_walked(self.place, undo);
        Some((id, handle, pending))
    }

    /// Begins the closing section.
    pub fn begin_closing(&mut self)
        requires empty { members (held self.old).image.arena ClosingYet ≡ [] }
        ensures recorded { Recorded self.new.step_record (held self.old) (held self.new) }
        ensures frame { OnlySlots (held self.old).image (held self.new).image }
        ensures does { By begun (λ u. IsSpliced
            (held self.old).image.arena (held self.new).image.arena Closing ClosingYet u) self.new.step_record.change }
        ensures pieces { self.new.slots.room ≡ self.old.slots.room }
    {
        let undo = self.slots.splice(ListName::Closing, ListName::ClosingYet);
        self.step_record.note_small(self.place, Small::Begun(undo));
    }

    /// Takes the front of those that have yet to be closed off its list, and frees its slot: its id and its record, whose close callback
    /// is to be called. None, and nothing changed, where there is none.
    pub fn end_handle(&mut self) -> Option<(Id, HandleRecord)>
        ensures recorded { IfSome result (λ _. Recorded self.new.step_record (held self.old) (held self.new)) }
        ensures frame { IfSome result (λ _. OnlyHandles (held self.old).image (held self.new).image) }
        ensures does { IfSome result (λ r. By (closed_by r.1) (λ u. IsTaken handle_of handle
            (counted_of (held self.old).image) (counted_of (held self.new).image) r.0 (handle r.1) u) self.new.step_record.change) }
        ensures none { IfNone result (NoHandleFirst (held self.old).image.arena ClosingYet × Untouched self.old self.new) }
        ensures pieces { self.new.slots.room ≡ self.old.slots.room }
    {
        let (id, handle) = self.first_handle(ListName::ClosingYet)?;
        let (_, undo) = self.handles.take_closing(&mut self.slots, id);
        self.step_record
            .note_medium(self.place, Medium::Closed(undo, handle));
        Some((id, handle))
    }

    /// The front of a list and its record, if it is a handle.
    fn first_handle(&self, list: ListName) -> Option<(Id, HandleRecord)>
        ensures some { IfSome result (λ r. FirstIs (held self.now).image.arena list r.0 r.1) }
        ensures none { IfNone result (NoHandleFirst (held self.now).image.arena list) }
    {
        match self.slots.first(list) {
            None => None,
            Some(id) => match handle_at(&self.slots, id) {
                Err(_) => None,
                Ok(before) => Some((id, before)),
            },
        }
    }
}

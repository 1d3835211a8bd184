//! Requests are queued, taken, finished, cancelled, and called back.
ghost use Rattle.std.specs.Prelude.{◌≡◌, ◌≤◌, Option, Some, None, IfOk, IfErr, IfSome, IfNone, [], slice_get};
ghost use Rattle.uv_records.specs.declared.lists.ListName.TheVariants.{DoneYet, Waiting};
ghost use Rattle.uv_arena.specs.Calls.{RefusesInsert, room_after, IsFirst};
ghost use Rattle.uv_arena.specs.Image.{members};
ghost use Rattle.uv_work.specs.Requests.{reopened, cancel_refusal, job_of};
ghost use Rattle.uv_work.specs.Pool.{waits};
ghost use Rattle.uv_requests.specs.Working.{found, pool_of, request_in as held_request};
ghost use Rattle.uv_requests.specs.Calls.{RefusesTake, RefusesFinish, IsQueued, IsTaken, IsFinished, IsCancelled, IsBegun, IsCollected};
ghost use Rattle.uv_work.specs.declared.content.Content.TheVariants.{Request as asked};
ghost use Rattle.uv_memory.specs.Change.{Queued as queued, Taken as taken, Finished as finished, Cancelled as cancelled, Begun as begun, Polled as polled};
ghost use Rattle.uv_work.specs.Content.{request_of};
ghost use Rattle.uv_memory.specs.Image.{held, Untouched, working_of, OnlySlots, OnlyWork};
ghost use Rattle.uv_memory.specs.Undo.{Recorded};
ghost use Rattle.uv_memory.specs.Does.{By, ended_by};

use crate::large::Large;
use crate::medium::Medium;
use crate::memory::Memory;
use crate::record::Polled;
use crate::small::Small;
use uv_arena::InsertFault;
use uv_ids::{Code, Id, Why};
use uv_work::{Request, WorkResult};

impl<P: Copy> Memory<P> {
    /// Puts a request in a slot, open, behind those that wait (uv_queue_work). It takes memory where the slot's piece isn't there yet,
    /// before it changes anything.
    pub fn queue(&mut self, request: Request) -> Result<Id, InsertFault>
        ensures recorded { IfOk result (λ _. Recorded self.new.step_record (held self.old) (held self.new)) }
        ensures frame { IfOk result (λ _. OnlyWork (held self.old).image (held self.new).image) }
        ensures does { IfOk result (λ id. By queued (λ u. IsQueued request_of asked
            (working_of (held self.old).image) (working_of (held self.new).image) (reopened request) id u) self.new.step_record.change) }
        ensures pieces { self.old.slots.room ≤ self.new.slots.room }
        ensures piece { IfOk result (λ _. self.new.slots.room ≡ room_after self.old.slots) }
        ensures err { IfErr result (λ fault. RefusesInsert fault self.old.slots × Untouched self.old self.new) }
    {
        self.slots.is_sound();
        let (id, undo) = self.requests.queue(&mut self.slots, request)?;
        self.step_record.note_small(self.place, Small::Queued(undo));
        Ok(id)
    }

    /// What a worker may take: the request that waits longest. Refused if there is no such worker, if it runs one already, or if none
    /// waits.
    pub fn next_work(&self, worker: u16) -> Result<(Id, Request), Why>
        ensures idle { IfOk result (λ r. slice_get (held self.now).image.running.workers worker ≡ Some None) }
        ensures first { IfOk result (λ r. IsFirst (held self.now).image.arena Waiting r.0) }
        ensures request { IfOk result (λ r. held_request request_of (held self.now).image.arena r.0 ≡ Some r.1) }
        ensures err { IfErr result (λ why. RefusesTake request_of (working_of (held self.now).image) worker why) }
    {
        self.requests.next_work(&self.slots, worker)
    }

    /// A worker that runs nothing takes this request, which waits longest.
    pub fn take(&mut self, worker: u16, id: Id)
        requires idle { slice_get (held self.old).image.running.workers worker ≡ Some None }
        requires first { IsFirst (held self.old).image.arena Waiting id }
        ensures recorded { Recorded self.new.step_record (held self.old) (held self.new) }
        ensures frame { OnlyWork (held self.old).image (held self.new).image }
        ensures does { By taken (λ u. IsTaken request_of
            (working_of (held self.old).image) (working_of (held self.new).image) worker id u) self.new.step_record.change }
        ensures pieces { self.new.slots.room ≡ self.old.slots.room }
    {
        let undo = self.requests.start_work(&mut self.slots, worker, id);
        self.step_record.note_small(self.place, Small::Taken(undo));
    }

    /// What a worker may finish: the request that it runs. Refused if there is no such worker, or if it runs nothing.
    pub fn work_of(&self, worker: u16) -> Result<(Id, Request), Why>
        ensures runs { IfOk result (λ r. slice_get (held self.now).image.running.workers worker ≡ Some (Some r.0)) }
        ensures request { IfOk result (λ r. held_request request_of (held self.now).image.arena r.0 ≡ Some r.1) }
        ensures err { IfErr result (λ why. RefusesFinish request_of (working_of (held self.now).image) worker why) }
    {
        self.requests.work_of(&self.slots, worker)
    }

    /// A worker hands in the result of this request, which it runs.
    pub fn finish(&mut self, worker: u16, id: Id, request: Request, work: WorkResult)
        requires runs { slice_get (held self.old).image.running.workers worker ≡ Some (Some id) }
        requires found { held_request request_of (held self.old).image.arena id ≡ Some request }
        requires job { job_of id request ≡ work.job }
        ensures recorded { Recorded self.new.step_record (held self.old) (held self.new) }
        ensures frame { OnlyWork (held self.old).image (held self.new).image }
        ensures does { By finished (λ u. IsFinished request_of asked
            (working_of (held self.old).image) (working_of (held self.new).image) worker id work.job work.digest u) self.new.step_record.change }
        ensures pieces { self.new.slots.room ≡ self.old.slots.room }
    {
        let undo = self
            .requests
            .hand_in(&mut self.slots, worker, id, request, work);
        self.step_record
            .note_small(self.place, Small::Finished(undo));
    }

    /// Cancels a request that waits (uv_cancel).
    pub fn cancel(&mut self, id: Id) -> Result<(), Code>
        ensures recorded { IfOk result (λ _. Recorded self.new.step_record (held self.old) (held self.new)) }
        ensures frame { IfOk result (λ _. OnlyWork (held self.old).image (held self.new).image) }
        ensures does { IfOk result (λ _. By cancelled (λ u. IsCancelled request_of asked
            (working_of (held self.old).image) (working_of (held self.new).image) id u) self.new.step_record.change) }
        ensures err { IfErr result (λ code. (cancel_refusal (found request_of (held self.old).image.arena id)
            (waits (pool_of request_of (working_of (held self.old).image)).waiting id) ≡ Some code) × Untouched self.old self.new) }
        ensures pieces { self.new.slots.room ≡ self.old.slots.room }
    {
        match self.requests.cancel(&mut self.slots, id) {
            Err(code) => Err(code),
            Ok(undo) => {
                self.step_record
                    .note_medium(self.place, Medium::Cancelled(undo));
                Ok(())
            }
        }
    }

    /// Begins the done section: all that are done have yet to be called back.
    pub fn begin_done(&mut self)
        requires empty { members (held self.old).image.arena DoneYet ≡ [] }
        ensures recorded { Recorded self.new.step_record (held self.old) (held self.new) }
        ensures frame { OnlySlots (held self.old).image (held self.new).image }
        ensures does { By begun (λ u. IsBegun request_of
            (working_of (held self.old).image) (working_of (held self.new).image) u) self.new.step_record.change }
        ensures pieces { self.new.slots.room ≡ self.old.slots.room }
    {
        let undo = self.requests.begin(&mut self.slots);
        self.step_record.note_small(self.place, Small::Begun(undo));
    }

    /// The poll is over: the loop's time is that of the clock, and the done section begins.
    pub fn leave_poll(&mut self)
        requires empty { members (held self.old).image.arena DoneYet ≡ [] }
        ensures recorded { Recorded self.new.step_record (held self.old) (held self.new) }
        ensures frame { (held self.new).image ≡ record (held self.old).image {
          arena = (held self.new).image.arena;
          times = record (held self.old).image.times { time = (held self.old).image.clock };
        } }
        ensures does { By polled (λ u. IsBegun request_of
            (working_of (held self.old).image) (working_of (held self.new).image) u.spliced) self.new.step_record.change }
        ensures pieces { self.new.slots.room ≡ self.old.slots.room }
    {
        let spliced = self.requests.begin(&mut self.slots);
        let time = self.times.time;
        self.times.time = self.clock;
        self.step_record
            .note_small(self.place, Small::Polled(Polled { time, spliced }));
    }

    /// Takes the front of those that have yet to be called back off its list, and frees its slot: the request as it was. None, and
    /// nothing changed, where there is none.
    pub fn end_request(&mut self) -> Option<(Id, Request)>
        ensures recorded { IfSome result (λ _. Recorded self.new.step_record (held self.old) (held self.new)) }
        ensures frame { IfSome result (λ _. OnlyWork (held self.old).image (held self.new).image) }
        ensures does { IfSome result (λ r. By (ended_by r.1) (λ u. IsCollected request_of asked
            (working_of (held self.old).image) (working_of (held self.new).image) r.0 r.1 u) self.new.step_record.change) }
        ensures none { IfNone result ((members (held self.old).image.arena DoneYet ≡ []) × Untouched self.old self.new) }
        ensures pieces { self.new.slots.room ≡ self.old.slots.room }
    {
        match self.requests.collect(&mut self.slots) {
            None => None,
            Some(ended) => {
                self.step_record
                    .note_large(self.place, Large::Ended(ended.2, ended.1));
                Some((ended.0, ended.1))
            }
        }
    }
}

//! The workers take requests and finish them.
ghost use Rattle.std.specs.Prelude.{◌≡◌, Option, Some, None, IfOk, IfErr, slice_get};
ghost use Rattle.uv_records.specs.declared.lists.ListName.TheVariants.{Waiting};
ghost use Rattle.uv_arena.specs.Calls.{IsFirst};
ghost use Rattle.uv_work.specs.Requests.{job_of};
ghost use Rattle.uv_requests.specs.Working.{working, request_in, IsWork};
ghost use Rattle.uv_requests.specs.Undo.{take_undone, finish_undone, CanUndoTake, CanUndoFinish};
ghost use Rattle.uv_requests.specs.Calls.{RefusesTake, RefusesFinish, IsTaken, IsFinished};

use crate::requests::{Requests, reopen, request_at};
use crate::undo::{FinishUndo, TakeWorkUndo};
use uv_arena::{PushUndo, Slots};
use uv_ids::{Id, Why};
use uv_records::ListName;
use uv_work::{HoldsWork, Request, WorkResult};

impl Requests {
    /// What a worker may take: the request that waits longest. Refused if there is no such worker, if it runs one already, or if
    /// none waits.
    pub fn next_work<T: HoldsWork>(
        &self,
        slots: &Slots<T>,
        worker: u16,
    ) -> Result<(Id, Request), Why>
        requires { IsWork T.held_request (working slots.now.image self.now) }
        ensures idle { IfOk result (λ r. slice_get self.now.workers worker ≡ Some None) }
        ensures first { IfOk result (λ r. IsFirst slots.now.image Waiting r.0) }
        ensures request { IfOk result (λ r. request_in T.held_request slots.now.image r.0 ≡ Some r.1) }
        ensures err { IfErr result (λ why. RefusesTake T.held_request (working slots.now.image self.now) worker why) }
    {
        match self.running(worker) {
            None => Err(Why::NoWorker),
            Some(Some(_)) => Err(Why::BusyWorker),
            Some(None) => match slots.first(ListName::Waiting) {
                None => Err(Why::NoWork),
                Some(id) => match request_at(slots, id) {
                    Err(_) => unreachable!(),
                    Ok(request) => Ok((id, request)),
                },
            },
        }
    }

    /// A worker that runs nothing takes this request, which waits longest.
    pub fn start_work<T: HoldsWork>(
        &mut self,
        slots: &mut Slots<T>,
        worker: u16,
        id: Id,
    ) -> TakeWorkUndo
        requires work { IsWork T.held_request (working slots.old.image self.old) }
        requires idle { slice_get self.old.workers worker ≡ Some None }
        requires first { IsFirst slots.old.image Waiting id }
        ensures taken { IsTaken T.held_request (working slots.old.image self.old) (working slots.new.image self.new) worker id result }
        ensures pieces { slots.new.room ≡ slots.old.room }
    {
        slots.is_sound();
        let unlinked = slots.unlink(id);
        self.set_running(worker, Some(id));
        TakeWorkUndo { worker, unlinked }
    }

    /// Takes a take back.
    pub fn undo_take<T: HoldsWork>(&mut self, slots: &mut Slots<T>, undo: TakeWorkUndo)
        requires { CanUndoTake T.held_request (working slots.old.image self.old) undo }
        ensures undone { working slots.new.image self.new ≡ take_undone undo (working slots.old.image self.old) }
        ensures pieces { slots.new.room ≡ slots.old.room }
    {
        slots.undo_unlink(undo.unlinked);
        self.set_running(undo.worker, None);
    }

    /// What a worker may finish: the request that it runs. Refused if there is no such worker, or if it runs nothing.
    pub fn work_of<T: HoldsWork>(&self, slots: &Slots<T>, worker: u16) -> Result<(Id, Request), Why>
        requires { IsWork T.held_request (working slots.now.image self.now) }
        ensures runs { IfOk result (λ r. slice_get self.now.workers worker ≡ Some (Some r.0)) }
        ensures request { IfOk result (λ r. request_in T.held_request slots.now.image r.0 ≡ Some r.1) }
        ensures err { IfErr result (λ why. RefusesFinish T.held_request (working slots.now.image self.now) worker why) }
    {
        match self.running(worker) {
            None => Err(Why::NoWorker),
            Some(None) => Err(Why::IdleWorker),
            Some(Some(id)) => match request_at(slots, id) {
                Err(_) => unreachable!(),
                Ok(request) => Ok((id, request)),
            },
        }
    }

    /// A worker hands in the result of this request, which it runs: the slot keeps the digest, and the request is done behind those
    /// that are done already.
    pub fn hand_in<T: HoldsWork>(
        &mut self,
        slots: &mut Slots<T>,
        worker: u16,
        id: Id,
        request: Request,
        work: WorkResult,
    ) -> FinishUndo
        requires work { IsWork T.held_request (working slots.old.image self.old) }
        requires runs { slice_get self.old.workers worker ≡ Some (Some id) }
        requires found { request_in T.held_request slots.old.image id ≡ Some request }
        requires job { job_of id request ≡ work.job }
        ensures finished { IsFinished T.held_request T.of_request
            (working slots.old.image self.old) (working slots.new.image self.new) worker id work.job work.digest result }
        ensures pieces { slots.new.room ≡ slots.old.room }
    {
        slots.is_sound();
        let _ = slots.set(id, T::of(request.finished(work)));
        slots.push_back(ListName::Done, id);
        self.set_running(worker, None);
        FinishUndo { worker, id }
    }

    /// Takes a finish back.
    pub fn undo_finish<T: HoldsWork>(&mut self, slots: &mut Slots<T>, undo: FinishUndo)
        requires { CanUndoFinish T.held_request T.of_request (working slots.old.image self.old) undo }
        ensures undone { working slots.new.image self.new ≡ finish_undone T.held_request T.of_request undo (working slots.old.image self.old) }
        ensures pieces { slots.new.room ≡ slots.old.room }
    {
        slots.undo_push(PushUndo { slot: undo.id.slot });
        reopen(slots, undo.id);
        self.set_running(undo.worker, Some(undo.id));
    }
}

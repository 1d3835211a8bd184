//! Requests are queued, and cancelled while they wait.
ghost use Rattle.std.specs.Prelude.{◌≡◌, ◌≤◌, Option, Some, None, IfOk, IfErr, true};
ghost use Rattle.uv_arena.specs.Image.{on_list};
ghost use Rattle.uv_arena.specs.Calls.{RefusesInsert, room_after};
ghost use Rattle.uv_work.specs.Requests.{is_open, reopened, cancel_refusal};
ghost use Rattle.uv_work.specs.Pool.{waits};
ghost use Rattle.uv_requests.specs.Working.{working, found, request_in, pool_of, IsWork};
ghost use Rattle.uv_requests.specs.Undo.{queue_undone, cancel_undone, CanUndoQueue, CanUndoCancel};
ghost use Rattle.uv_requests.specs.Calls.{IsQueued, IsCancelled};

use crate::requests::{Requests, reopen, request_at};
use crate::undo::{CancelUndo, QueueUndo};
use uv_arena::{InsertFault, PushUndo, Slots};
use uv_ids::{Code, Id};
use uv_records::ListName;
use uv_work::{HoldsWork, Request};

impl Requests {
    /// Puts a request in a slot, open, behind those that wait (uv_queue_work).
    pub fn queue<T: HoldsWork>(
        &mut self,
        slots: &mut Slots<T>,
        request: Request,
    ) -> Result<(Id, QueueUndo), InsertFault>
        requires { IsWork T.held_request (working slots.old.image self.old) }
        ensures ok { IfOk result (λ r. IsQueued T.held_request T.of_request
            (working slots.old.image self.old) (working slots.new.image self.new) (reopened request) r.0 r.1) }
        ensures err { IfErr result (λ fault. RefusesInsert fault slots.old × (slots.new ≡ slots.old) × (self.new ≡ self.old)) }
        ensures pieces { slots.old.room ≤ slots.new.room }
        ensures piece { IfOk result (λ _. slots.new.room ≡ room_after slots.old) }
    {
        let count = self.open_requests();
        let (id, inserted) = slots.insert(T::of(request.reopened()))?;
        slots.push_back(ListName::Waiting, id);
        slots.is_sound();
        self.set_count(count + 1);
        Ok((id, QueueUndo { inserted, count }))
    }

    /// Takes a queue back.
    pub fn undo_queue<T: HoldsWork>(&mut self, slots: &mut Slots<T>, undo: QueueUndo)
        requires { CanUndoQueue T.held_request (working slots.old.image self.old) undo }
        ensures undone { working slots.new.image self.new ≡ queue_undone undo (working slots.old.image self.old) }
        ensures pieces { slots.new.room ≡ slots.old.room }
    {
        slots.undo_push(PushUndo {
            slot: undo.inserted.slot,
        });
        slots.undo_insert(undo.inserted);
        self.set_count(undo.count);
    }

    /// Cancels a request that waits: it is done, behind those that are done already (uv_cancel). One that a worker took is EBUSY,
    /// and so is one that was cancelled already (own).
    pub fn cancel<T: HoldsWork>(&self, slots: &mut Slots<T>, id: Id) -> Result<CancelUndo, Code>
        requires { IsWork T.held_request (working slots.old.image self.now) }
        ensures ok { IfOk result (λ u. IsCancelled T.held_request T.of_request
            (working slots.old.image self.now) (working slots.new.image self.now) id u) }
        ensures err { IfErr result (λ code. (cancel_refusal (found T.held_request slots.old.image id)
            (waits (pool_of T.held_request (working slots.old.image self.now)).waiting id) ≡ Some code) × (slots.new ≡ slots.old)) }
        ensures pieces { slots.new.room ≡ slots.old.room }
    {
        slots.is_sound();
        match request_at(slots, id) {
            Err(code) => Err(code),
            Ok(request) => {
                if request.is_open() && slots.on_list(id) {
                    Ok(self.withdraw(slots, id, request))
                } else {
                    Err(Code::Ebusy)
                }
            }
        }
    }

    fn withdraw<T: HoldsWork>(&self, slots: &mut Slots<T>, id: Id, request: Request) -> CancelUndo
        requires work { IsWork T.held_request (working slots.old.image self.now) }
        requires found { request_in T.held_request slots.old.image id ≡ Some request }
        requires opened { is_open request.outcome ≡ true }
        requires listed { on_list slots.old.image id ≡ true }
        ensures cancelled { IsCancelled T.held_request T.of_request (working slots.old.image self.now) (working slots.new.image self.now) id result }
        ensures pieces { slots.new.room ≡ slots.old.room }
    {
        slots.is_sound();
        let unlinked = slots.unlink(id);
        let _ = slots.set(id, T::of(request.cancelled()));
        slots.push_back(ListName::Done, id);
        CancelUndo { id, unlinked }
    }

    /// Takes a cancel back.
    pub fn undo_cancel<T: HoldsWork>(&self, slots: &mut Slots<T>, undo: CancelUndo)
        requires { CanUndoCancel T.held_request T.of_request (working slots.old.image self.now) undo }
        ensures undone { working slots.new.image self.now ≡ cancel_undone T.held_request T.of_request undo (working slots.old.image self.now) }
        ensures pieces { slots.new.room ≡ slots.old.room }
    {
        slots.undo_push(PushUndo { slot: undo.id.slot });
        reopen(slots, undo.id);
        slots.undo_unlink(undo.unlinked);
    }
}

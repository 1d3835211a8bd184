//! What the workers run, and how many requests are open.
ghost use Rattle.std.specs.Prelude.{◌≡◌, ◌<◌, Bool, Option, Some, None, IfOk, IfErr, length, slice_get, slice_set, ℕ};
ghost use Rattle.uv_ids.specs.declared.code.Code.{Code};
ghost use Rattle.uv_arena.specs.Image.{fresh_image};
ghost use Rattle.uv_work.specs.Requests.{cancel_refusal};
ghost use Rattle.uv_requests.specs.Working.{working, idle_workers, request_in, found, IsWork};
ghost use Rattle.uv_requests.specs.Undo.{reopened_in, CanReopen};

use std::alloc::{AllocError, Global};
use std::marker::Model;
use uv_arena::Slots;
use uv_ids::{Code, Id};
use uv_work::{HoldsWork, Request};

/// What the workers of an arena run, and how many of its requests are open.
#[derive(Drop)]
pub struct Requests {
    running: Vec<Option<Id>>,
    count: u32,
}

impl Model for Requests {
    ghost use Rattle.uv_requests.specs.Working.{Running};

    ghost Value = { Running };

    ghost view = { λ r. record { workers = r.running.items; count = r.count } };
}

impl Requests {
    /// Those of an arena without requests, with so many workers. Of the other calls `queue` alone may take memory, for its slot.
    pub fn new(alloc: Global, workers: u16) -> Result<Requests, AllocError>
        ensures { IfOk result (λ r. r ≡ idle_workers workers) }
    {
        let mut running = Vec::new(alloc);
        running.resize(workers as usize, None)?;
        Ok(Requests { running, count: 0 })
    }

    /// What a worker runs: None in the inside where it runs nothing, and None where there is no such worker.
    pub fn running(&self, worker: u16) -> Option<Option<Id>>
        ensures { result ≡ slice_get self.now.workers worker }
    {
        self.running.get(worker as usize).copied()
    }

    /// What each worker runs, by its number.
    pub fn workers(&self) -> &[Option<Id>]
        ensures { result.now ≡ self.now.workers }
    {
        &self.running
    }

    /// How many requests are open: from their queue to their collect (uv_loop_alive counts them).
    pub fn open_requests(&self) -> u32
        ensures { result ≡ self.now.count }
    {
        self.count
    }

    /// What a worker runs from now on.
    pub(crate) fn set_running(&mut self, worker: u16, id: Option<Id>)
        requires { worker < length self.old.workers }
        ensures { self.new ≡ record { workers = slice_set self.old.workers worker id; count = self.old.count } }
    {
        self.running[worker as usize] = id;
    }

    /// How many requests are open from now on.
    pub(crate) fn set_count(&mut self, count: u32)
        ensures { self.new ≡ record { workers = self.old.workers; count = count } }
    {
        self.count = count;
    }
}

/// Requests as they are made are those of an arena as it is made: what each call asks for holds there.
pub fn fresh_requests<T: HoldsWork>()
    ensures { (capacity last workers : ℕ) → IsWork T.held_request (working (fresh_image _ capacity last) (idle_workers workers)) }
{}

/// The record of a request. ESTALE if nothing is held under the id, EKIND if it is a handle.
pub fn request_at<T: HoldsWork>(slots: &Slots<T>, id: Id) -> Result<Request, Code>
    ensures ok { IfOk result (λ r. request_in T.held_request slots.now.image id ≡ Some r) }
    ensures err { IfErr result (λ code. (waits : Bool) → cancel_refusal (found T.held_request slots.now.image id) waits ≡ Some code) }
    ensures none { IfErr result (λ code. request_in T.held_request slots.now.image id ≡ None) }
{
    match slots.get(id) {
        None => Err(Code::Estale),
        Some(content) => match content.held() {
            None => Err(Code::Ekind),
            Some(request) => Ok(request),
        },
    }
}

/// A request that was finished or cancelled is open again.
pub(crate) fn reopen<T: HoldsWork>(slots: &mut Slots<T>, id: Id)
    requires { CanReopen T.of_request (request_in T.held_request slots.old.image id) id.slot slots.old.image }
    ensures reopened { slots.new.image ≡ reopened_in T.held_request T.of_request id slots.old.image }
    ensures pieces { slots.new.room ≡ slots.old.room }
{
    match request_at(slots, id) {
        Ok(request) => slots.undo_set(id.slot, T::of(request.reopened())),
        Err(_) => {}
    }
}

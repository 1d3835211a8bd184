//! The record of a request, and what becomes of it.
ghost use Rattle.std.specs.Prelude.{◌≡◌, List, ℕ};
ghost use Rattle.uv_work.specs.Requests.{is_open, queued, finished, cancelled, reopened, job_of, digest_in};

use crate::job::Job;
use crate::outcome::Outcome;
use crate::result::WorkResult;
use crate::task::Task;
use uv_ids::{Id, Var};

/// A work request (uv_work_t), as a slot holds it. Its id is that of its slot.
#[derive(Clone, Copy, PartialEq, Eq)]
pub struct Request {
    /// The name that its `queue` bound to it.
    pub name: Var,
    pub task: Task,
    pub outcome: Outcome,
}

// Beside a handle's record in one slot it leaves room for the slot's links.
const _: () = prove!(std::mem::size_of::<Request>() <= 108);

impl Request {
    /// A request as uv_queue_work makes it.
    pub fn new(name: Var, task: Task) -> Request
        ensures { result ≡ queued name task }
    {
        Request {
            name,
            task,
            outcome: Outcome::Open,
        }
    }

    /// Whether it waits for a worker, or one runs it.
    pub fn is_open(&self) -> bool
        ensures { result ≡ is_open self.now.outcome }
    {
        matches!(self.outcome, Outcome::Open)
    }

    /// The digest that it was finished with; none if it was cancelled.
    pub fn digest(&self) -> Option<[u8; 32]>
        ensures { result ≡ digest_in self.now.outcome }
    {
        match self.outcome {
            Outcome::Finished(digest) => Some(digest),
            Outcome::Open | Outcome::Cancelled => None,
        }
    }

    /// The job that it asks for, under its id.
    pub fn job(&self, id: Id) -> Job
        ensures { result ≡ job_of id self.now }
    {
        Job {
            req: id,
            task: self.task,
        }
    }

    /// The request, with what became of it.
    pub fn ended(self, outcome: Outcome) -> Request
        ensures { result ≡ record self { outcome = outcome } }
    {
        Request { outcome, ..self }
    }

    /// The request, finished with the digest of its job.
    pub fn finished(self, work: WorkResult) -> Request
        requires { work.job.task ≡ self.task }
        ensures { result ≡ finished work.digest self }
    {
        self.ended(Outcome::Finished(work.digest()))
    }

    /// The request, cancelled.
    pub fn cancelled(self) -> Request
        ensures { result ≡ cancelled self }
    {
        self.ended(Outcome::Cancelled)
    }

    /// The request, open again.
    pub fn reopened(self) -> Request
        ensures { result ≡ reopened self }
    {
        self.ended(Outcome::Open)
    }
}

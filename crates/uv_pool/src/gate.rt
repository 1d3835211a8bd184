//! Who is told of the threads' progress, and a worker's end of it.
ghost use Rattle.std.specs.Prelude.{◌≡◌};
ghost use Rattle.uv_work.specs.declared.event.PoolEvent.TheVariants.{Take, Finish};
ghost use Rattle.uv_pool.specs.Book.{EndsWith};

use crate::bench::Bench;
use std::sync::ledger::Ledger;
use uv_ids::Id;
use uv_work::{Job, WorkResult};

/// Who is told of the threads' progress, outside the lock (own). It may hold a thread up. Each thread tells a copy of its own.
pub trait Gate: Copy {
    ghost use Rattle.std.specs.Prelude.{ℕ};
    ghost use Rattle.uv_ids.specs.declared.id.Id.{Id};

    // What it is once a worker told it that it took a request, and does it now.
    ghost begins: { Self → ℕ → Id → Self → Type 0 };

    // What it is once a worker told it that it finished a request.
    ghost ends: { Self → ℕ → Id → Self → Type 0 };

    // What it is once a sender thread told it that it is about to send for the first time.
    ghost sends: { Self → ℕ → Self → Type 0 };

    /// The worker took the request, and does it now.
    fn begun(&mut self, k: u16, id: Id)
        ensures { begins self.old k id self.new };

    /// The worker finished the request.
    fn ended(&mut self, k: u16, id: Id)
        ensures { ends self.old k id self.new };

    /// The sender thread of that number is about to send for the first time.
    fn sending(&mut self, s: u8)
        ensures { sends self.old s self.new };
}

/// A worker has told its gate that it took this job, and does it now. It is made where that was told alone.
pub(crate) struct Begun {
    job: Job,
}

impl Begun {
    /// Does the job.
    pub(crate) fn computed(self) -> Computed
        ensures { result.work.job ≡ self.job }
    {
        let Begun { job } = self;
        Computed {
            work: WorkResult::compute(job),
        }
    }
}

/// The result of a job that was done behind its worker's word to the gate.
#[derive(Clone, Copy)]
pub struct Computed {
    work: WorkResult,
}

impl Computed {
    /// The result.
    pub fn work(&self) -> WorkResult
        ensures { result ≡ self.now.work }
    {
        self.work
    }
}

/// A worker's end of its gate: who has no other end of it tells just of what a bench answered last.
#[derive(Drop)]
pub(crate) struct Teller<G: Gate> {
    worker: u16,
    gate: G,
}

impl<G: Gate> Teller<G> {
    /// The worker's end of this gate.
    pub(crate) fn new(worker: u16, gate: G) -> Teller<G>
        ensures { result ≡ record { worker = worker; gate = gate } }
    {
        Teller { worker, gate }
    }

    /// The gate, as it is now.
    pub(crate) fn into_gate(self) -> G
        ensures { result ≡ self.gate }
    {
        self.gate
    }

    /// Tells that the worker took the job's request, which is what its bench answered last.
    pub(crate) fn begun<L: Ledger, B: Bench<L>>(&mut self, bench: &B, job: Job) -> Begun
        requires { EndsWith (Take self.old.worker job.req) (B.answered bench.now) }
        ensures worker { self.new.worker ≡ self.old.worker }
        ensures told { G.begins self.old.gate self.old.worker job.req self.new.gate }
        ensures job { result.job ≡ job }
    {
        let _ = bench;
        self.gate.begun(self.worker, job.req);
        Begun { job }
    }

    /// Tells that the worker finished the request, which is what its bench answered last.
    pub(crate) fn ended<L: Ledger, B: Bench<L>>(&mut self, bench: &B, id: Id)
        requires { EndsWith (Finish self.old.worker id) (B.answered bench.now) }
        ensures worker { self.new.worker ≡ self.old.worker }
        ensures told { G.ends self.old.gate self.old.worker id self.new.gate }
    {
        let _ = bench;
        self.gate.ended(self.worker, id);
    }
}

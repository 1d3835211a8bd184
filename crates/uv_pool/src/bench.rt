//! A worker's bench: what gives it jobs and takes their results.
ghost use Rattle.std.specs.Prelude.{◌≡◌, ◌+◌, ◌<◌, IfOk, IfErr, OnOk, IfSome, IfNone, Some, true, cond, is_ok};

use crate::book::PoolBook;
use crate::gate::Computed;
use std::sync::ledger::{Ledger, Share};
use uv_ids::Fault;
use uv_work::Job;

/// What gives a worker jobs and takes their results (own). Its meaning is the list of events that it answered.
pub trait Bench<L: Ledger> {
    ghost use Rattle.std.specs.Prelude.{List, ℕ};
    ghost use Rattle.uv_ids.specs.declared.fault.Fault.{Fault};
    ghost use Rattle.uv_work.specs.declared.job.Job.{Job};
    ghost use Rattle.uv_work.specs.declared.event.PoolEvent.{PoolEvent};
    ghost use Rattle.uv_work.specs.declared.result.WorkResult.{WorkResult};
    ghost use Rattle.uv_pool.specs.Benches.{Gives, Ends, IsEnrolFault, IsTakeFault, IsFinishFault};

    // The events that it answered.
    ghost answered: { Self → List PoolEvent };

    // The worker runs this job: `take` gave it, and it isn't finished.
    ghost gave: { Self → ℕ → Job → Type 0 };

    // Nothing waits for a worker.
    ghost idle: { Self → Type 0 };

    // It was closed.
    ghost shut: { Self → Type 0 };

    // Why it may answer this fault and not take this result of the worker, and what it is then.
    ghost refuses: { Self → ℕ → WorkResult → Fault → Self → Type 0 };

    /// Gives a worker its share of the ledger. `Limit` where the book's own share has one part left.
    fn enrol(&mut self, k: u16) -> Result<Share<L>, Fault>
        ensures faults { IfErr result IsEnrolFault }
        ensures share { IfOk result (λ share. (share.parts ≡ 1) × (share.amount ≡ 0)) }
        ensures same { answered self.new ≡ answered self.old };

    /// Gives a worker a job; none where it has none for it any more.
    fn take(&mut self, k: u16) -> Result<Option<Job>, Fault>
        ensures answer { Gives k (answered self.old) result (answered self.new) }
        ensures gave { IfOk result (λ given. IfSome given (λ job. gave self.new k job)) }
        ensures idle { IfOk result (λ given. IfNone given (idle self.new)) }
        ensures faults { IfErr result IsTakeFault };

    /// Takes the result of the job that the worker runs, and books the finish in the worker's share.
    fn finish(&mut self, k: u16, done: Computed, share: &mut Share<L>) -> Result<(), Fault>
        requires { 0 < share.old.parts }
        ensures answer { Ends k done.work (answered self.old) result (answered self.new) }
        ensures gave { OnOk result (gave self.old k done.work.job) }
        ensures faults { IfErr result IsFinishFault }
        ensures refused { IfErr result (λ f. refuses self.old k done.work f self.new) }
        ensures parts { share.new.parts ≡ share.old.parts }
        ensures amount { share.new.amount ≡ share.old.amount + cond (is_ok result) 1 0 };

    /// Closes the book.
    fn close(&mut self)
        ensures same { answered self.new ≡ answered self.old }
        ensures shut { shut self.new };
}

impl<L: Ledger> Bench<L> for PoolBook<L> {
    ghost use Rattle.std.specs.Prelude.{◌≡◌, Some, [], true};
    ghost use Rattle.uv_pool.specs.Benches.{Gives, Ends, IsEnrolFault, IsTakeFault, IsFinishFault};
    ghost use Rattle.uv_pool.specs.Calls.{run_at, EnrolsAt, TakesNext, Finishes, RefusesFinish};
    ghost use Rattle.uv_pool.specs.Results.{SetsResult};

    ghost answered = { λ b. b.hold.contents.log };

    ghost gave = { λ b k job. run_at b.hold k ≡ Some (Some job) };

    ghost idle = { λ b. b.hold.contents.waiting ≡ [] };

    ghost shut = { λ b. b.rest.closed ≡ true };

    ghost refuses = { λ b k work f after. RefusesFinish b.hold k work };

    fn enrol(&mut self, k: u16) -> Result<Share<L>, Fault>
        ensures call { EnrolsAt self.old k result self.new }
        ensures faults { IfErr result IsEnrolFault }
        ensures share { IfOk result (λ share. (share.parts ≡ 1) × (share.amount ≡ 0)) }
        ensures same { self.new.hold.contents.log ≡ self.old.hold.contents.log }
    {
        self.enrol_worker(k)
    }

    fn take(&mut self, k: u16) -> Result<Option<Job>, Fault>
        ensures call { TakesNext self.old.hold k result self.new.hold }
        ensures rest { self.new.rest ≡ self.old.rest }
        ensures answer { Gives k self.old.hold.contents.log result self.new.hold.contents.log }
        ensures gave { IfOk result (λ given. IfSome given (λ job. run_at self.new.hold k ≡ Some (Some job))) }
        ensures idle { IfOk result (λ given. IfNone given (self.new.hold.contents.waiting ≡ [])) }
        ensures faults { IfErr result IsTakeFault }
    {
        PoolBook::take(self, k)
    }

    fn finish(&mut self, k: u16, done: Computed, share: &mut Share<L>) -> Result<(), Fault>
        requires { 0 < share.old.parts }
        ensures call { Finishes self.old.hold k done.work result self.new.hold }
        ensures results { OnOk result (SetsResult self.old.hold.contents done.work.job.req (Some done.work) self.new.hold.contents) }
        ensures rest { self.new.rest ≡ self.old.rest }
        ensures answer { Ends k done.work self.old.hold.contents.log result self.new.hold.contents.log }
        ensures gave { OnOk result (run_at self.old.hold k ≡ Some (Some done.work.job)) }
        ensures faults { IfErr result IsFinishFault }
        ensures refused { IfErr result (λ f. RefusesFinish self.old.hold k done.work) }
        ensures parts { share.new.parts ≡ share.old.parts }
        ensures amount { share.new.amount ≡ share.old.amount + cond (is_ok result) 1 0 }
    {
        self.finish_for(k, done.work(), share)
    }

    fn close(&mut self)
        ensures hold { self.new.hold ≡ self.old.hold }
        ensures rest { self.new.rest ≡ record self.old.rest { closed = true } }
        ensures same { self.new.hold.contents.log ≡ self.old.hold.contents.log }
        ensures shut { self.new.rest.closed ≡ true }
    {
        PoolBook::close(self)
    }
}

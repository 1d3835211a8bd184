//! The pool's book.
ghost use Rattle.std.specs.Prelude.{◌≡◌, ◌+◌, ◌<◌, ◌≤◌, true, false, [], Some, MatchBool, is_ok, is_some, cond, IfOk, IfErr, OnOk, length};
ghost use Rattle.uv_ids.specs.Limits.{MOST_WORKERS};

use crate::bell::Waited;
use crate::held::Held;
use crate::places::Collected;
use crate::sleepers::{Call, ForJob, Sleepers};
use std::alloc::Global;
use std::marker::Model;
use std::sync::ledger::{Blank, Book, Ledger, Share};
use uv_ids::{Code, Fault, Id, MOST_WORKERS, Why};
use uv_work::{Job, PoolEvent, WorkResult};

/// The pool's book: its log, and the pool, which is the replay of that log (own). It is what the pool's lock guards.
///
/// Each success of `submit`, `take`, `finish`, `cancel` and `collect` appends its one event to the log; an answer without
/// a job or a request, EBUSY and ESTALE append nothing. With one entry reserved none of the five takes memory. Past
/// 16,777,216 entries they answer `Limit`. A refused call leaves the book as it was.
///
/// A ledger counts the finishes: its total is the number of Finish entries, so no share of it has more.
#[derive(Drop)]
pub struct PoolBook<L: Ledger> {
    held: Held,
    closed: bool,
    spare: u64,
    finishes: Book<L>,
    own: Share<L>,
    sleepers: Sleepers,
}

impl<L: Ledger> Model for PoolBook<L> {
    ghost use Rattle.uv_pool.specs.Book.{Standing};

    ghost Value = { Standing };

    ghost use Rattle.uv_pool.specs.Book.{IsCounted};
    ghost use Rattle.uv_pool.specs.Held.{contents_of, hold_of, IsKept};

    ghost view = { λ b. record {
      hold = hold_of b.held;
      rest = record { closed = b.closed; own = b.own.amount; spare = b.spare; sleepers = b.sleepers };
    } };

    ghost invariant = { λ b. IsKept b.held × IsCounted (contents_of b.held) b.finishes.total b.own.parts b.spare };
}

impl<L: Ledger> PoolBook<L> {
    ghost use Rattle.uv_pool.specs.Book.{IsReplay, finish_count, booked, with_sleepers, CallsNext};
    ghost use Rattle.uv_pool.specs.Sleepers.{dozed, returned};
    ghost use Rattle.uv_pool.specs.Contents.{result_in};
    ghost use Rattle.uv_pool.specs.Results.{KeepsResults, SetsResult, HandsOut};
    ghost use Rattle.uv_pool.specs.Calls.{Reserves, Submits, TakesNext, Finishes, Cancels, CollectsNext, GivesBack, EnrolsAt, Opens};
    ghost use Rattle.uv_pool.specs.Benches.{IsEnrolFault};

    /// A book with an empty log, for 1 to 1024 workers; Range outside. It opens the ledger, and keeps one part of it more
    /// than it has workers (own).
    pub fn new(alloc: Global, blank: Blank, workers: u16) -> Result<PoolBook<L>, Fault>
        requires name { blank.name ≡ L.name }
        requires parts { blank.parts ≡ L.parts }
        requires more { workers < blank.parts }
        ensures { Opens workers result }
    {
        if workers == 0 || workers > MOST_WORKERS {
            return Err(Fault::Refused(Why::Range));
        }
        let held = Held::new(alloc, workers)?;
        let (finishes, mut all) = blank.open::<L>();
        let spare = workers as u64 + 1;
        let own = all.split_off(spare, 0);
        Ok(PoolBook {
            held,
            closed: false,
            spare,
            finishes,
            own,
            sleepers: Sleepers::new(),
        })
    }

    /// The log. The pool is its replay.
    pub fn log(&self) -> &[PoolEvent]
        ensures log { result.now ≡ self.now.hold.contents.log }
        ensures replay { IsReplay self.now.hold.contents }
    {
        self.held.log.as_slice()
    }

    /// What always holds of a book: its pool is the replay of its log. It costs nothing when it runs.
    pub fn is_sound(&self)
        ensures { IsReplay self.now.hold.contents }
    {
        let _ = self.held.log.len();
    }

    /// A share has no more finishes than the log, and one with all parts has them all. Nothing changes.
    pub fn audit(&mut self, share: &mut Share<L>)
        ensures same { self.new ≡ self.old }
        ensures amount { share.new.amount ≡ share.old.amount }
        ensures parts { share.new.parts ≡ share.old.parts }
        ensures bound { share.old.amount ≤ finish_count self.old.hold.contents.log }
        ensures whole { share.old.parts ≡ L.parts → share.old.amount ≡ finish_count self.old.hold.contents.log }
    {
        self.finishes.audit(share);
    }

    /// Whether it was closed.
    pub fn closed(&self) -> bool
        ensures { result ≡ self.now.rest.closed }
    {
        self.closed
    }

    /// Sets the flag that it is closed. The other calls answer as before.
    pub fn close(&mut self)
        ensures hold { self.new.hold ≡ self.old.hold }
        ensures rest { self.new.rest ≡ record self.old.rest { closed = true } }
    {
        self.closed = true;
    }

    /// Whether no job waits for a worker.
    pub fn is_idle(&self) -> bool
        ensures { MatchBool result (self.now.hold.contents.waiting ≡ []) (self.now.hold.contents.waiting ≡ [] → ⊥) }
    {
        self.held.is_idle()
    }

    /// A worker falls asleep, since nothing waits for it and the book is open.
    pub(crate) fn fall_asleep(&mut self) -> ForJob
        requires nothing { self.old.hold.contents.waiting ≡ [] }
        requires open { self.old.rest.closed ≡ false }
        ensures { self.new ≡ with_sleepers self.old (dozed self.old.rest.sleepers) }
    {
        self.sleepers.fall_asleep()
    }

    /// A worker that slept comes back, once it has waited.
    pub(crate) fn come_back(&mut self, waited: Waited<ForJob>)
        ensures { self.new ≡ with_sleepers self.old (returned self.old.rest.sleepers) }
    {
        self.sleepers.come_back(waited);
    }

    /// A worker that sleeps is to be woken, where a job waits and none is on its way.
    pub(crate) fn call_next(&mut self) -> Option<Call>
        ensures call { CallsNext self.old (is_some result) self.new }
    {
        if self.is_idle() {
            return None;
        }
        self.sleepers.call()
    }

    /// How many workers there are.
    pub fn workers(&self) -> u16
        ensures number { result ≡ length self.now.hold.contents.running }
        ensures within { result ≤ MOST_WORKERS }
    {
        self.held.running.len() as u16
    }

    /// What `finish` took for the request, until it is collected.
    pub fn result(&self, id: Id) -> Option<WorkResult>
        ensures { result ≡ result_in self.now.hold.contents.done id }
    {
        self.held.result(id)
    }

    /// Makes room for one more entry, and for all that its call grows.
    pub fn reserve(&mut self) -> Result<(), Fault>
        ensures call { Reserves self.old.hold result self.new.hold }
        ensures rest { self.new.rest ≡ self.old.rest }
    {
        self.held.make_room()
    }

    /// Queues a job (uv_queue_work); Range if its request is in the pool.
    pub fn submit(&mut self, job: Job) -> Result<(), Fault>
        ensures call { Submits self.old.hold job result self.new.hold }
        ensures rest { self.new.rest ≡ self.old.rest }
    {
        self.held.submit(job)
    }

    /// Gives a worker the job that waited longest; none where nothing waits. `NoWorker` or `BusyWorker` where the worker
    /// isn't there or runs another one.
    pub fn take(&mut self, k: u16) -> Result<Option<Job>, Fault>
        ensures call { TakesNext self.old.hold k result self.new.hold }
        ensures rest { self.new.rest ≡ self.old.rest }
    {
        self.held.take_next(k)
    }

    /// Takes the result of the job that the worker runs, and books the finish in the book's own share. A fault brings the
    /// result back: `NoWorker`, `IdleWorker`, or `NoWork` for another job's.
    pub fn finish(&mut self, k: u16, work: WorkResult) -> Result<(), (Fault, WorkResult)>
        ensures call { GivesBack work result (λ r. Finishes self.old.hold k work r self.new.hold) }
        ensures results { OnOk result (SetsResult self.old.hold.contents work.job.req (Some work) self.new.hold.contents) }
        ensures rest { self.new.rest ≡ booked (is_ok result) self.old.rest }
    {
        let back = work;
        match self.held.finish_job(k, work) {
            Ok(()) => {}
            Err(fault) => return Err((fault, back)),
        }
        let PoolBook { finishes, own, .. } = self;
        finishes.add(own, 1);
        Ok(())
    }

    /// As `finish`, and books it in a worker's share.
    pub(crate) fn finish_for(
        &mut self,
        k: u16,
        work: WorkResult,
        share: &mut Share<L>,
    ) -> Result<(), Fault>
        requires { 0 < share.old.parts }
        ensures call { Finishes self.old.hold k work result self.new.hold }
        ensures results { OnOk result (SetsResult self.old.hold.contents work.job.req (Some work) self.new.hold.contents) }
        ensures rest { self.new.rest ≡ self.old.rest }
        ensures parts { share.new.parts ≡ share.old.parts }
        ensures amount { share.new.amount ≡ share.old.amount + cond (is_ok result) 1 0 }
    {
        self.held.finish_job(k, work)?;
        self.finishes.add(share, 1);
        Ok(())
    }

    /// Splits a worker's share off the book's own.
    pub(crate) fn enrol_worker(&mut self, k: u16) -> Result<Share<L>, Fault>
        ensures call { EnrolsAt self.old k result self.new }
        ensures faults { IfErr result IsEnrolFault }
        ensures share { IfOk result (λ share. (share.parts ≡ 1) × (share.amount ≡ 0)) }
    {
        if k >= self.workers() {
            return Err(Fault::Refused(Why::NoWorker));
        }
        if self.spare == 1 {
            return Err(Fault::Limit);
        }
        self.spare -= 1;
        Ok(self.own.split_off(1, 0))
    }

    /// Cancels a request that waits (uv_cancel); EBUSY where a worker took it or it is done, ESTALE where it isn't in the
    /// pool.
    pub fn cancel(&mut self, id: Id) -> Result<Code, Fault>
        ensures call { Cancels self.old.hold id result self.new.hold }
        ensures results { KeepsResults self.old.hold.contents self.new.hold.contents }
        ensures rest { self.new.rest ≡ self.old.rest }
    {
        self.held.cancel_request(id)
    }

    /// Takes out the request that was done first; none where none is done.
    pub fn collect(&mut self) -> Result<Option<Collected>, Fault>
        ensures call { CollectsNext self.old.hold result self.new.hold }
        ensures results { IfOk result (λ got. HandsOut self.old.hold.contents got self.new.hold.contents) }
        ensures rest { self.new.rest ≡ self.old.rest }
    {
        self.held.collect_next()
    }
}

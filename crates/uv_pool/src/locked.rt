//! The book under its lock.
ghost use Rattle.std.specs.Prelude.{◌≡◌, ◌+◌, ◌<◌, IfOk, IfErr, OnOk, cond, is_ok};
ghost use Rattle.uv_work.specs.declared.event.PoolEvent.TheVariants.{Finish};
ghost use Rattle.uv_pool.specs.Book.{EndsWith};
ghost use Rattle.uv_pool.specs.Benches.{IsEnrolFault, IsTakeFault, IsFinishFault};
ghost use Rattle.std.specs.Prelude.{◌⊎◌, ◌≤◌, [], true, false, length, Some, vec_len, vec_capacity};
ghost use Rattle.uv_pool.specs.Calls.{run_at};
ghost use Rattle.std.specs.Sync.Mutex.{mutex_guard_value};

use crate::bell::{ForEntry, ForFinish, Unrung};
use crate::book::PoolBook;
use crate::guard::{BookGuard, Guarded, LetGo, Woken};
use crate::sightings::{HasFinished, NotTaken, WasClosed, WasOver};
use std::sync::Wait;
use std::sync::ledger::{Ledger, Share};
use uv_ids::Fault;
use uv_work::{Job, PoolEvent, WorkResult};

/// A book that threads share. Whoever holds its lock may call the book, and lets the lock go by `let_go`, which wakes a worker where a job
/// waits for one. Who closes the book wakes all that wait, and who hands a result in those in `wait_past` and `wait_finished`, each behind it.
///
/// One worker is on its way at a time: once it has taken its job it calls the next one, if a job still waits (own). So a few short jobs are
/// done by one worker, and many by all.
///
/// A hold is short: it hashes nothing, and it waits for nothing but the room that a call makes.
#[derive(Drop)]
pub struct LockedBook<L: Ledger> {
    book: Guarded<L>,
}

impl<L: Ledger> LockedBook<L> {
    /// Takes a book into a lock.
    pub fn new(book: PoolBook<L>) -> LockedBook<L> {
        LockedBook {
            book: Guarded::new(book),
        }
    }

    /// Waits for the lock.
    pub fn lock<R: Wait>(&self, rt: &R) -> BookGuard<'_, L> {
        self.book.lock(rt)
    }

    /// Lets the lock go. Where a job waits, somebody sleeps and nobody is on its way, one worker is woken.
    pub fn let_go(&self, guard: BookGuard<'_, L>) -> LetGo<L> {
        self.book.let_go(guard)
    }

    /// Waits until the log is longer than n, or the book closed, and gives the lock.
    pub fn wait_past<R: Wait>(&self, rt: &R, n: usize) -> BookGuard<'_, L>
        ensures { (n < length (mutex_guard_value result.book).hold.contents.log) ⊎ ((mutex_guard_value result.book).rest.closed ≡ true) }
    {
        let mut guard = self.book.lock(rt);
        for _ in rt.forever() {
            if guard.book.log().len() > n || guard.book.closed() {
                return guard;
            }
            let (again, _) = self.book.wait_at(rt, guard, &self.book.grown, ForEntry);
            guard = again;
        }
        unreachable!()
    }

    /// Waits until a job was finished past the log's first n entries, or the book closed.
    pub fn wait_finished<R: Wait>(&self, rt: &R, n: usize) -> HasFinished<L>
        ensures { result.past ≡ n }
    {
        let mut guard = self.book.lock(rt);
        for _ in rt.forever() {
            if let Some(seen) = HasFinished::look(&guard.book, n) {
                self.book.let_go(guard);
                return seen;
            }
            let (again, _) = self.book.wait_at(rt, guard, &self.book.finished, ForFinish);
            guard = again;
        }
        unreachable!()
    }

    /// The book, where nobody shares it any more.
    pub fn into_book(self) -> PoolBook<L> {
        self.book.into_book()
    }

    pub(crate) fn enrol<R: Wait>(&self, rt: &R, k: u16) -> Result<Share<L>, Fault>
        ensures faults { IfErr result IsEnrolFault }
        ensures share { IfOk result (λ share. (share.parts ≡ 1) × (share.amount ≡ 0)) }
    {
        let mut guard = self.book.lock(rt);
        let answer = guard.book.enrol_worker(k);
        self.book.let_go(guard);
        answer
    }

    /// Gives a worker a job; waits while nothing waits and the book is open. It gives the lock, too.
    fn taken<R: Wait>(
        &self,
        rt: &R,
        k: u16,
    ) -> (Result<Result<Job, WasOver<L>>, Fault>, BookGuard<'_, L>)
        ensures faults { IfErr result.0 IsTakeFault }
        ensures runs { IfOk result.0 (λ given. IfOk given (λ job. run_at (mutex_guard_value result.1.book).hold k ≡ Some (Some job))) }
    {
        let mut guard = self.book.lock(rt);
        for _ in rt.forever() {
            match guard.book.take(k) {
                Ok(Some(job)) => return (Ok(Ok(job)), guard),
                Ok(None) => {}
                Err(fault) => return (Err(fault), guard),
            }
            if guard.book.closed() {
                let over = WasOver::seen(&guard.book);
                return (Ok(Err(over)), guard);
            }
            guard = self.book.sleep(rt, guard);
        }
        unreachable!()
    }

    /// Gives a worker a job, or says that the book was closed and nothing waited. The worker has room for both of its events.
    pub(crate) fn take<R: Wait>(
        &self,
        rt: &R,
        k: u16,
        events: &Vec<PoolEvent>,
    ) -> Result<Result<Job, WasOver<L>>, Fault>
        requires room { vec_len events.now + 2 ≤ vec_capacity events.now }
        ensures faults { IfErr result IsTakeFault }
    {
        let _ = events;
        let (answer, guard) = self.taken(rt, k);
        self.book.let_go(guard);
        self.book.grown.ring();
        answer
    }

    /// Takes the result of the job that the worker runs, or says that the book didn't take it.
    pub(crate) fn finish<R: Wait>(
        &self,
        rt: &R,
        k: u16,
        work: WorkResult,
        share: &mut Share<L>,
    ) -> Result<(), NotTaken<L>>
        requires { 0 < share.old.parts }
        ensures faults { IfErr result (λ n. IsFinishFault n.refusal.fault) }
        ensures refused { IfErr result (λ n. (n.refusal.worker ≡ k) × (n.refusal.work ≡ work)) }
        ensures parts { share.new.parts ≡ share.old.parts }
        ensures amount { share.new.amount ≡ share.old.amount + cond (is_ok result) 1 0 }
    {
        let (answer, done, guard) = self.handed_in(rt, k, work, share);
        self.book.let_go(guard);
        self.book.grown.ring();
        self.book.finished.ring_for(done);
        answer
    }

    /// Takes the result of the job that the worker runs. It gives the lock, too.
    fn handed_in<R: Wait>(
        &self,
        rt: &R,
        k: u16,
        work: WorkResult,
        share: &mut Share<L>,
    ) -> (Result<(), NotTaken<L>>, Unrung<ForFinish>, BookGuard<'_, L>)
        requires { 0 < share.old.parts }
        ensures faults { IfErr result.0 (λ n. IsFinishFault n.refusal.fault) }
        ensures refused { IfErr result.0 (λ n. (n.refusal.worker ≡ k) × (n.refusal.work ≡ work)) }
        ensures finished { OnOk result.0 (EndsWith (Finish k work.job.req) (mutex_guard_value result.2.book).hold.contents.log) }
        ensures parts { share.new.parts ≡ share.old.parts }
        ensures amount { share.new.amount ≡ share.old.amount + cond (is_ok result.0) 1 0 }
    {
        let mut guard = self.book.lock(rt);
        let (answer, done) = NotTaken::hand_in(&mut guard.book, k, work, share);
        (answer, done, guard)
    }

    /// Closes the book, and wakes all that wait.
    pub fn close<R: Wait>(&self, rt: &R) -> (WasClosed<L>, Woken) {
        let mut guard = self.book.lock(rt);
        guard.book.close();
        let closed = WasClosed::seen(&guard.book);
        self.book.let_go(guard);
        let woken = self.book.wake(&closed);
        (closed, woken)
    }
}

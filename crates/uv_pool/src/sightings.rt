//! What a thread saw of a book while it held the lock, kept once the lock is let go. No clause knows what lies under a lock
//! then. But these values are made here alone, each where a book that is lent is just so: who has one has seen it.
ghost use Rattle.std.specs.Prelude.{◌≡◌, ◌<◌, ◌+◌, ◌⊎◌, true, false, [], Ok, Err, IfOk, IfErr, IfSome, IfNone, MatchBool, cond, is_ok};
ghost use Rattle.uv_pool.specs.Book.{IsFinishedPast, IsTended};
ghost use Rattle.uv_pool.specs.Calls.{Finishes};

use crate::bell::{ForFinish, Unrung};
use crate::book::PoolBook;
use std::marker::PhantomData;
use std::sync::ledger::{Ledger, Share};
use uv_ids::Fault;
use uv_work::{PoolEvent, WorkResult};

/// The book was open.
#[derive(Drop)]
pub struct WasOpen<L: Ledger> {
    of: PhantomData<L>,
}

impl<L: Ledger> WasOpen<L> {
    /// The book is open, or none where it was closed.
    pub fn look(book: &PoolBook<L>) -> Option<WasOpen<L>>
        ensures some { IfSome result (λ seen. book.now.rest.closed ≡ false) }
        ensures none { IfNone result (book.now.rest.closed ≡ true) }
    {
        if book.closed() {
            return None;
        }
        Some(WasOpen { of: PhantomData })
    }
}

/// The book was closed.
#[derive(Drop)]
pub struct WasClosed<L: Ledger> {
    of: PhantomData<L>,
}

impl<L: Ledger> WasClosed<L> {
    pub(crate) fn seen(book: &PoolBook<L>) -> WasClosed<L>
        requires { book.now.rest.closed ≡ true }
    {
        let _ = book;
        WasClosed { of: PhantomData }
    }
}

/// The book was closed, and nothing waited for a worker.
#[derive(Drop)]
pub(crate) struct WasOver<L: Ledger> {
    of: PhantomData<L>,
}

impl<L: Ledger> WasOver<L> {
    pub(crate) fn seen(book: &PoolBook<L>) -> WasOver<L>
        requires closed { book.now.rest.closed ≡ true }
        requires nothing { book.now.hold.contents.waiting ≡ [] }
    {
        let _ = book;
        WasOver { of: PhantomData }
    }
}

/// No job waited while all that sleep were left asleep: nothing waited for a worker, or nobody slept, or one that was called was on its way.
#[derive(Drop)]
pub struct WasTended<L: Ledger> {
    of: PhantomData<L>,
}

impl<L: Ledger> WasTended<L> {
    pub(crate) fn seen(book: &PoolBook<L>) -> WasTended<L>
        requires { IsTended book.now }
    {
        let _ = book;
        WasTended { of: PhantomData }
    }
}

/// Whose result a book didn't take, and why.
#[derive(Clone, Copy)]
pub struct Refusal {
    pub worker: u16,
    pub work: WorkResult,
    pub fault: Fault,
}

/// The book didn't take a worker's result.
#[derive(Drop)]
pub(crate) struct NotTaken<L: Ledger> {
    pub(crate) refusal: Refusal,
    of: PhantomData<L>,
}

impl<L: Ledger> NotTaken<L> {
    /// Hands a worker's result in, or says why the book didn't take it. Who waits for a finish is to be woken behind it.
    pub(crate) fn hand_in(
        book: &mut PoolBook<L>,
        k: u16,
        work: WorkResult,
        share: &mut Share<L>,
    ) -> (Result<(), NotTaken<L>>, Unrung<ForFinish>)
        requires { 0 < share.old.parts }
        ensures ok { IfOk result.0 (λ done. Finishes book.old.hold k work (Ok done) book.new.hold) }
        ensures err { IfErr result.0 (λ n. Finishes book.old.hold k work (Err n.refusal.fault) book.new.hold) }
        ensures refused { IfErr result.0 (λ n. (n.refusal.worker ≡ k) × (n.refusal.work ≡ work)) }
        ensures rest { book.new.rest ≡ book.old.rest }
        ensures parts { share.new.parts ≡ share.old.parts }
        ensures amount { share.new.amount ≡ share.old.amount + cond (is_ok result.0) 1 0 }
    {
        let answer = match book.finish_for(k, work, share) {
            Ok(()) => Ok(()),
            Err(fault) => Err(NotTaken {
                refusal: Refusal {
                    worker: k,
                    work,
                    fault,
                },
                of: PhantomData,
            }),
        };
        (answer, Unrung::new())
    }
}

/// A job was finished past the first `past` entries of the log, or the book was closed.
#[derive(Drop)]
pub struct HasFinished<L: Ledger> {
    pub past: usize,
    of: PhantomData<L>,
}

impl<L: Ledger> HasFinished<L> {
    pub(crate) fn look(book: &PoolBook<L>, past: usize) -> Option<HasFinished<L>>
        ensures past { IfSome result (λ seen. seen.past ≡ past) }
        ensures seen { IfSome result (λ seen. IsFinishedPast past book.now.hold.contents.log ⊎ (book.now.rest.closed ≡ true)) }
        ensures open { IfNone result (book.now.rest.closed ≡ false) }
        ensures none { IfNone result (IsFinishedPast past book.now.hold.contents.log → ⊥) }
    {
        if !is_finished_past(book.log(), past) && !book.closed() {
            return None;
        }
        Some(HasFinished {
            past,
            of: PhantomData,
        })
    }
}

fn is_finish(event: PoolEvent) -> bool
    ensures { result ≡ Rattle.uv_pool.specs.Book.is_finish event }
{
    matches!(event, PoolEvent::Finish(_, _))
}

/// Whether a job was finished past the first n entries of the log.
fn is_finished_past(log: &[PoolEvent], n: usize) -> bool
    ensures { MatchBool result (IsFinishedPast n log.now) (IsFinishedPast n log.now → ⊥) }
{
    'places: for place in n..log.len() {
        if is_finish(log[place]) {
            return true;
        }
    }
    false
}

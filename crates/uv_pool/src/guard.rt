//! The lock of a book, and its bells. It is taken and let go of in this file alone, and whoever lets it go calls a worker where a job waits for
//! one. So does who waits at a bell, and a worker sleeps at one. A value of `Woken` is made here alone, of what saw the book closed.
ghost use Rattle.std.specs.Prelude.{◌≡◌, [], false};
ghost use Rattle.std.specs.Sync.Mutex.{mutex_guard_value};

use crate::bell::{Bell, ForEntry, ForFinish, Rung, RungOnce, Waited};
use crate::book::PoolBook;
use crate::sightings::{WasClosed, WasTended};
use crate::sleepers::ForJob;
use std::sync::ledger::Ledger;
use std::sync::{Mutex, MutexGuard, Wait};

/// The lock of a book. It can't be dropped: `LockedBook::let_go` lets it go.
pub struct BookGuard<'a, L: Ledger> {
    pub book: MutexGuard<'a, PoolBook<L>>,
    owed: Owed,
}

/// That the lock is let go of by `let_go`.
struct Owed;

/// One worker that slept was woken.
#[derive(Drop)]
pub struct WokenWorker {
    _queued: RungOnce<ForJob>,
}

/// Who has the jobs that wait, as a book is let go of.
#[derive(Drop)]
pub enum LetGo<L: Ledger> {
    /// There are none, or nobody sleeps, or a worker is on its way.
    Tended(WasTended<L>),
    /// A worker that slept.
    Woken(WokenWorker),
}

/// All that wait at a book were woken: workers, and those who wait for the log to grow or for a job to be finished.
#[derive(Drop)]
pub struct Woken {
    _queued: Rung<ForJob>,
    _grown: Rung<ForEntry>,
    _finished: Rung<ForFinish>,
}

/// A book under its lock, and its bells.
#[derive(Drop)]
pub(crate) struct Guarded<L: Ledger> {
    book: Mutex<PoolBook<L>>,
    /// Workers who wait for a job.
    queued: Bell<ForJob>,
    /// Those who wait for the log to grow.
    pub(crate) grown: Bell<ForEntry>,
    /// Those who wait for a job to be finished.
    pub(crate) finished: Bell<ForFinish>,
}

impl<L: Ledger> Guarded<L> {
    pub(crate) fn new(book: PoolBook<L>) -> Guarded<L> {
        Guarded {
            book: Mutex::new(book),
            queued: Bell::new(),
            grown: Bell::new(),
            finished: Bell::new(),
        }
    }

    /// Waits for the lock.
    pub(crate) fn lock<R: Wait>(&self, rt: &R) -> BookGuard<'_, L> {
        BookGuard {
            book: self.book.lock(rt),
            owed: Owed,
        }
    }

    /// Lets the lock go. Where a job waits, somebody sleeps and nobody is on its way, one worker is woken.
    pub(crate) fn let_go(&self, guard: BookGuard<'_, L>) -> LetGo<L> {
        let BookGuard { mut book, owed } = guard;
        let Owed = owed;
        match book.call_next() {
            None => LetGo::Tended(WasTended::seen(&book)),
            Some(call) => {
                drop(book);
                LetGo::Woken(WokenWorker {
                    _queued: self.queued.ring_once(call),
                })
            }
        }
    }

    /// Lets the lock go until the bell rings, or for no reason, and takes it again. One worker is woken as by `let_go`.
    pub(crate) fn wait_at<'a, What, R: Wait>(
        &self,
        rt: &R,
        guard: BookGuard<'a, L>,
        bell: &Bell<What>,
        waits: What,
    ) -> (BookGuard<'a, L>, Waited<What>) {
        let BookGuard { mut book, owed } = guard;
        if let Some(call) = book.call_next() {
            self.queued.ring_once(call);
        }
        let (book, waited) = bell.wait(rt, book, waits);
        (BookGuard { book, owed }, waited)
    }

    /// A worker sleeps until it is woken, or for no reason, and takes the lock again.
    pub(crate) fn sleep<'a, R: Wait>(&self, rt: &R, guard: BookGuard<'a, L>) -> BookGuard<'a, L>
        requires nothing { (mutex_guard_value guard.book).hold.contents.waiting ≡ [] }
        requires open { (mutex_guard_value guard.book).rest.closed ≡ false }
    {
        let BookGuard { mut book, owed } = guard;
        let asleep = book.fall_asleep();
        let (mut book, waited) = self.queued.wait(rt, book, asleep);
        book.come_back(waited);
        BookGuard { book, owed }
    }

    /// Wakes all that wait, since the book was closed: behind that, and not before it.
    pub(crate) fn wake(&self, _closed: &WasClosed<L>) -> Woken {
        Woken {
            _queued: self.queued.ring(),
            _grown: self.grown.ring(),
            _finished: self.finished.ring(),
        }
    }

    /// The book, where nobody shares it any more.
    pub(crate) fn into_book(self) -> PoolBook<L> {
        self.book.into_inner()
    }
}

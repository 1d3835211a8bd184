//! How those who wait at a book's lock are woken. A value of `Rung` or `RungOnce` is made here alone: who has one has woken them. So is one of
//! `Waited`: who has one has waited.
ghost use Rattle.std.specs.Prelude.{◌≡◌};

use crate::sleepers::Call;
use std::marker::PhantomData;
use std::sync::{Condvar, MutexGuard, Wait};

/// Somebody waits for the log to grow.
#[derive(Drop)]
pub(crate) struct ForEntry;

/// Somebody waits for a job to be finished.
#[derive(Drop)]
pub(crate) struct ForFinish;

/// That was done for which some wait, and they aren't woken yet. It can't be dropped: who has it rings for them.
pub(crate) struct Unrung<What> {
    of: PhantomData<What>,
}

impl<What> Unrung<What> {
    pub(crate) fn new() -> Unrung<What> {
        Unrung { of: PhantomData }
    }
}

/// Somebody waited for that, until the bell rang or for no reason. It is made where one waits alone.
#[derive(Drop)]
pub(crate) struct Waited<What> {
    what: What,
}

impl<What> Waited<What> {
    /// What was waited for.
    pub(crate) fn over(self) -> What
        ensures { result ≡ self.what }
    {
        let Waited { what } = self;
        what
    }
}

/// Where those wait who wait for one thing.
#[derive(Drop)]
pub(crate) struct Bell<What> {
    waiting: Condvar,
    of: PhantomData<What>,
}

/// All who waited for that were woken.
#[derive(Drop)]
pub(crate) struct Rung<What> {
    of: PhantomData<What>,
}

/// One who waited for that was woken, where there was one.
#[derive(Drop)]
pub(crate) struct RungOnce<What> {
    of: PhantomData<What>,
}

impl<What> Bell<What> {
    pub(crate) fn new() -> Bell<What> {
        Bell {
            waiting: Condvar::new(),
            of: PhantomData,
        }
    }

    /// Lets the lock go until the bell rings, or for no reason, and takes it again.
    pub(crate) fn wait<'a, T, R: Wait>(
        &self,
        rt: &R,
        guard: MutexGuard<'a, T>,
        waits: What,
    ) -> (MutexGuard<'a, T>, Waited<What>) {
        (self.waiting.wait(rt, guard), Waited { what: waits })
    }

    /// Wakes all who wait.
    pub(crate) fn ring(&self) -> Rung<What> {
        self.waiting.notify_all();
        Rung { of: PhantomData }
    }

    /// Wakes all who wait, since that was done for which they wait: behind it, and not before it.
    pub(crate) fn ring_for(&self, done: Unrung<What>) -> Rung<What> {
        let Unrung { of: _ } = done;
        self.ring()
    }

    /// Wakes one of those who wait, since it was called.
    pub(crate) fn ring_once(&self, call: Call) -> RungOnce<What> {
        call.answered();
        self.waiting.notify_one();
        RungOnce { of: PhantomData }
    }
}

//! The workers that sleep until there is a job for them, and which of them is on its way. These counts are made and changed in this file
//! alone, and each change gives or takes a value that can't be dropped.
ghost use Rattle.std.specs.Prelude.{◌≡◌, MatchOption};
ghost use Rattle.uv_pool.specs.Sleepers.{none_asleep, dozed, returned, summoned, IsCallable};

use crate::bell::Waited;

/// How many workers sleep, and whether one of them was called and none has come back since (libuv's `idle_threads`; own: who was called).
#[derive(Clone, Copy)]
pub struct Sleepers {
    asleep: u64,
    called: bool,
}

/// A worker waits for a job, and is counted as asleep. It can't be dropped: who has it waits at the bell, and then counts the worker as back.
pub(crate) struct ForJob {
    counted: (),
}

/// A worker counts as on its way. It can't be dropped: who has it wakes one.
pub(crate) struct Call {
    counted: (),
}

impl Sleepers {
    /// Nobody sleeps.
    pub(crate) fn new() -> Sleepers
        ensures { result ≡ none_asleep }
    {
        Sleepers {
            asleep: 0,
            called: false,
        }
    }

    /// One falls asleep.
    pub(crate) fn fall_asleep(&mut self) -> ForJob
        ensures { self.new ≡ dozed self.old }
    {
        self.asleep = self.asleep.saturating_add(1);
        ForJob { counted: () }
    }

    /// One comes back, called or not. Then nobody counts as on its way: at worst a worker too many is called.
    pub(crate) fn come_back(&mut self, waited: Waited<ForJob>)
        ensures { self.new ≡ returned self.old }
    {
        let ForJob { counted: _ } = waited.over();
        self.asleep = self.asleep.saturating_sub(1);
        self.called = false;
    }

    /// One that sleeps is to be woken; none where nobody sleeps, or one is on its way.
    pub(crate) fn call(&mut self) -> Option<Call>
        ensures { MatchOption result ((IsCallable self.old → ⊥) × (self.new ≡ self.old))
            (λ call. IsCallable self.old × (self.new ≡ summoned self.old)) }
    {
        if self.asleep == 0 || self.called {
            return None;
        }
        self.called = true;
        Some(Call { counted: () })
    }
}

impl Call {
    /// The one that was called is woken now.
    pub(crate) fn answered(self) {
        let Call { counted: _ } = self;
    }
}

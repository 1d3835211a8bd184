//! The pool's events of a session's steps.
ghost use Rattle.std.specs.Prelude.{◌≡◌, ◌<◌, ◌++◌, ◌∷◌, [], IfErr, OnOk, vec_len, vec_capacity, count_by};
ghost use Rattle.uv_ids.specs.declared.fault.Fault.TheVariants.{Memory};
ghost use Rattle.uv_work.specs.Pool.{IsLegal};
ghost use Rattle.uv_live.specs.Working.{is_at_work};
ghost use Rattle.uv_run.specs.Counts.{is_queue, is_end};

use std::alloc::Global;
use uv_ids::Fault;
use uv_work::PoolEvent;

/// The events, and how many requests were queued by them, and how many are open no more.
#[derive(Drop)]
pub(crate) struct PoolLog {
    pub(crate) events: Vec<PoolEvent>,
    queued: usize,
    ended: usize,
    pub ghost queues: { queued ≡ count_by is_queue events.items },
    pub ghost ends: { ended ≡ count_by is_end events.items },
}

impl PoolLog {
    pub(crate) fn new(alloc: Global) -> PoolLog
        ensures { result.events.items ≡ [] }
    {
        PoolLog {
            events: Vec::new(alloc),
            queued: 0,
            ended: 0,
        }
    }

    /// Makes room for one more event.
    pub(crate) fn reserve(&mut self) -> Result<(), Fault>
        ensures events { self.new.events.items ≡ self.old.events.items }
        ensures room { OnOk result (vec_len self.new.events < vec_capacity self.new.events) }
        ensures err { IfErr result (λ fault. fault ≡ Memory) }
    {
        Ok(self.events.reserve(1)?)
    }

    /// Puts an event at the end.
    pub(crate) fn push(&mut self, event: PoolEvent)
        requires { vec_len self.old.events < vec_capacity self.old.events }
        ensures { self.new.events.items ≡ self.old.events.items ++ event ∷ [] }
    {
        match event {
            PoolEvent::Queue(_) => self.queued += 1,
            PoolEvent::Finish(_, _) | PoolEvent::Cancel(_) => self.ended += 1,
            PoolEvent::Take(_, _) | PoolEvent::Collect(_) => {}
        }
        self.events.push_reserved(event);
    }

    /// Whether a request waits for a worker, or one runs it.
    pub(crate) fn is_at_work(&self) -> bool
        ensures { (workers : _) → IsLegal workers self.now.events.items → result ≡ is_at_work workers self.now.events.items }
    {
        self.queued > self.ended
    }
}

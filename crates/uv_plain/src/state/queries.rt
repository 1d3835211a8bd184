//! What can be asked of a state.
ghost use Rattle.std.specs.Prelude.{◌≡◌, IfOk, length};
ghost use Rattle.uv_model.specs.Queries.{numbers, timer_ids, members, run_by, worker_of};

use crate::arena::Arena;
use crate::state::LoopState;
use std::alloc::{AllocError, Global};
use uv_ids::Id;
use uv_model::{Numbers, Place, runner_of};
use uv_records::{ListName, WatcherKind};

impl LoopState {
    /// Where the loop stands.
    pub fn place(&self) -> Place
        ensures { result ≡ self.now.place }
    {
        self.place
    }

    /// The numbers and flags.
    pub fn numbers(&self) -> Numbers
        ensures { result ≡ numbers self.now }
    {
        Numbers {
            time: self.time,
            clock: self.clock,
            next_start: self.next_start,
            stop_flag: self.stop_flag,
            idled: self.idled,
        }
    }

    /// The slots.
    pub fn arena(&self) -> &Arena
        ensures { result.now ≡ self.now.arena }
    {
        &self.arena
    }

    /// The active timers, in the order in which they are due.
    pub fn timer_ids(&self, alloc: Global) -> Result<Vec<Id>, AllocError>
        ensures { IfOk result (λ ids. ids.items ≡ timer_ids self.now) }
    {
        let mut ids = Vec::new(alloc);
        for id in self.timers.values() {
            ids.push(*id)?;
        }
        Ok(ids)
    }

    /// The members of a list, front first.
    pub fn members(&self, list: ListName) -> &[Id]
        ensures { result.now ≡ members self.now list }
    {
        match list {
            ListName::Ready => &self.ready,
            ListName::Idle => self.watchers.of(WatcherKind::Idle).list(),
            ListName::IdleYet => self.watchers.of(WatcherKind::Idle).yet(),
            ListName::Prepare => self.watchers.of(WatcherKind::Prepare).list(),
            ListName::PrepareYet => self.watchers.of(WatcherKind::Prepare).yet(),
            ListName::Check => self.watchers.of(WatcherKind::Check).list(),
            ListName::CheckYet => self.watchers.of(WatcherKind::Check).yet(),
            ListName::Async => self.watchers.of(WatcherKind::Async).list(),
            ListName::AsyncYet => self.watchers.of(WatcherKind::Async).yet(),
            ListName::Closing => self.closing.list(),
            ListName::ClosingYet => self.closing.yet(),
            ListName::Waiting => &self.waiting,
            ListName::Done => self.done.list(),
            ListName::DoneYet => self.done.yet(),
        }
    }

    /// How many workers there are.
    pub fn workers(&self) -> usize
        ensures { result ≡ length self.now.running }
    {
        self.running.len()
    }

    /// The request that a worker runs.
    pub fn run_by(&self, worker: usize) -> Option<Id>
        ensures { result ≡ run_by self.now worker }
    {
        *self.running.get(worker)?
    }

    /// The worker that runs a request.
    pub fn worker_of(&self, id: Id) -> Option<usize>
        ensures { result ≡ worker_of self.now id }
    {
        runner_of(&self.running, id)
    }
}

//! What the book holds, without its rule.
ghost use Rattle.std.specs.Prelude.{◌≡◌, ◌<◌, ◌≤◌, true, false, Some, None, IfOk, OnOk, OnErr, length, slice_get};
ghost use Rattle.uv_ids.specs.Limits.{MOST_STEPS};

use crate::places::{Collected, Place, forget, note};
use crate::queue::{Queue, at_number};
use std::alloc::{AllocError, Global};
use std::collections::{HashMap, VecDeque};
use uv_ids::Id;
use uv_work::{Job, PoolEvent, WorkResult};

/// The log, the jobs that wait and those that run, and the requests that are done.
#[derive(Drop)]
pub(crate) struct Held {
    pub(crate) log: Vec<PoolEvent>,
    pub(crate) waiting: Queue,
    pub(crate) running: Vec<Option<Job>>,
    pub(crate) done: VecDeque<Collected>,
    /// The number of the front of `done`.
    pub(crate) collected: usize,
    /// Where to look for a request. What stands there is compared with its id.
    pub(crate) places: HashMap<Id, Place>,
}

impl Held {
    ghost use Rattle.std.specs.Option.{MatchOption};
    ghost use Rattle.std.specs.VecDeque.{deque_capacity, deque_len};
    ghost use Rattle.uv_pool.specs.Rows.{id_at, IsNowhere};
    ghost use Rattle.uv_pool.specs.Rows as rows;
    ghost use Rattle.uv_pool.specs.Contents.{fresh, queued, finished, cancelled, Takes, Collects};
    ghost use Rattle.uv_pool.specs.Results.{KeepsResults, SetsResult, HandsOut};
    ghost use Rattle.uv_pool.specs.Held.{contents_of, has_room, hold_of, rows_of, place_of, Finds, IsKept};

    /// Nothing is in it, and there are so many workers.
    pub(crate) fn new(alloc: Global, workers: u16) -> Result<Held, AllocError>
        ensures { IfOk result (λ held. (contents_of held ≡ fresh workers) × IsKept held) }
    {
        let mut running = Vec::new(alloc);
        running.resize(workers as usize, None)?;
        Ok(Held {
            log: Vec::new(alloc),
            waiting: Queue::new(alloc),
            running,
            done: VecDeque::new(alloc),
            collected: 0,
            places: HashMap::new(alloc),
        })
    }

    /// What a worker runs; none where there is no such worker.
    pub(crate) fn run_at(&self, k: u16) -> Option<Option<Job>>
        ensures { result ≡ slice_get self.now.running.items k }
    {
        self.running.get(k as usize).copied()
    }

    pub(crate) fn done_at(&self, number: usize) -> Option<Collected>
        ensures { result ≡ rows.at_number self.now.collected self.now.done.items number }
    {
        at_number(&self.done, self.collected, number)
    }

    /// The request that stands at a place.
    fn id_at(&self, place: Place) -> Option<Id>
        ensures { result ≡ id_at (rows_of self.now) place }
    {
        match place {
            Place::Waiting(number) => match self.waiting.at(number) {
                Some(Some(job)) => Some(job.req),
                _ => None,
            },
            Place::Running(k) => match self.run_at(k) {
                Some(Some(job)) => Some(job.req),
                _ => None,
            },
            Place::Done(number) => match self.done_at(number) {
                Some(member) => Some(member.id),
                None => None,
            },
        }
    }

    /// Where a request stands; none where it isn't in the pool.
    pub(crate) fn find(&self, id: Id) -> Option<Place>
        requires { IsKept self.now }
        ensures place { MatchOption result (IsNowhere (rows_of self.now) id) (λ place. id_at (rows_of self.now) place ≡ Some id) }
        ensures found { Finds (contents_of self.now) id result }
    {
        let place = self.looked_up(id);
        place
    }

    fn looked_up(&self, id: Id) -> Option<Place>
        requires { IsKept self.now }
        ensures { MatchOption result (IsNowhere (rows_of self.now) id) (λ place. id_at (rows_of self.now) place ≡ Some id) }
    {
        match self.places.get(&id) {
            Some(place) => match self.id_at(*place) {
                Some(there) if there == id => Some(*place),
                _ => None,
            },
            None => None,
        }
    }

    /// Makes room for one more entry.
    pub(crate) fn reserve(&mut self) -> Result<(), AllocError>
        requires kept { IsKept self.old }
        requires limit { length self.old.log.items < MOST_STEPS }
        ensures contents { contents_of self.new ≡ contents_of self.old }
        ensures rows { rows_of self.new ≡ rows_of self.old }
        ensures kept { IsKept self.new }
        ensures ok { OnOk result (has_room self.new ≡ true) }
        ensures err { OnErr result (has_room self.old ≡ false) }
    {
        self.log.reserve(1)?;
        self.waiting.reserve()?;
        self.done.reserve(1)?;
        self.places.reserve(1)?;
        Ok(())
    }

    pub(crate) fn queue(&mut self, job: Job)
        requires room { has_room self.old ≡ true }
        requires kept { IsKept self.old }
        requires unknown { IsNowhere (rows_of self.old) job.req }
        ensures contents { contents_of self.new ≡ queued (contents_of self.old) job }
        ensures kept { IsKept self.new }
    {
        let number = self.waiting.push(job);
        note(&mut self.places, job.req, Place::Waiting(number));
        self.log.push_reserved(PoolEvent::Queue(job.req));
    }

    pub(crate) fn take(&mut self, k: u16) -> Option<Job>
        requires room { has_room self.old ≡ true }
        requires kept { IsKept self.old }
        requires idle { slice_get self.old.running.items k ≡ Some None }
        ensures contents { Takes (contents_of self.old) k result (contents_of self.new) }
        ensures kept { IsKept self.new }
    {
        let job = self.waiting.pop()?;
        self.running[k as usize] = Some(job);
        note(&mut self.places, job.req, Place::Running(k));
        self.log.push_reserved(PoolEvent::Take(k, job.req));
        Some(job)
    }

    pub(crate) fn finish(&mut self, k: u16, work: WorkResult)
        requires room { has_room self.old ≡ true }
        requires kept { IsKept self.old }
        requires runs { slice_get self.old.running.items k ≡ Some (Some work.job) }
        ensures contents { contents_of self.new ≡ finished (contents_of self.old) k work }
        ensures results { SetsResult (contents_of self.old) work.job.req (Some work) (contents_of self.new) }
        ensures kept { IsKept self.new }
    {
        let id = work.job().req;
        self.running[k as usize] = None;
        let number = self.collected + self.done.len();
        let result = Some(work);
        self.done.push_back_reserved(Collected { id, result });
        note(&mut self.places, id, Place::Done(number));
        self.log.push_reserved(PoolEvent::Finish(k, id));
    }

    /// Cancels the request that waits under a number.
    pub(crate) fn cancel(&mut self, id: Id, number: usize)
        requires room { has_room self.old ≡ true }
        requires kept { IsKept self.old }
        requires waits { id_at (rows_of self.old) (Place.Waiting number) ≡ Some id }
        ensures contents { contents_of self.new ≡ cancelled (contents_of self.old) id }
        ensures results { KeepsResults (contents_of self.old) (contents_of self.new) }
        ensures kept { IsKept self.new }
    {
        self.waiting.remove(number);
        let number = self.collected + self.done.len();
        self.done.push_back_reserved(Collected { id, result: None });
        note(&mut self.places, id, Place::Done(number));
        self.log.push_reserved(PoolEvent::Cancel(id));
    }

    pub(crate) fn collect(&mut self) -> Option<Collected>
        requires room { has_room self.old ≡ true }
        requires kept { IsKept self.old }
        ensures contents { Collects (contents_of self.old) result (contents_of self.new) }
        ensures results { HandsOut (contents_of self.old) result (contents_of self.new) }
        ensures kept { IsKept self.new }
    {
        let front = self.done.pop_front()?;
        self.collected += 1;
        forget(&mut self.places, front.id);
        self.log.push_reserved(PoolEvent::Collect(front.id));
        Some(front)
    }
}

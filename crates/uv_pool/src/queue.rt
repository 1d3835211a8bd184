//! The jobs that wait, by their numbers.
ghost use Rattle.std.specs.Prelude.{◌≡◌, ◌==◌, ◌+◌, ◌<◌, ◌≤◌, ◌-◌, ◌^◌, ◌++◌, ◌∷◌, [], true, drop, Some, None, OnOk, OnErr, slice_set};
ghost use Rattle.std.specs.VecDeque.{deque_len, deque_capacity};
ghost use Rattle.uv_pool.specs.Rows as rows;
ghost use Rattle.uv_pool.specs.Jobs.{jobs_of, front_waits, Pops, Leaves};

use std::alloc::{AllocError, Global};
use std::collections::VecDeque;
use uv_work::Job;

/// The jobs that wait. Each job that was ever queued has a number, from 0 on, by which it is found.
///
/// A cancelled job leaves an empty place behind, which goes once it comes to the front: so each place is passed once.
#[derive(Drop)]
pub(crate) struct Queue {
    pub(crate) places: VecDeque<Option<Job>>,
    /// The number of the front place.
    pub(crate) first: usize,
    pub ghost front: { front_waits places.items ≡ true },
}

impl Queue {
    pub(crate) fn new(alloc: Global) -> Queue
        ensures places { result.places.items ≡ [] }
        ensures first { result.first ≡ 0 }
    {
        Queue {
            places: VecDeque::new(alloc),
            first: 0,
        }
    }

    /// Makes room for one more job.
    pub(crate) fn reserve(&mut self) -> Result<(), AllocError>
        ensures places { self.new.places.items ≡ self.old.places.items }
        ensures first { self.new.first ≡ self.old.first }
        ensures ok { OnOk result (deque_len self.new.places < deque_capacity self.new.places) }
        ensures err { OnErr result (deque_capacity self.old.places ≤ deque_len self.old.places) }
    {
        self.places.reserve(1)
    }

    /// Nothing waits.
    pub(crate) fn is_empty(&self) -> bool
        ensures { result ≡ (deque_len self.now.places == 0) }
    {
        self.places.is_empty()
    }

    /// The job of a number, if it waits.
    pub(crate) fn at(&self, number: usize) -> Option<Option<Job>>
        ensures { result ≡ rows.at_number self.now.first self.now.places.items number }
    {
        at_number(&self.places, self.first, number)
    }

    /// Puts a job at the end, and answers its number.
    pub(crate) fn push(&mut self, job: Job) -> usize
        requires room { deque_len self.old.places < deque_capacity self.old.places }
        requires fits { self.old.first + deque_len self.old.places < 2 ^ 63 }
        ensures number { result ≡ self.old.first + deque_len self.old.places }
        ensures places { self.new.places.items ≡ self.old.places.items ++ Some job ∷ [] }
        ensures first { self.new.first ≡ self.old.first }
    {
        let number = self.first + self.places.len();
        self.places.push_back_reserved(Some(job));
        number
    }

    /// Takes out the job that waited longest; none where nothing waits.
    pub(crate) fn pop(&mut self) -> Option<Job>
        requires { self.old.first + deque_len self.old.places < 2 ^ 63 }
        ensures job { Pops self.old.first self.old.places.items result self.new.first self.new.places.items }
        ensures capacity { deque_capacity self.new.places ≡ deque_capacity self.old.places }
    {
        match self.places.pop_front() {
            Some(Some(job)) => {
                self.first += 1 + skip_empty(&mut self.places);
                Some(job)
            }
            _ => None,
        }
    }

    /// Leaves the place of a job empty.
    pub(crate) fn remove(&mut self, number: usize)
        requires fits { self.old.first + deque_len self.old.places < 2 ^ 63 }
        requires low { self.old.first ≤ number }
        requires high { number < self.old.first + deque_len self.old.places }
        ensures jobs { jobs_of self.new.places.items ≡ jobs_of (slice_set self.old.places.items (number - self.old.first) None) }
        ensures left { Leaves self.old.first self.old.places.items number self.new.first self.new.places.items }
        ensures capacity { deque_capacity self.new.places ≡ deque_capacity self.old.places }
    {
        let index = number - self.first;
        self.places[index] = None;
        self.first += skip_empty(&mut self.places);
    }
}

/// Takes the empty places off the front, and answers how many there were.
fn skip_empty(places: &mut VecDeque<Option<Job>>) -> usize
    ensures rest { places.new.items ≡ drop result places.old.items }
    ensures len { result + deque_len places.new ≡ deque_len places.old }
    ensures jobs { jobs_of places.new.items ≡ jobs_of places.old.items }
    ensures front { front_waits places.new.items ≡ true }
    ensures capacity { deque_capacity places.new ≡ deque_capacity places.old }
{
    let mut skipped = 0;
    while let Some(None) = places.front() {
        let _ = places.pop_front();
        skipped += 1;
    }
    skipped
}

/// What has a number, in a list whose front has the number `first`.
#[tactic(auto, using(crate::proofs::Numbers::before))]
pub(crate) fn at_number<T: Copy>(items: &VecDeque<T>, first: usize, number: usize) -> Option<T>
    ensures { result ≡ rows.at_number first items.now.items number }
{
    if number < first {
        return None;
    }
    let index = number - first;
    if index >= items.len() {
        return None;
    }
    Some(items[index])
}

//! Which worker an event is of, by what the workers run.
ghost use Rattle.std.specs.Prelude.{◌≡◌};
ghost use Rattle.uv_model.specs.After.{after};
ghost use Rattle.uv_workers.specs.Workers.{id_le};
ghost use Rattle.uv_tale.specs.Tale.{name_at};
ghost use Rattle.uv_find.specs.Ranks.{idle_worker, key_at, keys_run, run_in, runs_before, count_before, rank_in, is_of_rank, runner, finish_by, by_rank, ranked};

use uv_ids::{Event, Id};
use uv_model::Machine;
use uv_work::Content;

/// The first worker that runs no request.
pub(crate) fn idle_worker<M: Machine>(machine: &M) -> Option<u16>
    ensures { result ≡ idle_worker (after (M.program machine.now) (M.standing machine.now)) }
{
    'workers: for worker in 0..machine.script().workers() {
        if machine.run_by(worker as usize).is_none() {
            return Some(worker);
        }
    }
    None
}

/// The number of the name of what is held under an id; 0 of nothing.
fn name_at<M: Machine>(machine: &M, id: Id) -> u32
    ensures { result ≡ name_at (after (M.program machine.now) (M.standing machine.now)).arena.slots id }
{
    match machine.held(id) {
        None => 0,
        Some(Content::Handle(handle)) => handle.name.0,
        Some(Content::Request(request)) => request.name.0,
    }
}

/// Where a request comes among others: by its name, and of one name by its slot.
fn key_at<M: Machine>(machine: &M, id: Id) -> Id
    ensures { result ≡ key_at (after (M.program machine.now) (M.standing machine.now)).arena.slots id }
{
    Id {
        slot: name_at(machine, id),
        generation: id.slot,
    }
}

/// The same of what a worker runs.
fn key_run<M: Machine>(machine: &M, worker: usize) -> Option<Id>
    ensures { result ≡ run_in (keys_run (after (M.program machine.now) (M.standing machine.now))) worker }
{
    match machine.run_by(worker) {
        None => None,
        Some(id) => Some(key_at(machine, id)),
    }
}

fn id_le(a: Id, b: Id) -> bool
    ensures { result ≡ id_le a b }
{
    a.slot < b.slot || (a.slot == b.slot && a.generation <= b.generation)
}

/// Whether a worker runs what comes before this.
fn runs_before(key: Id, run: Option<Id>) -> bool
    ensures { result ≡ runs_before key run }
{
    match run {
        None => false,
        Some(other) => !id_le(key, other),
    }
}

/// How many do, of one.
fn count_before(key: Id, run: Option<Id>) -> usize
    ensures { result ≡ count_before key run }
{
    if runs_before(key, run) { 1 } else { 0 }
}

/// So many that are run come before this.
fn rank_in<M: Machine>(machine: &M, key: Id) -> usize
    ensures { result ≡ rank_in (keys_run (after (M.program machine.now) (M.standing machine.now))) key }
{
    let mut rank = 0;
    'workers: for worker in 0..machine.workers() {
        rank += count_before(key, key_run(machine, worker));
    }
    rank
}

fn is_of_rank<M: Machine>(machine: &M, rank: u16, run: Option<Id>) -> bool
    ensures { result ≡ is_of_rank (after (M.program machine.now) (M.standing machine.now)) rank run }
{
    match run {
        None => false,
        Some(id) => rank_in(machine, key_at(machine, id)) == rank as usize,
    }
}

/// The worker that runs the request of this rank.
pub(crate) fn runner<M: Machine>(machine: &M, rank: u16) -> Option<u16>
    ensures { result ≡ runner (after (M.program machine.now) (M.standing machine.now)) rank }
{
    'workers: for worker in 0..machine.script().workers() {
        if is_of_rank(machine, rank, machine.run_by(worker as usize)) {
            return Some(worker);
        }
    }
    None
}

/// The event in which it finishes it.
fn finish_by(worker: Option<u16>) -> Option<Event>
    ensures { result ≡ finish_by worker }
{
    match worker {
        None => None,
        Some(worker) => Some(Event::Finish(worker)),
    }
}

fn by_rank<M: Machine>(machine: &M, event: Event) -> Option<Event>
    ensures { result ≡ by_rank (after (M.program machine.now) (M.standing machine.now)) event }
{
    match event {
        Event::Finish(rank) => finish_by(runner(machine, rank)),
        _ => Some(event),
    }
}

/// Where a search forgets which worker runs which request, its finishes go by ranks.
pub(crate) fn ranked<M: Machine>(
    machine: &M,
    forget: Option<u64>,
    event: Option<Event>,
) -> Option<Event>
    ensures { result ≡ ranked forget (after (M.program machine.now) (M.standing machine.now)) event }
{
    match (forget, event) {
        (None, event) => event,
        (Some(_), None) => None,
        (Some(_), Some(event)) => by_rank(machine, event),
    }
}

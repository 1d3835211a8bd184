//! The workers' threads of a live run.
ghost use Rattle.std.specs.Prelude.{◌≡◌, ◌+◌, ◌<◌, ◌≤◌, IfOk, IfErr, OnOk, true, map, vec_len, vec_capacity};
ghost use Rattle.uv_ids.specs.declared.fault.Fault.TheVariants.{Memory};
ghost use Rattle.uv_pool.specs.Telling.{IsTold};
ghost use Rattle.uv_live.specs.Faults.{is_workers};
ghost use Rattle.uv_live.specs.Running.{first_fault, given_in, AreNumbered};

use std::alloc::Global;
use std::sync::Wait;
use std::sync::ledger::Ledger;
use std::thread::{Promise, PromisedHandle, Scope, Threads};
use uv_ids::Fault;
use uv_pool::{Desk, Gate, LockedBook, Shift, WasClosed, worker};

/// A worker's thread that isn't joined.
pub(crate) type Worker<L> = PromisedHandle<Answer<L>, Works>;

/// What a worker's thread promises: the shift that it answers is that worker's.
#[derive(Clone, Copy)]
pub(crate) struct Works {
    worker: u16,
}

impl<L: Ledger> Promise<Answer<L>> for Works {
    ghost kept_by = { λ p answer. IfOk answer (λ shift. shift.worker ≡ p.worker) };
}

/// Why a worker's thread gave no shift.
#[derive(Clone, Copy)]
pub(crate) struct NoShift {
    pub(crate) fault: Fault,
    pub ghost theirs: { is_workers fault ≡ true },
}

/// What the thread of a worker does.
#[tactic(auto, using(crate::proofs::Faults::faults))]
fn work<L: Ledger, G: Gate, R: Wait>(
    rt: &R,
    alloc: Global,
    book: &LockedBook<L>,
    gate: &mut G,
    k: u16,
) -> Answer<L>
    ensures worker { IfOk result (λ shift. shift.worker ≡ k) }
    ensures told { IfOk result (λ shift. IsTold G.begins G.ends gate.old shift.events.items gate.new) }
{
    let mut desk = Desk::new(rt, alloc, book);
    match worker(rt, alloc, &mut desk, gate, k) {
        Ok(shift) => Ok(shift),
        Err(fault) => Err(NoShift { fault }),
    }
}

/// What a worker's thread answered.
pub(crate) type Answer<L> = Result<Shift<L>, NoShift>;

/// How many workers a run has, their threads that were started and aren't joined, in the order of their numbers, and what those that were joined
/// have answered. For the answer of each thread that isn't joined there is room.
#[derive(Drop)]
pub(crate) struct Crew<L: Ledger> {
    pub(crate) workers: u16,
    pub(crate) started: Vec<Worker<L>>,
    pub(crate) answers: Vec<Answer<L>>,
    pub ghost roomy: { vec_len answers + vec_len started ≤ vec_capacity answers },
    pub ghost numbered: { AreNumbered (map (λ h. h.promise.worker) started.items) },
}

impl<L: Ledger> Crew<L> {
    /// A crew of so many workers, of which none is started.
    pub(crate) fn new(alloc: Global, workers: u16) -> Crew<L>
        ensures workers { result.workers ≡ workers }
        ensures none { vec_len result.started ≡ 0 }
        ensures unanswered { vec_len result.answers ≡ 0 }
    {
        Crew {
            workers,
            started: Vec::new(alloc),
            answers: Vec::new(alloc),
        }
    }

    /// Makes room for one thread more, and for its answer.
    fn reserve(&mut self) -> Result<(), Fault>
        ensures room { OnOk result (vec_len self.new.started < vec_capacity self.new.started) }
        ensures answer { OnOk result (vec_len self.new.answers + vec_len self.new.started < vec_capacity self.new.answers) }
        ensures err { IfErr result (λ fault. fault ≡ Memory) }
        ensures workers { self.new.workers ≡ self.old.workers }
        ensures started { vec_len self.new.started ≡ vec_len self.old.started }
        ensures answers { vec_len self.new.answers ≡ vec_len self.old.answers }
    {
        self.answers.reserve(self.started.len() + 1)?;
        Ok(self.started.reserve(1)?)
    }

    /// A thread more, which was started: that of the next worker.
    fn add(&mut self, worker: Worker<L>)
        requires next { worker.promise.worker ≡ vec_len self.old.started }
        requires room { vec_len self.old.started < vec_capacity self.old.started }
        requires answer { vec_len self.old.answers + vec_len self.old.started < vec_capacity self.old.answers }
        ensures workers { self.new.workers ≡ self.old.workers }
        ensures started { vec_len self.new.started ≡ vec_len self.old.started + 1 }
        ensures answers { vec_len self.new.answers ≡ vec_len self.old.answers }
    {
        self.started.push_reserved(worker);
    }
}

/// Starts a thread for each worker, with that worker's number, which is in the crew then. Room comes first, so each thread that was started is
/// joined.
pub(crate) fn start_workers<
    's,
    E,
    L: Ledger + Send + Sync,
    G: Gate + Sync,
    R: Threads + Wait + Sync,
>(
    rt: &'s R,
    alloc: Global,
    scope: &Scope<'s, E>,
    book: &'s LockedBook<L>,
    gate: &'s G,
    crew: &mut Crew<L>,
) -> Result<(), Fault>
    requires none { vec_len crew.old.started ≡ 0 }
    ensures err { IfErr result (λ fault. fault ≡ Memory) }
    ensures all { OnOk result (vec_len crew.new.started ≡ crew.old.workers) }
    ensures answers { OnOk result (vec_len crew.new.answers ≡ vec_len crew.old.answers) }
{
    'workers: for k in 0..crew.workers {
        crew.reserve()?;
        let working = move || -> Answer<L>
            ensures { IfOk result (λ shift. shift.worker ≡ k) }
        {
            let mut gate = *gate;
            work(rt, alloc, book, &mut gate, k)
        };
        match scope.spawn_with(Works { worker: k }, working) {
            Ok(worker) => crew.add(worker),
            Err(_) => return Err(Fault::Memory),
        }
    }
    Ok(())
}

/// Joins the workers' threads, where the book was closed: what they answer, in the order of their numbers.
pub(crate) fn join_workers<L: Ledger, R: Threads>(
    rt: &R,
    crew: Crew<L>,
    _closed: &WasClosed<L>,
) -> Vec<Answer<L>>
    ensures { vec_len result ≡ vec_len crew.answers + vec_len crew.started }
{
    let Crew {
        started,
        mut answers,
        ..
    } = crew;
    'left: for worker in started {
        answers.push_reserved(worker.join(rt));
    }
    answers
}

/// Why the lowest worker that gave no shift gave none.
pub(crate) fn lowest_fault<L: Ledger>(answers: &[Answer<L>]) -> Option<NoShift>
    ensures { result ≡ first_fault answers.now }
{
    'answers: for k in 0..answers.len() {
        if let Err(fault) = &answers[k] {
            return Some(*fault);
        }
    }
    None
}

/// The shifts of the workers that have no fault, in their order.
pub(crate) fn shifts_of<L: Ledger>(
    alloc: Global,
    answers: Vec<Answer<L>>,
) -> Result<Vec<Shift<L>>, Fault>
    ensures shifts { IfOk result (λ shifts. shifts.items ≡ given_in answers.items) }
    ensures err { IfErr result (λ fault. fault ≡ Memory) }
{
    let mut shifts = Vec::new(alloc);
    'answers: for answer in answers {
        if let Ok(shift) = answer {
            match shifts.push(shift) {
                Ok(()) => {}
                Err(_) => return Err(Fault::Memory),
            }
        }
    }
    Ok(shifts)
}

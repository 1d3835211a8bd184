//! The calls by example.
ghost use Rattle.std.specs.Prelude.{◌≡◌, ◌<◌};

use crate::given::{FIRST, FOURTH, Quiet, SECOND, THIRD, id, job};
use std::alloc::Global;
use std::marker::Brand;
use std::process::Abort;
use std::sync::Wait;
use std::sync::ledger::{Blank, Ledger};
use uv_ids::{Code, Fault, Why};
use uv_pool::{PoolBook, worker};
use uv_work::{PoolEvent, WorkResult};

/// A call of the book, by the slot of its request and the number of its worker, and what it has to answer.
#[derive(Clone, Copy)]
pub enum Step {
    Reserves,
    Submits(u32),
    IsSubmitted(u32),
    Takes(u16, u32),
    DoesNotTake(u16, Why),
    Finishes(u16, u32),
    DoesNotFinish(u16, u32, Why),
    Cancels(u32, Code),
    CollectsFinished(u32),
    CollectsCancelled(u32),
    CollectsNothing,
    HasResult(u32),
    HasNoResult(u32),
    Closes,
    HasWorkers(u16),
    /// Worker 0 works until nothing waits: how many events it has, which are the last ones of the log.
    Works(usize),
}

/// The result of a request's job.
fn work<R: Abort>(rt: &R, slot: u32) -> WorkResult {
    WorkResult::compute(job(rt, slot))
}

fn collects<L: Ledger>(book: &mut PoolBook<L>, slot: u32, wanted: Option<WorkResult>) -> bool {
    match book.collect() {
        Ok(Some(member)) => member.id == id(slot) && member.result == wanted,
        _ => false,
    }
}

fn closes<L: Ledger>(book: &mut PoolBook<L>) -> bool {
    let open = !book.closed();
    book.close();
    open && book.closed()
}

fn works<L: Ledger, R: Wait>(rt: &R, alloc: Global, book: &mut PoolBook<L>, count: usize) -> bool {
    match worker(rt, alloc, book, &mut Quiet, 0) {
        Ok(shift) => {
            shift.events.len() == count && book.log().ends_with(shift.events.as_slice())
        }
        Err(_) => false,
    }
}

/// Makes a call: whether it answers what it has to.
fn answers<L: Ledger, R: Abort + Wait>(
    rt: &R,
    alloc: Global,
    book: &mut PoolBook<L>,
    step: Step,
) -> bool {
    match step {
        Step::Reserves => book.reserve() == Ok(()),
        Step::Submits(slot) => book.submit(job(rt, slot)) == Ok(()),
        Step::IsSubmitted(slot) => book.submit(job(rt, slot)) == Err(Fault::Refused(Why::Range)),
        Step::Takes(k, slot) => book.take(k) == Ok(Some(job(rt, slot))),
        Step::DoesNotTake(k, why) => book.take(k) == Err(Fault::Refused(why)),
        Step::Cancels(slot, code) => book.cancel(id(slot)) == Ok(code),
        Step::Closes => closes(book),
        Step::Works(count) => works(rt, alloc, book, count),
        further => answers_further(rt, book, further),
    }
}

/// The calls that speak of results.
fn answers_further<L: Ledger, R: Abort>(rt: &R, book: &mut PoolBook<L>, step: Step) -> bool {
    match step {
        Step::Finishes(k, slot) => book.finish(k, work(rt, slot)) == Ok(()),
        Step::DoesNotFinish(k, slot, why) => {
            book.finish(k, work(rt, slot)) == Err((Fault::Refused(why), work(rt, slot)))
        }
        Step::CollectsFinished(slot) => collects(book, slot, Some(work(rt, slot))),
        Step::CollectsCancelled(slot) => collects(book, slot, None),
        Step::CollectsNothing => matches!(book.collect(), Ok(None)),
        Step::HasResult(slot) => book.result(id(slot)) == Some(work(rt, slot)),
        Step::HasNoResult(slot) => book.result(id(slot)).is_none(),
        Step::HasWorkers(count) => book.workers() == count,
        _ => false,
    }
}

/// Makes the calls in their order: whether each answers what it has to.
pub fn answer_all<L: Ledger, R: Abort + Wait>(
    rt: &R,
    alloc: Global,
    book: &mut PoolBook<L>,
    steps: &[Step],
) -> bool {
    let mut right = true;
    for step in steps {
        right = right && answers(rt, alloc, book, *step);
    }
    right
}

/// Calls of a book for so many workers, and its log.
struct Calls {
    name: &'static str,
    workers: u16,
    steps: &'static [Step],
    log: &'static [PoolEvent],
}

/// Whether the calls of a book answer what they have to, and its log is that.
fn answers_in_turn<L: Ledger, R: Abort + Wait>(
    rt: &R,
    alloc: Global,
    blank: Blank,
    calls: &Calls,
) -> Result<bool, Fault>
    requires name { blank.name ≡ L.name }
    requires parts { blank.parts ≡ L.parts }
    requires more { calls.now.workers < blank.parts }
{
    let mut book = PoolBook::<L>::new(alloc, blank, calls.workers)?;
    Ok(answer_all(rt, alloc, &mut book, calls.steps) && book.log() == calls.log)
}

/// The same, of a book of its own.
fn are_right<R: Abort + Wait>(rt: &R, alloc: Global, calls: &Calls) -> bool {
    let blank = Blank::new(u64::from(calls.workers) + 1);
    answers_in_turn::<Brand, _>(rt, alloc, blank, calls) == Ok(true)
}

const REFUSALS: [Step; 12] = [
    Step::Submits(0),
    Step::IsSubmitted(0),
    Step::Takes(0, 0),
    Step::DoesNotTake(0, Why::BusyWorker),
    Step::DoesNotTake(2, Why::NoWorker),
    Step::Cancels(0, Code::Ebusy),
    Step::DoesNotFinish(1, 0, Why::IdleWorker),
    Step::DoesNotFinish(0, 1, Why::NoWork),
    Step::Finishes(0, 0),
    Step::CollectsFinished(0),
    Step::CollectsNothing,
    Step::Cancels(0, Code::Estale),
];

const ONE_JOB: [PoolEvent; 4] = [
    PoolEvent::Queue(FIRST),
    PoolEvent::Take(0, FIRST),
    PoolEvent::Finish(0, FIRST),
    PoolEvent::Collect(FIRST),
];

const CANCELS: [Step; 27] = [
    Step::Reserves,
    Step::Submits(0),
    Step::Submits(1),
    Step::Submits(2),
    Step::Submits(3),
    Step::Cancels(2, Code::Ok),
    Step::Cancels(2, Code::Ebusy),
    Step::Cancels(0, Code::Ok),
    Step::Cancels(0, Code::Ebusy),
    Step::Cancels(1, Code::Ok),
    Step::Cancels(1, Code::Ebusy),
    Step::Closes,
    Step::HasWorkers(1),
    Step::Takes(0, 3),
    Step::Finishes(0, 3),
    Step::HasResult(3),
    Step::HasNoResult(2),
    Step::CollectsCancelled(2),
    Step::HasNoResult(2),
    Step::CollectsCancelled(0),
    Step::HasNoResult(0),
    Step::CollectsCancelled(1),
    Step::HasNoResult(1),
    Step::CollectsFinished(3),
    Step::HasNoResult(3),
    Step::Submits(2),
    Step::Takes(0, 2),
];

const IN_THEIR_ORDER: [PoolEvent; 15] = [
    PoolEvent::Queue(FIRST),
    PoolEvent::Queue(SECOND),
    PoolEvent::Queue(THIRD),
    PoolEvent::Queue(FOURTH),
    PoolEvent::Cancel(THIRD),
    PoolEvent::Cancel(FIRST),
    PoolEvent::Cancel(SECOND),
    PoolEvent::Take(0, FOURTH),
    PoolEvent::Finish(0, FOURTH),
    PoolEvent::Collect(THIRD),
    PoolEvent::Collect(FIRST),
    PoolEvent::Collect(SECOND),
    PoolEvent::Collect(FOURTH),
    PoolEvent::Queue(THIRD),
    PoolEvent::Take(0, THIRD),
];

const WORKS: [Step; 4] = [
    Step::Submits(0),
    Step::Submits(1),
    Step::Submits(2),
    Step::Works(6),
];

const THREE_JOBS: [PoolEvent; 9] = [
    PoolEvent::Queue(FIRST),
    PoolEvent::Queue(SECOND),
    PoolEvent::Queue(THIRD),
    PoolEvent::Take(0, FIRST),
    PoolEvent::Finish(0, FIRST),
    PoolEvent::Take(0, SECOND),
    PoolEvent::Finish(0, SECOND),
    PoolEvent::Take(0, THIRD),
    PoolEvent::Finish(0, THIRD),
];

static CALLS: [Calls; 3] = [
    Calls {
        name: "each_refusal_in_its_place",
        workers: 2,
        steps: &REFUSALS,
        log: &ONE_JOB,
    },
    Calls {
        name: "cancelled_ones_come_in_their_order",
        workers: 1,
        steps: &CANCELS,
        log: &IN_THEIR_ORDER,
    },
    Calls {
        name: "a_worker_does_three_jobs",
        workers: 1,
        steps: &WORKS,
        log: &THREE_JOBS,
    },
];

/// The calls: behind a function, since a proof writes them out where it meets them.
fn all_calls() -> &'static [Calls] {
    &CALLS
}

#[test]
fn each_call_answers_what_it_has_to(rt: HostRuntime) {
    for calls in all_calls() {
        let name = calls.name;
        assert!(&rt; are_right(&rt, rt.alloc(), calls), "{name}");
    }
}

//! Threads over one book. What they did is judged by its log.
ghost use Rattle.std.specs.Prelude.{◌≡◌, ◌<◌};

use crate::gates::{Moment, Ordered};
use crate::given::{FIRST, FOURTH, Quiet, SECOND, THIRD, id, job};
use std::alloc::Global;
use std::marker::Brand;
use std::process::Abort;
use std::sync::Wait;
use std::sync::atomic::{AtomicU32, Ordering};
use std::sync::ledger::{Blank, Ledger};
use std::thread::{Threads, map_indices, sleep};
use std::time::{Clock, Duration};
use uv_ids::{Code, Fault, Id, Why};
use uv_pool::{Desk, Gate, LockedBook, PoolBook, Shift, worker};
use uv_work::PoolEvent;

pub fn work<L: Ledger, G: Gate, R: Wait>(
    rt: &R,
    alloc: Global,
    book: &LockedBook<L>,
    gate: &mut G,
    k: u16,
) -> Result<Shift<L>, Fault> {
    let mut desk = Desk::new(rt, alloc, book);
    worker(rt, alloc, &mut desk, gate, k)
}

fn submit<L: Ledger, R: Abort + Wait>(
    rt: &R,
    book: &LockedBook<L>,
    slot: u32,
) -> Result<(), Fault> {
    let mut guard = book.lock(rt);
    let submitted = guard.book.submit(job(rt, slot));
    book.let_go(guard);
    submitted
}

/// Cancels a request, if it waits.
fn cancel<L: Ledger, R: Wait>(rt: &R, book: &LockedBook<L>, slot: u32) -> Result<Code, Fault> {
    let mut guard = book.lock(rt);
    let cancelled = guard.book.cancel(id(slot));
    book.let_go(guard);
    cancelled
}

/// What has become of a request.
#[derive(Clone, Copy, PartialEq, Eq)]
enum Fate {
    Unknown,
    Waits,
    Runs,
    Finished,
    Cancelled,
}

/// Whether an event finds its request as it must be. The request is then as the event leaves it.
fn applies(fates: &mut [Fate], event: PoolEvent) -> bool {
    let (id, before, after) = match event {
        PoolEvent::Queue(id) => (id, Fate::Unknown, Fate::Waits),
        PoolEvent::Take(_, id) => (id, Fate::Waits, Fate::Runs),
        PoolEvent::Finish(_, id) => (id, Fate::Runs, Fate::Finished),
        PoolEvent::Cancel(id) => (id, Fate::Waits, Fate::Cancelled),
        PoolEvent::Collect(_) => return false,
    };
    match fates.get_mut(id.slot as usize) {
        Some(fate) if *fate == before => {
            *fate = after;
            true
        }
        _ => false,
    }
}

fn count(fates: &[Fate], wanted: Fate) -> usize {
    let mut sum: usize = 0;
    for fate in fates {
        if *fate == wanted {
            sum = sum.wrapping_add(1);
        }
    }
    sum
}

/// What is asked of the workers.
#[derive(Clone, Copy)]
struct Load {
    workers: u16,
    /// So many milliseconds pass before the first one.
    pause: u64,
    jobs: u32,
    /// The book is closed behind this job, once its log has more than so many entries.
    last: u32,
    entries: usize,
    /// After every third job, one from the middle of those so far is cancelled, if it waits.
    cancels: bool,
}

/// Whether the requests went through a legal log, each of them, and the workers have just the events of those that were finished.
fn are_done(fates: &mut [Fate], log: &[PoolEvent], load: Load, events: usize) -> bool {
    let mut legal = true;
    for event in log {
        legal = legal && applies(fates, *event);
    }
    let finished = count(fates, Fate::Finished);
    let halfway = count(fates, Fate::Unknown) != 0 || count(fates, Fate::Runs) != 0;
    legal
        && !halfway
        && finished > 0
        && (load.cancels || finished == load.jobs as usize)
        && events / 2 == finished
        && events % 2 == 0
}

/// Submits the jobs. The book is closed at the end, after a fault too, so that the workers end.
fn feed<L: Ledger, R: Abort + Clock + Wait>(
    rt: &R,
    book: &LockedBook<L>,
    load: Load,
) -> Result<usize, Fault> {
    sleep(rt, Duration::from_millis(load.pause));
    let fed = submit_all(rt, book, load);
    book.close(rt);
    fed
}

/// It answers that it has no event of a worker.
fn submit_all<L: Ledger, R: Abort + Wait>(
    rt: &R,
    book: &LockedBook<L>,
    load: Load,
) -> Result<usize, Fault> {
    for slot in 0..load.jobs {
        submit(rt, book, slot)?;
        if load.cancels && slot % 3 == 0 {
            let _code = cancel(rt, book, slot / 2)?;
        }
        if slot == load.last {
            book.let_go(book.wait_past(rt, load.entries));
            book.close(rt);
        }
    }
    Ok(0)
}

/// What a thread does: the first one feeds the workers, and each other one is a worker. How many events of a worker it has.
fn part<L: Ledger, G: Gate, R: Abort + Clock + Wait>(
    rt: &R,
    alloc: Global,
    book: &LockedBook<L>,
    load: Load,
    gate: &G,
    number: usize,
) -> Result<usize, Fault> {
    if number == 0 {
        return feed(rt, book, load);
    }
    count_events(rt, alloc, book, gate, (number - 1).min(1024) as u16)
}

/// How many events a worker has.
fn count_events<L: Ledger, G: Gate, R: Wait>(
    rt: &R,
    alloc: Global,
    book: &LockedBook<L>,
    gate: &G,
    k: u16,
) -> Result<usize, Fault> {
    let mut gate = *gate;
    let shift = work(rt, alloc, book, &mut gate, k)?;
    Ok(shift.events.len())
}

fn sum(counts: &[Result<usize, Fault>]) -> Result<usize, Fault> {
    let mut sum: usize = 0;
    for count in counts {
        match count {
            Ok(count) => sum = sum.saturating_add(*count),
            Err(fault) => return Err(*fault),
        }
    }
    Ok(sum)
}

/// Feeds the workers, which work on threads of their own: how many events they have.
fn work_all<L: Ledger + Send + Sync, G: Gate + Sync, R: Abort + Clock + Threads + Wait + Sync>(
    rt: &R,
    alloc: Global,
    book: &LockedBook<L>,
    load: Load,
    gate: &G,
) -> Result<usize, Fault> {
    let counts = map_indices(
        rt,
        alloc,
        load.workers as usize + 1,
        &|number| part(rt, alloc, book, load, gate, number),
    )?;
    sum(&counts)
}

fn run<L: Ledger + Send + Sync, G: Gate + Sync, R: Abort + Clock + Threads + Wait + Sync>(
    rt: &R,
    alloc: Global,
    blank: Blank,
    load: Load,
    gate: &G,
) -> Result<bool, Fault>
    requires name { blank.name ≡ L.name }
    requires parts { blank.parts ≡ L.parts }
    requires more { load.workers < blank.parts }
{
    let book = LockedBook::new(PoolBook::<L>::new(alloc, blank, load.workers)?);
    let events = work_all(rt, alloc, &book, load, gate)?;
    let mut fates = Vec::from_elem(alloc, Fate::Unknown, load.jobs as usize)?;
    Ok(are_done(&mut fates, book.into_book().log(), load, events))
}

/// Whether workers on threads of their own do what they are asked.
fn do_all<G: Gate + Sync, R: Abort + Clock + Threads + Wait + Sync>(
    rt: &R,
    alloc: Global,
    load: Load,
    gate: &G,
) -> bool {
    let blank = Blank::new(u64::from(load.workers) + 1);
    run::<Brand, _, _>(rt, alloc, blank, load, gate) == Ok(true)
}

#[test]
fn four_threads_do_forty_jobs(rt: HostRuntime) {
    let load = Load {
        workers: 4,
        pause: 0,
        jobs: 40,
        last: u32::MAX,
        entries: 0,
        cancels: false,
    };
    assert!(&rt; do_all(&rt, rt.alloc(), load, &Quiet));
}

#[test]
fn eight_threads_end_by_themselves(rt: HostRuntime) {
    let load = Load {
        workers: 8,
        pause: 0,
        jobs: 2000,
        last: 999,
        entries: 1000,
        cancels: true,
    };
    assert!(&rt; do_all(&rt, rt.alloc(), load, &Quiet));
}

/// Once the workers may be asleep each is held until the four have begun a job, and the book is closed when all were finished.
#[test]
fn a_queue_of_jobs_wakes_one_worker_after_another(rt: HostRuntime) {
    let load = Load {
        workers: 4,
        pause: 50,
        jobs: 4,
        last: 3,
        entries: 11,
        cancels: false,
    };
    let last = Moment::Begun(FOURTH);
    let holds = [
        (Moment::Begun(FIRST), last),
        (Moment::Begun(SECOND), last),
        (Moment::Begun(THIRD), last),
    ];
    let gate = Ordered::new(&rt, rt.alloc(), &holds);
    assert!(&rt; do_all(&rt, rt.alloc(), load, &&gate) && !gate.is_late());
}

/// A gate that looks into the book at each call: how often the log hadn't what it was told of. It may take the worker's next job itself,
/// so that the worker's own take is refused, and let others wait meanwhile.
#[derive(Drop)]
struct Looking<'a, R: Clock + Wait, L: Ledger> {
    rt: &'a R,
    book: &'a LockedBook<L>,
    grasps: bool,
    missed: AtomicU32,
}

impl<'a, R: Clock + Wait, L: Ledger> Looking<'a, R, L> {
    fn look(&self, event: PoolEvent) {
        let guard = self.book.lock(self.rt);
        let is_there = guard.book.log().contains(&event);
        self.book.let_go(guard);
        if !is_there {
            self.missed.fetch_add(1, Ordering::SeqCst);
        }
    }

    fn grasp(&self, k: u16) {
        let mut guard = self.book.lock(self.rt);
        let _ = guard.book.take(k);
        self.book.let_go(guard);
        sleep(self.rt, Duration::from_millis(100));
    }
}

impl<'s, 'a, R: Clock + Wait, L: Ledger> Gate for &'s Looking<'a, R, L> {
    ghost begins = { λ g k id after. Unit {0} };

    ghost ends = { λ g k id after. Unit {0} };

    ghost sends = { λ g s after. Unit {0} };

    fn begun(&mut self, k: u16, id: Id) {
        self.look(PoolEvent::Take(k, id));
    }

    fn ended(&mut self, k: u16, id: Id) {
        self.look(PoolEvent::Finish(k, id));
        if self.grasps {
            self.grasp(k);
        }
    }

    fn sending(&mut self, _s: u8) {}
}

/// How many events a worker has, or its fault; none where its gate missed one.
fn seen_by_gate<'a, L: Ledger, R: Clock + Wait>(
    rt: &'a R,
    alloc: Global,
    book: &'a LockedBook<L>,
    grasps: bool,
) -> Result<usize, Fault> {
    let gate = Looking {
        rt,
        book,
        grasps,
        missed: AtomicU32::new(0),
    };
    let events = count_events(rt, alloc, book, &&gate, 0)?;
    if gate.missed.load(Ordering::SeqCst) == 0 {
        Ok(events)
    } else {
        Ok(0)
    }
}

/// A worker whose take is refused, and who has closed its book then; and two that wait meanwhile, for a second finish and a sixth entry.
fn beside<L: Ledger, R: Clock + Wait>(
    rt: &R,
    alloc: Global,
    book: &LockedBook<L>,
    number: usize,
) -> bool {
    match number {
        0 => is_refused(rt, alloc, book),
        1 => {
            book.wait_finished(rt, 4);
            true
        }
        _ => {
            book.let_go(book.wait_past(rt, 5));
            true
        }
    }
}

fn is_refused<L: Ledger, R: Clock + Wait>(rt: &R, alloc: Global, book: &LockedBook<L>) -> bool {
    let answer = seen_by_gate(rt, alloc, book, true);
    let guard = book.lock(rt);
    let closed = guard.book.closed();
    book.let_go(guard);
    closed && answer == Err(Fault::Refused(Why::BusyWorker))
}

/// Whether a worker that faults wakes all.
fn wakes_all<L: Ledger + Send + Sync, R: Abort + Clock + Threads + Wait + Sync>(
    rt: &R,
    alloc: Global,
    book: &LockedBook<L>,
) -> Result<bool, Fault> {
    let answers = map_indices(rt, alloc, 3, &|number| beside(rt, alloc, book, number))?;
    Ok(!answers.contains(&false))
}

/// Whether the gate of a worker that does eight jobs misses no event.
fn misses_none<L: Ledger, R: Clock + Wait>(
    rt: &R,
    alloc: Global,
    book: &LockedBook<L>,
) -> Result<bool, Fault> {
    book.close(rt);
    Ok(seen_by_gate(rt, alloc, book, false)? == 16)
}

/// Submits eight jobs, which one worker does whose gate looks; or two, of which its gate takes the second one itself.
fn looked_at<L: Ledger + Send + Sync, R: Abort + Clock + Threads + Wait + Sync>(
    rt: &R,
    alloc: Global,
    blank: Blank,
    grasps: bool,
) -> Result<bool, Fault>
    requires name { blank.name ≡ L.name }
    requires parts { blank.parts ≡ L.parts }
    requires more { 1 < blank.parts }
{
    let book = LockedBook::new(PoolBook::<L>::new(alloc, blank, 1)?);
    let jobs = if grasps { 2 } else { 8 };
    for slot in 0..jobs {
        submit(rt, &book, slot)?;
    }
    if grasps {
        wakes_all(rt, alloc, &book)
    } else {
        misses_none(rt, alloc, &book)
    }
}

fn is_looked_at<R: Abort + Clock + Threads + Wait + Sync>(
    rt: &R,
    alloc: Global,
    grasps: bool,
) -> bool {
    looked_at::<Brand, _>(rt, alloc, Blank::new(2), grasps) == Ok(true)
}

#[test]
fn the_gate_is_told_of_what_the_log_has(rt: HostRuntime) {
    assert!(&rt; is_looked_at(&rt, rt.alloc(), false));
}

#[test]
fn a_worker_that_faults_closes_its_book(rt: HostRuntime) {
    assert!(&rt; is_looked_at(&rt, rt.alloc(), true));
}

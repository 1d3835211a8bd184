//! A load for the pool, and what it took.
ghost use Rattle.std.specs.Prelude.{◌≡◌, ◌<◌};

use crate::figures::nanos;
use std::alloc::Global;
use std::hint::black_box;
use std::rt::Clock;
use std::sync::Wait;
use std::sync::ledger::{Blank, Ledger};
use std::thread::{Threads, join, map_indices};
use std::time::Instant;
use uv_ids::{Fault, Id, MOST_ROUNDS, Why};
use uv_pool::{Desk, Gate, LockedBook, PoolBook, worker};
use uv_work::{Job, Task, WorkResult};

#[derive(Clone, Copy)]
struct Quiet;

impl Gate for Quiet {
    ghost begins = { λ g k id after. Unit {0} };

    ghost ends = { λ g k id after. Unit {0} };

    ghost sends = { λ g s after. Unit {0} };

    fn begun(&mut self, _k: u16, _id: Id) {}

    fn ended(&mut self, _k: u16, _id: Id) {}

    fn sending(&mut self, _s: u8) {}
}

/// So many jobs of an empty text.
#[derive(Clone, Copy)]
pub struct Load {
    pub workers: u32,
    pub jobs: u32,
    pub rounds: u32,
}

impl Load {
    /// Jobs a second.
    pub fn per_second(self, nanos: u64) -> u64 {
        u64::from(self.jobs).saturating_mul(1_000_000_000) / nanos.max(1)
    }

    fn job(self, slot: u32) -> Option<Job> {
        let req = Id {
            slot,
            generation: 0,
        };
        let task = Task::new(self.rounds.min(u32::from(MOST_ROUNDS)) as u16, b"")?;
        Some(Job { req, task })
    }
}

fn now<R: Clock>(rt: &R) -> Result<Instant, Fault> {
    match Instant::now(rt) {
        Ok(now) => Ok(now),
        Err(_) => Err(Fault::Stalled),
    }
}

/// What one thread takes to hash the jobs, with no pool.
pub fn alone<R: Clock>(rt: &R, load: Load) -> Result<u64, Fault> {
    let start = now(rt)?;
    for slot in 0..load.jobs {
        if let Some(job) = load.job(slot) {
            let _work = black_box(WorkResult::compute(job));
        }
    }
    Ok(nanos(start, now(rt)?))
}

/// Submits all jobs, and collects them as they are done.
fn feed<L: Ledger, R: Clock + Wait>(
    rt: &R,
    book: &LockedBook<L>,
    load: Load,
) -> Result<u64, Fault> {
    let start = now(rt)?;
    for slot in 0..load.jobs {
        let Some(job) = load.job(slot) else {
            return Err(Fault::Refused(Why::Range));
        };
        let mut guard = book.lock(rt);
        let submitted = guard.book.submit(job);
        book.let_go(guard);
        submitted?;
    }
    let mut collected = 0;
    for _ in rt.forever() {
        let (more, seen) = collect_all(rt, book)?;
        collected = more.saturating_add(collected);
        if collected >= load.jobs {
            break;
        }
        if more == 0 {
            book.let_go(book.wait_past(rt, seen));
        }
    }
    Ok(nanos(start, now(rt)?))
}

/// How many were done, and how long the log is.
fn collect_all<L: Ledger, R: Wait>(rt: &R, book: &LockedBook<L>) -> Result<(u32, usize), Fault> {
    let mut guard = book.lock(rt);
    let collected = collect_some(&mut guard.book);
    let seen = guard.book.log().len();
    book.let_go(guard);
    Ok((collected?, seen))
}

/// Collects at most a thousand of those that are done, and answers how many there were.
fn collect_some<L: Ledger>(book: &mut PoolBook<L>) -> Result<u32, Fault> {
    let mut collected: u32 = 0;
    for _ in 0..1000 {
        if book.collect()?.is_none() {
            break;
        }
        collected = collected.saturating_add(1);
    }
    Ok(collected)
}

fn feed_and_close<L: Ledger, R: Clock + Wait>(
    rt: &R,
    book: &LockedBook<L>,
    load: Load,
) -> Result<u64, Fault> {
    let fed = feed(rt, book, load);
    book.close(rt);
    fed
}

fn serve<L: Ledger, R: Wait>(
    rt: &R,
    alloc: Global,
    book: &LockedBook<L>,
    k: usize,
) -> Option<Fault> {
    let mut desk = Desk::new(rt, alloc, book);
    worker(rt, alloc, &mut desk, &mut Quiet, k.min(1024) as u16).err()
}

/// What the pool takes to do the jobs: from the first one that is submitted to the last one that is collected.
pub fn pooled<L: Ledger + Send + Sync, R: Clock + Threads + Wait + Sync>(
    rt: &R,
    alloc: Global,
    blank: Blank,
    load: Load,
) -> Result<u64, Fault>
    requires name { blank.name ≡ L.name }
    requires parts { blank.parts ≡ L.parts }
    requires more { 64 < blank.parts }
{
    let workers = load.workers.min(64) as u16;
    let book = LockedBook::new(PoolBook::<L>::new(alloc, blank, workers)?);
    let shared = &book;
    let (fed, faults) = join(
        rt,
        move || feed_and_close(rt, shared, load),
        move || map_indices(
            rt,
            alloc,
            workers as usize,
            &|k| serve(rt, alloc, shared, k),
        ),
    );
    match faults {
        Ok(_) => fed,
        Err(_) => Err(Fault::Memory),
    }
}

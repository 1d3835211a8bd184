//! A run of one job without a second thread: how often the job is hashed, which no clause can see, by what it takes, the least of some
//! tries.
ghost use Rattle.std.specs.Prelude.{◌≡◌, ◌<◌};
ghost use Rattle.uv_wake.specs.Seats.{names_of};

use crate::given::{Quiet, long_job, put};
use crate::live_examples::{bound, settles};
use crate::pool_threads::work;
use std::alloc::Global;
use std::hint::black_box;
use std::marker::Brand;
use std::process::Abort;
use std::sync::Wait;
use std::sync::ledger::{Blank, Ledger};
use std::time::{Clock, Instant};
use uv_ids::Fault;
use uv_live::{Follower, turn};
use uv_loop::ArenaLoop;
use uv_model::Machine;
use uv_pool::{LockedBook, PoolBook, Shift};
use uv_wake::{Board, LoopSeat};
use uv_work::{Job, WorkResult};

/// Of so many tries the least counts, so that what else the machine does doesn't.
const TRIES: u32 = 20;

/// Far more hashing than all else that is done for a job takes.
const ROUNDS: u16 = 1000;

fn now<R: Clock>(rt: &R) -> Result<Instant, Fault> {
    match Instant::now(rt) {
        Ok(now) => Ok(now),
        Err(_) => Err(Fault::Stalled),
    }
}

fn nanos(start: Instant, end: Instant) -> u64 {
    let span = end.duration_since(start);
    span.as_secs()
        .saturating_mul(1_000_000_000)
        .saturating_add(u64::from(span.subsec_nanos()))
}

/// A turn under the book's lock.
fn locked_turn<F: Follower, L: Ledger, R: Wait>(
    rt: &R,
    book: &LockedBook<L>,
    session: &mut F,
) -> Result<F::Outcome, Fault>
    ensures { F.plan session.new ≡ F.plan session.old }
{
    let mut guard = book.lock(rt);
    let answer = if guard.book.workers() == session.worker_count() {
        turn(session, &mut guard.book)
    } else {
        Err(Fault::Torn { at: 0 })
    };
    book.let_go(guard);
    answer
}

/// The shift of the one worker of a book that is closed.
fn worked<L: Ledger, R: Wait>(
    rt: &R,
    alloc: Global,
    book: &LockedBook<L>,
) -> Result<Vec<Shift<L>>, Fault> {
    let shift = work(rt, alloc, book, &mut Quiet, 0)?;
    let mut shifts = Vec::new(alloc);
    put(&mut shifts, shift)?;
    Ok(shifts)
}

/// Whether the book has the result of that job, and the session settles once it follows the book.
fn is_done<F: Follower, L: Ledger, R: Wait>(
    rt: &R,
    book: &LockedBook<L>,
    session: &mut F,
    shifts: &[Shift<L>],
    seat: &LoopSeat,
    job: Job,
) -> bool
    requires { names_of seat.now.board ≡ (F.plan session.old).names }
{
    let guard = book.lock(rt);
    let result = guard.book.result(job.req);
    let settled = settles(session, &guard.book, shifts, seat);
    book.let_go(guard);
    match result {
        Some(work) => settled && work.job() == job,
        None => false,
    }
}

/// Whether the session settles: a turn queues the job of its line, the worker does it, and the session follows its book.
fn by_turns<F: Follower, L: Ledger, R: Wait>(
    rt: &R,
    alloc: Global,
    book: &LockedBook<L>,
    session: &mut F,
    seat: &LoopSeat,
    job: Job,
) -> Result<bool, Fault>
    requires { names_of seat.now.board ≡ (F.plan session.old).names }
{
    let _queued = locked_turn(rt, book, session)?;
    book.close(rt);
    let shifts = worked(rt, alloc, book)?;
    Ok(is_done(rt, book, session, &shifts, seat, job))
}

fn over_ledger<F: Follower, L: Ledger, R: Wait>(
    rt: &R,
    alloc: Global,
    blank: Blank,
    session: &mut F,
    job: Job,
) -> Result<bool, Fault>
    requires name { blank.name ≡ L.name }
    requires parts { blank.parts ≡ L.parts }
    requires more { 1 < blank.parts }
{
    let book = LockedBook::new(PoolBook::<L>::new(alloc, blank, 1)?);
    let (_board, seat) = Board::new(alloc, session.name_count() as usize, 1)?;
    by_turns(rt, alloc, &book, session, &seat, job)
}

/// Whether a run over a machine settles, with a book of its own.
fn runs_once<M: Machine, R: Wait>(rt: &R, alloc: Global, job: Job) -> Result<bool, Fault> {
    let mut live = bound::<M>(alloc, b"workers 1\nvar p\nmain queue p 1000 abc\n")?;
    over_ledger::<_, Brand, _>(rt, alloc, Blank::new(2), &mut live, job)
}

#[test]
fn a_run_settles_once_all_was_applied(rt: HostRuntime) {
    assert!(&rt; runs_once::<ArenaLoop, _>(&rt, rt.alloc(), long_job(&rt, 0, ROUNDS)) == Ok(true));
}

/// What it takes to hash the job once, and what a run that settles takes.
fn times<M: Machine, R: Clock + Wait>(
    rt: &R,
    alloc: Global,
    job: Job,
) -> Result<(u64, u64), Fault> {
    let start = now(rt)?;
    let _work = black_box(WorkResult::compute(black_box(job)));
    let between = now(rt)?;
    let settled = runs_once::<M, _>(rt, alloc, job)?;
    let end = now(rt)?;
    let whole = if settled {
        nanos(between, end)
    } else {
        u64::MAX
    };
    Ok((nanos(start, between), whole))
}

/// Whether the least that a run takes is less than hashing the job twice.
fn hashes_once<M: Machine, R: Abort + Clock + Wait>(rt: &R, alloc: Global) -> Result<bool, Fault> {
    let job = long_job(rt, 0, ROUNDS);
    let mut once = u64::MAX;
    let mut whole = u64::MAX;
    for _ in 0..TRIES {
        let (one, other) = times::<M, _>(rt, alloc, job)?;
        once = once.min(one);
        whole = whole.min(other);
    }
    Ok(whole.saturating_mul(2) < once.saturating_mul(3))
}

#[test]
fn a_job_is_hashed_once(rt: HostRuntime) {
    assert!(&rt; hashes_once::<ArenaLoop, _>(&rt, rt.alloc()) == Ok(true));
}

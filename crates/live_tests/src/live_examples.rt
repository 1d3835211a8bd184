//! Examples without threads: sessions beside a book, and results that are handed in.
ghost use Rattle.std.specs.Prelude.{◌≡◌, ◌<◌, [], IfOk};
ghost use Rattle.uv_wake.specs.Seats.{names_of};

use crate::given::job;
use crate::pool_examples::{Step, answer_all};
use std::alloc::Global;
use std::marker::Brand;
use std::process::Abort;
use std::sync::Wait;
use std::sync::ledger::{Blank, Ledger};
use uv_ids::{Code, Event, Fault, Why};
use uv_live::{Clock, Follower, JumpClock, settle, sync};
use uv_loop::ArenaLoop;
use uv_model::{Machine, STEPS};
use uv_pool::{PoolBook, Shift};
use uv_run::LiveSession;
use uv_script::Script;
use uv_session::Session;
use uv_wake::LoopSeat;
use uv_work::WorkResult;

/// A session of a script in which no step stands.
fn begun<M: Machine>(alloc: Global, text: &[u8]) -> Result<Session<M>, Fault>
    ensures { IfOk result (λ session. session.standing ≡ []) }
{
    let script = Script::parse(alloc, text)?;
    let machine = M::begin(alloc, script)?;
    Ok(Session::new(alloc, machine, STEPS))
}

/// The same, for a live run of a script without threads that send.
pub fn bound<M: Machine>(alloc: Global, text: &[u8]) -> Result<LiveSession<M>, Fault> {
    let session = begun(alloc, text)?;
    LiveSession::of(alloc, session, Vec::new(alloc))
}

fn follow<F: Follower, L: Ledger>(session: &mut F, book: &PoolBook<L>) -> Result<usize, Fault>
    ensures { F.plan session.new ≡ F.plan session.old }
{
    if book.workers() != session.worker_count() {
        return Err(Fault::Torn { at: 0 });
    }
    sync(session, book)
}

/// Whether a session settles once it follows the book of one job that was done, and then with the shift alone.
pub fn settles<F: Follower, L: Ledger>(
    session: &mut F,
    book: &PoolBook<L>,
    shifts: &[Shift<L>],
    seat: &LoopSeat,
) -> bool
    requires { names_of seat.now.board ≡ (F.plan session.old).names }
{
    let early = settle(session, book, shifts, seat);
    let followed = follow(session, book);
    let settled = settle(session, book, shifts, seat);
    let nobody = settle(session, book, &shifts[..0], seat);
    early == Err(Fault::Torn { at: 2 })
        && followed == Ok(2)
        && settled == Ok(())
        && nobody == Err(Fault::Torn { at: 0 })
}

/// Calls of a book, and what the session of one request that the loop queued answers to its log, twice, and how many steps stand then.
struct Log {
    calls: &'static [Step],
    first: Result<usize, Fault>,
    again: Result<usize, Fault>,
    stand: usize,
}

/// What is torn once is torn the second time too.
static LOGS: [Log; 5] = [
    Log {
        calls: &[],
        first: Err(Fault::Torn { at: 1 }),
        again: Err(Fault::Torn { at: 1 }),
        stand: 1,
    },
    Log {
        calls: &[Step::Submits(1)],
        first: Err(Fault::Torn { at: 1 }),
        again: Err(Fault::Torn { at: 1 }),
        stand: 1,
    },
    Log {
        calls: &[Step::Submits(0), Step::Cancels(0, Code::Ok)],
        first: Err(Fault::Torn { at: 2 }),
        again: Err(Fault::Torn { at: 2 }),
        stand: 1,
    },
    Log {
        calls: &[Step::Submits(0), Step::Takes(0, 0), Step::Submits(1)],
        first: Err(Fault::Torn { at: 3 }),
        again: Err(Fault::Torn { at: 3 }),
        stand: 2,
    },
    Log {
        calls: &[Step::Submits(0), Step::Takes(1, 0), Step::Finishes(1, 0)],
        first: Ok(2),
        again: Ok(0),
        stand: 3,
    },
];

fn logs() -> &'static [Log] {
    &LOGS
}

/// Whether a session answers so to the log of such calls.
fn is_followed<F: Follower, L: Ledger, R: Abort + Wait>(
    rt: &R,
    alloc: Global,
    blank: Blank,
    session: &mut F,
    log: &Log,
) -> Result<bool, Fault>
    requires name { blank.name ≡ L.name }
    requires parts { blank.parts ≡ L.parts }
    requires more { 2 < blank.parts }
{
    let mut book = PoolBook::<L>::new(alloc, blank, 2)?;
    let answered = answer_all(rt, alloc, &mut book, log.calls);
    let first = follow(session, &book);
    let again = follow(session, &book);
    Ok(answered && first == log.first && again == log.again && session.steps().len() == log.stand)
}

/// The same of the session of one request, which the loop's first step queued.
fn beside<M: Machine, R: Abort + Wait>(rt: &R, alloc: Global, log: &Log) -> Result<bool, Fault> {
    let mut session = begun::<M>(alloc, b"workers 2\nvar p\nmain queue p 1 abc\n")?;
    session.do_event(Event::Loop)?;
    let mut live = LiveSession::of(alloc, session, Vec::new(alloc))?;
    is_followed::<_, Brand, _>(rt, alloc, Blank::new(3), &mut live, log)
}

#[test]
fn a_log_is_followed_once_or_is_torn(rt: HostRuntime) {
    for log in logs() {
        assert!(&rt; beside::<ArenaLoop, _>(&rt, rt.alloc(), log) == Ok(true));
    }
}

#[test]
fn a_jump_clock_jumps(rt: HostRuntime) {
    let mut clock = JumpClock::new(3);
    assert!(&rt; clock.moment() == 3 && clock.until(10) == 10 && clock.moment() == 10);
}

/// Worker 1 hands in the result of the job that worker 0 runs, and then its own.
fn hands_in<M: Machine>(session: &mut Session<M>, other: WorkResult, own: WorkResult) -> bool {
    let refused = session.finish_with(1, other);
    refused == Err(Fault::Refused(Why::NoWork)) && session.finish_with(1, own).is_ok()
}

/// The same after worker 1 took the first of two requests and worker 0 the second.
fn two_results<M: Machine, R: Abort>(rt: &R, alloc: Global) -> Result<bool, Fault> {
    let text =
        b"workers 2\nvar p\nvar q\nmain queue p 1 abc\nmain queue q 1 abc\nmain run default\n";
    let mut session = begun::<M>(alloc, text)?;
    for event in [Event::Loop, Event::Loop, Event::Take(1), Event::Take(0)] {
        session.do_event(event)?;
    }
    let other = WorkResult::compute(job(rt, 1));
    let own = WorkResult::compute(job(rt, 0));
    Ok(hands_in(&mut session, other, own))
}

#[test]
fn a_result_is_that_of_the_job_that_the_worker_runs(rt: HostRuntime) {
    assert!(&rt; two_results::<ArenaLoop, _>(&rt, rt.alloc()) == Ok(true));
}

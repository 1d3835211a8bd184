//! A live run.
ghost use Rattle.std.specs.Prelude.{◌≡◌, ◌<◌, ◌+◌, ℕ, Some, Ok, Err, true, IfOk, IfNone};
ghost use Rattle.uv_ids.specs.declared.fault.Why.TheVariants as why;
ghost use Rattle.uv_wake.specs.Seats.{names_of, AllJoined};
ghost use Rattle.uv_live.specs.Course.{AreNamed};
ghost use Rattle.uv_live.specs.Faults.{IsLoopFault, IsRunFault, IsTurnFault};
ghost use Rattle.uv_live.specs.Sending.{AreNoted, threads_below};
ghost use Rattle.uv_live.specs.Running.{HaltsAt, IsNoWorkerCount, RunSettles, PassesTo};
ghost use Rattle.uv_live.specs.Turning.{Refuses};
ghost use Rattle.uv_live.specs.Working.{is_at_work};
ghost use Rattle.std.specs.Prelude.{IfSome, IfErr, OnOk, MatchOption, is_some, length, vec_len};
ghost use Rattle.uv_ids.specs.declared.fault.Fault.TheVariants as fault;

use crate::clock::Clock;
use crate::crew::{Crew, NoShift, join_workers, lowest_fault, shifts_of, start_workers};
use crate::follower::{Did, Follower};
use crate::following::sync;
use crate::outside::Outside;
use crate::polling::{Ready, absorb_in_poll};
use crate::sends::Tally;
use crate::settling::settle;
use crate::turning::turn_rest;
use std::alloc::Global;
use std::marker::Brand;
use std::sync::Wait;
use std::sync::ledger::{Blank, Ledger};
use std::thread;
use std::thread::{Scope, Threads};
use uv_ids::{Fault, MOST_SENDERS, ThreadLine, Why};
use uv_pool::{Gate, HasFinished, LockedBook, PoolBook, Shift, WasOpen};
use uv_wake::{Board, LoopSeat};

/// Lets the clock go on up to the poll's deadline. `Stalled` where there is none, or where the clock doesn't go on; `Limit` where the session's
/// clock may not come so far.
#[tactic(auto, using(crate::proofs::Faults::faults))]
fn pass_time<S: Follower, C: Clock>(session: &mut S, clock: &mut C) -> Result<(), Fault>
    ensures plan { S.plan session.new ≡ S.plan session.old }
    ensures passes { PassesTo (S.hours session.old) (C.hours clock.new) (S.course session.old) result (S.course session.new) }
    ensures asked { MatchOption (S.due session.old) (clock.new ≡ clock.old) (λ due. C.waited clock.old due clock.new) }
    ensures faults { IfErr result IsLoopFault }
{
    match session.deadline() {
        None => Err(Fault::Stalled),
        Some(due) => {
            let moment = clock.until(due);
            let before = session.clock();
            if moment <= before {
                return Err(Fault::Stalled);
            }
            match session.tick(moment - before) {
                Ok(()) => Ok(()),
                Err(Fault::Refused(_)) => Err(Fault::Limit),
                Err(fault) => Err(fault),
            }
        }
    }
}

/// What the loop's thread does where the loop is blocked and the book was open: it waits until a worker has finished a job, or else joins a
/// sender, or else lets the clock go on. It answers what it saw of the book where it waited for that.
#[tactic(auto, using(crate::proofs::Faults::faults))]
fn unblock<S: Follower, L: Ledger, C: Clock, R: Threads + Wait>(
    rt: &R,
    session: &mut S,
    book: &LockedBook<L>,
    outside: &mut Outside<'_>,
    clock: &mut C,
    _open: WasOpen<L>,
) -> Result<Option<HasFinished<L>>, Fault>
    ensures board { outside.new.board.now.board ≡ outside.old.board.now.board }
    ensures lost { outside.new.lost ≡ outside.old.lost }
    ensures names { outside.new.names.items ≡ outside.old.names.items }
    ensures plan { S.plan session.new ≡ S.plan session.old }

    // Where a request is open it waits for its workers, past what the session knows of them, and does nothing else.
    ensures works { is_at_work (S.plan session.old).workers (S.course session.old).events ≡ true → S.course session.new ≡ S.course session.old }
    ensures unasked { is_at_work (S.plan session.old).workers (S.course session.old).events ≡ true → C.hours clock.new ≡ C.hours clock.old }
    ensures unjoined { is_at_work (S.plan session.old).workers (S.course session.old).events ≡ true → outside.new ≡ outside.old }
    ensures waits { is_at_work (S.plan session.old).workers (S.course session.old).events ≡ true → IfOk result (λ seen. is_some seen ≡ true) }
    ensures past { IfOk result (λ seen. IfSome seen (λ book. book.past ≡ length (S.course session.old).events)) }
    ensures faults { IfErr result IsLoopFault }

    // Where a sender's thread is left the clock stands.
    ensures joins { 0 < vec_len outside.old.senders → S.course session.new ≡ S.course session.old }
    ensures stands { 0 < vec_len outside.old.senders → C.hours clock.new ≡ C.hours clock.old }
{
    if session.is_working() {
        let seen = book.wait_finished(rt, session.pool_events().len());
        return Ok(Some(seen));
    }
    if outside.join_one(rt) {
        return Ok(None);
    }
    pass_time(session, clock)?;
    Ok(None)
}

/// A turn under the book's lock, behind what is absorbed at a poll: what its step did, and whether the book was open. Where a job waits behind it,
/// a worker is called.
fn locked_turn<S: Follower, L: Ledger, R: Wait>(
    rt: &R,
    session: &mut S,
    book: &LockedBook<L>,
    _ready: Ready,
) -> (Result<Did, Fault>, Option<WasOpen<L>>)
    ensures plan { S.plan session.new ≡ S.plan session.old }
    ensures refused { Refuses result.0 (S.refusal session.new) }
    ensures faults { IfErr result.0 IsTurnFault }
{
    let mut guard = book.lock(rt);
    let answer = turn_rest(session, &mut guard.book);
    let open = WasOpen::look(&guard.book);
    book.let_go(guard);
    (answer.map(|(_, did)| did), open)
}

/// Takes turns until the loop is at its end. False where the book was closed before.
#[tactic(auto, using(crate::proofs::Faults::faults))]
fn run<S: Follower, L: Ledger, C: Clock, R: Threads + Wait>(
    rt: &R,
    session: &mut S,
    book: &LockedBook<L>,
    outside: &mut Outside<'_>,
    clock: &mut C,
) -> Result<bool, Fault>
    requires names { names_of outside.old.board.now.board ≡ (S.plan session.old).names }
    requires noted { AreNoted (S.plan session.old).names (S.plan session.old).lines outside.old.names.items }
    ensures board { outside.new.board.now.board ≡ outside.old.board.now.board }
    ensures lost { outside.new.lost ≡ outside.old.lost }
    ensures plan { S.plan session.new ≡ S.plan session.old }
    ensures end { HaltsAt result (S.refusal session.new) }
    ensures faults { IfErr result IsLoopFault }
{
    'turns: for _ in rt.forever() {
        let ready = absorb_in_poll(session, outside)?;
        let (answer, open) = locked_turn(rt, session, book, ready);
        match answer {
            Ok(_) => {}
            Err(Fault::Refused(Why::Ended)) => return Ok(true),
            Err(Fault::Refused(Why::Blocked)) => match open {
                None => return Ok(false),
                Some(open) => {
                    unblock(rt, session, book, outside, clock, open)?;
                }
            },
            Err(fault) => return Err(fault),
        }
    }
    unreachable!()
}

/// The fault of a run: the loop's own, or else the lowest worker's, or else `Stalled` where the book was closed.
#[tactic(auto, using(crate::proofs::Faults::faults))]
fn fault_of(halt: Result<bool, Fault>, workers: Option<NoShift>) -> Option<Fault>
    ensures none { IfNone result (halt ≡ Ok true) }
    ensures own { IfErr halt (λ f. result ≡ Some f) }
    ensures theirs { OnOk halt (IfSome workers (λ none. result ≡ Some none.fault)) }
    ensures stalled { OnOk halt (IfNone workers (IfSome result (λ f. f ≡ fault.Stalled))) }
    ensures faults { (count : ℕ) → IfErr halt IsLoopFault → IfSome result (IsRunFault count) }
{
    match halt {
        Err(own) => Some(own),
        Ok(ended) => match workers {
            Some(theirs) => Some(theirs.fault),
            None => { if ended { None } else { Some(Fault::Stalled) } }
        },
    }
}

/// What is left of a run once its threads are joined.
struct Joined<S, L: Ledger> {
    session: S,
    seat: LoopSeat,
    shifts: Vec<Shift<L>>,
}

/// What the threads of a run share: among it how many sends were made, and the `thread` lines that they are made by.
#[derive(Drop)]
pub(crate) struct Shared<'a, L: Ledger, G> {
    alloc: Global,
    book: &'a LockedBook<L>,
    board: &'a Board,
    tally: &'a Tally,
    lines: &'a [ThreadLine],
    gate: &'a G,
    pub ghost named: { AreNamed (names_of board.now.board) lines.now },
}

/// Starts the workers, notes the names that are sent to, and starts the senders.
#[tactic(auto, using(crate::proofs::Faults::faults))]
fn start_threads<
    's,
    E,
    S: Follower,
    L: Ledger + Send + Sync,
    G: Gate + Sync,
    R: Threads + Wait + Sync,
>(
    rt: &'s R,
    scope: &Scope<'s, E>,
    shared: &Shared<'s, L, G>,
    session: &S,
    crew: &mut Crew<L>,
    outside: &mut Outside<'s>,
) -> Result<(), Fault>
    requires board { outside.old.board.now.board ≡ shared.now.board.now.board }
    requires names { names_of shared.now.board.now.board ≡ (S.plan session.now).names }
    requires lines { shared.now.lines.now ≡ (S.plan session.now).lines }
    requires crew { crew.old.workers ≡ (S.plan session.now).workers }
    requires none { vec_len crew.old.started ≡ 0 }
    ensures board { outside.new.board.now.board ≡ outside.old.board.now.board }
    ensures lost { OnOk result (outside.new.lost ≡ outside.old.lost) }
    ensures noted { OnOk result (AreNoted (S.plan session.now).names (S.plan session.now).lines outside.new.names.items) }
    ensures crew { OnOk result (vec_len crew.new.started ≡ (S.plan session.now).workers) }
    ensures faults { IfErr result IsLoopFault }
    ensures threads { OnOk result
        (outside.new.seat.knows.splits ≡ outside.old.seat.knows.splits + threads_below 64 (S.plan session.now).lines) }
{
    start_workers(rt, shared.alloc, scope, shared.book, shared.gate, crew)?;
    outside.note_names(session)?;
    outside.start(scope, shared.gate, shared.lines)
}

/// Starts the threads, takes the turns, and then closes the book and joins all threads.
#[tactic(auto, using(crate::proofs::Faults::faults))]
fn within<
    's,
    E,
    S: Follower + Drop,
    L: Ledger + Send + Sync,
    C: Clock,
    G: Gate + Sync,
    R: Threads + Wait + Sync,
>(
    rt: &'s R,
    scope: &Scope<'s, E>,
    shared: Shared<'s, L, G>,
    session: S,
    seat: LoopSeat,
    clock: &mut C,
) -> Result<Joined<S, L>, Fault>
    requires board { seat.board ≡ shared.board.now.board }
    requires joined { AllJoined seat.knows }
    requires names { names_of shared.board.now.board ≡ (S.plan session).names }
    requires lines { shared.lines.now ≡ (S.plan session).lines }
    ensures board { IfOk result (λ r. r.seat.board ≡ shared.entry.board.now.board) }
    ensures joined { IfOk result (λ r. AllJoined r.seat.knows) }
    ensures plan { IfOk result (λ r. S.plan r.session ≡ S.plan session) }
    ensures end { IfOk result (λ r. S.refusal r.session ≡ Some why.Ended) }
    ensures faults { IfErr result (IsRunFault (S.plan session).workers) }
{
    let mut session = session;
    let alloc = shared.alloc;
    let book = shared.book;
    let mut outside = Outside::new(alloc, shared.board, seat, shared.tally);
    let mut crew = Crew::new(alloc, session.worker_count());
    let halt = match start_threads(rt, scope, &shared, &session, &mut crew, &mut outside) {
        Ok(()) => run(rt, &mut session, book, &mut outside, clock),
        Err(fault) => Err(fault),
    };
    let (closed, _) = book.close(rt);
    let seat = outside.into_seat(rt);
    let answers = join_workers(rt, crew, &closed);
    if let Some(fault) = fault_of(halt, lowest_fault(answers.as_slice())) {
        return Err(fault);
    }
    let shifts = shifts_of(alloc, answers)?;
    Ok(Joined {
        session,
        seat,
        shifts,
    })
}

/// The script's `thread` lines, for threads to read while the session goes on.
fn copied_lines<S: Follower>(alloc: Global, session: &S) -> Result<Vec<ThreadLine>, Fault>
    ensures lines { IfOk result (λ lines. lines.items ≡ (S.plan session.now).lines) }
    ensures named { IfOk result (λ lines. AreNamed (S.plan session.now).names lines.items) }
    ensures err { IfErr result (λ f. f ≡ fault.Memory) }
{
    Ok(Vec::from_slice(alloc, session.thread_lines())?)
}

/// Applies what is left of the log, and compares what the session did with what the threads did.
#[tactic(auto, using(crate::proofs::Faults::faults))]
fn conclude<S: Follower + Drop, L: Ledger>(
    joined: Joined<S, L>,
    book: &PoolBook<L>,
) -> Result<S, Fault>
    requires names { names_of joined.seat.board ≡ (S.plan joined.session).names }
    requires end { S.refusal joined.session ≡ Some why.Ended }
    ensures plan { IfOk result (λ s. S.plan s ≡ S.plan joined.session) }
    ensures end { IfOk result (λ s. S.refusal s ≡ Some why.Ended) }
    ensures settled { IfOk result (λ s. RunSettles (S.plan s) (S.course s)) }
    ensures faults { (count : ℕ) → IfErr result (IsRunFault count) }
{
    let Joined {
        mut session,
        seat,
        shifts,
    } = joined;
    if book.workers() != session.worker_count() {
        return Err(Fault::Torn { at: 0 });
    }
    sync(&mut session, book)?;
    settle(&session, book, shifts.as_slice(), &seat)?;
    Ok(session)
}

/// Runs threads and loop in a scope, which ends when all its threads have.
fn scoped<
    'a,
    S: Follower + Drop,
    L: Ledger + Send + Sync,
    C: Clock,
    G: Gate + Sync,
    R: Threads + Wait + Sync,
>(
    rt: &'a R,
    shared: Shared<'a, L, G>,
    session: S,
    seat: LoopSeat,
    clock: &'a mut C,
) -> Result<Joined<S, L>, Fault>
    requires board { seat.board ≡ shared.board.now.board }
    requires joined { AllJoined seat.knows }
    requires names { names_of shared.board.now.board ≡ (S.plan session).names }
    requires lines { shared.lines.now ≡ (S.plan session).lines }
    ensures board { IfOk result (λ r. r.seat.board ≡ shared.entry.board.now.board) }
    ensures plan { IfOk result (λ r. S.plan r.session ≡ S.plan session) }
    ensures end { IfOk result (λ r. S.refusal r.session ≡ Some why.Ended) }
    ensures faults { IfErr result (IsRunFault (S.plan session).workers) }
{
    thread::scope(
        thread::scope_env(),
        rt,
        |scope| -> Result<Joined<S, L>, Fault>
            requires board { seat.board ≡ shared.board.now.board }
            requires joined { AllJoined seat.knows }
            requires names { names_of shared.board.now.board ≡ (S.plan session).names }
            requires lines { shared.lines.now ≡ (S.plan session).lines }
            ensures board { IfOk result (λ r. r.seat.board ≡ shared.entry.board.now.board) }
            ensures plan { IfOk result (λ r. S.plan r.session ≡ S.plan session) }
            ensures end { IfOk result (λ r. S.refusal r.session ≡ Some why.Ended) }
            ensures faults { IfErr result (IsRunFault (S.plan session).workers) }
        { within(rt, scope, shared, session, seat, clock) },
    )
}

/// A live run over a ledger that is to be opened.
#[tactic(auto, using(crate::proofs::Faults::faults))]
fn live_over<
    S: Follower + Drop,
    L: Ledger + Send + Sync,
    C: Clock,
    G: Gate + Sync,
    R: Threads + Wait + Sync,
>(rt: &R, alloc: Global, blank: Blank, session: S, clock: &mut C, gate: &G) -> Result<S, Fault>
    requires name { blank.name ≡ L.name }
    requires parts { blank.parts ≡ L.parts }
    requires more { (S.plan session).workers < blank.parts }
    ensures range { IsNoWorkerCount (S.plan session).workers → result ≡ Err (fault.Refused why.Range) }
    ensures plan { IfOk result (λ s. S.plan s ≡ S.plan session) }
    ensures end { IfOk result (λ s. S.refusal s ≡ Some why.Ended) }
    ensures settled { IfOk result (λ s. RunSettles (S.plan s) (S.course s)) }
    ensures err { IfErr result (IsRunFault (S.plan session).workers) }
{
    let book = PoolBook::<L>::new(alloc, blank, session.worker_count())?;
    let names = session.name_count() as usize;
    let (board, seat) = Board::new(alloc, names, MOST_SENDERS as u64)?;
    let lines = copied_lines(alloc, &session)?;
    let book = LockedBook::new(book);
    let tally = Tally::new();
    let shared = Shared {
        alloc,
        book: &book,
        board: &board,
        tally: &tally,
        lines: lines.as_slice(),
        gate,
    };
    let joined = scoped(rt, shared, session, seat, clock)?;
    conclude(joined, &book.into_book())
}

/// Runs a session to its end with a thread for each worker and each sender, and answers it once what it did was compared with what they
/// did (`settle`). Its script may ask for 1 to 1024 workers; Range outside.
///
/// Where the loop is blocked it waits until a worker has finished a job if a request waits or runs, or else joins a sender's thread, or
/// else lets the clock go on to the poll's deadline, or else is `Stalled`. On every fault the book is closed and all threads are joined
/// before it is answered. The loop's own fault comes first, then the lowest worker's, then `settle`'s. A thread that can't be
/// started is `Memory`. `StepsFull` is where the run would take more steps than the session may, `Limit` where a log, a count, a ledger's
/// shares, the seats or the clock are at their end, and `Torn` where the session is not what the threads did. A worker's own fault may be that
/// the book refused it; no other refusal comes.
#[tactic(auto, using(crate::proofs::Faults::faults))]
pub fn live<S: Follower + Drop, C: Clock, G: Gate + Sync, R: Threads + Wait + Sync>(
    rt: &R,
    alloc: Global,
    session: S,
    clock: &mut C,
    gate: &G,
) -> Result<S, Fault>
    ensures range { IsNoWorkerCount (S.plan session).workers → result ≡ Err (fault.Refused why.Range) }
    ensures plan { IfOk result (λ s. S.plan s ≡ S.plan session) }
    ensures end { IfOk result (λ s. S.refusal s ≡ Some why.Ended) }
    ensures settled { IfOk result (λ s. RunSettles (S.plan s) (S.course s)) }
    ensures err { IfErr result (IsRunFault (S.plan session).workers) }
{
    let parts = session.worker_count() as u64 + 1;
    live_over::<S, Brand, C, G, R>(rt, alloc, Blank::new(parts), session, clock, gate)
}

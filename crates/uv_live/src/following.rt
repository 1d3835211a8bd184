//! How a session follows a book.
ghost use Rattle.std.specs.Prelude.{◌≡◌, ◌≤◌, ◌++◌, ◌∷◌, [], Some, IfErr, length};
ghost use Rattle.uv_work.specs.Pool.{IsLegal};
ghost use Rattle.uv_live.specs.Faults.{IsEventFault, IsSyncFault};
ghost use Rattle.uv_live.specs.Following.{Applies, Decides, Follows, IsWorkers, OnFull, PartsAt, StaysEnded, Syncs};

use crate::follower::Follower;
use std::sync::ledger::Ledger;
use uv_ids::Fault;
use uv_pool::PoolBook;
use uv_work::PoolEvent;

/// Whether the two are one event.
pub(crate) fn is_same(a: PoolEvent, b: PoolEvent) -> bool
    ensures { Decides result (a ≡ b) }
{
    a == b
}

/// The first place, from 0, where the log hasn't the event; none where the log begins with the events.
pub(crate) fn first_apart(events: &[PoolEvent], log: &[PoolEvent]) -> Option<usize>
    ensures { PartsAt events.now log.now result }
{
    'places: for n in 0..events.len() {
        if n >= log.len() {
            return Some(n);
        }
        if !is_same(log[n], events[n]) {
            return Some(n);
        }
    }
    None
}

/// Whether it is an event of a worker.
fn is_workers(event: PoolEvent) -> bool
    ensures { Decides result (IsWorkers (Some event)) }
{
    match event {
        PoolEvent::Take(_, _) => true,
        PoolEvent::Finish(_, _) => true,
        _ => false,
    }
}

/// Applies a worker's event, a finish with the result that the book has.
fn apply<F: Follower, L: Ledger>(
    session: &mut F,
    book: &PoolBook<L>,
    event: PoolEvent,
) -> Result<(), Fault>
    requires theirs { IsWorkers (Some event) }
    ensures plan { F.plan session.new ≡ F.plan session.old }
    ensures answer { IsLegal (F.plan session.old).workers ((F.course session.old).events ++ event ∷ [])
        → Applies event (F.course session.old) result (F.course session.new) }
    ensures faults { IfErr result IsEventFault }
    ensures ended { StaysEnded (F.refusal session.old) (F.refusal session.new) }
    ensures full { OnFull result (F.most (F.plan session.old).script ≤ length (F.course session.old).steps) }
{
    match event {
        PoolEvent::Take(k, id) => session.take(k, id),
        PoolEvent::Finish(k, id) => session.finish(k, id, book.result(id)),
        _ => unreachable!(),
    }
}

/// Applies what the log has past so many entries as the session has events, and answers how many there were. Where the log begins with
/// these events, as one that they were compared with does, it is `sync`; it doesn't compare them.
pub(crate) fn sync_rest<F: Follower, L: Ledger>(
    session: &mut F,
    book: &PoolBook<L>,
) -> Result<usize, Fault>
    ensures plan { F.plan session.new ≡ F.plan session.old }
    ensures synced { Follows (F.plan session.old).workers (F.course session.old).events book.now.hold.contents
        → Syncs book.now.hold.contents.log (F.course session.old) result (F.course session.new) }
    ensures faults { IfErr result IsSyncFault }
    ensures ended { StaysEnded (F.refusal session.old) (F.refusal session.new) }
    ensures full { Follows (F.plan session.old).workers (F.course session.old).events book.now.hold.contents
        → OnFull result (F.most (F.plan session.old).script ≤ length (F.course session.new).steps) }
{
    let log = book.log();
    let start = session.pool_events().len();
    if log.len() < start {
        return Err(Fault::Torn { at: log.len() + 1 });
    }
    'rest: for n in start..log.len() {
        let event = log[n];
        if !is_workers(event) {
            return Err(Fault::Torn { at: n + 1 });
        }
        match apply(session, book, event) {
            Ok(()) => {}
            Err(Fault::Refused(_)) => return Err(Fault::Torn { at: n + 1 }),
            Err(fault) => return Err(fault),
        }
    }
    Ok(log.len() - start)
}

/// Applies the rest of the book's log to the session, each entry as the same event, and answers how many there were.
///
/// `Torn` names the first place of the log, from 1, that isn't the session's own event, or is missing, or past those is no
/// worker's. The entries before it stand in the session then, as some do after `StepsFull` and `Memory`. `StepsFull` comes only where as
/// many steps stand as the session may take.
pub fn sync<F: Follower, L: Ledger>(session: &mut F, book: &PoolBook<L>) -> Result<usize, Fault>
    requires { (F.plan session.old).workers ≡ length book.now.hold.contents.running }
    ensures plan { F.plan session.new ≡ F.plan session.old }
    ensures synced { Syncs book.now.hold.contents.log (F.course session.old) result (F.course session.new) }
    ensures ended { StaysEnded (F.refusal session.old) (F.refusal session.new) }
    ensures full { OnFull result (F.most (F.plan session.old).script ≤ length (F.course session.new).steps) }
{
    if let Some(n) = first_apart(session.pool_events(), book.log()) {
        return Err(Fault::Torn { at: n + 1 });
    }
    sync_rest(session, book)
}

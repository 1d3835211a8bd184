//! One turn of the loop, with its entry in the book.
ghost use Rattle.std.specs.Prelude.{◌≡◌, ◌<◌, ◌≤◌, ◌++◌, ◌∷◌, [], true, IfErr, length};
ghost use Rattle.uv_ids.specs.Limits.{MOST_STEPS};
ghost use Rattle.uv_work.specs.Pool.{IsLegal};
ghost use Rattle.uv_work.specs.declared.event.PoolEvent.TheVariants as event;
ghost use Rattle.uv_live.specs.Course.{events_of};
ghost use Rattle.uv_live.specs.Faults.{IsTurnFault};
ghost use Rattle.uv_live.specs.Following.{Follows, OnFull};
ghost use Rattle.uv_live.specs.Turning.{Turns, Refuses, events_as};

use crate::follower::{Did, Follower};
use crate::following::{first_apart, sync_rest};
use std::sync::ledger::Ledger;
use uv_ids::{Fault, Id};
use uv_pool::PoolBook;
use uv_work::Job;

fn enter_queue<L: Ledger>(book: &mut PoolBook<L>, job: Job)
    requires room { book.old.hold.room ≡ true }
    requires less { length book.old.hold.contents.log < MOST_STEPS }
    ensures log { IsLegal (length book.old.hold.contents.running) (book.old.hold.contents.log ++ event.Queue job.req ∷ [])
        → book.new.hold.contents.log ≡ book.old.hold.contents.log ++ event.Queue job.req ∷ [] }
    ensures rest { book.new.rest ≡ book.old.rest }
{
    book.is_sound();
    let _ = book.submit(job);
}

fn enter_cancel<L: Ledger>(book: &mut PoolBook<L>, id: Id)
    requires room { book.old.hold.room ≡ true }
    requires less { length book.old.hold.contents.log < MOST_STEPS }
    ensures log { IsLegal (length book.old.hold.contents.running) (book.old.hold.contents.log ++ event.Cancel id ∷ [])
        → book.new.hold.contents.log ≡ book.old.hold.contents.log ++ event.Cancel id ∷ [] }
    ensures rest { book.new.rest ≡ book.old.rest }
{
    book.is_sound();
    let _ = book.cancel(id);
}

fn enter_collect<L: Ledger>(book: &mut PoolBook<L>, id: Id)
    requires room { book.old.hold.room ≡ true }
    requires less { length book.old.hold.contents.log < MOST_STEPS }
    ensures log { IsLegal (length book.old.hold.contents.running) (book.old.hold.contents.log ++ event.Collect id ∷ [])
        → book.new.hold.contents.log ≡ book.old.hold.contents.log ++ event.Collect id ∷ [] }
    ensures rest { book.new.rest ≡ book.old.rest }
{
    book.is_sound();
    let _ = book.collect();
}

/// Enters what a step of the loop did. With room, an event that may follow the log can't be refused.
fn enter<L: Ledger>(book: &mut PoolBook<L>, did: Did)
    requires room { book.old.hold.room ≡ true }
    requires less { length book.old.hold.contents.log < MOST_STEPS }
    ensures log { IsLegal (length book.old.hold.contents.running) (book.old.hold.contents.log ++ events_of did)
        → book.new.hold.contents.log ≡ book.old.hold.contents.log ++ events_of did }
    ensures rest { book.new.rest ≡ book.old.rest }
{
    match did {
        Did::Nothing => {}
        Did::Queued(job) => enter_queue(book, job),
        Did::Cancelled(id) => enter_cancel(book, id),
        Did::Collected(id) => enter_collect(book, id),
    }
}

/// `turn` on a session and a book that were compared before, as `sync_rest` is `sync`. It says what the step did, too.
#[tactic(auto, using(crate::proofs::Faults::faults))]
pub(crate) fn turn_rest<F: Follower, L: Ledger>(
    session: &mut F,
    book: &mut PoolBook<L>,
) -> Result<(F::Outcome, Did), Fault>
    ensures plan { F.plan session.new ≡ F.plan session.old }
    ensures turned { Follows (F.plan session.old).workers (F.course session.old).events book.old.hold.contents
        → Turns book.old.hold.contents.log (F.course session.old) (events_as (λ r. F.events_by (F.plan session.old).script r.0) result)
        book.new.hold.contents.log (F.course session.new) }
    ensures rest { book.new.rest ≡ book.old.rest }
    ensures refused { Refuses result (F.refusal session.new) }
    ensures faults { IfErr result IsTurnFault }
    ensures full { Follows (F.plan session.old).workers (F.course session.old).events book.old.hold.contents
        → OnFull result (F.most (F.plan session.old).script ≤ length (F.course session.new).steps) }
{
    book.is_sound();
    sync_rest(session, book)?;
    book.reserve()?;
    let outcome = session.step()?;
    let did = session.did(outcome);
    let _ = session.pool_events();
    enter(book, did);
    Ok((outcome, did))
}

/// Applies the rest of the book's log to the session, does one step of the loop, and enters in the book what that did. It answers what
/// the step answered.
///
/// Room in the book is made before the step, so `Memory` and `Limit` of the book come before any refusal of the step. On a fault
/// neither has taken the step, and what was applied stands. `StepsFull` comes only where as many steps stand as the session may take.
pub fn turn<F: Follower, L: Ledger>(
    session: &mut F,
    book: &mut PoolBook<L>,
) -> Result<F::Outcome, Fault>
    requires { (F.plan session.old).workers ≡ length book.old.hold.contents.running }
    ensures plan { F.plan session.new ≡ F.plan session.old }
    ensures turned { Turns book.old.hold.contents.log (F.course session.old) (events_as (F.events_by (F.plan session.old).script) result)
        book.new.hold.contents.log (F.course session.new) }
    ensures rest { book.new.rest ≡ book.old.rest }
    ensures refused { Refuses result (F.refusal session.new) }
    ensures full { OnFull result (F.most (F.plan session.old).script ≤ length (F.course session.new).steps) }
{
    if let Some(n) = first_apart(session.pool_events(), book.log()) {
        return Err(Fault::Torn { at: n + 1 });
    }
    let (outcome, _) = turn_rest(session, book)?;
    Ok(outcome)
}

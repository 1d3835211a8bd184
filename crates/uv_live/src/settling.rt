//! Whether a session, its book, the shifts and the loop's seat tell the same story.
ghost use Rattle.std.specs.Prelude.{◌≡◌, ◌<◌, map, length, count_by};
ghost use Rattle.uv_pool.specs.Book.{finish_count};
ghost use Rattle.uv_wake.specs.Seats.{names_of};
ghost use Rattle.uv_live.specs.Following.{Decides};
ghost use Rattle.uv_live.specs.Settling as spec;
ghost use Rattle.uv_live.specs.Settling.{worked, counted, SendsFit, AllSendsFit, IsSettled, Settles};

use crate::follower::Follower;
use crate::following::first_apart;
use crate::parts::are_shifts;
use std::sync::ledger::Ledger;
use uv_ids::{Event, Fault, Var};
use uv_pool::{PoolBook, Shift};
use uv_wake::LoopSeat;
use uv_work::PoolEvent;

fn is_finish(event: PoolEvent) -> bool
    ensures { result ≡ Rattle.uv_pool.specs.Book.is_finish event }
{
    matches!(event, PoolEvent::Finish(_, _))
}

fn finishes(events: &[PoolEvent]) -> usize
    ensures { result ≡ finish_count events.now }
{
    events.iter().filter(|event| is_finish(**event)).count()
}

/// What the shift's share counts. A share has no bytes: its shift keeps that it counts the finishes.
fn share_of<L: Ledger>(shift: &Shift<L>) -> usize
    ensures { result ≡ shift.now.share.amount }
{
    finishes(shift.events.as_slice())
}

/// Whether the shares together count the finishes of the log.
fn do_add_up<L: Ledger>(log: &[PoolEvent], shifts: &[Shift<L>]) -> bool
    ensures { Decides result (finish_count log.now ≡ counted (map (λ s. worked s.worker s.events.items s.share.amount) shifts.now)) }
{
    let mut left = finishes(log);
    'shifts: for k in 0..shifts.len() {
        let share = share_of(&shifts[k]);
        if left < share {
            return false;
        }
        left -= share;
    }
    left == 0
}

/// Whether none of a live run's threads does such a step.
fn is_unthreaded(event: Event) -> bool
    ensures { result ≡ spec.is_unthreaded event }
{
    matches!(event, Event::Cancel(_) | Event::Io(_))
}

fn unthreaded(steps: &[Event]) -> usize
    ensures { result ≡ count_by spec.is_unthreaded steps.now }
{
    steps.iter().filter(|event| is_unthreaded(**event)).count()
}

fn sends_fit<F: Follower>(name: Var, session: &F, seat: &LoopSeat) -> bool
    requires name { name.0 < (F.plan session.now).names }
    requires seat { name.0 < names_of seat.now.board }
    ensures { Decides result
        (SendsFit (F.course session.now).steps (F.plan session.now).lines seat.now.knows.counts name.0) }
{
    let sent = session.sends_to(name);
    sent as u64 == seat.count(name) && sent <= session.lines_to(name)
}

fn all_sends_fit<F: Follower>(session: &F, seat: &LoopSeat) -> bool
    requires { names_of seat.now.board ≡ (F.plan session.now).names }
    ensures { Decides result (AllSendsFit (F.course session.now).steps (F.plan session.now) seat.now.knows.counts) }
{
    'names: for v in 0..session.name_count() {
        if !sends_fit(Var(v), session, seat) {
            return false;
        }
    }
    true
}

/// All comparisons but that of the session's events with the log.
fn do_agree<F: Follower, L: Ledger>(
    session: &F,
    book: &PoolBook<L>,
    shifts: &[Shift<L>],
    seat: &LoopSeat,
) -> bool
    requires names { names_of seat.now.board ≡ (F.plan session.now).names }
    requires whole { (F.course session.now).events ≡ book.now.hold.contents.log }
    ensures { Decides result
        (IsSettled
        (F.plan session.now)
        (F.course session.now)
        book.now
        (map (λ s. worked s.worker s.events.items s.share.amount) shifts.now)
        seat.now.knows.counts) }
{
    if !book.closed() {
        return false;
    }
    if book.workers() != session.worker_count() {
        return false;
    }
    if shifts.len() != book.workers() as usize {
        return false;
    }
    if !are_shifts(book.log(), shifts) {
        return false;
    }
    if !do_add_up(book.log(), shifts) {
        return false;
    }
    if !all_sends_fit(session, seat) {
        return false;
    }
    unthreaded(session.steps()) == 0
}

/// Compares what the session did with what the threads did. `Ok` comes just where all agrees: the book is closed, and its whole log
/// are the session's events; the shifts are those of all workers, and together count the log's finishes; the sends of each name
/// are as many as were absorbed, and no more than its `thread` lines; and no step is a
/// cancel from outside or a callback of I/O, which none of the threads does.
///
/// `Torn` names the first place, from 1, where the session's events and the log part. It is 0 where they don't.
pub fn settle<F: Follower, L: Ledger>(
    session: &F,
    book: &PoolBook<L>,
    shifts: &[Shift<L>],
    seat: &LoopSeat,
) -> Result<(), Fault>
    requires { names_of seat.now.board ≡ (F.plan session.now).names }
    ensures { Settles
        (IsSettled
        (F.plan session.now)
        (F.course session.now)
        book.now
        (map (λ s. worked s.worker s.events.items s.share.amount) shifts.now)
        seat.now.knows.counts)
        (F.course session.now).events
        book.now.hold.contents.log
        result }
{
    let log = book.log();
    let events = session.pool_events();
    if let Some(n) = first_apart(events, log) {
        return Err(Fault::Torn { at: n + 1 });
    }
    if events.len() < log.len() {
        return Err(Fault::Torn {
            at: events.len() + 1,
        });
    }
    if do_agree(session, book, shifts, seat) {
        Ok(())
    } else {
        Err(Fault::Torn { at: 0 })
    }
}

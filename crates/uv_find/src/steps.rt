//! The event that an offer is, and one step of a session.
ghost use Rattle.std.specs.Prelude.{◌≡◌, ◌<◌, ◌-◌, ◌&&◌, nat_le, take, length, IfOk};
ghost use Rattle.uv_find.specs.Orders.{take_by, aim, is_made, is_blocked, deadline_at, is_poll_stage, is_in_poll, wait_until, ends_within, may_last, wait_for, is_behind_poll, is_quiet, is_closing, closes, is_seen, is_free, spending, step_of, is_run, event_of, keeps_clock, timed, may_take, offered_here, is_called_within, is_within};
ghost use Rattle.uv_find.specs.Steps.{Stands, StepsWithin, state_in};
ghost use Rattle.uv_ids.specs.declared.event.Event.TheVariants.{Finish};
ghost use Rattle.uv_model.specs.After.{after};

use crate::jobs::result_by;
use crate::kept::{Kept, owes};
use crate::left::Left;
use crate::ranks::idle_worker;
use std::alloc::AllocError;
use uv_asking::{Most, Offer};
use uv_ids::{Event, Fault, Id, Var, Why};
use uv_model::{Machine, Outcome, Place, Stage};
use uv_records::{Calls, WatcherKind};
use uv_session::Session;
use uv_work::{Content, WorkResult};

/// Takes the last step back.
pub fn take_back<M: Machine>(session: &mut Session<M>)
    requires some { 0 < length session.old.standing }
    requires back { M.BackWantsMemory → ⊥ }
    ensures { Stands session.old (take (length session.old.standing - 1) session.old.standing) session.new }
{
    match session.back(1) {
        Ok(()) => {}
        Err(_) => {}
    }
}

/// Whether the loop is blocked. Nothing changes.
pub fn is_blocked<M: Machine>(session: &mut Session<M>) -> Result<bool, AllocError>
    requires room { length session.old.standing < session.old.limit }
    requires back { M.BackWantsMemory → ⊥ }
    ensures same { Stands session.old session.old.standing session.new }
    ensures blocked { IfOk result (λ blocked. blocked ≡ is_blocked session.old.program (state_in session.old)) }
{
    match session.do_event(Event::Loop) {
        Ok(_) => {
            take_back(session);
            Ok(false)
        }
        Err(Fault::Refused(Why::Blocked)) => Ok(true),
        Err(Fault::Refused(_)) => Ok(false),
        Err(_) => Err(AllocError),
    }
}

/// The event in which it takes a request.
fn take_by(worker: Option<u16>) -> Option<Event>
    ensures { result ≡ take_by worker }
{
    match worker {
        None => None,
        Some(worker) => Some(Event::Take(worker)),
    }
}

/// The deadline of a poll.
pub fn deadline_at(place: Place) -> Option<u64>
    ensures { result ≡ deadline_at place }
{
    match place {
        Place::Main(_) => None,
        Place::Running(run) => match run.stage {
            Stage::Poll(deadline) => deadline,
            _ => None,
        },
    }
}

/// The event in which the clock goes on to a deadline, where the loop is blocked. Nothing changes.
pub fn wait_until<M: Machine>(
    session: &mut Session<M>,
    deadline: Option<u64>,
) -> Result<Option<Event>, AllocError>
    requires room { length session.old.standing < session.old.limit }
    requires back { M.BackWantsMemory → ⊥ }
    ensures same { Stands session.old session.old.standing session.new }
    ensures event { IfOk result (λ event. event ≡ wait_until session.old.program (state_in session.old) deadline) }
{
    match deadline {
        None => Ok(None),
        Some(deadline) => {
            let clock = session.machine().numbers().clock;
            if is_blocked(session)? {
                Ok(Some(Event::Tick(deadline.saturating_sub(clock))))
            } else {
                Ok(None)
            }
        }
    }
}

/// Whether the loop is in a poll.
pub fn is_in_poll(place: Place) -> bool
    ensures { result ≡ is_in_poll place }
{
    match place {
        Place::Main(_) => false,
        Place::Running(run) => match run.stage {
            Stage::Poll(_) => true,
            _ => false,
        },
    }
}

/// Whether so many ms from this clock end no later than a poll with this deadline, or with none.
fn ends_within(deadline: Option<u64>, clock: u64, ms: u64) -> bool
    ensures { result ≡ ends_within deadline clock ms }
{
    match deadline {
        None => true,
        Some(deadline) => ms <= deadline.saturating_sub(clock),
    }
}

/// Whether the loop is in a poll that may last so many ms.
pub fn may_last<M: Machine>(machine: &M, ms: u64) -> bool
    ensures { result ≡ may_last (after (M.program machine.now) (M.standing machine.now)) ms }
{
    is_in_poll(machine.place())
        && ends_within(deadline_at(machine.place()), machine.numbers().clock, ms)
}

/// The event in which so many ms go by in a poll, where the loop is blocked so long. Nothing changes.
pub fn wait_for<M: Machine>(session: &mut Session<M>, ms: u64) -> Result<Option<Event>, AllocError>
    requires room { length session.old.standing < session.old.limit }
    requires back { M.BackWantsMemory → ⊥ }
    ensures same { Stands session.old session.old.standing session.new }
    ensures event { IfOk result (λ event. event ≡ wait_for session.old.program (state_in session.old) ms) }
{
    if may_last(session.machine(), ms) {
        if is_blocked(session)? {
            Ok(Some(Event::Tick(ms)))
        } else {
            Ok(None)
        }
    } else {
        Ok(None)
    }
}

/// The name that a send, a cancel or a callback of I/O is for.
pub fn aim(event: Event) -> Option<Var>
    ensures { result ≡ aim event }
{
    match event {
        Event::Send(name) => Some(name),
        Event::Cancel(name) => Some(name),
        Event::Io(name) => Some(name),
        _ => None,
    }
}

/// Whether a name was bound to a handle or a request; any event may come that is for none.
pub fn is_made<M: Machine>(machine: &M, name: Option<Var>) -> bool
    ensures { result ≡ is_made (after (M.program machine.now) (M.standing machine.now)) name }
{
    match name {
        None => true,
        Some(name) => machine.named(name).id.is_some(),
    }
}

/// Whether the loop has left its poll, and the after and async callbacks of its iteration are called.
fn is_quiet(place: Place) -> bool
    ensures { result ≡ is_quiet place }
{
    match place {
        Place::Main(_) => false,
        Place::Running(run) => match run.stage {
            Stage::Done => true,
            Stage::DoneUnwoken => true,
            Stage::Walking(WatcherKind::Async) => true,
            _ => false,
        },
    }
}

/// Whether a handle is held that closes.
fn is_closing(content: Option<Content>) -> bool
    ensures { result ≡ is_closing content }
{
    match content {
        Some(Content::Handle(handle)) => handle.closing,
        _ => false,
    }
}

fn closes<M: Machine>(machine: &M, id: Option<Id>) -> bool
    ensures { result ≡ closes (after (M.program machine.now) (M.standing machine.now)) id }
{
    match id {
        None => false,
        Some(id) => is_closing(machine.held(id)),
    }
}

/// Whether libuv sees a send to this name as the loop does.
fn is_seen<M: Machine>(machine: &M, name: Var) -> bool
    ensures { result ≡ is_seen (after (M.program machine.now) (M.standing machine.now)) name }
{
    !is_quiet(machine.place()) && !closes(machine, machine.named(name).id)
}

/// Whether a step may come now: while a callback's time is still to go by, no callback of I/O begins, and no other time goes by; a send
/// comes where libuv sees it as the loop does.
pub fn is_free<M: Machine>(machine: &M, kept: Kept, event: Event) -> bool
    ensures { result ≡ is_free (after (M.program machine.now) (M.standing machine.now)) kept event }
{
    match event {
        Event::Io(_) => !owes(kept),
        Event::Tick(_) => !owes(kept),
        Event::Send(name) => is_seen(machine, name),
        _ => true,
    }
}

/// Where the loop would go on, a callback's time goes by first.
fn spending(kept: Kept, event: Event) -> Event
    ensures { result ≡ spending kept event }
{
    match event {
        Event::Loop => {
            if owes(kept) {
                Event::Tick(kept.owed)
            } else {
                Event::Loop
            }
        }
        other => other,
    }
}

/// The event that a step is here.
fn step_of<M: Machine>(machine: &M, kept: Kept, event: Event) -> Option<Event>
    ensures { result ≡ step_of (after (M.program machine.now) (M.standing machine.now)) kept event }
{
    if is_made(machine, aim(event)) && is_free(machine, kept, event) {
        Some(spending(kept, event))
    } else {
        None
    }
}

/// Whether a worker runs the request of this id.
fn is_run<M: Machine>(machine: &M, id: Option<Id>) -> bool
    ensures { result ≡ is_run (after (M.program machine.now) (M.standing machine.now)) id }
{
    match id {
        None => false,
        Some(id) => machine.worker_of(id).is_some(),
    }
}

/// The event that an offer is here. Nothing changes.
fn event_of<M: Machine>(
    session: &mut Session<M>,
    kept: Kept,
    offer: Offer,
) -> Result<Option<Event>, AllocError>
    requires room { length session.old.standing < session.old.limit }
    requires back { M.BackWantsMemory → ⊥ }
    ensures same { Stands session.old session.old.standing session.new }
    ensures event { IfOk result (λ event. event ≡ event_of session.old.program (state_in session.old) kept offer) }
{
    match offer {
        Offer::Step(event) => Ok(step_of(session.machine(), kept, event)),
        Offer::SendDuring(name, job) => {
            let machine = session.machine();
            if is_run(machine, machine.named(job).id) {
                Ok(step_of(machine, kept, Event::Send(name)))
            } else {
                Ok(None)
            }
        }
        Offer::Take => Ok(take_by(idle_worker(session.machine()))),
        Offer::Wait => {
            let deadline = deadline_at(session.machine().place());
            wait_until(session, deadline)
        }
        Offer::WaitFor(ms) => wait_for(session, ms),
    }
}

/// Whether the clock stays within its bound, from here.
fn keeps_clock(most: Option<u64>, clock: u64, event: Event) -> bool
    ensures { result ≡ keeps_clock most clock event }
{
    match (most, event) {
        (Some(most), Event::Tick(ms)) => match clock.checked_add(ms) {
            Some(time) => time <= most,
            None => false,
        },
        _ => true,
    }
}

/// An event that leaves the clock within its bound.
pub fn timed(most: Option<u64>, clock: u64, event: Option<Event>) -> Option<Event>
    ensures { result ≡ timed most clock event }
{
    match event {
        None => None,
        Some(event) => {
            if keeps_clock(most, clock, event) {
                Some(event)
            } else {
                None
            }
        }
    }
}

/// Whether an offer may still be taken.
pub fn may_take(left: Left) -> bool
    ensures { result ≡ may_take left }
{
    match left {
        Left::AtWill => true,
        Left::Times(times) => 0 < times,
        _ => false,
    }
}

/// The event that an offer is here, if it may be taken. Nothing changes.
pub fn offered_here<M: Machine>(
    session: &mut Session<M>,
    most: Option<u64>,
    kept: Kept,
    offer: Offer,
    left: Left,
) -> Result<Option<Event>, AllocError>
    requires room { length session.old.standing < session.old.limit }
    requires back { M.BackWantsMemory → ⊥ }
    ensures same { Stands session.old session.old.standing session.new }
    ensures event { IfOk result (λ event. event ≡ offered_here session.old.program most (state_in session.old) kept offer left) }
{
    if !may_take(left) {
        return Ok(None);
    }
    let clock = session.machine().numbers().clock;
    let event = event_of(session, kept, offer)?;
    Ok(timed(most, clock, event))
}

/// Whether each of the calls is within a bound.
fn is_called_within(calls: Calls, most: u32) -> bool
    ensures { result ≡ ((nat_le calls.handle most && nat_le calls.after most) && nat_le calls.close most) }
{
    calls.handle <= most && calls.after <= most && calls.close <= most
}

/// Whether the bounds on calls hold.
fn is_within<M: Machine>(machine: &M, most: &[Most]) -> bool
    ensures { result ≡ is_within most.now (after (M.program machine.now) (M.standing machine.now)) }
{
    most.iter().all(|bound| is_called_within(machine.named(bound.name).calls, bound.calls))
}

/// Does a step, if the loop accepts it and the bounds on calls hold then; none is done else.
#[inline(always)]
fn event_within<M: Machine>(
    session: &mut Session<M>,
    event: Event,
    most: &[Most],
) -> Result<Option<Outcome>, AllocError>
    requires room { length session.old.standing < session.old.limit }
    requires back { M.BackWantsMemory → ⊥ }
    ensures { StepsWithin most.now session.old event result session.new }
{
    match session.do_event(event) {
        Ok(outcome) => {
            if is_within(session.machine(), most) {
                Ok(Some(outcome))
            } else {
                take_back(session);
                Ok(None)
            }
        }
        Err(Fault::Refused(_)) => Ok(None),
        Err(_) => Err(AllocError),
    }
}

/// The same of a finish, whose job's result this may be.
#[inline(never)]
fn finish_within<M: Machine>(
    session: &mut Session<M>,
    worker: u16,
    work: WorkResult,
    most: &[Most],
) -> Result<Option<Outcome>, AllocError>
    requires room { length session.old.standing < session.old.limit }
    requires back { M.BackWantsMemory → ⊥ }
    ensures { StepsWithin most.now session.old (Finish worker) result session.new }
{
    match session.finish_with(worker, work) {
        Ok(outcome) => {
            if is_within(session.machine(), most) {
                Ok(Some(outcome))
            } else {
                take_back(session);
                Ok(None)
            }
        }
        Err(Fault::Refused(_)) => event_within(session, Event::Finish(worker), most),
        Err(Fault::Memory) => Err(AllocError),
        Err(Fault::StepsFull) => Err(AllocError),
        Err(_) => Err(AllocError),
    }
}

/// Does a step, if the loop accepts it and the bounds on calls hold then; none is done else. A job that was done before isn't done anew.
#[inline(always)]
pub fn step_within<M: Machine>(
    session: &mut Session<M>,
    event: Event,
    most: &[Most],
    results: &mut Vec<WorkResult>,
) -> Result<Option<Outcome>, AllocError>
    requires room { length session.old.standing < session.old.limit }
    requires back { M.BackWantsMemory → ⊥ }
    ensures { StepsWithin most.now session.old event result session.new }
{
    if let Event::Finish(worker) = event {
        if let Some(work) = result_by(session.machine(), worker, results)? {
            return finish_within(session, worker, work, most);
        }
    }
    event_within(session, event, most)
}

//! The steps of a live run, each as a step of the session, with the list of the pool's events.
ghost use Rattle.std.specs.Prelude.{◌≡◌, ◌<◌, ◌≤◌, ◌+◌, ◌++◌, IfErr, OnOk, OnErr, length, vec_len, vec_capacity};
ghost use Rattle.uv_ids.specs.declared.event.Event.TheVariants as step;
ghost use Rattle.uv_work.specs.declared.event.PoolEvent.TheVariants as event;
ghost use Rattle.uv_session.specs.Shown.{TakesEvent};
ghost use Rattle.uv_order.specs.Taking.{IsTakenAs};
ghost use Rattle.uv_live.specs.Faults.{IsEventFault, IsStepFault};
ghost use Rattle.uv_live.specs.Following.{Adds, Applies, OnFull, StaysEnded};
ghost use Rattle.uv_live.specs.Turning.{Steps, events_as};
ghost use Rattle.uv_run.specs.Events as spec;
ghost use Rattle.uv_run.specs.Events.{events_in, events_of_loop};
ghost use Rattle.uv_run.specs.Bound.{course_of, refusal_in, polls_in, hours_in, SameSends, Sends};

use crate::did::event_of_line;
use crate::pool_log::PoolLog;
use uv_ids::{Event, Fault, Id, Seen, Var, Why};
use uv_model::{Machine, Outcome, Place, Stage};
use uv_script::Script;
use uv_session::Session;
use uv_work::WorkResult;

/// Whether the loop is at a poll.
pub(crate) fn is_polling(place: Place) -> bool
    ensures { result ≡ spec.is_polling place }
{
    match place {
        Place::Running(run) => matches!(run.stage, Stage::Poll(_)),
        Place::Main(_) => false,
    }
}

/// When the poll times out; none where the loop isn't at a poll, or the poll waits forever.
pub(crate) fn deadline(place: Place) -> Option<u64>
    ensures { result ≡ spec.deadline_of place }
{
    match place {
        Place::Running(run) => match run.stage {
            Stage::Poll(deadline) => deadline,
            _ => None,
        },
        Place::Main(_) => None,
    }
}

/// Puts the pool's event of a line at the end of the list.
pub(crate) fn push_line(log: &mut PoolLog, script: &Script, seen: Option<Seen>)
    requires room { vec_len log.old.events < vec_capacity log.old.events }
    ensures { log.new.events.items ≡ log.old.events.items ++ events_in script.now seen }
{
    if let Some(event) = event_of_line(script, seen) {
        log.push(event);
    }
}

/// The next step of the loop.
#[tactic(auto, using(crate::proofs::Answers::answers, crate::proofs::Faults::faults))]
pub(crate) fn step<M: Machine>(
    session: &mut Session<M>,
    log: &mut PoolLog,
) -> Result<Outcome, Fault>
    requires { log.old.events.items ≡ (course_of session.old).events }
    ensures program { session.new.program ≡ session.old.program }
    ensures limit { session.new.limit ≡ session.old.limit }
    ensures events { log.new.events.items ≡ (course_of session.new).events }
    ensures answer { Steps (refusal_in session.old) (course_of session.old) (events_as (λ o. events_of_loop session.old.program o.seen) result)
        (course_of session.new) }
    ensures same { OnErr result (refusal_in session.new ≡ refusal_in session.old) }
    ensures faults { IfErr result IsStepFault }
    ensures full { OnFull result (session.old.limit ≤ length session.old.standing) }
    ensures sends { SameSends session.old session.new }
{
    log.reserve()?;
    let outcome = session.do_event(Event::Loop)?;
    push_line(log, session.machine().script(), outcome.seen);
    Ok(outcome)
}

/// A send that was absorbed.
#[tactic(auto, using(crate::proofs::Answers::answers, crate::proofs::Faults::faults))]
pub(crate) fn send<M: Machine>(session: &mut Session<M>, name: Var) -> Result<(), Fault>
    ensures program { session.new.program ≡ session.old.program }
    ensures limit { session.new.limit ≡ session.old.limit }
    ensures events { (course_of session.new).events ≡ (course_of session.old).events }
    ensures answer { Adds (step.Send name) (course_of session.old) result (course_of session.new) }
    ensures polling { polls_in session.new ≡ polls_in session.old }
    ensures sends { Sends name.0 session.old result session.new }
    ensures faults { IfErr result IsEventFault }
    ensures full { OnFull result (session.old.limit ≤ length session.old.standing) }
{
    session.do_event(Event::Send(name))?;
    Ok(())
}

/// The clock goes on.
#[tactic(auto, using(crate::proofs::Answers::answers, crate::proofs::Faults::faults))]
pub(crate) fn tick<M: Machine>(session: &mut Session<M>, span: u64) -> Result<(), Fault>
    ensures program { session.new.program ≡ session.old.program }
    ensures limit { session.new.limit ≡ session.old.limit }
    ensures events { (course_of session.new).events ≡ (course_of session.old).events }
    ensures answer { Adds (step.Tick span) (course_of session.old) result (course_of session.new) }
    ensures hours { OnOk result (hours_in session.new ≡ hours_in session.old + span) }
    ensures faults { IfErr result IsEventFault }
    ensures full { OnFull result (session.old.limit ≤ length session.old.standing) }
    ensures sends { SameSends session.old session.new }
{
    session.do_event(Event::Tick(span))?;
    Ok(())
}

/// A worker's take, which can be the next step.
#[tactic(auto, using(crate::proofs::Answers::answers, crate::proofs::Faults::faults))]
pub(crate) fn take<M: Machine>(
    session: &mut Session<M>,
    log: &mut PoolLog,
    k: u16,
    id: Id,
) -> Result<(), Fault>
    requires events { log.old.events.items ≡ (course_of session.old).events }
    ensures program { session.new.program ≡ session.old.program }
    ensures limit { session.new.limit ≡ session.old.limit }
    ensures events { log.new.events.items ≡ (course_of session.new).events }
    ensures answer { IsTakenAs session.old.program session.old.standing (step.Take k) (event.Take k id)
        → Applies (event.Take k id) (course_of session.old) result (course_of session.new) }
    ensures faults { IfErr result IsEventFault }
    ensures ended { StaysEnded (refusal_in session.old) (refusal_in session.new) }
    ensures full { OnFull result (session.old.limit ≤ length session.old.standing) }
    ensures sends { SameSends session.old session.new }
{
    log.reserve()?;
    let outcome = session.do_event(Event::Take(k))?;
    push_line(log, session.machine().script(), outcome.seen);
    Ok(())
}

/// The finish of a worker's request, with this result where it is of the very job that the worker runs. Only where it is of another one
/// the session does the job.
#[tactic(auto, using(crate::proofs::Answers::answers, crate::proofs::Faults::faults))]
fn hand_in<M: Machine>(
    session: &mut Session<M>,
    k: u16,
    work: Option<WorkResult>,
) -> Result<Outcome, Fault>
    ensures { TakesEvent session.old (step.Finish k) result session.new }
{
    let Some(work) = work else {
        return session.do_event(Event::Finish(k));
    };
    match session.finish_with(k, work) {
        Err(Fault::Refused(Why::NoWork)) => session.do_event(Event::Finish(k)),
        answer => answer,
    }
}

/// A worker's finish, which can be the next step.
#[tactic(auto, using(crate::proofs::Answers::answers, crate::proofs::Faults::faults))]
pub(crate) fn finish<M: Machine>(
    session: &mut Session<M>,
    log: &mut PoolLog,
    k: u16,
    id: Id,
    work: Option<WorkResult>,
) -> Result<(), Fault>
    requires events { log.old.events.items ≡ (course_of session.old).events }
    ensures program { session.new.program ≡ session.old.program }
    ensures limit { session.new.limit ≡ session.old.limit }
    ensures events { log.new.events.items ≡ (course_of session.new).events }
    ensures answer { IsTakenAs session.old.program session.old.standing (step.Finish k) (event.Finish k id)
        → Applies (event.Finish k id) (course_of session.old) result (course_of session.new) }
    ensures faults { IfErr result IsEventFault }
    ensures ended { StaysEnded (refusal_in session.old) (refusal_in session.new) }
    ensures full { OnFull result (session.old.limit ≤ length session.old.standing) }
    ensures sends { SameSends session.old session.new }
{
    log.reserve()?;
    let outcome = hand_in(session, k, work)?;
    push_line(log, session.machine().script(), outcome.seen);
    Ok(())
}

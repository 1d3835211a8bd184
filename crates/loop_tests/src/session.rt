//! A session has its limit, and going back has an end.

use crate::given::opened;
use std::alloc::Global;
use uv_ids::{Event, Fault, Why};
use uv_model::Machine;
use uv_plain::PlainLoop;
use uv_session::Session;

fn keeps_its_limit<M: Machine>(session: &mut Session<M>) -> bool {
    session.do_event(Event::Loop).is_ok()
        && session.do_event(Event::Tick(5)).is_ok()
        && session.do_event(Event::Tick(5)) == Err(Fault::StepsFull)
        && session.back(3) == Err(Fault::Refused(Why::Range))
        && session.steps() == [Event::Loop, Event::Tick(5)].as_slice()
}

fn two_steps<M: Machine>(alloc: Global) -> Result<bool, Fault> {
    let mut session = opened::<M>(alloc, b"var t\nmain init t timer\n", 2)?;
    Ok(keeps_its_limit(&mut session))
}

/// A run of steps fills the session up, and one that is taken back makes room for one.
fn fills_up<M: Machine>(session: &mut Session<M>) -> bool {
    session.run_to_break(Event::Loop, 100).err() == Some(Fault::StepsFull)
        && session.steps().len() == 4
        && session.back(1).is_ok()
        && session.do_event(Event::Loop).is_ok()
        && session.do_event(Event::Loop) == Err(Fault::StepsFull)
}

fn four_steps<M: Machine>(alloc: Global) -> Result<bool, Fault> {
    let text = b"var t\nmain init t timer\nmain start t 3 0\nmain run default\n";
    let mut session = opened::<M>(alloc, text, 4)?;
    Ok(fills_up(&mut session))
}

#[test]
fn a_full_session_takes_a_step_once_one_is_back(rt: HostRuntime) -> Result<(), Fault> {
    assert!(&rt; four_steps::<PlainLoop>(rt.alloc())?);
    Ok(())
}

#[test]
fn a_session_has_its_limits(rt: HostRuntime) -> Result<(), Fault> {
    assert!(&rt; two_steps::<PlainLoop>(rt.alloc())?);
    Ok(())
}

//! The loop over one memory goes on and back.

use crate::given::{begun, told};
use std::alloc::Global;
use uv_ids::{Answer, Code, Event, Fault, Seen, Var, Why};
use uv_loop::ArenaLoop;
use uv_model::Machine;

const LATEST: u64 = 1 << 62;

/// Whether the clock shows this, after so many steps.
fn shows<M: Machine>(machine: &M, clock: u64, steps: usize) -> bool {
    machine.numbers().clock == clock && machine.len() == steps
}

/// Whether an event is refused, for this reason.
fn refuses<M: Machine>(machine: &mut M, event: Event, why: Why) -> bool {
    machine.step(event) == Err(Fault::Refused(why))
}

/// Whether an event is accepted, with this line, which stands as that of the last step then.
fn appends<M: Machine>(machine: &mut M, event: Event, line: Seen) -> bool {
    machine.step(event) == told(line)
        && machine.len() > 0
        && machine.seen(machine.len()) == Some(line)
}

/// Whether a step is taken back, to where the clock shows this, after so many steps.
fn goes_back<M: Machine>(machine: &mut M, clock: u64, steps: usize) -> bool {
    machine.back() == Ok(true) && shows(machine, clock, steps)
}

fn clock_goes<M: Machine>(machine: &mut M) -> bool {
    shows(machine, 0, 0)
        && appends(machine, Event::Tick(5), Seen::Tick(5))
        && refuses(machine, Event::Tick(LATEST), Why::Range)
        && appends(machine, Event::Tick(LATEST - 5), Seen::Tick(LATEST - 5))
        && shows(machine, LATEST, 2)
        && goes_back(machine, 5, 1)
        && goes_back(machine, 0, 0)
        && machine.back() == Ok(false)
}

fn unbound_is_stale<M: Machine>(machine: &mut M) -> bool {
    let send = Seen::Send(Var(0), Code::Estale);
    let cancel = Seen::Cancel(Var(0), Answer::Code(Code::Estale));
    appends(machine, Event::Send(Var(0)), send)
        && appends(machine, Event::Cancel(Var(0)), cancel)
        && refuses(machine, Event::Send(Var(1)), Why::Range)
        && refuses(machine, Event::Cancel(Var(1)), Why::Range)
        && goes_back(machine, 0, 1)
        && goes_back(machine, 0, 0)
}

fn nothing_to_do<M: Machine>(machine: &mut M) -> bool {
    refuses(machine, Event::Take(0), Why::NoWork)
        && refuses(machine, Event::Take(4), Why::NoWorker)
        && refuses(machine, Event::Finish(0), Why::IdleWorker)
        && refuses(machine, Event::Finish(4), Why::NoWorker)
        && shows(machine, 0, 0)
}

fn each_event<M: Machine>(alloc: Global) -> Result<bool, Fault> {
    let mut machine = begun::<M>(alloc)?;
    Ok(clock_goes(&mut machine) && unbound_is_stale(&mut machine) && nothing_to_do(&mut machine))
}

#[test]
fn the_loop_takes_each_event_or_refuses_it(rt: HostRuntime) -> Result<(), Fault> {
    assert!(&rt; each_event::<ArenaLoop>(rt.alloc())?);
    Ok(())
}

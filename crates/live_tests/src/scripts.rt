//! Live runs of scripts on real threads, over the program's own machine.
use crate::cases::{Case, Fact, Kind, cases};
use crate::gates::Ordered;
use std::alloc::Global;
use std::sync::Wait;
use std::thread::Threads;
use std::time::Clock;
use uv_ids::{Code, Event, Fault, Id, Seen};
use uv_live::JumpClock;
use uv_loop::ArenaLoop;
use uv_model::Machine;
use uv_pool::Gate;
use uv_run::live_within;
use uv_script::Script;
use uv_session::Session;

/// Whether a line is of this kind.
fn is_of(kind: &Kind, seen: Seen) -> bool {
    match kind {
        Kind::Call => matches!(
            seen,
            Seen::Call(_, _) | Seen::After(_, _, _) | Seen::Closed(_, _)
        ),
        Kind::Take => matches!(seen, Seen::Take(_, _, _)),
        Kind::Finish => matches!(seen, Seen::Finish(_, _, _)),
        Kind::Send => matches!(seen, Seen::Send(_, _)),
        Kind::LateSend => matches!(seen, Seen::Send(_, Code::Einval | Code::Estale)),
        Kind::AfterOrSend => matches!(seen, Seen::After(_, _, _) | Seen::Send(_, _)),
        Kind::Tick => matches!(seen, Seen::Tick(_)),
    }
}

fn count(trace: &[Seen], kind: &Kind) -> usize {
    let mut sum: usize = 0;
    for seen in trace {
        if is_of(kind, *seen) {
            sum = sum.wrapping_add(1);
        }
    }
    sum
}

/// Whether the first lines of this kind are these, in this order.
fn do_begin(trace: &[Seen], kind: &Kind, wanted: &[Seen]) -> bool {
    let mut left = wanted;
    for seen in trace {
        if !is_of(kind, *seen) {
            continue;
        }
        match left.split_first() {
            Some((first, rest)) if first == seen => left = rest,
            Some(_) => return false,
            None => return true,
        }
    }
    left.is_empty()
}

/// Whether it holds of a run with these steps and lines.
fn holds(fact: &Fact, steps: &[Event], trace: &[Seen]) -> bool {
    match fact {
        Fact::Are(kind, lines) => {
            count(trace, kind) == lines.len() && do_begin(trace, kind, lines)
        }
        Fact::Begin(kind, lines) => do_begin(trace, kind, lines),
        Fact::Count(kind, least, most) => {
            let count = count(trace, kind);
            *least <= count && count <= *most
        }
        Fact::Step(place, all, step) => steps.len() == *all && steps.get(*place) == Some(step),
    }
}

/// Whether the takes are those that the workers told.
fn are_told(trace: &[Seen], begun: &[(u16, Id)]) -> bool {
    let mut told = count(trace, &Kind::Take) == begun.len();
    for seen in trace {
        if let Seen::Take(k, _, id) = *seen {
            told = told && begun.contains(&(k, id));
        }
    }
    told
}

fn all_hold(facts: &[Fact], steps: &[Event], trace: &[Seen]) -> bool {
    let mut hold = true;
    for fact in facts {
        hold = hold && holds(fact, steps, trace);
    }
    hold
}

/// Runs a script on real threads, over a machine.
fn ran<M: Machine, G: Gate + Sync, R: Threads + Wait + Sync>(
    rt: &R,
    alloc: Global,
    limit: usize,
    text: &[u8],
    gate: &G,
) -> Result<Session<M>, Fault> {
    let script = Script::parse(alloc, text)?;
    let mut clock = JumpClock::new(0);
    live_within::<M, _, _, _>(rt, alloc, limit, script, &mut clock, gate)
}

/// Whether nobody waits in vain in a run, all that its case says holds of it, and its takes are those that the workers told.
fn is_so<M: Machine, R: Clock + Threads + Wait + Sync>(
    rt: &R,
    alloc: Global,
    case: &Case,
) -> Result<bool, Fault> {
    let gate = Ordered::new(rt, alloc, case.holds);
    let session = ran::<M, _, _>(rt, alloc, case.limit, case.text, &&gate)?;
    let late = gate.is_late();
    let begun = gate.into_begun();
    let trace = session.trace()?;
    Ok(!late && all_hold(case.facts, session.steps(), &trace) && are_told(&trace, &begun))
}

#[test]
fn each_run_comes_to_what_it_must(rt: HostRuntime) {
    for case in cases() {
        let name = case.name;
        for _ in 0..case.times {
            assert!(&rt;
                is_so::<ArenaLoop, _>(&rt, rt.alloc(), case) == case.answer,
                "{name}"
            );
        }
    }
}

//! A live run of a script.
ghost use Rattle.std.specs.Prelude.{◌≡◌, IfErr, IfOk, Some, min};
ghost use Rattle.uv_ids.specs.declared.fault.Why.TheVariants.{Ended};
ghost use Rattle.uv_model.specs.After.{STEPS, lines};
ghost use Rattle.uv_order.specs.Once.{Once};
ghost use Rattle.uv_session.specs.Shown.{IsDocumented};
ghost use Rattle.uv_live.specs.Faults.{IsRunFault};
ghost use Rattle.uv_live.specs.Running.{RunSettles};
ghost use Rattle.uv_script.specs.Program.{worker_count};
ghost use Rattle.uv_run.specs.Bound.{plan_of, course_of, refusal_in};

use crate::session::LiveSession;
use std::alloc::Global;
use std::sync::Wait;
use std::thread::Threads;
use uv_ids::Fault;
use uv_live::Clock;
use uv_model::{Machine, STEPS};
use uv_pool::Gate;
use uv_script::Script;
use uv_session::Session;

/// Runs a script to its end with a thread for each worker and for each sender of its `thread` lines, and answers the session that is what
/// they did. Its lines are in the documented order, and by them each handle closes once and each request calls back once. The session takes
/// so many steps at most, and 16,777,216 in any case: `StepsFull` where the run would take more. The workers and the other faults are as
/// `live` of uv_live says.
pub fn live_within<M: Machine, C: Clock, G: Gate + Sync, R: Threads + Wait + Sync>(
    rt: &R,
    alloc: Global,
    limit: usize,
    script: Script,
    clock: &mut C,
    gate: &G,
) -> Result<Session<M>, Fault>
    ensures program { IfOk result (λ s. s.program ≡ script) }
    ensures limit { IfOk result (λ s. s.limit ≡ min limit STEPS) }
    ensures end { IfOk result (λ s. refusal_in s ≡ Some Ended) }
    ensures documented { IfOk result (λ s. IsDocumented s (lines s.program s.standing)) }
    ensures once { IfOk result (λ s. Once s.program (lines s.program s.standing)) }
    ensures settled { IfOk result (λ s. RunSettles (plan_of script script.threads) (course_of s)) }
    ensures err { IfErr result (IsRunFault (worker_count script)) }
{
    let lines = Vec::from_slice(alloc, script.thread_lines())?;
    let machine = M::begin(alloc, script)?;
    let session = LiveSession::of(alloc, Session::new(alloc, machine, limit), lines)?;
    let session = uv_live::live(rt, alloc, session, clock, gate)?;
    Ok(session.into_session())
}

/// `live_within` with the most steps that a session may take.
pub fn live<M: Machine, C: Clock, G: Gate + Sync, R: Threads + Wait + Sync>(
    rt: &R,
    alloc: Global,
    script: Script,
    clock: &mut C,
    gate: &G,
) -> Result<Session<M>, Fault>
    ensures program { IfOk result (λ s. s.program ≡ script) }
    ensures limit { IfOk result (λ s. s.limit ≡ STEPS) }
    ensures end { IfOk result (λ s. refusal_in s ≡ Some Ended) }
    ensures documented { IfOk result (λ s. IsDocumented s (lines s.program s.standing)) }
    ensures once { IfOk result (λ s. Once s.program (lines s.program s.standing)) }
    ensures settled { IfOk result (λ s. RunSettles (plan_of script script.threads) (course_of s)) }
    ensures err { IfErr result (IsRunFault (worker_count script)) }
{
    live_within(rt, alloc, STEPS, script, clock, gate)
}

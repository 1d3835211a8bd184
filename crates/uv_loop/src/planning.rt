//! What a step does, or why it is refused.
ghost use Rattle.std.specs.Prelude.{◌≡◌, ◌+◌, ◌<◌, ◌≤◌, IfSome, IfNone, IfOk, IfErr, is_some, true, slice_get, length};
ghost use Rattle.uv_ids.specs.declared.event.Event.TheVariants.{Loop, Take, Finish, Cancel, Send, Tick};
ghost use Rattle.uv_ids.specs.declared.fault.Why.TheVariants.{Range};
ghost use Rattle.uv_model.specs.Next.{main_step, stage_step, next};
ghost use Rattle.uv_model.specs.After.{refusal_of};
ghost use Rattle.uv_model.specs.State.{State};
ghost use Rattle.uv_model.specs.declared.place.Run.{Run};
ghost use Rattle.uv_script.specs.Program.{Program, order_of};
ghost use Rattle.uv_memory.specs.Image.{held};
ghost use Rattle.uv_stands.specs.Doing.{OfEach};
ghost use Rattle.uv_loop.specs.Acting.{MayBehind, MayAt, Plans, outside_event};

use crate::io::io_plan;
use crate::plan::{Outside, Plan};
use uv_ids::{Var, Why};
use uv_memory::Memory;
use uv_model::{LATEST, Stage};
use uv_script::Script;
use uv_stands::{PackedPlace, PlaceForm, may_leave};

/// What the clock shows so many ms later; none past its limit.
fn later(clock: u64, ms: u64) -> Option<u64>
    ensures some { IfSome result (λ later. clock + ms ≤ LATEST) }
    ensures none { IfNone result (LATEST < clock + ms) }
{
    let later = clock.checked_add(ms)?;
    (later <= LATEST).then_some(later)
}

/// What is to be done of an event from outside, or why it is refused. Nothing else refuses it.
pub(crate) fn plan_of(
    memory: &Memory<PackedPlace>,
    script: &Script,
    outside: Outside,
) -> Result<Plan, Why>
    ensures { Plans script.now (held memory.now).image (outside_event outside) result }
{
    match outside {
        Outside::Take(worker) => take_plan(memory, worker),
        Outside::Finish(worker) => finish_plan(memory, worker),
        Outside::Cancel(name) => cancel_plan(memory, name),
        Outside::Send(name) => send_plan(memory, name),
        Outside::Io(name) => io_plan(memory, script, name),
        Outside::Tick(ms) => tick_plan(memory, ms),
    }
}

/// The clock has a limit.
fn tick_plan(memory: &Memory<PackedPlace>, ms: u64) -> Result<Plan, Why>
    ensures { (p : Program) → Plans p (held memory.now).image (Tick ms) result }
{
    match later(memory.clock(), ms) {
        None => Err(Why::Range),
        Some(_) => Ok(Plan::Tick(ms)),
    }
}

/// The name has to be one that the loop has.
pub(crate) fn check_name(memory: &Memory<PackedPlace>, name: Var) -> Result<(), Why>
    ensures ok { IfOk result (λ _. name.0 < length (held memory.now).image.names) }
    ensures err { IfErr result (λ why. (why ≡ Range) × (length (held memory.now).image.names ≤ name.0)) }
{
    if name.0 as usize >= memory.names().len() {
        return Err(Why::Range);
    }
    Ok(())
}

/// A cancel is never refused except for its name.
fn cancel_plan(memory: &Memory<PackedPlace>, name: Var) -> Result<Plan, Why>
    ensures { (p : Program) → Plans p (held memory.now).image (Cancel name) result }
{
    check_name(memory, name)?;
    Ok(Plan::Cancel(name))
}

/// Nor is a send.
fn send_plan(memory: &Memory<PackedPlace>, name: Var) -> Result<Plan, Why>
    ensures { (p : Program) → Plans p (held memory.now).image (Send name) result }
{
    check_name(memory, name)?;
    Ok(Plan::Send(name))
}

/// A worker takes a request where it runs none, and one waits.
fn take_plan(memory: &Memory<PackedPlace>, worker: u16) -> Result<Plan, Why>
    ensures { (p : Program) → Plans p (held memory.now).image (Take worker) result }
{
    let (id, request) = memory.next_work(worker)?;
    Ok(Plan::Take(worker, id, request))
}

/// A worker finishes what it runs.
fn finish_plan(memory: &Memory<PackedPlace>, worker: u16) -> Result<Plan, Why>
    ensures { (p : Program) → Plans p (held memory.now).image (Finish worker) result }
{
    let (id, request) = memory.work_of(worker)?;
    Ok(Plan::Finish(worker, id, request))
}

/// Why the loop's next step is to be refused, if it is: the main program is at its end, or the poll can't be left yet. The next op of a
/// body never is.
#[inline(always)]
pub(crate) fn loop_refusal(memory: &Memory<PackedPlace>, script: &Script) -> Option<Why>
    ensures why { OfEach (held memory.now).image (λ s. refusal_of (next script.now s Loop) ≡ result) }
    ensures may { IfNone result (MayAt script.now (held memory.now).image.place (held memory.now).image) }
{
    match memory.place().form() {
        PlaceForm::Main(line) => main_refusal(script, line),
        PlaceForm::Between(_, _, stage) => stage_refusal(memory, stage),
        PlaceForm::Within(_, _, _, _) => None,
        PlaceForm::WithinPoll { .. } => None,
    }
}

/// The main program has an end.
fn main_refusal(script: &Script, line: usize) -> Option<Why>
    ensures why { (s : State) → refusal_of (main_step (order_of script.now) s line (slice_get script.now.main line)) ≡ result }
    ensures may { IfNone result (is_some (slice_get script.now.main line) ≡ true) }
{
    match script.main_op(line) {
        None => Some(Why::Ended),
        Some(_) => None,
    }
}

/// The poll isn't left before its deadline unless a request is done or an async handle was sent to.
#[tactic(auto, using(uv_model::proofs::Refusals::run_moves))]
fn stage_refusal(memory: &Memory<PackedPlace>, stage: Stage) -> Option<Why>
    ensures why { (p : Program) → (run : Run) → OfEach (held memory.now).image (λ s. refusal_of (stage_step p s run stage) ≡ result) }
    ensures may { IfNone result (MayBehind stage (held memory.now).image) }
{
    match stage {
        Stage::Poll(deadline) => {
            if may_leave(memory, deadline) {
                return None;
            }
            Some(Why::Blocked)
        }
        Stage::Entry => None,
        Stage::Pending => None,
        Stage::Walking(_) => None,
        Stage::Polled(_) => None,
        Stage::Done => None,
        Stage::DoneUnwoken => None,
        Stage::Closing => None,
        Stage::Timers(_, _) => None,
    }
}

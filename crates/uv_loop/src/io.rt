//! Callbacks of I/O, which come when the environment says so.
ghost use Rattle.std.specs.Prelude.{◌≡◌, Some};
ghost use Rattle.uv_ids.specs.declared.event.Event.TheVariants.{Io};
ghost use Rattle.uv_model.specs.State.{State, live_handle};
ghost use Rattle.uv_model.specs.Next.{takes_io, io_run, io_handle};
ghost use Rattle.uv_memory.specs.Image.{held};
ghost use Rattle.uv_stands.specs.Doing.{OfEach, Returns};
ghost use Rattle.uv_stands.specs.Ready.{IsReady};
ghost use Rattle.uv_stands.specs.Stands.{StandsFor};
ghost use Rattle.uv_loop.specs.Course.{Leads};
ghost use Rattle.uv_loop.specs.Acting.{MayCall, Plans};

use crate::plan::Plan;
use crate::planning::check_name;
use uv_ids::{Id, Seen, Var, Why};
use uv_memory::Memory;
use uv_model::{Place, Run, Stage};
use uv_records::{ListName, WatcherKind};
use uv_script::Script;
use uv_sections::call_io;
use uv_stands::{PackedPlace, has_members, live_handle};

/// Whether a callback of I/O may begin there.
fn takes_io(memory: &Memory<PackedPlace>, run: Run) -> bool
    ensures { OfEach (held memory.now).image (λ s. takes_io s run.stage run.body ≡ result) }
{
    match (run.body, run.stage) {
        (Some(_), _) => false,
        (None, Stage::Pending) => true,
        (None, Stage::Poll(_)) => true,
        (None, Stage::Polled(_)) => true,
        (None, Stage::Done) => true,
        (None, Stage::DoneUnwoken) => true,
        (None, Stage::Walking(WatcherKind::Async)) => !has_members(memory, ListName::AsyncYet),
        (None, Stage::Walking(WatcherKind::Idle)) => false,
        (None, Stage::Walking(WatcherKind::Prepare)) => false,
        (None, Stage::Walking(WatcherKind::Check)) => false,
        (None, Stage::Entry) => false,
        (None, Stage::Closing) => false,
        (None, Stage::Timers(_, _)) => false,
    }
}

/// The run under way, where a callback of I/O may begin.
fn io_run(memory: &Memory<PackedPlace>, script: &Script) -> Option<Run>
    ensures { OfEach (held memory.now).image (λ s. io_run script.now s s.place ≡ result) }
{
    match memory.place().place() {
        Place::Main(_) => None,
        Place::Running(run) => (script.has_io() && takes_io(memory, run)).then_some(run),
    }
}

/// The handle of I/O of a name, if it is live and active.
fn io_handle(memory: &Memory<PackedPlace>, name: Var) -> Option<Id>
    ensures { (s : State) → StandsFor (held memory.now).image s → io_handle (live_handle s name) ≡ result }
{
    let (id, handle) = live_handle(memory, name).ok()?;
    (handle.is_io() && handle.active).then_some(id)
}

/// There has to be such a name, and its handle has to wait for I/O where its callback may begin.
pub(crate) fn io_plan(memory: &Memory<PackedPlace>, script: &Script, name: Var) -> Result<Plan, Why>
    ensures { Plans script.now (held memory.now).image (Io name) result }
{
    check_name(memory, name)?;
    let Some(run) = io_run(memory, script) else {
        return Err(Why::Blocked);
    };
    let Some(id) = io_handle(memory, name) else {
        return Err(Why::Blocked);
    };
    Ok(Plan::Io(run, name, id))
}

/// Has the handle of I/O of a name called.
pub(crate) fn call_named(
    memory: &mut Memory<PackedPlace>,
    script: &Script,
    run: Run,
    name: Var,
    id: Id,
) -> Seen
    requires ready { IsReady (held memory.old) }
    requires may { MayCall script.now (held memory.old).image run name id }
    ensures returns { Returns memory.new.step_record (held memory.old) (held memory.new) }
    ensures leads { Leads script.now (held memory.old).image (held memory.new).image (Io name) (Some result) }
    ensures pieces { memory.new.slots.room ≡ memory.old.slots.room }
{
    call_io(memory, script, run, name, id)
}

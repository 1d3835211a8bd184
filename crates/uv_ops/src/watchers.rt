//! Watchers and handles of I/O are started and stopped.
ghost use Rattle.std.specs.Prelude.{◌≡◌, Some, None, false};
ghost use Rattle.uv_ids.specs.declared.code.Answer.TheVariants as answer;
ghost use Rattle.uv_ids.specs.declared.code.Code.TheVariants as code;
ghost use Rattle.uv_records.specs.Handles.{is_timer};
ghost use Rattle.uv_records.specs.Refusals.{start_watcher_refusal};
ghost use Rattle.uv_script.specs.declared.op.Op.TheVariants as op;
ghost use Rattle.uv_handle.specs.Counted.{record_at};
ghost use Rattle.uv_model.specs.Ops.{start_watcher, stop};
ghost use Rattle.uv_work.specs.Content.{handle_of};
ghost use Rattle.uv_memory.specs.Image.{held};
ghost use Rattle.uv_stands.specs.Doing.{Does, Performs, Returns};
ghost use Rattle.uv_stands.specs.Ready.{IsReady};
ghost use Rattle.uv_ops.specs.Passed.{HasPassed, answered};

use crate::edits::edit;
use uv_ids::{Answer, Code, Id, Var};
use uv_memory::Memory;
use uv_records::{HandleRecord, WatcherKind};
use uv_stands::{Ask, PackedPlace, allowed};

/// Starts a handle that isn't active: an idle, prepare or check handle goes to the front of its list, and one of I/O on none.
fn start_inactive(memory: &mut Memory<PackedPlace>, id: Id, handle: HandleRecord)
    requires ready { IsReady (held memory.old) }
    requires found { record_at handle_of (held memory.old).image.arena id ≡ Some handle }
    requires allowed { start_watcher_refusal handle ≡ None }
    requires inactive { handle.active ≡ false }
    ensures returns { Returns memory.new.step_record (held memory.old) (held memory.new) }
    ensures does { Does (λ s. start_watcher s id handle) (held memory.old).image (held memory.new).image (answer.Code code.Ok) }
    ensures pieces { memory.new.slots.room ≡ memory.old.slots.room }
{
    match WatcherKind::from_kind(handle.kind) {
        Some(kind) => memory.start_watcher(id, handle, kind),
        None => edit(memory, id, handle, handle.activated()),
    }
}

/// Starts an idle, prepare, check or I/O handle, if it isn't active (uv_idle_start and the like; uv_read_start).
pub(crate) fn start_watcher(memory: &mut Memory<PackedPlace>, name: Var) -> Result<Answer, Code>
    requires { HasPassed memory.old }
    ensures returns { Returns memory.new.step_record (held memory.old) (held memory.new) }
    ensures performs { Performs (op.StartWatcher name) (held memory.old).image (held memory.new).image (answered result) }
    ensures pieces { memory.new.slots.room ≡ memory.old.slots.room }
{
    let (id, handle) = allowed(memory, name, Ask::StartWatcher)?;
    if handle.active {
        return Ok(Answer::Code(Code::Ok));
    }
    start_inactive(memory, id, handle);
    Ok(Answer::Code(Code::Ok))
}

/// Stops a handle that is no timer (uv_idle_stop and the like; uv_read_stop).
pub(crate) fn stop_watcher(memory: &mut Memory<PackedPlace>, id: Id, handle: HandleRecord)
    requires ready { IsReady (held memory.old) }
    requires found { record_at handle_of (held memory.old).image.arena id ≡ Some handle }
    requires no_timer { is_timer handle.kind ≡ false }
    ensures returns { Returns memory.new.step_record (held memory.old) (held memory.new) }
    ensures does { Does (λ s. stop s id handle) (held memory.old).image (held memory.new).image (answer.Code code.Ok) }
    ensures pieces { memory.new.slots.room ≡ memory.old.slots.room }
{
    memory.is_fit();
    memory.stop_watcher(id, handle);
}

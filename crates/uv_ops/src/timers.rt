//! Timers are started, and handles of each kind stopped and closed.
ghost use Rattle.std.specs.Prelude.{◌≡◌, Some, true};
ghost use Rattle.uv_ids.specs.declared.code.Answer.TheVariants as answer;
ghost use Rattle.uv_ids.specs.declared.code.Code.TheVariants as code;
ghost use Rattle.uv_records.specs.Handles.{is_timer};
ghost use Rattle.uv_script.specs.declared.op.Op.TheVariants as op;
ghost use Rattle.uv_handle.specs.Counted.{record_at};
ghost use Rattle.uv_model.specs.Ops.{stop};
ghost use Rattle.uv_work.specs.Content.{handle_of};
ghost use Rattle.uv_memory.specs.Image.{held};
ghost use Rattle.uv_stands.specs.Doing.{Does, Performs, Returns};
ghost use Rattle.uv_stands.specs.Ready.{IsReady};
ghost use Rattle.uv_ops.specs.Passed.{HasPassed, answered};

use crate::watchers::stop_watcher;
use uv_ids::{Answer, Code, Id, Var};
use uv_memory::Memory;
use uv_records::HandleRecord;
use uv_stands::{Ask, PackedPlace, allowed};
use uv_timer::TimerChange;

/// Starts a timer, which is stopped and then due the timeout from now; both times in ms (uv_timer_start).
pub(crate) fn start(
    memory: &mut Memory<PackedPlace>,
    name: Var,
    timeout: u64,
    repeat: u64,
) -> Result<Answer, Code>
    requires { HasPassed memory.old }
    ensures returns { Returns memory.new.step_record (held memory.old) (held memory.new) }
    ensures performs { Performs (op.Start name timeout repeat) (held memory.old).image (held memory.new).image (answered result) }
    ensures pieces { memory.new.slots.room ≡ memory.old.slots.room }
{
    let (id, handle) = allowed(memory, name, Ask::StartTimer)?;
    memory.is_fit();
    memory.is_sound();
    let change = TimerChange::starting(memory.times(), handle, timeout, repeat);
    memory.reschedule(id, change);
    Ok(Answer::Code(Code::Ok))
}

/// Stops a timer, and starts it again if it repeats (uv_timer_again).
pub(crate) fn again(memory: &mut Memory<PackedPlace>, name: Var) -> Result<Answer, Code>
    requires { HasPassed memory.old }
    ensures returns { Returns memory.new.step_record (held memory.old) (held memory.new) }
    ensures performs { Performs (op.Again name) (held memory.old).image (held memory.new).image (answered result) }
    ensures pieces { memory.new.slots.room ≡ memory.old.slots.room }
{
    let (id, handle) = allowed(memory, name, Ask::Again)?;
    memory.is_fit();
    memory.is_sound();
    let change = TimerChange::again(memory.times(), handle);
    memory.reschedule(id, change);
    Ok(Answer::Code(Code::Ok))
}

/// Stops a timer. One that closes stays on the list of those that close.
fn stop_timer(memory: &mut Memory<PackedPlace>, id: Id, handle: HandleRecord)
    requires ready { IsReady (held memory.old) }
    requires found { record_at handle_of (held memory.old).image.arena id ≡ Some handle }
    requires timer { is_timer handle.kind ≡ true }
    ensures returns { Returns memory.new.step_record (held memory.old) (held memory.new) }
    ensures does { Does (λ s. stop s id handle) (held memory.old).image (held memory.new).image (answer.Code code.Ok) }
    ensures pieces { memory.new.slots.room ≡ memory.old.slots.room }
{
    memory.is_fit();
    memory.reschedule(id, TimerChange::stopping(handle));
}

/// Stops a handle of any kind.
fn stop_handle(memory: &mut Memory<PackedPlace>, id: Id, handle: HandleRecord)
    requires ready { IsReady (held memory.old) }
    requires found { record_at handle_of (held memory.old).image.arena id ≡ Some handle }
    ensures returns { Returns memory.new.step_record (held memory.old) (held memory.new) }
    ensures does { Does (λ s. stop s id handle) (held memory.old).image (held memory.new).image (answer.Code code.Ok) }
    ensures pieces { memory.new.slots.room ≡ memory.old.slots.room }
{
    if handle.is_timer() {
        stop_timer(memory, id, handle)
    } else {
        stop_watcher(memory, id, handle)
    }
}

/// Stops a handle (uv_timer_stop and the like).
pub(crate) fn stop(memory: &mut Memory<PackedPlace>, name: Var) -> Result<Answer, Code>
    requires { HasPassed memory.old }
    ensures returns { Returns memory.new.step_record (held memory.old) (held memory.new) }
    ensures performs { Performs (op.Stop name) (held memory.old).image (held memory.new).image (answered result) }
    ensures pieces { memory.new.slots.room ≡ memory.old.slots.room }
{
    let (id, handle) = allowed(memory, name, Ask::Stop)?;
    stop_handle(memory, id, handle);
    Ok(Answer::Code(Code::Ok))
}

/// Closes a handle (uv_close): it is stopped, and goes to the front of the closing list.
pub(crate) fn close(memory: &mut Memory<PackedPlace>, name: Var) -> Result<Answer, Code>
    requires { HasPassed memory.old }
    ensures returns { Returns memory.new.step_record (held memory.old) (held memory.new) }
    ensures performs { Performs (op.Close name) (held memory.old).image (held memory.new).image (answered result) }
    ensures pieces { memory.new.slots.room ≡ memory.old.slots.room }
{
    let (id, handle) = allowed(memory, name, Ask::Close)?;
    memory.is_fit();
    memory.close(id, handle);
    Ok(Answer::Code(Code::Ok))
}

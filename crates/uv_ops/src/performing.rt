//! Any op of a script.
ghost use Rattle.std.specs.Prelude.{◌≤◌, ◌≡◌, IfOk, IfErr};
ghost use Rattle.uv_memory.specs.Image.{held};
ghost use Rattle.uv_stands.specs.Doing.{Performs, Returns};
ghost use Rattle.uv_stands.specs.Ready.{IsReady};
ghost use Rattle.uv_ops.specs.Passed.{answered};
ghost use Rattle.uv_ops.specs.Wanting.{WantsPiece};

use crate::cancelling::cancel;
use crate::edits::{set_ref, set_repeat};
use crate::making::{init, queue};
use crate::queries::{close_loop, due_in, has_ref, is_active, is_alive, is_closing, now, timeout};
use crate::sending::send;
use crate::timers::{again, close, start, stop};
use crate::values::{stop_loop, update_time};
use crate::watchers::start_watcher;
use std::alloc::AllocError;
use uv_ids::{Answer, Code};
use uv_memory::Memory;
use uv_script::Op;
use uv_stands::PackedPlace;

/// What an op answers that may be refused.
fn answered(done: Result<Answer, Code>) -> Answer
    ensures { result ≡ answered done }
{
    match done {
        Ok(answer) => answer,
        Err(code) => Answer::Code(code),
    }
}

/// Does an op: its answer. One that changes nothing leaves the record of a step that does so. Only what takes a slot wants memory.
pub fn perform(memory: &mut Memory<PackedPlace>, op: Op) -> Result<Answer, AllocError>
    requires { IsReady (held memory.old) }
    ensures returns { IfOk result (λ _. Returns memory.new.step_record (held memory.old) (held memory.new)) }
    ensures performs { IfOk result (λ answer. Performs op (held memory.old).image (held memory.new).image answer) }
    ensures memory { IfErr result (λ _. WantsPiece memory.old memory.new) }
    ensures pieces { memory.old.slots.room ≤ memory.new.slots.room }
{
    memory.pass();
    match op {
        Op::Init(name, kind) => init(memory, name, kind),
        Op::Queue(name, task) => queue(memory, name, task),
        Op::Cancel(name) => Ok(cancel(memory, name)),
        Op::Start(name, due, repeat) => Ok(answered(start(memory, name, due, repeat))),
        Op::StartWatcher(name) => Ok(answered(start_watcher(memory, name))),
        Op::Stop(name) => Ok(answered(stop(memory, name))),
        Op::Again(name) => Ok(answered(again(memory, name))),
        Op::SetRepeat(name, repeat) => Ok(answered(set_repeat(memory, name, repeat))),
        Op::DueIn(name) => Ok(answered(due_in(memory, name))),
        Op::Close(name) => Ok(answered(close(memory, name))),
        Op::Ref(name) => Ok(answered(set_ref(memory, name, true))),
        Op::Unref(name) => Ok(answered(set_ref(memory, name, false))),
        Op::HasRef(name) => Ok(answered(has_ref(memory, name))),
        Op::IsActive(name) => Ok(answered(is_active(memory, name))),
        Op::IsClosing(name) => Ok(answered(is_closing(memory, name))),
        Op::Send(name) => Ok(Answer::Code(send(memory, name))),
        Op::StopLoop => Ok(stop_loop(memory)),
        Op::UpdateTime => Ok(update_time(memory)),
        Op::Now => Ok(now(memory)),
        Op::IsAlive => Ok(is_alive(memory)),
        Op::Timeout => Ok(timeout(memory)),
        Op::CloseLoop => Ok(close_loop(memory)),
    }
}

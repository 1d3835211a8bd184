//! Handles are made and requests queued, and names bound to them.
ghost use Rattle.std.specs.Prelude.{◌≤◌, IfOk, IfErr};
ghost use Rattle.uv_script.specs.declared.op.Op.TheVariants as op;
ghost use Rattle.uv_memory.specs.Image.{held};
ghost use Rattle.uv_stands.specs.Doing.{Performs, Returns};
ghost use Rattle.uv_ops.specs.Passed.{HasPassed};
ghost use Rattle.uv_ops.specs.Wanting.{WantsPiece};

use std::alloc::AllocError;
use uv_arena::InsertFault;
use uv_ids::{Answer, Code, Kind, Var};
use uv_memory::Memory;
use uv_stands::{PackedPlace, bind_name, is_live};
use uv_work::{Request, Task};

/// Makes a handle, to which the name is bound (uv_timer_init and the like). Where there is no memory for its slot it makes none, and the
/// answer isn't that there is no slot.
pub(crate) fn init(
    memory: &mut Memory<PackedPlace>,
    name: Var,
    kind: Kind,
) -> Result<Answer, AllocError>
    requires { HasPassed memory.old }
    ensures returns { IfOk result (λ _. Returns memory.new.step_record (held memory.old) (held memory.new)) }
    ensures performs { IfOk result (λ answer. Performs (op.Init name kind) (held memory.old).image (held memory.new).image answer) }
    ensures memory { IfErr result (λ _. WantsPiece memory.old memory.new) }
    ensures pieces { memory.old.slots.room ≤ memory.new.slots.room }
{
    if is_live(memory, name) {
        return Ok(Answer::Code(Code::Ebound));
    }
    match memory.init(name, kind) {
        Err(InsertFault::Memory) => Err(AllocError),
        Err(InsertFault::Full) => Ok(Answer::Code(Code::Efull)),
        Ok(id) => {
            bind_name(memory, name, id);
            Ok(Answer::Id(id))
        }
    }
}

/// Asks a worker to do a task, for which the name is bound to a request (uv_queue_work). It wants memory as `init` does.
pub(crate) fn queue(
    memory: &mut Memory<PackedPlace>,
    name: Var,
    task: Task,
) -> Result<Answer, AllocError>
    requires { HasPassed memory.old }
    ensures returns { IfOk result (λ _. Returns memory.new.step_record (held memory.old) (held memory.new)) }
    ensures performs { IfOk result (λ answer. Performs (op.Queue name task) (held memory.old).image (held memory.new).image answer) }
    ensures memory { IfErr result (λ _. WantsPiece memory.old memory.new) }
    ensures pieces { memory.old.slots.room ≤ memory.new.slots.room }
{
    if is_live(memory, name) {
        return Ok(Answer::Code(Code::Ebound));
    }
    match memory.queue(Request::new(name, task)) {
        Err(InsertFault::Memory) => Err(AllocError),
        Err(InsertFault::Full) => Ok(Answer::Code(Code::Efull)),
        Ok(id) => {
            bind_name(memory, name, id);
            Ok(Answer::Id(id))
        }
    }
}

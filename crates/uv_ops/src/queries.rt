//! Ops that ask something, and change nothing.
ghost use Rattle.uv_script.specs.declared.op.Op.TheVariants as op;
ghost use Rattle.uv_memory.specs.Image.{held};
ghost use Rattle.uv_stands.specs.Doing.{Performs};
ghost use Rattle.uv_ops.specs.Passed.{answered};

use uv_ids::{Answer, Code, Var};
use uv_memory::Memory;
use uv_stands::{Ask, PackedPlace, allowed, backend_timeout, is_in_use};

/// Whether a handle is referenced (uv_has_ref).
pub(crate) fn has_ref(memory: &Memory<PackedPlace>, name: Var) -> Result<Answer, Code>
    ensures { Performs (op.HasRef name) (held memory.now).image (held memory.now).image (answered result) }
{
    let (_, handle) = allowed(memory, name, Ask::Handle)?;
    Ok(Answer::Flag(handle.referenced))
}

/// Whether a handle is active (uv_is_active).
pub(crate) fn is_active(memory: &Memory<PackedPlace>, name: Var) -> Result<Answer, Code>
    ensures { Performs (op.IsActive name) (held memory.now).image (held memory.now).image (answered result) }
{
    let (_, handle) = allowed(memory, name, Ask::Handle)?;
    Ok(Answer::Flag(handle.active))
}

/// Whether a handle closes (uv_is_closing).
pub(crate) fn is_closing(memory: &Memory<PackedPlace>, name: Var) -> Result<Answer, Code>
    ensures { Performs (op.IsClosing name) (held memory.now).image (held memory.now).image (answered result) }
{
    let (_, handle) = allowed(memory, name, Ask::Handle)?;
    Ok(Answer::Flag(handle.closing))
}

/// In how many ms a timer is due (uv_timer_get_due_in).
pub(crate) fn due_in(memory: &Memory<PackedPlace>, name: Var) -> Result<Answer, Code>
    ensures { Performs (op.DueIn name) (held memory.now).image (held memory.now).image (answered result) }
{
    let (_, handle) = allowed(memory, name, Ask::Timer)?;
    Ok(Answer::Number(handle.due_in(memory.times().time)))
}

/// The loop's time in ms (uv_now).
pub(crate) fn now(memory: &Memory<PackedPlace>) -> Answer
    ensures { Performs op.Now (held memory.now).image (held memory.now).image result }
{
    Answer::Number(memory.times().time)
}

/// Whether the loop is alive (uv_loop_alive).
pub(crate) fn is_alive(memory: &Memory<PackedPlace>) -> Answer
    ensures { Performs op.IsAlive (held memory.now).image (held memory.now).image result }
{
    Answer::Flag(uv_stands::is_alive(memory))
}

/// How long a poll might wait, in ms; none is infinite (uv_backend_timeout).
pub(crate) fn timeout(memory: &Memory<PackedPlace>) -> Answer
    ensures { Performs op.Timeout (held memory.now).image (held memory.now).image result }
{
    Answer::Timeout(backend_timeout(memory))
}

/// Whether the loop could be closed: EBUSY while a slot holds a handle or a request (uv_loop_close).
pub(crate) fn close_loop(memory: &Memory<PackedPlace>) -> Answer
    ensures { Performs op.CloseLoop (held memory.now).image (held memory.now).image result }
{
    let code = if is_in_use(memory) {
        Code::Ebusy
    } else {
        Code::Ok
    };
    Answer::Code(code)
}

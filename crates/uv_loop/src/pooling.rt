//! The workers of the thread pool take requests and finish them, and requests are cancelled from outside.
ghost use Rattle.std.specs.Prelude.{◌≡◌, ◌<◌, Some, length};
ghost use Rattle.uv_ids.specs.declared.event.Event.TheVariants.{Take, Finish, Cancel};
ghost use Rattle.uv_ids.specs.declared.seen.Seen.TheVariants.{Cancel as cancelled};
ghost use Rattle.uv_script.specs.Program.{Program};
ghost use Rattle.uv_work.specs.Requests.{job_of};
ghost use Rattle.uv_memory.specs.Image.{held};
ghost use Rattle.uv_memory.specs.Undo.{Recorded};
ghost use Rattle.uv_stands.specs.Doing.{Returns};
ghost use Rattle.uv_loop.specs.Course.{Leads};
ghost use Rattle.uv_loop.specs.Pooling.{MayTake, MayFinish};

use uv_ids::{Answer, Id, Seen, Var};
use uv_memory::Memory;
use uv_ops::cancel;
use uv_stands::PackedPlace;
use uv_work::{Request, WorkResult};

/// A worker takes a request: what that appends.
pub(crate) fn take_work(
    memory: &mut Memory<PackedPlace>,
    worker: u16,
    id: Id,
    request: Request,
) -> Seen
    requires may { MayTake (held memory.old).image worker id request }
    ensures recorded { Recorded memory.new.step_record (held memory.old) (held memory.new) }
    ensures leads { (p : Program) → Leads p (held memory.old).image (held memory.new).image (Take worker) (Some result) }
    ensures pieces { memory.new.slots.room ≡ memory.old.slots.room }
{
    memory.take(worker, id);
    Seen::Take(worker, request.name, id)
}

/// A worker finishes the request that it runs, of whose job this is the result: what that appends.
pub(crate) fn finish_work(
    memory: &mut Memory<PackedPlace>,
    worker: u16,
    id: Id,
    request: Request,
    work: WorkResult,
) -> Seen
    requires may { MayFinish (held memory.old).image worker id request }
    requires job { job_of id request ≡ work.job }
    ensures recorded { Recorded memory.new.step_record (held memory.old) (held memory.new) }
    ensures leads { (p : Program) → Leads p (held memory.old).image (held memory.new).image (Finish worker) (Some result) }
    ensures pieces { memory.new.slots.room ≡ memory.old.slots.room }
{
    memory.finish(worker, id, request, work);
    Seen::Finish(worker, request.name, id)
}

/// Cancels the request of a name: what that answers.
pub(crate) fn cancel_named(memory: &mut Memory<PackedPlace>, name: Var) -> Answer
    requires name { name.0 < length (held memory.old).image.names }
    ensures returns { Returns memory.new.step_record (held memory.old) (held memory.new) }
    ensures leads { (p : Program)
        → Leads p (held memory.old).image (held memory.new).image (Cancel name) (Some (cancelled name result)) }
    ensures pieces { memory.new.slots.room ≡ memory.old.slots.room }
{
    cancel(memory, name)
}

//! What an event from outside does that nothing refuses.
ghost use Rattle.uv_model.specs.Limits.{LATEST};
ghost use Rattle.std.specs.Prelude.{◌≡◌, ◌+◌, ◌≤◌, Some};
ghost use Rattle.uv_ids.specs.declared.event.Event.TheVariants.{Tick};
ghost use Rattle.uv_script.specs.Program.{Program};
ghost use Rattle.uv_memory.specs.Image.{held};
ghost use Rattle.uv_stands.specs.Doing.{Returns};
ghost use Rattle.uv_stands.specs.Ready.{IsReady};
ghost use Rattle.uv_loop.specs.Course.{Leads};
ghost use Rattle.uv_loop.specs.Acting.{MayAct, planned_event};

use crate::io::call_named;
use crate::plan::Plan;
use crate::pooling::{cancel_named, finish_work, take_work};
use crate::sending::send_to;
use uv_ids::Seen;
use uv_memory::Memory;
use uv_script::Script;
use uv_stands::PackedPlace;
use uv_work::WorkResult;

/// Does what an event from outside asks for, which nothing refuses: what that appends. It wants no memory.
pub(crate) fn act(memory: &mut Memory<PackedPlace>, script: &Script, plan: Plan) -> Seen
    requires ready { IsReady (held memory.old) }
    requires may { MayAct script.now (held memory.old).image plan }
    ensures returns { Returns memory.new.step_record (held memory.old) (held memory.new) }
    ensures leads { Leads script.now (held memory.old).image (held memory.new).image (planned_event plan) (Some result) }
    ensures pieces { memory.new.slots.room ≡ memory.old.slots.room }
{
    match plan {
        Plan::Take(worker, id, request) => take_work(memory, worker, id, request),
        Plan::Finish(worker, id, request) => {
            // the job is done here
            let work = WorkResult::compute(request.job(id));
            finish_work(memory, worker, id, request, work)
        }
        Plan::Cancel(name) => {
            let answer = cancel_named(memory, name);
            Seen::Cancel(name, answer)
        }
        Plan::Send(name) => {
            let code = send_to(memory, name);
            Seen::Send(name, code)
        }
        Plan::Io(run, name, id) => call_named(memory, script, run, name, id),
        Plan::Tick(ms) => go_on(memory, ms),
    }
}

/// The clock goes on by so many ms.
fn go_on(memory: &mut Memory<PackedPlace>, ms: u64) -> Seen
    requires may { (held memory.old).image.clock + ms ≤ LATEST }
    ensures returns { Returns memory.new.step_record (held memory.old) (held memory.new) }
    ensures leads { (p : Program) → Leads p (held memory.old).image (held memory.new).image (Tick ms) (Some result) }
    ensures pieces { memory.new.slots.room ≡ memory.old.slots.room }
{
    memory.tick(ms);
    Seen::Tick(ms)
}

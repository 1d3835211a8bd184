//! Callbacks begin.
ghost use Rattle.std.specs.Prelude.{◌≡◌, ◌<◌, ◌^◌, Some};
ghost use Rattle.uv_ids.specs.declared.seen.Seen.{Seen};
ghost use Rattle.uv_ids.specs.declared.seen.Seen.TheVariants.{Io as io};
ghost use Rattle.uv_model.specs.State.{State};
ghost use Rattle.uv_model.specs.Next.{Moves, calls, stage_polled, time_polled};
ghost use Rattle.uv_ids.specs.declared.seen.Callback.TheVariants as callback;
ghost use Rattle.uv_memory.specs.declared.record.Naming.TheVariants.{Same as same};
ghost use Rattle.uv_memory.specs.Image.{held};
ghost use Rattle.uv_records.specs.Names.{named, count_of};
ghost use Rattle.uv_memory.specs.Undo.{CanUnwind, Extended};
ghost use Rattle.uv_stands.specs.Doing.{Returns, Goes};
ghost use Rattle.uv_stands.specs.Ready.{IsReady};
ghost use Rattle.uv_stands.specs.Stands.{StandsFor};

use crate::polling::polled;
use uv_ids::{Callback, Id, Seen, Var};
use uv_memory::Memory;
use uv_model::{Place, Run, body_from};
use uv_script::Script;
use uv_stands::{PackedPlace, call_name};

/// The last step begins a callback of a name as well: one call more, and the body of that call is under way.
#[inline(always)]
pub(crate) fn begin_body(
    memory: &mut Memory<PackedPlace>,
    script: &Script,
    run: Run,
    callback: Callback,
    name: Var,
)
    requires can { CanUnwind (held memory.old).room memory.old.step_record (held memory.old).image }
    requires unnamed { memory.old.step_record.naming ≡ same }
    requires few { count_of callback (named (held memory.old).image.names name.0).calls < 2 ^ 31 }
    ensures extended { Extended memory.old.step_record memory.new.step_record (held memory.old) (held memory.new) }
    ensures calls { (s : State) → StandsFor (held memory.old).image s → (line : Seen)
        → (t : State) × (calls script.now s run callback name line ≡ Moves t (Some line)) × StandsFor (held memory.new).image t }
    ensures pieces { memory.new.slots.room ≡ memory.old.slots.room }
{
    let count = call_name(memory, name, callback);
    let body = body_from(script, callback, name, count, 0);
    let place = PackedPlace::running(Run { body, ..run });
    memory.stand_at(place);
}

/// What a handle of I/O waits for has come, and its callback begins. Where the run is in the poll, that leaves it.
pub fn call_io(
    memory: &mut Memory<PackedPlace>,
    script: &Script,
    run: Run,
    name: Var,
    id: Id,
) -> Seen
    requires ready { IsReady (held memory.old) }
    ensures returns { Returns memory.new.step_record (held memory.old) (held memory.new) }
    ensures goes { Goes (λ s. calls script.now (record s { time = time_polled s run.stage })
        (record run { stage = stage_polled s run.stage }) callback.Handle name result)
        (held memory.old).image (held memory.new).image (Some result) }
    ensures line { result ≡ io name id }
    ensures pieces { memory.new.slots.room ≡ memory.old.slots.room }
{
    let run = polled(memory, run);
    begin_body(memory, script, run, Callback::Handle, name);
    Seen::Io(name, id)
}

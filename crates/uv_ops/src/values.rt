//! Ops on the loop itself.
ghost use Rattle.std.specs.Prelude.{◌≡◌};
ghost use Rattle.uv_script.specs.declared.op.Op.TheVariants as op;
ghost use Rattle.uv_memory.specs.Image.{held};
ghost use Rattle.uv_stands.specs.Doing.{Performs, Returns};
ghost use Rattle.uv_stands.specs.Ready.{IsReady};

use uv_ids::{Answer, Code};
use uv_memory::Memory;
use uv_stands::PackedPlace;

/// Has the run end before its next iteration (uv_stop).
pub(crate) fn stop_loop(memory: &mut Memory<PackedPlace>) -> Answer
    requires { IsReady (held memory.old) }
    ensures returns { Returns memory.new.step_record (held memory.old) (held memory.new) }
    ensures performs { Performs op.StopLoop (held memory.old).image (held memory.new).image result }
    ensures pieces { memory.new.slots.room ≡ memory.old.slots.room }
{
    memory.set_stop(true);
    Answer::Code(Code::Ok)
}

/// Sets the loop's time to the clock (uv_update_time).
pub(crate) fn update_time(memory: &mut Memory<PackedPlace>) -> Answer
    requires { IsReady (held memory.old) }
    ensures returns { Returns memory.new.step_record (held memory.old) (held memory.new) }
    ensures performs { Performs op.UpdateTime (held memory.old).image (held memory.new).image result }
    ensures pieces { memory.new.slots.room ≡ memory.old.slots.room }
{
    memory.update_time();
    Answer::Code(Code::Ok)
}

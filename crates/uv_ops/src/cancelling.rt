//! Requests are cancelled.
ghost use Rattle.std.specs.Prelude.{◌≡◌};
ghost use Rattle.uv_script.specs.declared.op.Op.TheVariants as op;
ghost use Rattle.uv_memory.specs.Image.{held};
ghost use Rattle.uv_stands.specs.Doing.{Performs, Returns};
ghost use Rattle.uv_ops.specs.Outside.{Cancels};

use uv_ids::{Answer, Code, Var};
use uv_memory::Memory;
use uv_stands::{PackedPlace, bound_id};

/// Cancels a request (uv_cancel), for an op or from outside.
pub fn cancel(memory: &mut Memory<PackedPlace>, name: Var) -> Answer
    ensures returns { Returns memory.new.step_record (held memory.old) (held memory.new) }
    ensures cancels { Cancels name (held memory.old).image (held memory.new).image result }
    ensures performs { Performs (op.Cancel name) (held memory.old).image (held memory.new).image result }
    ensures pieces { memory.new.slots.room ≡ memory.old.slots.room }
{
    match bound_id(memory, name) {
        None => {
            memory.pass();
            Answer::Code(Code::Estale)
        }
        Some(id) => match memory.cancel(id) {
            Err(code) => {
                memory.pass();
                Answer::Code(code)
            }
            Ok(()) => Answer::Cancelled(id),
        },
    }
}

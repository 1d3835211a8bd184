//! Sends to async handles.
ghost use Rattle.std.specs.Prelude.{◌≡◌};
ghost use Rattle.uv_ids.specs.declared.code.Answer.TheVariants as answer;
ghost use Rattle.uv_script.specs.declared.op.Op.TheVariants as op;
ghost use Rattle.uv_memory.specs.Image.{held};
ghost use Rattle.uv_stands.specs.Doing.{Performs, Returns};
ghost use Rattle.uv_ops.specs.Outside.{Sends};

use crate::edits::edit;
use uv_ids::{Code, Var};
use uv_memory::Memory;
use uv_stands::{Ask, PackedPlace, allowed};

/// Has an async handle called (uv_async_send), for an op or from outside.
pub fn send(memory: &mut Memory<PackedPlace>, name: Var) -> Code
    ensures returns { Returns memory.new.step_record (held memory.old) (held memory.new) }
    ensures sends { Sends name (held memory.old).image (held memory.new).image result }
    ensures performs { Performs (op.Send name) (held memory.old).image (held memory.new).image (answer.Code result) }
    ensures pieces { memory.new.slots.room ≡ memory.old.slots.room }
{
    match allowed(memory, name, Ask::Send) {
        Err(code) => {
            memory.pass();
            code
        }
        Ok((id, handle)) => {
            edit(memory, id, handle, handle.sent());
            Code::Ok
        }
    }
}

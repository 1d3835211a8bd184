//! Ops that give a handle another record and touch no list.
ghost use Rattle.std.specs.Prelude.{◌≡◌, Some};
ghost use Rattle.uv_script.specs.declared.op.Op.TheVariants as op;
ghost use Rattle.uv_records.specs.Refusals.{no_refusal};
ghost use Rattle.uv_handle.specs.Counted.{record_at};
ghost use Rattle.uv_model.specs.State.{State, live_handle, with_handle};
ghost use Rattle.uv_model.specs.Ops.{on_handle, set_referenced};
ghost use Rattle.uv_work.specs.Content.{handle_of};
ghost use Rattle.uv_memory.specs.Image.{held};
ghost use Rattle.uv_stands.specs.Doing.{Does, Performs, Returns};
ghost use Rattle.uv_stands.specs.Stands.{StandsFor};
ghost use Rattle.uv_ops.specs.Passed.{HasPassed, answered};

use uv_ids::{Answer, Code, Id, Var};
use uv_memory::Memory;
use uv_records::HandleRecord;
use uv_stands::{Ask, PackedPlace, allowed};

/// Gives a handle another record.
pub(crate) fn edit(memory: &mut Memory<PackedPlace>, id: Id, from: HandleRecord, to: HandleRecord)
    requires found { record_at handle_of (held memory.old).image.arena id ≡ Some from }
    ensures returns { Returns memory.new.step_record (held memory.old) (held memory.new) }
    ensures stands { (s : State) → StandsFor (held memory.old).image s → StandsFor (held memory.new).image (with_handle s id to) }
    ensures pieces { memory.new.slots.room ≡ memory.old.slots.room }
{
    memory.edit(id, from, to);
}

/// References a handle, or not (uv_ref, uv_unref).
pub(crate) fn set_ref(
    memory: &mut Memory<PackedPlace>,
    name: Var,
    referenced: bool,
) -> Result<Answer, Code>
    requires { HasPassed memory.old }
    ensures returns { Returns memory.new.step_record (held memory.old) (held memory.new) }
    ensures does { Does (λ s. on_handle s (live_handle s name) no_refusal (set_referenced s referenced))
        (held memory.old).image (held memory.new).image (answered result) }
    ensures pieces { memory.new.slots.room ≡ memory.old.slots.room }
{
    let (id, handle) = allowed(memory, name, Ask::Handle)?;
    edit(memory, id, handle, handle.referenced_as(referenced));
    Ok(Answer::Code(Code::Ok))
}

/// Gives a timer another repeat in ms (uv_timer_set_repeat).
pub(crate) fn set_repeat(
    memory: &mut Memory<PackedPlace>,
    name: Var,
    repeat: u64,
) -> Result<Answer, Code>
    requires { HasPassed memory.old }
    ensures returns { Returns memory.new.step_record (held memory.old) (held memory.new) }
    ensures performs { Performs (op.SetRepeat name repeat) (held memory.old).image (held memory.new).image (answered result) }
    ensures pieces { memory.new.slots.room ≡ memory.old.slots.room }
{
    let (id, handle) = allowed(memory, name, Ask::Timer)?;
    edit(memory, id, handle, handle.repeating(repeat));
    Ok(Answer::Code(Code::Ok))
}

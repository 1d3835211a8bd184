//! The names of a loop: what is live under them, and how they are bound and called.
ghost use Rattle.std.specs.Prelude.{◌≡◌, ◌+◌, ◌<◌, ◌^◌, ◌-◌, Some, IfOk, is_some};
ghost use Rattle.uv_model.specs.State.{State, live, live_handle};
ghost use Rattle.uv_memory.specs.declared.record.Naming.TheVariants.{Same as same};
ghost use Rattle.uv_handle.specs.Counted.{record_at};
ghost use Rattle.uv_work.specs.Content.{handle_of};
ghost use Rattle.uv_memory.specs.Image.{held};
ghost use Rattle.uv_records.specs.Names.{named, binding, calling, count_of};
ghost use Rattle.uv_memory.specs.Undo.{CanUnwind, Extended};
ghost use Rattle.uv_stands.specs.Asking.{Asked};
ghost use Rattle.uv_stands.specs.Stands.{StandsFor};

use crate::ask::Ask;
use crate::packed_place::PackedPlace;
use uv_handle::handle_at;
use uv_ids::{Callback, Code, Id, Var};
use uv_memory::Memory;
use uv_records::HandleRecord;

/// What a name is bound to.
pub fn bound_id(memory: &Memory<PackedPlace>, name: Var) -> Option<Id>
    ensures { result ≡ (named (held memory.now).image.names name.0).id }
{
    memory.named(name).id
}

/// The handle of a name, for an op on handles: ESTALE if the name isn't live, EKIND if it is a request's.
pub fn live_handle(memory: &Memory<PackedPlace>, name: Var) -> Result<(Id, HandleRecord), Code>
    ensures found { IfOk result (λ t. record_at handle_of (held memory.now).image.arena t.0 ≡ Some t.1) }
    ensures is { (s : State) → StandsFor (held memory.now).image s → live_handle s name ≡ result }
{
    match bound_id(memory, name) {
        None => Err(Code::Estale),
        Some(id) => match handle_at(memory.slots(), id) {
            Err(code) => Err(code),
            Ok(handle) => Ok((id, handle)),
        },
    }
}

/// The handle of a name, for an op that asks this of it, or why the op is refused.
pub fn allowed(
    memory: &Memory<PackedPlace>,
    name: Var,
    ask: Ask,
) -> Result<(Id, HandleRecord), Code>
    ensures { Asked (held memory.now).image name ask result }
{
    match live_handle(memory, name) {
        Err(code) => Err(code),
        Ok((id, handle)) => match ask.refusal(handle) {
            Some(code) => Err(code),
            None => Ok((id, handle)),
        },
    }
}

/// Whether a name is live: still bound to the handle or the request that it was bound to.
pub fn is_live(memory: &Memory<PackedPlace>, name: Var) -> bool
    ensures { (s : State) → StandsFor (held memory.now).image s → is_some (live s name) ≡ result }
{
    match bound_id(memory, name) {
        None => false,
        Some(id) => memory.slots().get(id).is_some(),
    }
}

/// The last step binds a name to this as well. A name that the loop doesn't have is bound to nothing.
pub fn bind_name(memory: &mut Memory<PackedPlace>, name: Var, id: Id)
    requires can { CanUnwind (held memory.old).room memory.old.step_record (held memory.old).image }
    requires unnamed { memory.old.step_record.naming ≡ same }
    ensures image { (held memory.new).image
        ≡ record (held memory.old).image { names = binding name.0 (Some id) (held memory.old).image.names } }
    ensures extended { Extended memory.old.step_record memory.new.step_record (held memory.old) (held memory.new) }
    ensures pieces { memory.new.slots.room ≡ memory.old.slots.room }
{
    memory.is_fit();
    if (name.0 as usize) < memory.names().len() {
        memory.bind(name, Some(id));
    }
}

/// The last step calls a callback of a name as well: how often it was called by then. It isn't counted for a name that the
/// loop doesn't have.
pub fn call_name(memory: &mut Memory<PackedPlace>, name: Var, callback: Callback) -> u32
    requires can { CanUnwind (held memory.old).room memory.old.step_record (held memory.old).image }
    requires unnamed { memory.old.step_record.naming ≡ same }
    requires few { count_of callback (named (held memory.old).image.names name.0).calls < 2 ^ 32 - 1 }
    ensures count { result ≡ count_of callback (named (held memory.old).image.names name.0).calls + 1 }
    ensures image { (held memory.new).image
        ≡ record (held memory.old).image { names = calling name.0 callback result (held memory.old).image.names } }
    ensures extended { Extended memory.old.step_record memory.new.step_record (held memory.old) (held memory.new) }
    ensures pieces { memory.new.slots.room ≡ memory.old.slots.room }
{
    memory.is_fit();
    if name.0 as usize >= memory.names().len() {
        return 1;
    }
    let count = memory.named(name).calls.of(callback) + 1;
    memory.count_call(name, callback);
    count
}

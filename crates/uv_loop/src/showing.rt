//! What the memory shows of the state that it stands for: what names are bound to, and what slots hold.
ghost use Rattle.std.specs.Prelude.{◌≡◌, option_and_then, slice_get};
ghost use Rattle.uv_records.specs.Slots.{held};
ghost use Rattle.uv_model.specs.State.{State, named};
ghost use Rattle.uv_model.specs.Queries.{worker_of};
ghost use Rattle.uv_memory.specs.Image.{held as held_by};
ghost use Rattle.uv_stands.specs.Stands.{StandsFor};

use uv_ids::{Id, Var};
use uv_memory::Memory;
use uv_model::runner_of;
use uv_records::{Named, Slot};
use uv_stands::PackedPlace;
use uv_work::Content;

/// What a name is bound to, and how often its callbacks were called.
pub(crate) fn shown_name(memory: &Memory<PackedPlace>, name: Var) -> Named
    ensures { (s : State) → StandsFor (held_by memory.now).image s → named s name ≡ result }
{
    memory.named(name)
}

/// A slot that was used: its generation, and what it holds.
pub(crate) fn shown_slot(memory: &Memory<PackedPlace>, number: u32) -> Option<Slot<Content>>
    ensures { (s : State) → StandsFor (held_by memory.now).image s → slice_get s.arena.slots number ≡ result }
{
    let slots = memory.slots();
    if number >= slots.used() {
        return None;
    }
    Some(slots.slot_at(number))
}

/// What is held under an id.
pub(crate) fn shown(memory: &Memory<PackedPlace>, id: Id) -> Option<Content>
    ensures { (s : State) → StandsFor (held_by memory.now).image s → held s.arena.slots id ≡ result }
{
    memory.slots().get(id)
}

/// What a worker runs, by what each of them runs.
pub(crate) fn run_at(running: &[Option<Id>], worker: usize) -> Option<Id>
    ensures { result ≡ option_and_then (λ run. run) (slice_get running.now worker) }
{
    *running.get(worker)?
}

/// The first of the workers that runs a request. What is on a list none of them runs, so that none is looked at for those that wait or are
/// done.
pub(crate) fn shown_worker(memory: &Memory<PackedPlace>, id: Id) -> Option<usize>
    ensures { (s : State) → StandsFor (held_by memory.now).image s → worker_of s id ≡ result }
{
    memory.is_fit();
    if memory.slots().on_list(id) {
        return None;
    }
    runner_of(memory.requests().workers(), id)
}

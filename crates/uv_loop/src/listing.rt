//! The members of a list, read off the memory.
ghost use Rattle.std.specs.Prelude.{◌≡◌, IfOk, map};
ghost use Rattle.uv_arena.specs.Image.{members, plain_slots};
ghost use Rattle.uv_requests.specs.Working.{id_in};

use std::alloc::{AllocError, Global};
use uv_arena::Slots;
use uv_ids::Id;
use uv_records::ListName;
use uv_work::Content;

/// The ids of a list's members, front first.
pub(crate) fn listed_ids(
    slots: &Slots<Content>,
    list: ListName,
    alloc: Global,
) -> Result<Vec<Id>, AllocError>
    ensures { IfOk result (λ ids. ids.items ≡ map (id_in slots.now.image) (members slots.now.image list)) }
{
    let mut ids = Vec::new(alloc);
    let mut next = slots.first(list);
    while let Some(id) = next {
        ids.push(id)?;
        next = slots.next(id);
    }
    Ok(ids)
}

/// The numbers of the free slots, front first.
pub(crate) fn free_slots(slots: &Slots<Content>, alloc: Global) -> Result<Vec<u32>, AllocError>
    ensures { IfOk result (λ free. free.items ≡ (plain_slots slots.now.image).free) }
{
    slots.is_sound();
    let mut free = Vec::new(alloc);
    let mut next = slots.first_free();
    while let Some(slot) = next {
        free.push(slot)?;
        next = slots.links(slot).next;
    }
    Ok(free)
}

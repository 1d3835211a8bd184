//! How the memory lies.
ghost use Rattle.std.specs.Prelude.{◌≡◌, ◌<◌, IfOk, map, length};
ghost use Rattle.uv_records.specs.Lists.{all_lists};
ghost use Rattle.uv_records.specs.Linked.{ends_of};
ghost use Rattle.uv_arena.specs.Calls.{slot_of};
ghost use Rattle.uv_arena.specs.declared.links.TheConstants.{FREE};
ghost use Rattle.uv_arena.specs.Image.{chain};
ghost use Rattle.uv_memory.specs.Image.{held};
ghost use Rattle.uv_loop.specs.Laid.{ShowsSlot, ShowsSlots, ShowsAll, shown_ends};

use std::alloc::{AllocError, Global};
use uv_arena::Slots;
use uv_ids::Id;
use uv_memory::Memory;
use uv_model::{LaidSlot, Layout, ListEnds, Numbers};
use uv_records::{Ends, ListName};
use uv_stands::PackedPlace;
use uv_work::Content;

/// A slot that was used, with its links and its place on the heap.
fn laid_slot(memory: &Memory<PackedPlace>, number: u32) -> LaidSlot
    requires { number < length (held memory.now).image.arena.memory.row.items }
    ensures { ShowsSlot (held memory.now).image number result }
{
    let links = memory.slots().links(number);
    LaidSlot {
        slot: memory.slots().slot_at(number),
        prev: links.prev,
        next: links.next,
        place: memory.heap().place_of(number),
    }
}

/// All slots that were used.
fn laid_slots(memory: &Memory<PackedPlace>, alloc: Global) -> Result<Vec<LaidSlot>, AllocError>
    ensures { IfOk result (λ slots. ShowsSlots (held memory.now).image slots.items) }
{
    let mut slots = Vec::new(alloc);
    'slots: for number in 0..memory.slots().used() {
        slots.push(laid_slot(memory, number))?;
    }
    Ok(slots)
}

/// The slot of an id.
fn slot_in(id: Option<Id>) -> Option<u32>
    ensures { result ≡ slot_of id }
{
    match id {
        None => None,
        Some(id) => Some(id.slot),
    }
}

/// A list with its first and last slot.
fn laid_list(slots: &Slots<Content>, list: ListName) -> ListEnds
    ensures { result ≡ shown_ends slots.now.image list }
{
    let ends = Ends {
        head: slot_in(slots.first(list)),
        tail: slot_in(slots.last(list)),
    };
    ListEnds { list, ends }
}

/// All lists with their first and last slots.
fn laid_lists(slots: &Slots<Content>, alloc: Global) -> Result<Vec<ListEnds>, AllocError>
    ensures { IfOk result (λ lists. lists.items ≡ map (shown_ends slots.now.image) all_lists) }
{
    let mut lists = Vec::new(alloc);
    for list in &ListName::all() {
        lists.push(laid_list(slots, *list))?;
    }
    Ok(lists)
}

/// The first and the last free slot.
fn free_ends(slots: &Slots<Content>) -> Ends
    ensures { result ≡ ends_of (chain slots.now.image.memory FREE) }
{
    Ends {
        head: slots.first_free(),
        tail: slots.last_free(),
    }
}

/// How the memory lies.
pub(crate) fn layout_of(memory: &Memory<PackedPlace>, alloc: Global) -> Result<Layout, AllocError>
    ensures { IfOk result (λ layout. ShowsAll layout (held memory.now).image) }
{
    Ok(Layout {
        place: memory.place().place(),
        numbers: Numbers {
            time: memory.times().time,
            clock: memory.clock(),
            next_start: memory.times().next_start,
            stop_flag: memory.stop_flag(),
            idled: memory.idled(),
        },
        names: Vec::from_slice(alloc, memory.names())?,
        slots: laid_slots(memory, alloc)?,
        unused: memory.slots().capacity() - memory.slots().used(),
        running: Vec::from_slice(alloc, memory.requests().workers())?,
        free: free_ends(memory.slots()),
        lists: laid_lists(memory.slots(), alloc)?,
        heap: Vec::from_slice(alloc, memory.heap().entries())?,
        active: memory.handles().active_referenced(),
        opened: memory.requests().open_requests(),
    })
}

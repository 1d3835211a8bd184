//! The text of how a machine's memory lies.
#![tactic(auto, using(uv_script::proofs::Writing::writing))]

ghost use Rattle.std.specs.Prelude.{◌≡◌, ◌++◌, IfOk, IfErr, IfSome, IfNone};
ghost use Rattle.std.specs.List.{flat_map};
ghost use Rattle.uv_ids.specs.declared.fault.Fault.TheVariants.{Memory};
ghost use Rattle.uv_script.specs.Writes.{Writes};
ghost use Rattle.uv_text.specs.Image.{or_dash, link_line, ends_line, named_ends, entry_text, heap_line, place_text, places_line, counts_line, rest_part, layout_part, layout_text, image_text, IsImageText};

use crate::parts::{Parts, push_parts};
use crate::state::{list_word, push_numbered, push_state};
use std::alloc::{AllocError, Global};
use uv_heap::Entry;
use uv_ids::Fault;
use uv_model::{LaidSlot, Layout, ListEnds, Machine};
use uv_records::Ends;
use uv_session::Session;

/// The text of a session's state, and of how the memory lies that stands for it; none of a machine without one memory.
pub fn image_text<M: Machine>(alloc: Global, session: &Session<M>) -> Result<Option<Vec<u8>>, Fault>
    ensures text { IfOk result (λ image. IfSome image (λ text. IsImageText session.now text.items)) }
    ensures none { IfOk result (λ image. IfNone image M.MayHaveNoLayout) }
    ensures err { IfErr result (λ fault. fault ≡ Memory) }
{
    let Some(layout) = session.machine().layout()? else {
        return Ok(None);
    };
    let mut text = Vec::new(alloc);
    push_whole(&mut text, session, &layout)?;
    Ok(Some(text))
}

fn push_whole<M: Machine>(
    text: &mut Vec<u8>,
    session: &Session<M>,
    layout: &Layout,
) -> Result<(), AllocError>
    ensures { Writes result text.old.items (image_text session.now layout.now) text.new.items }
{
    push_state(text, session)?;
    push_layout(text, layout)
}

fn push_layout(text: &mut Vec<u8>, layout: &Layout) -> Result<(), AllocError>
    ensures { Writes result text.old.items (layout_text layout.now) text.new.items }
{
    push_parts(text, &LayoutParts { layout })
}

/// The text of how a memory lies in parts: it follows that of the state in an image.
#[derive(Drop)]
pub struct LayoutParts<'a> {
    pub layout: &'a Layout,
}

/// How many parts stand behind the lines of the slots.
const LAYOUT_PARTS: usize = 5;

impl<'a> Parts for LayoutParts<'a> {
    ghost use Rattle.uv_text.specs.Image.{layout_part, layout_parts};

    ghost parts = { λ image. layout_parts image.layout.now };

    ghost part = { λ image. layout_part image.layout.now };

    fn part_count(&self) -> usize {
        self.layout.slots.len() + LAYOUT_PARTS
    }

    fn push_part(&self, text: &mut Vec<u8>, number: usize) -> Result<(), AllocError> {
        push_layout_part(text, self.layout, number)
    }
}

/// The line of a slot, or a part behind these.
#[tactic(auto, using(uv_script::proofs::Writing::writing), unfolding(crate::specs::Image::layout_part))]
fn push_layout_part(text: &mut Vec<u8>, layout: &Layout, number: usize) -> Result<(), AllocError>
    ensures { Writes result text.old.items (layout_part layout.now number) text.new.items }
{
    let slots = layout.slots.as_slice();
    if number < slots.len() {
        push_link(text, number, slots[number])
    } else {
        push_rest(text, layout, number - slots.len())
    }
}

/// What stands behind the lines of the slots, a part of it.
#[tactic(auto, using(uv_script::proofs::Writing::writing), unfolding(crate::specs::Image::rest_part))]
fn push_rest(text: &mut Vec<u8>, layout: &Layout, number: usize) -> Result<(), AllocError>
    ensures { Writes result text.old.items (rest_part layout.now number) text.new.items }
{
    match number {
        0 => push_ends(text, "free", layout.free),
        1 => push_lists(text, layout.lists.as_slice()),
        2 => push_heap(text, layout.heap.as_slice()),
        3 => push_places(text, layout.slots.as_slice()),
        _ => push_counts(text, layout.active, layout.opened),
    }
}

/// A space and a number, or a space and `-`.
fn push_or_dash(text: &mut Vec<u8>, number: Option<u32>) -> Result<(), AllocError>
    ensures { Writes result text.old.items (or_dash number) text.new.items }
{
    match number {
        Some(number) => push_numbered(text, " ", u64::from(number)),
        None => text.extend_from_slice(b" -"),
    }
}

#[tactic(auto, using(uv_script::proofs::Writing::writing), unfolding(crate::specs::Image::link_line))]
fn push_link(text: &mut Vec<u8>, number: usize, slot: LaidSlot) -> Result<(), AllocError>
    ensures { Writes result text.old.items (link_line number slot) text.new.items }
{
    push_numbered(text, "link ", number as u64)?;
    push_or_dash(text, slot.prev)?;
    push_or_dash(text, slot.next)?;
    text.extend_from_slice(b"\n")
}

#[tactic(auto, using(uv_script::proofs::Writing::writing), unfolding(crate::specs::Image::ends_line))]
fn push_ends(text: &mut Vec<u8>, word: &str, ends: Ends) -> Result<(), AllocError>
    ensures { Writes result text.old.items (ends_line word.now ends) text.new.items }
{
    text.extend_from_slice(b"list ")?;
    text.extend_from_slice(word.as_bytes())?;
    push_or_dash(text, ends.head)?;
    push_or_dash(text, ends.tail)?;
    text.extend_from_slice(b"\n")
}

#[tactic(auto, using(crate::proofs::Pieces::pieces, uv_script::proofs::Writing::writing))]
fn push_lists(text: &mut Vec<u8>, lists: &[ListEnds]) -> Result<(), AllocError>
    ensures { Writes result text.old.items (flat_map named_ends lists.now) text.new.items }
{
    for one in lists {
        push_ends(text, list_word(one.list), one.ends)?;
    }
    Ok(())
}

#[tactic(auto, using(crate::proofs::Pieces::pieces, uv_script::proofs::Writing::writing))]
fn push_entries(text: &mut Vec<u8>, heap: &[Entry]) -> Result<(), AllocError>
    ensures { Writes result text.old.items (flat_map entry_text heap.now) text.new.items }
{
    for entry in heap {
        push_numbered(text, " ", u64::from(entry.slot))?;
    }
    Ok(())
}

#[tactic(auto, using(uv_script::proofs::Writing::writing), unfolding(crate::specs::Image::heap_line))]
fn push_heap(text: &mut Vec<u8>, heap: &[Entry]) -> Result<(), AllocError>
    ensures { Writes result text.old.items (heap_line heap.now) text.new.items }
{
    text.extend_from_slice(b"heap")?;
    push_entries(text, heap)?;
    text.extend_from_slice(b"\n")
}

/// Where the heap has each slot.
#[tactic(auto, using(crate::proofs::Pieces::pieces, uv_script::proofs::Writing::writing))]
fn push_each_place(text: &mut Vec<u8>, slots: &[LaidSlot]) -> Result<(), AllocError>
    ensures { Writes result text.old.items (flat_map place_text slots.now) text.new.items }
{
    for slot in slots {
        push_or_dash(text, slot.place)?;
    }
    Ok(())
}

#[tactic(auto, using(uv_script::proofs::Writing::writing), unfolding(crate::specs::Image::places_line))]
fn push_places(text: &mut Vec<u8>, slots: &[LaidSlot]) -> Result<(), AllocError>
    ensures { Writes result text.old.items (places_line slots.now) text.new.items }
{
    text.extend_from_slice(b"places")?;
    push_each_place(text, slots)?;
    text.extend_from_slice(b"\n")
}

#[tactic(auto, using(uv_script::proofs::Writing::writing), unfolding(crate::specs::Image::counts_line))]
fn push_counts(text: &mut Vec<u8>, active: u32, opened: u32) -> Result<(), AllocError>
    ensures { Writes result text.old.items (counts_line active opened) text.new.items }
{
    push_numbered(text, "counts ", u64::from(active))?;
    push_numbered(text, " ", u64::from(opened))?;
    text.extend_from_slice(b"\n")
}

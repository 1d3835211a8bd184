//! How a machine's memory lies.
use crate::numbers::Numbers;
use crate::place::Place;
use uv_heap::Entry;
use uv_ids::Id;
use uv_records::{Ends, ListName, Named, Slot};
use uv_work::Content;

/// A slot that was used, as it lies in memory.
#[derive(Clone, Copy)]
pub struct LaidSlot {
    /// Its generation, and what it holds.
    pub slot: Slot<Content>,
    /// The slot before it on its list.
    pub prev: Option<u32>,
    /// The slot behind it on its list.
    pub next: Option<u32>,
    /// Where the heap has it, from 0.
    pub place: Option<u32>,
}

/// A list, and its first and last slot.
#[derive(Clone, Copy)]
pub struct ListEnds {
    pub list: ListName,
    pub ends: Ends,
}

/// How the memory of a machine lies: its slots with their links, the ends of its lists, and the array of its heap.
#[derive(Drop)]
pub struct Layout {
    /// Where the loop stands.
    pub place: Place,
    pub numbers: Numbers,
    /// For each name, what it is bound to and how often its callbacks were called.
    pub names: Vec<Named>,
    /// The slots that were ever used, by number.
    pub slots: Vec<LaidSlot>,
    /// How many slots were never used.
    pub unused: u32,
    /// What each worker runs.
    pub running: Vec<Option<Id>>,
    /// The first and the last free slot.
    pub free: Ends,
    /// The lists, by number.
    pub lists: Vec<ListEnds>,
    /// The heap of the active timers, from place 0; the children of place i are 2i + 1 and 2i + 2.
    pub heap: Vec<Entry>,
    /// How many handles are active and referenced.
    pub active: u32,
    /// How many requests are open: their after callback has not begun.
    pub opened: u32,
}

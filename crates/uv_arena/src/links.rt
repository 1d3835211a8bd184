//! How slots are linked into lists.
use uv_records::{LIST_COUNT, Slot};

/// How many chains there are: one for each list, and that of the free slots.
pub const CHAIN_COUNT: usize = LIST_COUNT + 1;

/// The chain of the free slots, behind those of the lists.
pub const FREE: u8 = LIST_COUNT as u8;

/// The list that a slot is on, and its two neighbours there.
#[derive(Clone, Copy, PartialEq, Eq)]
pub struct Links {
    pub list: Option<u8>,
    pub prev: Option<u32>,
    pub next: Option<u32>,
}

/// A slot with its links.
#[derive(Clone, Copy)]
pub struct Cell<T> {
    pub slot: Slot<T>,
    pub links: Links,
}

/// A place of a list, between two neighbours or at an end: where a slot is put in or taken out.
#[derive(Clone, Copy)]
pub struct ChainPlace {
    pub list: u8,
    pub before: Option<u32>,
    pub slot: u32,
    pub after: Option<u32>,
}

/// The links of a slot on no list.
pub(crate) const LOOSE: Links = Links {
    list: None,
    prev: None,
    next: None,
};

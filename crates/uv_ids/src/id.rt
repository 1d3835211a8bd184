//! What a handle and a name are known by.

/// A handle or a request: its slot in the arena, and the slot's generation when it was taken.
///
/// A slot that was freed and taken again has a larger generation, so a stale id is told from a live one (own).
#[derive(Clone, Copy, PartialEq, Eq, Hash)]
pub struct Id {
    pub slot: u32,
    pub generation: u32,
}

/// A name of the script, by its number: names are numbered from 0 in the order of their declarations.
#[derive(Clone, Copy, PartialEq, Eq)]
pub struct Var(pub u32);

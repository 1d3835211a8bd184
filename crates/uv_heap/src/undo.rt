//! What takes a change of the heap back.
use crate::entry::Entry;

/// Takes a push back: the place where the new entry came to rest.
#[derive(Clone, Copy, PartialEq, Eq)]
pub struct HeapPushUndo {
    pub place: u32,
}

/// Takes a removal back.
#[derive(Clone, Copy, PartialEq, Eq)]
pub struct HeapRemoveUndo {
    /// Where the removed entry stood.
    pub place: u32,
    /// Where the last entry came to rest, which was put there in its stead; `place` where it was the last itself.
    pub rest: u32,
    pub entry: Entry,
}

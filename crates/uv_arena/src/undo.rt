//! What takes a change of the arena back.
use uv_records::ListName;

/// Takes an insert back: the slot that it took, and whether that was never used before.
#[derive(Clone, Copy)]
pub struct InsertUndo {
    pub slot: u32,
    pub fresh: bool,
}

/// Takes a removal back, together with what the slot held, which the removal answers beside it: the slot that was freed, and whether
/// it was retired.
#[derive(Clone, Copy)]
pub struct RemoveUndo {
    pub slot: u32,
    pub retired: bool,
}

/// Takes a push back: the slot that was put on a list.
#[derive(Clone, Copy)]
pub struct PushUndo {
    pub slot: u32,
}

/// Takes a splice back: the two lists whose members changed places.
#[derive(Clone, Copy)]
pub struct SpliceUndo {
    pub from: ListName,
    pub to: ListName,
}

//! Parts of what takes one step of the loop back.
ghost use Rattle.std.specs.Prelude.{◌≡◌};
ghost use Rattle.uv_memory.specs.Parts.{was_bound};

use uv_arena::SpliceUndo;
use uv_handle::AddUndo;
use uv_ids::{Callback, Id, Var};

/// A new handle: its slot and the count from before, and whether it was put on a list.
#[derive(Clone, Copy)]
pub struct Added {
    pub added: AddUndo,
    pub listed: bool,
}

/// A section began at the end of a poll: the loop's time before, and the lists.
#[derive(Clone, Copy)]
pub struct Polled {
    pub time: u64,
    pub spliced: SpliceUndo,
}

/// What a step did to what a name is bound to or how often it was called: what that was before.
#[derive(Clone, Copy)]
pub enum Naming {
    /// Nothing.
    Same,
    /// The name was bound, and wasn't before.
    Unbound(Var),
    /// The name was bound anew.
    Bound(Var, Id),
    /// A callback of the name was called.
    Called(Var, Callback, u32),
}

impl Naming {
    /// A name was bound to this, or to nothing.
    pub(crate) fn bound(name: Var, id: Option<Id>) -> Naming
        ensures { result ≡ was_bound name id }
    {
        match id {
            None => Naming::Unbound(name),
            Some(id) => Naming::Bound(name, id),
        }
    }
}

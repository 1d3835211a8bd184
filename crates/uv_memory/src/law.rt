//! Steps in a row, and taking all of them back.
ghost use Rattle.std.specs.Prelude.{◌≡◌, ℕ, List, length};
ghost use Rattle.uv_memory.specs.Record.{Record};
ghost use Rattle.uv_memory.specs.Image.{Image};
ghost use Rattle.uv_memory.specs.Trail.{Walk, unwound, CanGoBack, AreSteps, AddEach, AddsAll};

/// Of any steps in a row: each of their records may be unwound in its turn, the last one first, and that gives back the very memory
/// from before them. So it is of the steps of a loop from any length on, which only say that each adds one record: it may have taken
/// steps before, and those stay as they are. It costs nothing when it runs.
pub fn steps_unwind<P: Copy>()
    ensures from_any_length { (old new : Walk P) → (between : List (Walk P)) → AddEach old between new → AddsAll old new (length between) }
    ensures steps { (room : ℕ) → (i k : Image P) → (rs : List (Record P)) → AreSteps room i rs k → (unwound rs k ≡ i) × CanGoBack room rs k }
{}

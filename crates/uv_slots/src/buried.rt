//! What a step is where names forget in which slot that was which is gone.
ghost use Rattle.std.specs.Prelude.{◌≡◌, ◌≤◌, ℕ, List, Option};
ghost use Rattle.uv_ids.specs.declared.event.Event.{Event};
ghost use Rattle.uv_ids.specs.declared.seen.Seen.{Seen};
ghost use Rattle.uv_script.specs.Program.{Program, arena_size};
ghost use Rattle.uv_model.specs.After.{after};
ghost use Rattle.uv_model.specs.State.{State, fresh};
ghost use Rattle.uv_model.specs.Next.{Moves, next};
ghost use Rattle.uv_alike.specs.Changed.{state_map};
ghost use Rattle.uv_slots.specs.Buried.{CanBury, buried};

/// A step goes as it does where each name of what is gone is bound to the one dead id. The line is the same, or the refusal, and so is the
/// state that it leads to, once that is buried. So two states that are the same once they are buried go on alike. It does nothing, and is
/// called for its clauses.
pub fn names_buried()
    ensures step { (p : Program) (dead : ℕ) (s : State) (e : Event) → CanBury dead s
        → state_map (buried dead) (next p (buried dead s) e) ≡ state_map (buried dead) (next p s e) }
    ensures alike { (p : Program) (dead : ℕ) (s t : State) (e : Event) → CanBury dead s → CanBury dead t → buried dead s ≡ buried dead t
        → state_map (buried dead) (next p s e) ≡ state_map (buried dead) (next p t e) }
{}

/// What these laws ask of a state holds of the one in which a script begins, and each step keeps it. So it holds of all that a script comes
/// to, and of a state with its names buried, too. It does nothing, and is called for its clauses.
pub fn burying_stays()
    ensures begins { (p : Program) (dead : ℕ) → (arena_size p).slots ≤ dead → CanBury dead (fresh p) }
    ensures reached { (p : Program) (dead : ℕ) (es : List Event) → (arena_size p).slots ≤ dead → CanBury dead (after p es) }
    ensures goes_on { (p : Program) (dead : ℕ) (s t : State) (e : Event) (line : Option Seen) → CanBury dead s → next p s e ≡ Moves t line
        → CanBury dead t }
    ensures buries { (dead : ℕ) (s : State) → CanBury dead s → CanBury dead (buried dead s) }
{}

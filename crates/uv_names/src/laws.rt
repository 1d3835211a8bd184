//! What a step is where counts go no further than to a number, and where names forget earlier generations.
ghost use Rattle.std.specs.Prelude.{◌≡◌, ◌≤◌, ℕ};
ghost use Rattle.uv_ids.specs.declared.event.Event.{Event};
ghost use Rattle.uv_script.specs.Program.{Program};
ghost use Rattle.uv_model.specs.State.{State};
ghost use Rattle.uv_model.specs.Next.{next};
ghost use Rattle.uv_alike.specs.Changed.{state_map};
ghost use Rattle.uv_names.specs.Counts.{capped, AreBefore, script_end};
ghost use Rattle.uv_names.specs.Stale.{staled};

/// In a script whose lines are for every call, or for one before the n-th, a step goes as it does where no count goes beyond n: with the
/// same line, or the same refusal, to the same state up to n. So two states that are the same up to n go on alike. It does nothing, and is
/// called for its clauses.
pub fn counts_capped()
    ensures step { (n : ℕ) (p : Program) (s : State) (e : Event) → AreBefore n p
        → state_map (capped n) (next p (capped n s) e) ≡ state_map (capped n) (next p s e) }
    ensures alike { (n : ℕ) (p : Program) (s t : State) (e : Event) → AreBefore n p → capped n s ≡ capped n t
        → state_map (capped n) (next p s e) ≡ state_map (capped n) (next p t e) }
{}

/// From `script_end` of a script on, each number does for it. It does nothing, and is called for its clause.
pub fn script_counts()
    ensures { (n : ℕ) (p : Program) → script_end p ≤ n → AreBefore n p }
{}

/// A step goes as it does where each name whose slot has gone on to a later generation is bound to the one just before that: with the same
/// line, or the same refusal, to the same state with its names so. So two states that are the same with their names so go on alike. It does
/// nothing, and is called for its clauses.
pub fn names_staled()
    ensures step { (p : Program) (s : State) (e : Event) → state_map staled (next p (staled s) e) ≡ state_map staled (next p s e) }
    ensures alike { (p : Program) (s t : State) (e : Event) → staled s ≡ staled t → state_map staled (next p s e) ≡ state_map staled (next p t e) }
{}

//! What a step is where it is forgotten which worker runs which request.
ghost use Rattle.std.specs.Prelude.{◌≡◌, ℕ, false, Option, Some, slice_get};
ghost use Rattle.uv_ids.specs.declared.event.Event.{Event};
ghost use Rattle.uv_ids.specs.declared.event.Event.TheVariants.{Take, Finish};
ghost use Rattle.uv_ids.specs.declared.id.Id.{Id};
ghost use Rattle.uv_ids.specs.declared.id.Var.{Var};
ghost use Rattle.uv_ids.specs.declared.seen.Seen.{Seen};
ghost use Rattle.uv_ids.specs.declared.seen.Seen.TheVariants as seen;
ghost use Rattle.uv_script.specs.Program.{Program};
ghost use Rattle.uv_model.specs.State.{State};
ghost use Rattle.uv_model.specs.Next.{next, Moves};
ghost use Rattle.uv_alike.specs.Changed.{state_map};
ghost use Rattle.uv_workers.specs.Workers.{is_of_worker, next_by, orderly};

/// A step that is no worker's goes as it does where the workers' requests are in order: with the same line, or the same refusal, to the
/// same state with them in order. So two states that are the same with them in order go on alike. It does nothing, and is called for its
/// clauses.
pub fn others_alike()
    ensures step { (p : Program) (s : State) (e : Event) → is_of_worker e ≡ false
        → state_map orderly (next p (orderly s) e) ≡ state_map orderly (next p s e) }
    ensures alike { (p : Program) (s t : State) (e : Event) → is_of_worker e ≡ false → orderly s ≡ orderly t
        → state_map orderly (next p s e) ≡ state_map orderly (next p t e) }
{}

/// Which of the idle workers takes a request, only the number in the line tells: each is refused for the same reason, or takes the same
/// request, to the same state with the workers' requests in order. That is so within one state, and of two that are the same with them in
/// order: a worker of the one and a worker of the other have to run the same, nothing or one request. It does nothing, and is called for its
/// clauses.
pub fn takes_alike()
    ensures step { (p : Program) (s : State) (k j : ℕ) → slice_get s.running k ≡ slice_get (orderly s).running j
        → state_map orderly (next p (orderly s) (Take j)) ≡ state_map orderly (next_by j (next p s (Take k))) }
    ensures alike { (p : Program) (s t : State) (k j : ℕ) → orderly s ≡ orderly t → slice_get s.running k ≡ slice_get t.running j
        → state_map orderly (next p t (Take j)) ≡ state_map orderly (next_by j (next p s (Take k))) }
    ensures line { (p : Program) (s t : State) (k : ℕ) (line : Option Seen) → next p s (Take k) ≡ Moves t line
        → (v : Var) × (id : Id) × (line ≡ Some (seen.Take k v id)) }
{}

/// So it is of the worker that runs a request: whichever it is, it finishes the request, to the same state with the workers' requests in
/// order, or is refused for the same reason. It does nothing, and is called for its clauses.
pub fn finishes_alike()
    ensures step { (p : Program) (s : State) (k j : ℕ) → slice_get s.running k ≡ slice_get (orderly s).running j
        → state_map orderly (next p (orderly s) (Finish j)) ≡ state_map orderly (next_by j (next p s (Finish k))) }
    ensures alike { (p : Program) (s t : State) (k j : ℕ) → orderly s ≡ orderly t → slice_get s.running k ≡ slice_get t.running j
        → state_map orderly (next p t (Finish j)) ≡ state_map orderly (next_by j (next p s (Finish k))) }
    ensures line { (p : Program) (s t : State) (k : ℕ) (line : Option Seen) → next p s (Finish k) ≡ Moves t line
        → (v : Var) × (id : Id) × (line ≡ Some (seen.Finish k v id)) }
{}

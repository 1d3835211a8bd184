//! What a step is where each request asks for the same work.
ghost use Rattle.std.specs.Prelude.{◌≡◌};
ghost use Rattle.uv_ids.specs.declared.event.Event.{Event};
ghost use Rattle.uv_script.specs.Program.{Program};
ghost use Rattle.uv_model.specs.State.{State, fresh};
ghost use Rattle.uv_model.specs.Next.{next};
ghost use Rattle.uv_script.specs.SameWork.{same_work};
ghost use Rattle.uv_alike.specs.Changed.{next_map};
ghost use Rattle.uv_tasks.specs.Tasks.{same_seen, same_state};

/// Whatever work requests ask for, a step goes as it does where each asks for the same: to the same state and with the same line, except for
/// tasks and digests. It does nothing, and is called for its clauses.
pub fn work_is_free()
    ensures steps { (p : Program) (s : State) (e : Event) → next (same_work p) (same_state s) e ≡ next_map same_state same_seen (next p s e) }
    ensures begins { (p : Program) → fresh (same_work p) ≡ same_state (fresh p) }
{}

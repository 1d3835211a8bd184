//! What a step is from a state that is changed.
ghost use Rattle.std.specs.Prelude.{◌≡◌};
ghost use Rattle.uv_ids.specs.declared.event.Event.{Event};
ghost use Rattle.uv_script.specs.Program.{Program};
ghost use Rattle.uv_model.specs.State.{State};
ghost use Rattle.uv_model.specs.Next.{next};
ghost use Rattle.uv_alike.specs.Changed.{Change, Comes, changed, changed_event, changed_line, changed_program, next_map};
ghost use Rattle.uv_alike.specs.Hides.{Hides, IsWhole, IsExact};

/// For every change of a state that no step can tell: a step from the changed state, by the changed script, is the step from the state itself,
/// so changed. It does
/// nothing, and is called for its clause.
pub fn steps_alike()
    ensures { (c : Change) (p : Program) (s : State) (e : Event) → Hides c p s → IsWhole c p s → IsExact c p s → Comes c s e
        → next (changed_program c p) (changed c s) (changed_event c e) ≡ next_map (changed c) (changed_line c p) (next p s e) }
{}

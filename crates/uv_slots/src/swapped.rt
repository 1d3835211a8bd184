//! What a step is where names that are alike have changed places.
ghost use Rattle.std.specs.Prelude.{◌≡◌, ℕ, List};
ghost use Rattle.uv_ids.specs.declared.event.Event.{Event};
ghost use Rattle.uv_script.specs.Program.{Program};
ghost use Rattle.uv_model.specs.State.{State};
ghost use Rattle.uv_model.specs.Next.{next};
ghost use Rattle.uv_alike.specs.Changed.{changed, changed_event, changed_line, next_map};
ghost use Rattle.uv_slots.specs.Alike.{AreAlike, by_names};

/// Where names that are alike have changed places, a step goes as it does: to the same state and with the same line, with the names so.
/// It does nothing, and is called for its clause.
pub fn names_change_places()
    ensures { (p : Program) (o : List ℕ) (s : State) (e : Event) → AreAlike p o s
        → next p (changed (by_names o) s) (changed_event (by_names o) e)
        ≡ next_map (changed (by_names o)) (changed_line (by_names o) p) (next p s e) }
{}

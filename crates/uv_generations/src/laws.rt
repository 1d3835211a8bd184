//! What a step is where slots were freed more often.
ghost use Rattle.std.specs.Prelude.{◌≡◌, ◌<◌, ℕ, List, length, slice_get, None};
ghost use Rattle.uv_ids.specs.declared.event.Event.{Event};
ghost use Rattle.uv_script.specs.Program.{Program, arena_size};
ghost use Rattle.uv_model.specs.State.{State};
ghost use Rattle.uv_model.specs.Next.{next};
ghost use Rattle.uv_model.specs.After.{after};
ghost use Rattle.uv_alike.specs.Changed.{next_map};
ghost use Rattle.uv_generations.specs.More.{Frees, freed_more, more, CanRename};
ghost use Rattle.uv_generations.specs.Renamed.{renaming};
ghost use Rattle.uv_generations.specs.Youngest.{surplus, youngest, IsYoung};
ghost use Rattle.uv_slots.specs.Relabeled.{relabeled_line};

/// For every script, state and event: a step from a state whose slots were freed more often is the step from the state itself, with
/// their ids renamed. So long as no slot comes to its last generation by that. It does nothing, and is called for its clause.
pub fn generations_rename()
    ensures { (p : Program) (k : Frees) (s : State) (e : Event) → CanRename p k s
        → next p (more k s) e ≡ next_map (more k) (relabeled_line (renaming (freed_more k))) (next p s e) }
{}

/// The youngest form of a state, freed more often by its surplus, is the state; and however often its slots were freed more, its youngest
/// form is the same, if those that were never used were never freed. It does nothing, and is called for its clause.
pub fn youngest_form()
    ensures renamed { (p : Program) (s : State) → IsYoung p s → more (surplus s) (youngest s) ≡ s }
    ensures same { (k : Frees) (s : State) → ((slot : ℕ) → slice_get s.arena.slots slot ≡ None → k slot ≡ 0) → youngest (more k s) ≡ youngest s }
{}

/// A state is young if fewer steps lead to it than the last generation is large: who stands on a list is held, and nothing that is held is at
/// its last generation. It does nothing, and is called for its clause.
pub fn stays_young()
    ensures { (p : Program) (es : List Event) → length es < (arena_size p).last_generation → IsYoung p (after p es) }
{}

//! What a step is where slots stand in another order.
ghost use Rattle.std.specs.Prelude.{◌≡◌, ◌<◌, ◌≤◌, ℕ, List, length};
ghost use Rattle.uv_ids.specs.declared.event.Event.{Event};
ghost use Rattle.uv_script.specs.Program.{Program, arena_size};
ghost use Rattle.uv_model.specs.State.{State};
ghost use Rattle.uv_model.specs.Next.{next};
ghost use Rattle.uv_model.specs.After.{after};
ghost use Rattle.uv_alike.specs.Changed.{next_map};
ghost use Rattle.uv_slots.specs.Arranged.{IsOrder, arranged, in_order};
ghost use Rattle.uv_slots.specs.Relabeled.{relabeled_line};
ghost use Rattle.uv_slots.specs.Tidy.{AreDeclared, IsTidy};

/// For every script, state and event: a step from a state whose slots stand in another order is the step from the state itself, so
/// arranged. The order names slots that were used. It does nothing, and is called for its clause.
pub fn slots_arrange()
    ensures { (p : Program) (o : List ℕ) (s : State) (e : Event) → IsOrder o → length o ≤ length s.arena.slots
        → next p (arranged o s) e ≡ next_map (arranged o) (relabeled_line (in_order o)) (next p s e) }
{}

/// A state is tidy if fewer steps lead to it than the last generation is large, and each op names a declared name. It does nothing, and is
/// called for its clause.
pub fn stays_tidy()
    ensures { (p : Program) (es : List Event) → AreDeclared p → length es < (arena_size p).last_generation → IsTidy (after p es) }
{}

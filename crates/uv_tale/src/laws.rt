//! What a step is of two states of which the same is told, and of two that have the same pooled form.
ghost use Rattle.std.specs.Prelude.{◌≡◌, ℕ, false, slice_get};
ghost use Rattle.uv_ids.specs.declared.event.Event.{Event};
ghost use Rattle.uv_ids.specs.declared.event.Event.TheVariants.{Take, Finish};
ghost use Rattle.uv_script.specs.Program.{Program};
ghost use Rattle.uv_model.specs.State.{State};
ghost use Rattle.uv_model.specs.Next.{next};
ghost use Rattle.uv_shift.specs.Shift.{ClockFits};
ghost use Rattle.uv_shift.specs.Earliest.{IsTimed};
ghost use Rattle.uv_generations.specs.Youngest.{IsYoung};
ghost use Rattle.uv_names.specs.Counts.{AreBefore};
ghost use Rattle.uv_workers.specs.Workers.{is_of_worker, next_by};
ghost use Rattle.uv_tale.specs.Alike.{IsRegular, LeadsRegular, NextAlike, bare_line, normal, pooled, told_line};
ghost use Rattle.uv_tale.specs.Tale.{run_names, tale};

/// Of two states of which the same is told the one takes a step that is no worker's just where the other takes it, unless the clock comes to
/// its limit: to states of which the same is told again, with lines that are the same except for what they say of time and of ids. It does
/// nothing, and is called for its clause.
pub fn others_alike()
    ensures { (p : Program) (n : ℕ) (s t : State) (e : Event) → AreBefore n p → IsRegular p s → IsRegular p t → tale n s ≡ tale n t
        → is_of_worker e ≡ false → ClockFits s e → ClockFits t e → LeadsRegular p (next p s e) → LeadsRegular p (next p t e)
        → NextAlike (tale n) (told_line p) s t (next p s e) (next p t e) }
{}

/// Where a worker of the one and a worker of the other run a request of one name, or nothing, the one takes a request just where the other
/// takes one. It does nothing, and is called for its clause.
pub fn takes_alike()
    ensures { (p : Program) (n : ℕ) (s t : State) (k j : ℕ) → AreBefore n p → IsRegular p s → IsRegular p t → tale n s ≡ tale n t
        → slice_get (run_names s.arena.slots s.running) k ≡ slice_get (run_names t.arena.slots t.running) j
        → LeadsRegular p (next p s (Take k)) → LeadsRegular p (next p t (Take j))
        → NextAlike (tale n) (told_line p) s t (next_by j (next p s (Take k))) (next p t (Take j)) }
{}

/// So the one finishes what it runs just where the other does. It does nothing, and is called for its clause.
pub fn finishes_alike()
    ensures { (p : Program) (n : ℕ) (s t : State) (k j : ℕ) → AreBefore n p → IsRegular p s → IsRegular p t → tale n s ≡ tale n t
        → slice_get (run_names s.arena.slots s.running) k ≡ slice_get (run_names t.arena.slots t.running) j
        → LeadsRegular p (next p s (Finish k)) → LeadsRegular p (next p t (Finish j))
        → NextAlike (tale n) (told_line p) s t (next_by j (next p s (Finish k))) (next p t (Finish j)) }
{}

/// Of two states that have the same pooled form the one takes a step that is no worker's just where the other takes it, unless the clock comes
/// to its limit: to states that have the same pooled form again, with lines that are the same except for what they say of time and of
/// generations. Of what few steps lead to it asks less than [`others_alike`]. It does nothing, and is called for its clause.
pub fn pooled_others_alike()
    ensures { (p : Program) (n : ℕ) (s t : State) (e : Event) → AreBefore n p → IsTimed p s → IsYoung p s → IsTimed p t → IsYoung p t
        → pooled n s ≡ pooled n t → is_of_worker e ≡ false → ClockFits s e → ClockFits t e
        → NextAlike (pooled n) (bare_line p) s t (next p s e) (next p t e) }
{}

/// Where a worker of the one and a worker of the other run the same in the normal forms, nothing or one request, the one takes a request just
/// where the other takes one. It does nothing, and is called for its clause.
pub fn pooled_takes_alike()
    ensures { (p : Program) (n : ℕ) (s t : State) (k j : ℕ) → AreBefore n p → IsTimed p s → IsYoung p s → IsTimed p t → IsYoung p t
        → pooled n s ≡ pooled n t → slice_get (normal n s).running k ≡ slice_get (normal n t).running j
        → NextAlike (pooled n) (bare_line p) s t (next_by j (next p s (Take k))) (next p t (Take j)) }
{}

/// So the one finishes what it runs just where the other does. It does nothing, and is called for its clause.
pub fn pooled_finishes_alike()
    ensures { (p : Program) (n : ℕ) (s t : State) (k j : ℕ) → AreBefore n p → IsTimed p s → IsYoung p s → IsTimed p t → IsYoung p t
        → pooled n s ≡ pooled n t → slice_get (normal n s).running k ≡ slice_get (normal n t).running j
        → NextAlike (pooled n) (bare_line p) s t (next_by j (next p s (Finish k))) (next p t (Finish j)) }
{}

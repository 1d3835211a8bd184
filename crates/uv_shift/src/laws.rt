//! What a step is where all times are later.
ghost use Rattle.std.specs.Prelude.{◌≡◌, ◌≤◌, ◌<◌, ◌+◌, ◌^◌, ℕ, List, Option};
ghost use Rattle.uv_ids.specs.declared.event.Event.{Event};
ghost use Rattle.uv_ids.specs.declared.seen.Seen.{Seen};
ghost use Rattle.uv_script.specs.Program.{Program};
ghost use Rattle.uv_model.specs.State.{State};
ghost use Rattle.uv_model.specs.Next.{Moves, next};
ghost use Rattle.uv_model.specs.After.{after};
ghost use Rattle.uv_model.specs.Limits.{LATEST};
ghost use Rattle.uv_order.specs.Active.{AreTimers};
ghost use Rattle.uv_shift.specs.Shift.{By, shift, shift_line, TimesFit, ClockFits, IsMoved, IsShort};
ghost use Rattle.uv_alike.specs.Changed.{next_map};
ghost use Rattle.uv_shift.specs.Earliest.{base, earliest, IsTimed};

/// For every script, state and event: a step from a state whose times are all later by as many ms is the step from the state itself,
/// with all times later. So long as no due time that it sets is cut at the largest number, and the clock doesn't come to its limit. It
/// does nothing, and is called for its clause.
pub fn times_shift()
    ensures { (p : Program) (d : By) (s : State) (e : Event) → TimesFit p (shift d s) → ClockFits (shift d s) e →
        next p (shift d s) e ≡ next_map (shift d) (shift_line p d) (next p s e) }
{}

/// What the later state takes the state itself takes, wherever the clock's limit is: that refuses only the later one. It does nothing,
/// and is called for its clause.
pub fn next_back()
    ensures { (p : Program) (d : By) (s : State) (e : Event) (t : State) (line : Option Seen) → TimesFit p (shift d s) →
        next p (shift d s) e ≡ Moves t line → IsMoved p d (next p s e) t line }
{}

/// The earliest form of a state, moved to its base, is the state; and whatever a state is later by, its earliest form is the same. It
/// does nothing, and is called for its clause.
pub fn earliest_form()
    ensures moved { (s : State) → AreTimers s s.timers → shift (base s) (earliest s) ≡ s }
    ensures same { (d : By) (s : State) → earliest (shift d s) ≡ earliest s }
{}

/// Each state that steps lead to, however many they are, can be moved so: where the numbers of the script and the clock's limit together
/// are no larger than the largest number. So can what such a state is later than, and its earliest form. It does nothing, and is called
/// for its clause.
pub fn stays_timed()
    ensures reached { (p : Program) (n : ℕ) (es : List Event) → 0 < n → n + LATEST ≤ 2 ^ 64 → IsShort n p → IsTimed p (after p es) }
    ensures earlier { (p : Program) (d : By) (s : State) → IsTimed p (shift d s) → IsTimed p s }
    ensures earliest { (p : Program) (s : State) → IsTimed p s → IsTimed p (earliest s) }
{}

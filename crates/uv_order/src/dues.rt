//! When timers are due, by the lines.
ghost use Rattle.std.specs.Prelude.{List};
ghost use Rattle.uv_ids.specs.declared.event.Event.{Event};
ghost use Rattle.uv_script.specs.Program.{Program};
ghost use Rattle.uv_model.specs.After.{after};
ghost use Rattle.uv_order.specs.History.{history};
ghost use Rattle.uv_order.specs.Dues.{AreDueTold};

/// For every script and every list of steps, each active timer is due as the lines tell: so many ms behind the loop's time at its last
/// start as that said, an accepted `start` its timeout, an accepted `again` and the call of a repeating timer its repeat, and no later than
/// the largest time. Of those that are due at the same time the one comes first that was started first. Sections of timers call by that. It
/// does nothing, and is called for its clause.
pub fn dues_told()
    ensures { (p : Program) (es : List Event) → AreDueTold p (history p es) (after p es) }
{}

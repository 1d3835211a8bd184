//! In which order handles are called, by the lines.
ghost use Rattle.std.specs.Prelude.{List};
ghost use Rattle.uv_ids.specs.declared.event.Event.{Event};
ghost use Rattle.uv_script.specs.Program.{Program};
ghost use Rattle.uv_model.specs.After.{lines};
ghost use Rattle.uv_order.specs.InTurn.{AreInTurn};

/// For every script and every list of steps, each idle, prepare, check and closing handle is called in its turn. The active handles of a
/// kind stand with the last one that was started in front. Those that close stand with the last one that was closed in front. A section
/// calls those that there are at its line, front first, without those that are stopped or closed before. It isn't left before all were
/// called. It does nothing, and is called for its clause.
pub fn called_in_turn()
    ensures { (p : Program) (es : List Event) → AreInTurn p (lines p es) }
{}

//! What the lines tell of the handles that there are.
ghost use Rattle.std.specs.Prelude.{List};
ghost use Rattle.uv_ids.specs.declared.event.Event.{Event};
ghost use Rattle.uv_script.specs.Program.{Program};
ghost use Rattle.uv_model.specs.After.{after, lines};
ghost use Rattle.uv_order.specs.Told.{AreTold};

/// For every script and every list of steps, each handle is what the lines tell of it: made under its name, closing just where a `close` of
/// it was accepted, and active, or set aside to be called, just where it was started and not stopped since. So a start that is accepted
/// starts, a stop stops, and a close closes. It does nothing, and is called for its clause.
pub fn handles_told()
    ensures { (p : Program) (es : List Event) → AreTold p (lines p es) (after p es) }
{}

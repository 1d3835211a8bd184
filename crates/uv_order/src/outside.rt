//! What comes from outside, by its lines.
ghost use Rattle.std.specs.Prelude.{List};
ghost use Rattle.uv_ids.specs.declared.event.Event.{Event};
ghost use Rattle.uv_script.specs.Program.{Program};
ghost use Rattle.uv_model.specs.After.{after};
ghost use Rattle.uv_model.specs.State.{State};
ghost use Rattle.uv_model.specs.Next.{next};
ghost use Rattle.uv_order.specs.Coming.{TakesIoFrom};
ghost use Rattle.uv_order.specs.History.{history};
ghost use Rattle.uv_order.specs.Outside.{SaysEvent};

/// For every script, every state and every step: the line of a step is of its very event. A tick is refused past the clock's limit alone, and a
/// send and a cancel from outside of a name that there isn't. It does nothing, and is called for its clause.
pub fn events_say()
    ensures { (p : Program) (s : State) (e : Event) → SaysEvent s e (next p s e) }
{}

/// For every script and every list of steps, the lines lead to a place of the documented order, and where a callback of I/O may begin there, each
/// of a name that stands for an active handle of I/O is taken: in the section of async handles once nobody of its list is left, and anywhere once
/// the body before it was ended. So none that may come is refused. It does nothing, and is called for its clause.
pub fn io_comes()
    ensures { (p : Program) (es : List Event) → TakesIoFrom p (history p es) (after p es) }
{}

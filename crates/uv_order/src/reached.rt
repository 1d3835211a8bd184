//! What holds of every state that steps lead to.
ghost use Rattle.std.specs.Prelude.{List};
ghost use Rattle.uv_ids.specs.declared.event.Event.{Event};
ghost use Rattle.uv_script.specs.Program.{Program};
ghost use Rattle.uv_model.specs.After.{after};
ghost use Rattle.uv_order.specs.Reached.{IsReached};

/// For every script and every list of steps, the lists of the state after them and what its slots hold agree: each active handle
/// stands on the list of its kind, once, and who stands there is active and of that kind; so it is of the timers, of the handles that
/// close and of the requests that are done. A handle of I/O is on no list. And a section that may begin finds none of its list yet to
/// run. It does nothing, and is called for its clause.
pub fn lists_agree()
    ensures { (p : Program) (es : List Event) → IsReached (after p es) }
{}

//! Where the loop stands still.
ghost use Rattle.std.specs.Prelude.{◌≡◌, List};
ghost use Rattle.uv_ids.specs.declared.event.Event.{Event};
ghost use Rattle.uv_ids.specs.declared.event.Event.TheVariants.{Loop};
ghost use Rattle.uv_script.specs.Program.{Program};
ghost use Rattle.uv_model.specs.After.{after, refusal_of};
ghost use Rattle.uv_model.specs.State.{State};
ghost use Rattle.uv_model.specs.Next.{next};
ghost use Rattle.uv_order.specs.History.{history};
ghost use Rattle.uv_order.specs.GettingOn.{quiet, Lessens};
ghost use Rattle.uv_order.specs.Waits as order;
ghost use Rattle.uv_order.specs.Waits.{GoesOnFrom};

/// For every script and every list of steps, the next step of the loop is refused only behind the main program's last line, and in a poll
/// that nothing ends: its deadline hasn't passed, no request is done, no async handle was sent to. So a poll is left as soon as it may be, and
/// no section stands still. It does nothing, and is called for its clause.
pub fn loop_goes_on()
    ensures { (p : Program) (es : List Event) → refusal_of (next p (after p es) Loop) ≡ order.waits p (after p es) (after p es).place }
{}

/// For every script and every list of steps, the lines lead to a place of the documented order, and by that place alone the loop's next step is
/// refused or goes on: refused behind the last line of the main program that they did, and in the poll that they began, before its end by its
/// own line. So what the loop says of itself isn't asked. It does nothing, and is called for its clause.
pub fn goes_on_told()
    ensures { (p : Program) (es : List Event) → GoesOnFrom p (history p es) (after p es) (refusal_of (next p (after p es) Loop)) }
{}

/// For every script, every state and every step: a step without a line leaves fewer such steps to take, which are a timer that is set aside, an
/// async handle that is passed by, and the end of a body. So a loop that isn't refused comes to a line, and stands still nowhere. It does
/// nothing, and is called for its clause.
pub fn steps_get_on()
    ensures { (p : Program) (s : State) (e : Event) → Lessens (quiet s) (next p s e) }
{}

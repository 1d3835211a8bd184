//! What ops answer, by the lines.
ghost use Rattle.std.specs.Prelude.{List};
ghost use Rattle.uv_ids.specs.declared.event.Event.{Event};
ghost use Rattle.uv_script.specs.Program.{Program};
ghost use Rattle.uv_order.specs.History.{history};
ghost use Rattle.uv_order.specs.Answers.{AreAnswered};

/// For every script and every list of steps, each op answers what the lines before it tell, and so does a send and a cancel from outside:
/// EBOUND just where its name is live, ESTALE where it isn't, EKIND where that is of another kind than the op is for, EINVAL where it closes
/// or was never started, EBUSY of a request that a worker took; and else what is so: whether a handle is active, closes, is referenced, in
/// how many ms a timer is due, the time, whether the loop is alive, how long a poll might wait, whether anything is left. It does nothing,
/// and is called for its clause.
pub fn answers_told()
    ensures { (p : Program) (es : List Event) → AreAnswered p (history p es) }
{}

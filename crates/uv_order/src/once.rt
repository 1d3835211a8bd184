//! What happens once, by the lines of a trace.
ghost use Rattle.std.specs.Prelude.{List};
ghost use Rattle.uv_ids.specs.declared.event.Event.{Event};
ghost use Rattle.uv_script.specs.Program.{Program};
ghost use Rattle.uv_model.specs.After.{lines};
ghost use Rattle.uv_order.specs.Once.{Once};

/// For every script and every list of steps, by the lines that the steps append: no id is answered twice; each handle has at most one line
/// `closed`, behind an accepted `close`, and is not called behind that; a handle that is called was started, and not stopped since; and each
/// request has at most one line `after`, behind its `queue`, with ECANCELED where no worker took it and a cancel was accepted, else with the
/// digest of what was queued, behind one `out take` and one `out finish` line. A cancel that is accepted has the id of a queued request
/// that no worker took. It does nothing, and is called for its clause.
#[tactic(auto, using(crate::proofs::Documents::once))]
pub fn closes_once()
    ensures { (p : Program) (es : List Event) → Once p (lines p es) }
{}

//! The documented order of phases.
ghost use Rattle.std.specs.Prelude.{List};
ghost use Rattle.uv_ids.specs.declared.event.Event.{Event};
ghost use Rattle.uv_script.specs.Program.{Program};
ghost use Rattle.uv_order.specs.History.{history};
ghost use Rattle.uv_order.specs.Documented.{Documented};

/// For every script and every list of steps, the lines that the steps append are in the documented order. It does nothing, and
/// is called for its clause.
#[tactic(auto, using(crate::proofs::Documents::documented))]
pub fn documented_order()
    ensures { (p : Program) (es : List Event) → Documented p (history p es) }
{}

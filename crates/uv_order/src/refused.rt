//! What the documented order and once refuse.
ghost use Rattle.std.specs.Prelude.{List};
ghost use Rattle.uv_ids.specs.declared.seen.Seen.{Seen};
ghost use Rattle.uv_script.specs.Program.{Program};
ghost use Rattle.uv_order.specs.Line.{Line};
ghost use Rattle.uv_order.specs.Refused.{RefusedOnce, RefusedOrder};

/// Lines that no trace which keeps the documented order, or once, has, whatever stands before and behind them. By the lines alone: a cancel
/// answers a bare ok, or is accepted of a request that a worker took. With the states: a poll waits although a handle closes, a timer that an
/// op of a section of timers started is called in that section, where due timers are collected first, an async handle is called again
/// although nobody sent since its last call, a callback of I/O begins in a section of timers, or of idle, prepare, check or closing handles.
/// It does nothing, and is called for its clauses.
#[tactic(auto, using(crate::proofs::RefusedOnce::refused, crate::proofs::RefusedOrder::refused))]
pub fn orders_refuse()
    ensures once { (p : Program) (before more : List Seen) → RefusedOnce p before more }
    ensures order { (p : Program) (before more : List Line) → RefusedOrder p before more }
{}

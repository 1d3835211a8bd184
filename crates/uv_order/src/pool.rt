//! The thread pool, by the lines of a trace.
ghost use Rattle.std.specs.Prelude.{List, ◌≡◌, Some};
ghost use Rattle.uv_ids.specs.declared.event.Event.{Event};
ghost use Rattle.uv_script.specs.Program.{Program, worker_count};
ghost use Rattle.uv_work.specs.Pool.{replay};
ghost use Rattle.uv_model.specs.After.{after, lines};
ghost use Rattle.uv_order.specs.PoolEvents.{pool_events, pool_of};

/// For every script and every list of steps, the events of the thread pool that the lines say can be one after another by its rules, and
/// the pool after them is that of the state: so a log of these events stands for the steps. It does nothing, and is called for its
/// clause.
#[tactic(auto, using(crate::proofs::Documents::pools))]
pub fn pool_follows()
    ensures { (p : Program) (es : List Event) → replay (worker_count p) (pool_events p (lines p es)) ≡ Some (pool_of (after p es)) }
{}

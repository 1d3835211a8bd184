//! What a step of the loop did to the thread pool, by the line that it appended.
ghost use Rattle.std.specs.Prelude.{◌≡◌, Some, option_to_list};
ghost use Rattle.uv_ids.specs.declared.seen.Seen.TheVariants as seen;
ghost use Rattle.uv_order.specs.PoolEvents.{op_events};
ghost use Rattle.uv_script.specs.Program.{op_at};
ghost use Rattle.uv_live.specs.Course.{events_of, job_of};
ghost use Rattle.uv_run.specs.Events.{events_in, events_of_loop, job_asked, job_at, job_by};

use uv_ids::{Answer, Seen, Site};
use uv_live::Did;
use uv_script::{Op, Script};
use uv_work::{Job, PoolEvent};

/// What an op did that answered this.
fn did_op(op: Op, answer: Answer) -> Did
    ensures events { events_of result ≡ op_events op answer }
    ensures job { job_of result ≡ job_asked op answer }
{
    match (op, answer) {
        (Op::Queue(_, task), Answer::Id(req)) => Did::Queued(Job { req, task }),
        (Op::Cancel(_), Answer::Cancelled(id)) => Did::Cancelled(id),
        _ => Did::Nothing,
    }
}

/// What the op at a place did.
fn did_at(script: &Script, site: Site, answer: Answer) -> Did
    ensures events { events_of result ≡ events_in script.now (Some (seen.Op site answer)) }
    ensures job { job_of result ≡ job_at (op_at script.now site) answer }
{
    match script.op_at(site) {
        Some(op) => did_op(op, answer),
        None => Did::Nothing,
    }
}

/// What a step of the loop did.
pub(crate) fn did(script: &Script, seen: Option<Seen>) -> Did
    ensures events { events_of result ≡ events_of_loop script.now seen }
    ensures job { job_of result ≡ job_by script.now seen }
{
    match seen {
        Some(Seen::Op(site, answer)) => did_at(script, site, answer),
        Some(Seen::After(_, _, id)) => Did::Collected(id),
        _ => Did::Nothing,
    }
}

/// The pool's event of a line.
pub(crate) fn event_of_line(script: &Script, seen: Option<Seen>) -> Option<PoolEvent>
    ensures { option_to_list result ≡ events_in script.now seen }
{
    match seen {
        Some(Seen::Take(k, _, id)) => Some(PoolEvent::Take(k, id)),
        Some(Seen::Finish(k, _, id)) => Some(PoolEvent::Finish(k, id)),
        Some(Seen::Cancel(_, Answer::Cancelled(id))) => Some(PoolEvent::Cancel(id)),
        Some(Seen::Op(_, _) | Seen::After(_, _, _)) => event_of(did(script, seen)),
        _ => None,
    }
}

/// The pool's event of it.
fn event_of(did: Did) -> Option<PoolEvent>
    ensures { option_to_list result ≡ events_of did }
{
    match did {
        Did::Nothing => None,
        Did::Queued(job) => Some(PoolEvent::Queue(job.req)),
        Did::Cancelled(id) => Some(PoolEvent::Cancel(id)),
        Did::Collected(id) => Some(PoolEvent::Collect(id)),
    }
}

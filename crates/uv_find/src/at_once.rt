//! Where a worker takes a request at once.
ghost use Rattle.std.specs.Prelude.{◌≡◌, ◌&&◌};
ghost use Rattle.uv_asking.specs.Asked.{asked_in};
ghost use Rattle.uv_find.specs.Holding.{is_clear_of_takes, are_clear_of_takes, is_no_cancel, is_of_pool, loop_number};
ghost use Rattle.uv_find.specs.Ops.{each_op};

use crate::forgetting::may_forget;
use crate::holding::asks_late;
use crate::ops::{OpTest, each_op};
use uv_asking::{Asking, Offer, Offered};
use uv_ids::Event;
use uv_script::{Op, Script};

/// Whether beside the pool only times, sends and callbacks of I/O come: workers are alike, no time of a callback is said, and none is asked for.
pub(crate) fn is_of_pool(script: &Script, asking: &Asking) -> bool
    ensures { result ≡ is_of_pool script.now (asked_in asking.now) }
{
    may_forget(script, asking)
        && asking.takes.is_empty()
        && !asks_late(asking.question)
        && are_clear_of_takes(&asking.offers)
}

/// Whether a worker may take a request at once: so it is, and nobody cancels.
pub(crate) fn may_take_at_once(script: &Script, of_pool: bool) -> bool
    ensures { result ≡ (of_pool && each_op is_no_cancel script.now) }
{
    of_pool && each_op(script, script.names().len(), OpTest::IsNoCancel)
}

/// The number of the loop's step among the moves.
pub(crate) fn loop_number(at_once: bool) -> usize
    ensures { result ≡ loop_number at_once }
{
    if at_once { 1 } else { 0 }
}

/// Whether an offer is a time that goes by, a send, or a callback of I/O.
fn is_clear_of_takes(offer: Offer) -> bool
    ensures { result ≡ is_clear_of_takes offer }
{
    match offer {
        Offer::Wait => true,
        Offer::WaitFor(_) => true,
        Offer::Step(Event::Tick(_)) => true,
        Offer::Step(Event::Send(_)) => true,
        Offer::Step(Event::Io(_)) => true,
        _ => false,
    }
}

fn are_clear_of_takes(offers: &[Offered]) -> bool
    ensures { result ≡ are_clear_of_takes offers.now }
{
    offers
        .iter()
        .all(|offered| is_clear_of_takes(offered.offer))
}

/// Whether an op cancels no request.
pub(crate) fn is_no_cancel(op: Op) -> bool
    ensures { result ≡ is_no_cancel op }
{
    match op {
        Op::Cancel(_) => false,
        _ => true,
    }
}

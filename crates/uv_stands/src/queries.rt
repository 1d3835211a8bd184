//! What the memory says of the loop's life and of its poll.
ghost use Rattle.std.specs.Prelude.{◌≡◌, ◌≤◌, IfSome};
ghost use Rattle.uv_model.specs.Ids.{has_some};
ghost use Rattle.uv_model.specs.Ops.{is_in_use};
ghost use Rattle.uv_model.specs.Queries.{members};
ghost use Rattle.uv_model.specs.Timeout.{is_alive, has_closing, has_pending, has_idle, has_passed, until_first, backend_timeout, poll_timeout};
ghost use Rattle.uv_model.specs.Next.{is_woken, may_leave};
ghost use Rattle.uv_memory.specs.Image.{held};
ghost use Rattle.uv_stands.specs.Doing.{OfEach};

use crate::packed_place::PackedPlace;
use uv_ids::Mode;
use uv_memory::Memory;
use uv_model::LONGEST_POLL;
use uv_records::ListName;

/// Whether a list has a member.
pub fn has_members(memory: &Memory<PackedPlace>, list: ListName) -> bool
    ensures { OfEach (held memory.now).image (λ s. has_some (members s list) ≡ result) }
{
    memory.slots().first(list).is_some()
}

/// Whether a handle closes whose close callback is still to come.
fn has_closing(memory: &Memory<PackedPlace>) -> bool
    ensures { OfEach (held memory.now).image (λ s. has_closing s ≡ result) }
{
    has_members(memory, ListName::Closing) || has_members(memory, ListName::ClosingYet)
}

/// Whether an idle handle is active.
fn has_idle(memory: &Memory<PackedPlace>) -> bool
    ensures { OfEach (held memory.now).image (λ s. has_idle s ≡ result) }
{
    has_members(memory, ListName::Idle) || has_members(memory, ListName::IdleYet)
}

/// Whether the loop is alive: some handle is active and referenced, or closes, or there is a request (uv_loop_alive).
pub fn is_alive(memory: &Memory<PackedPlace>) -> bool
    ensures { OfEach (held memory.now).image (λ s. is_alive s ≡ result) }
{
    memory.is_fit();
    if memory.handles().active_referenced() > 0 {
        return true;
    }
    if memory.requests().open_requests() > 0 {
        return true;
    }
    has_closing(memory)
}

/// Whether some async handle was sent to, and not called since.
pub fn has_pending(memory: &Memory<PackedPlace>) -> bool
    ensures { OfEach (held memory.now).image (λ s. has_pending s ≡ result) }
{
    memory.slots().holds_pending()
}

/// Whether a poll is woken: a request is done, or an async handle was sent to.
pub fn is_woken(memory: &Memory<PackedPlace>) -> bool
    ensures { OfEach (held memory.now).image (λ s. is_woken s ≡ result) }
{
    has_members(memory, ListName::Done) || has_pending(memory)
}

/// Whether the poll may be left: its deadline has passed, or it is woken.
pub fn may_leave(memory: &Memory<PackedPlace>, deadline: Option<u64>) -> bool
    ensures { OfEach (held memory.now).image (λ s. may_leave s deadline ≡ result) }
{
    has_passed(memory.clock(), deadline) || is_woken(memory)
}

/// Whether the clock has reached a deadline.
fn has_passed(clock: u64, deadline: Option<u64>) -> bool
    ensures { result ≡ has_passed clock deadline }
{
    deadline.is_some_and(|deadline| deadline <= clock)
}

/// Whether some slot holds a handle or a request, so that the loop can't be closed (uv_loop_close).
pub fn is_in_use(memory: &Memory<PackedPlace>) -> bool
    ensures { OfEach (held memory.now).image (λ s. is_in_use s ≡ result) }
{
    memory.slots().holds_any()
}

/// In how many ms the first timer is due; none is infinite.
fn until_first(memory: &Memory<PackedPlace>) -> Option<u64>
    ensures timeout { OfEach (held memory.now).image (λ s. until_first s.time s.timers ≡ result) }
    ensures short { IfSome result (λ ms. ms ≤ LONGEST_POLL) }
{
    match memory.heap().least() {
        None => None,
        Some(entry) => {
            let left = entry.due.at.saturating_sub(memory.times().time);
            Some(left.min(LONGEST_POLL))
        }
    }
}

/// How long a poll might wait, in ms; none is infinite (uv_backend_timeout).
pub fn backend_timeout(memory: &Memory<PackedPlace>) -> Option<u64>
    ensures timeout { OfEach (held memory.now).image (λ s. backend_timeout s ≡ result) }
    ensures short { IfSome result (λ ms. ms ≤ LONGEST_POLL) }
{
    if memory.stop_flag() || !is_alive(memory) || has_idle(memory) || has_closing(memory) {
        return Some(0);
    }
    until_first(memory)
}

/// How long the poll of a run may wait, in ms; none is infinite. In once it doesn't wait where an idle handle was active as the
/// iteration began (own).
pub fn poll_timeout(memory: &Memory<PackedPlace>, mode: Mode) -> Option<u64>
    ensures timeout { OfEach (held memory.now).image (λ s. poll_timeout s mode ≡ result) }
    ensures short { IfSome result (λ ms. ms ≤ LONGEST_POLL) }
{
    match mode {
        Mode::Nowait => Some(0),
        Mode::Once if memory.idled() => Some(0),
        Mode::Default | Mode::Once => backend_timeout(memory),
    }
}

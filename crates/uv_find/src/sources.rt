//! The sources of what came in a recording.
ghost use Rattle.std.specs.Prelude.{◌≡◌, ◌<◌, ◌+◌, ◌^◌, IfOk, length, slice_get, not, ◌&&◌};
ghost use Rattle.uv_find.specs.Orders.{is_akin, is_akin_to, is_new, is_first_by, is_first, sources, next_of};

use crate::left::Left;
use std::alloc::{AllocError, Global};
use uv_asking::Recorded;
use uv_ids::Event;

/// Whether two events are of one source: for one name, of one worker, or of the clock.
fn is_akin(one: Event, other: Event) -> bool
    ensures { result ≡ is_akin one other }
{
    match (one, other) {
        (Event::Take(one), Event::Take(other)) => one == other,
        (Event::Finish(one), Event::Finish(other)) => one == other,
        (Event::Cancel(one), Event::Cancel(other)) => one.0 == other.0,
        (Event::Send(one), Event::Send(other)) => one.0 == other.0,
        (Event::Io(one), Event::Io(other)) => one.0 == other.0,
        (Event::Tick(_), Event::Tick(_)) => true,
        _ => false,
    }
}

fn is_akin_to(event: Event, recorded: Option<Recorded>) -> bool
    ensures { result ≡ is_akin_to event recorded }
{
    match recorded {
        None => false,
        Some(recorded) => is_akin(recorded.event, event),
    }
}

fn both(one: bool, other: bool) -> bool
    ensures { result ≡ (one && other) }
{
    one && other
}

/// Whether none of the first recorded events, so many, is of this one's source.
fn is_new(recorded: &[Recorded], event: Event, count: usize) -> bool
    ensures { result ≡ is_new recorded.now event count }
{
    let mut new = true;
    'events: for number in 0..count {
        new = both(new, !is_akin_to(event, recorded.get(number).copied()));
    }
    new
}

/// Whether the recorded event of this number is the first of its source.
fn is_first(recorded: &[Recorded], number: usize) -> bool
    ensures { result ≡ is_first recorded.now number }
{
    match recorded.get(number).copied() {
        None => false,
        Some(came) => is_new(recorded, came.event, number),
    }
}

/// The sources of what came in a recording. Of each the first event is ahead.
pub(crate) fn sources(alloc: Global, recorded: &[Recorded]) -> Result<Vec<Left>, AllocError>
    ensures { IfOk result (λ all. all.items ≡ sources recorded.now (length recorded.now)) }
{
    let mut all = Vec::new(alloc);
    'events: for number in 0..recorded.len() {
        if is_first(recorded, number) {
            all.push(Left::Ahead(number))?;
        }
    }
    Ok(all)
}

/// The next event of a source, among those from this number on.
pub(crate) fn next_of(event: Event, recorded: &[Recorded], first: usize) -> Left
    requires { first + length recorded.now < 2 ^ 64 }
    ensures { result ≡ next_of event recorded.now first }
{
    let mut number = first;
    'events: for came in recorded {
        if is_akin(came.event, event) {
            return Left::Ahead(number);
        }
        number += 1;
    }
    Left::Over
}

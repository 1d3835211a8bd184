//! The form of a state by its names: how much earlier its times are, and how far counts of calls go.
ghost use Rattle.std.specs.Prelude.{◌≡◌, ◌-◌, min, option_map};
ghost use Rattle.uv_names.specs.Counts.{capped_calls, capped_body, capped_place};
ghost use Rattle.uv_shift.specs.Earliest.{earlier};
ghost use Rattle.uv_shift.specs.Retimed.{retimed_handle, retimed_stage, retimed_place};
ghost use Rattle.uv_state_key.specs.Computed.{by_of, numbers_by};

use crate::places::stage_deadline;
use uv_ids::Due;
use uv_model::{Body, Numbers, Place, Run, Stage};
use uv_records::{Calls, HandleRecord};

/// The form: by how much the state's numbers are more than those of it.
#[derive(Clone, Copy)]
pub(crate) struct Form {
    /// Counts of calls go up to this.
    pub most: u64,
    /// The times, in ms.
    pub ms: u64,
    /// The numbers of starts.
    pub starts: u64,
}

// ---- counts

fn less_count(most: u64, count: u32) -> u32
    ensures { result ≡ min count most }
{
    if u64::from(count) < most {
        count
    } else {
        most as u32
    }
}

pub(crate) fn less_calls(most: u64, calls: Calls) -> Calls
    ensures { result ≡ capped_calls most calls }
{
    Calls {
        handle: less_count(most, calls.handle),
        after: less_count(most, calls.after),
        close: less_count(most, calls.close),
    }
}

// ---- times

#[inline(always)]
fn less_due(form: Form, due: Due) -> Due
    ensures at { result.at ≡ due.at - form.ms }
    ensures start { result.start ≡ due.start - form.starts }
{
    Due {
        at: due.at.saturating_sub(form.ms),
        start: due.start.saturating_sub(form.starts),
    }
}

/// Only an active timer has a due time.
#[inline(always)]
pub(crate) fn less_handle(form: Form, handle: HandleRecord) -> HandleRecord
    ensures { result ≡ retimed_handle (earlier (by_of form)) handle }
{
    if handle.active && handle.is_timer() {
        HandleRecord {
            due: less_due(form, handle.due),
            ..handle
        }
    } else {
        handle
    }
}

/// Only a poll has a deadline.
fn less_stage(form: Form, stage: Stage) -> Stage
    ensures { result ≡ retimed_stage (earlier (by_of form)) stage }
{
    match stage_deadline(stage) {
        None => stage,
        Some(at) => Stage::Poll(Some(at.saturating_sub(form.ms))),
    }
}

fn less_body(most: u64, body: Option<Body>) -> Option<Body>
    ensures { result ≡ option_map (capped_body most) body }
{
    match body {
        None => None,
        Some(body) => Some(Body {
            call: less_count(most, body.call),
            ..body
        }),
    }
}

/// Where the loop stands.
pub(crate) fn less_place(form: Form, place: Place) -> Place
    ensures { result ≡ retimed_place (earlier (by_of form)) (capped_place form.most place) }
{
    match place {
        Place::Main(line) => Place::Main(line),
        Place::Running(run) => Place::Running(Run {
            stage: less_stage(form, run.stage),
            body: less_body(form.most, run.body),
            ..run
        }),
    }
}

/// The loop's numbers.
pub(crate) fn less_numbers(form: Form, numbers: Numbers) -> Numbers
    ensures { result ≡ numbers_by (by_of form) numbers }
{
    Numbers {
        time: numbers.time.saturating_sub(form.ms),
        clock: numbers.clock.saturating_sub(form.ms),
        next_start: numbers.next_start.saturating_sub(form.starts),
        ..numbers
    }
}

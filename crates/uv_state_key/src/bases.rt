//! By how much the times of a machine's state are later than they have to be.
ghost use Rattle.std.specs.Prelude.{◌≡◌, IfOk};
ghost use Rattle.uv_model.specs.After.{after};
ghost use Rattle.uv_shift.specs.Earliest.{base, or_deadline, or_over};
ghost use Rattle.uv_state_key.specs.Computed.{by_of, due_at, first_at, least_among};

use crate::forms::Form;
use crate::places::stage_deadline;
use std::alloc::AllocError;
use uv_ids::{Due, Id};
use uv_model::{Machine, Place, Stage};
use uv_work::Content;

/// When an active timer is due.
fn due_at<M: Machine>(machine: &M, id: Id) -> Due
    ensures { result ≡ due_at (after (M.program machine.now) (M.standing machine.now)) id }
{
    match machine.held(id) {
        Some(Content::Handle(handle)) => handle.due,
        Some(Content::Request(_)) => Due { at: 0, start: 0 },
        None => Due { at: 0, start: 0 },
    }
}

/// When the first of these timers is due, if that is earlier.
fn first_at<M: Machine>(machine: &M, timers: &[Id], at: u64) -> u64
    ensures { result ≡ first_at (after (M.program machine.now) (M.standing machine.now)) timers.now at }
{
    match timers.first() {
        None => at,
        Some(id) => due_at(machine, *id).at.min(at),
    }
}

/// The least start number of these timers, and of this one.
fn least_among<M: Machine>(machine: &M, timers: &[Id], start: u64) -> u64
    ensures { result ≡ least_among (after (M.program machine.now) (M.standing machine.now)) timers.now start }
{
    let mut least = start;
    for id in timers {
        least = due_at(machine, *id).start.min(least);
    }
    least
}

/// When a poll is over, if that is earlier.
fn or_deadline(stage: Stage, at: u64) -> u64
    ensures { result ≡ or_deadline stage at }
{
    match stage_deadline(stage) {
        None => at,
        Some(deadline) => deadline.min(at),
    }
}

fn or_over(place: Place, at: u64) -> u64
    ensures { result ≡ or_over place at }
{
    match place {
        Place::Main(_) => at,
        Place::Running(run) => or_deadline(run.stage, at),
    }
}

/// How much earlier the times of a machine's state may be, with calls counted up to a number.
pub(crate) fn form_of<M: Machine>(machine: &M, most: u64) -> Result<Form, AllocError>
    ensures by { IfOk result (λ form. by_of form ≡ base (after (M.program machine.now) (M.standing machine.now))) }
    ensures most { IfOk result (λ form. form.most ≡ most) }
{
    let Ok(timers) = machine.timers() else {
        return Err(AllocError);
    };
    let numbers = machine.numbers();
    let at = first_at(machine, timers.as_slice(), numbers.time.min(numbers.clock));
    Ok(Form {
        most,
        ms: or_over(machine.place(), at),
        starts: least_among(machine, timers.as_slice(), numbers.next_start),
    })
}

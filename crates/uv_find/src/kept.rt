//! What a search keeps beside the loop's state.
ghost use Rattle.std.specs.Prelude.{◌≡◌, ◌+◌, ◌<◌, ◌^◌, ◌==◌, ◌&&◌, length};
ghost use Rattle.uv_model.specs.After.{after};
ghost use Rattle.uv_model.specs.State.{named};
ghost use Rattle.uv_records.specs.Handles.{is_timer};
ghost use Rattle.uv_find.specs.Kept.{none_kept, is_timers_stage, is_in_timers, due_else, due_of, due_in, due_under, kept_due, caller, is_over, is_of_calls, said_time, or_time, time_taken, takes_time, time_at_end, owed_in, owed_by, owed_after, onward, behind, is_poll, nearer, arrived, along_after, with_spare, waited, kept_after, owes};

use crate::terms::Terms;
use uv_asking::{Question, Recorded, Takes};
use uv_ids::{Callback, Event, Seen, Site, Var};
use uv_model::{Machine, Place, Stage};
use uv_records::HandleRecord;
use uv_work::Content;

/// What a search keeps of the steps that led to where it stands.
#[derive(Clone, Copy, PartialEq, Eq)]
pub struct Kept {
    /// When the timer that is asked about is due, or was as it was last active; the clock where nothing can ask for that.
    pub due: u64,
    /// How many ms the callback still takes that has ended.
    pub owed: u64,
    /// How far the order is along the recording.
    pub along: Along,
}

/// How far an order is along the recording that it may differ from.
#[derive(Clone, Copy, PartialEq, Eq)]
pub struct Along {
    /// The number of the next recorded event: the place of each before it was reached.
    pub next: usize,
    /// So many polls are still to come before its place.
    pub polls: u32,
    /// And behind the last of them so many steps of the loop.
    pub steps: u32,
    /// So many recorded events may still come at another place.
    pub spare: u32,
}

/// Whether the place of a recorded event is that of the one before it.
fn is_near(event: Recorded) -> bool
    ensures { result ≡ ((event.polls == 0) && (event.steps == 0)) }
{
    event.polls == 0 && event.steps == 0
}

/// Behind the place of a recorded event, where these are behind it, the first of them of this number.
fn onward(recorded: &[Recorded], first: usize, spare: u32) -> Along
    requires { first + length recorded.now < 2 ^ 64 }
    ensures { result ≡ onward recorded.now first spare }
{
    let mut next = first;
    'events: for event in recorded {
        if !is_near(*event) {
            return Along {
                next,
                polls: event.polls,
                steps: event.steps,
                spare,
            };
        }
        next += 1;
    }
    Along {
        next,
        polls: 0,
        steps: 0,
        spare,
    }
}

/// Behind the place of the recorded event of this number.
pub fn behind(recorded: &[Recorded], number: usize, spare: u32) -> Along
    requires { number < length recorded.now }
    ensures { result ≡ behind recorded.now number spare }
{
    onward(&recorded[number + 1..], number + 1, spare)
}

fn is_poll(line: Option<Seen>) -> bool
    ensures { result ≡ is_poll line }
{
    match line {
        Some(Seen::Poll(_)) => true,
        _ => false,
    }
}

/// One step of the loop nearer to the next event's place.
fn nearer(along: Along, polls: bool) -> Along
    ensures { result ≡ nearer along polls }
{
    if polls {
        Along {
            next: along.next,
            polls: along.polls.saturating_sub(1),
            steps: if along.polls == 0 { 0 } else { along.steps },
            spare: along.spare,
        }
    } else {
        Along {
            next: along.next,
            polls: along.polls,
            steps: if along.polls == 0 {
                along.steps.saturating_sub(1)
            } else {
                along.steps
            },
            spare: along.spare,
        }
    }
}

/// Past the places that are reached.
fn arrived(recorded: &[Recorded], along: Along) -> Along
    ensures { result ≡ arrived recorded.now along }
{
    if along.next < recorded.len() && (along.polls == 0 && along.steps == 0) {
        behind(recorded, along.next, along.spare)
    } else {
        along
    }
}

/// How far the order is behind an event with this line.
fn along_after(recorded: &[Recorded], along: Along, event: Event, line: Option<Seen>) -> Along
    ensures { result ≡ along_after recorded.now along event line }
{
    match event {
        Event::Loop => arrived(recorded, nearer(along, is_poll(line))),
        _ => along,
    }
}

/// What is kept where so many recorded events may still come at another place.
pub fn with_spare(kept: Kept, spare: u32) -> Kept
    ensures { result ≡ with_spare kept spare }
{
    Kept {
        due: kept.due,
        owed: kept.owed,
        along: Along {
            next: kept.along.next,
            polls: kept.along.polls,
            steps: kept.along.steps,
            spare,
        },
    }
}

/// What is kept where the loop has waited: that is one of the steps to the next event's place.
pub fn waited(recorded: &[Recorded], kept: Kept) -> Kept
    ensures { result ≡ waited recorded.now kept }
{
    Kept {
        due: kept.due,
        owed: kept.owed,
        along: arrived(recorded, nearer(kept.along, false)),
    }
}

/// What is kept where a search begins.
pub fn none_kept(recorded: &[Recorded], differ: Option<u32>) -> Kept
    ensures { result ≡ none_kept recorded.now differ }
{
    Kept {
        due: 0,
        owed: 0,
        along: onward(recorded, 0, differ.unwrap_or(0)),
    }
}

fn is_timers_stage(stage: Stage) -> bool
    ensures { result ≡ is_timers_stage stage }
{
    match stage {
        Stage::Timers(..) => true,
        _ => false,
    }
}

/// Whether the loop is in a section of timers.
fn is_in_timers(place: Place) -> bool
    ensures { result ≡ is_in_timers place }
{
    match place {
        Place::Main(_) => false,
        Place::Running(run) => is_timers_stage(run.stage),
    }
}

/// When a timer is due that isn't active.
fn due_else<M: Machine>(machine: &M, due: u64) -> u64
    ensures { result ≡ due_else (after (M.program machine.now) (M.standing machine.now)) due }
{
    if is_in_timers(machine.place()) {
        due
    } else {
        machine.numbers().clock
    }
}

/// When a handle's callback is due, or since when it waits.
fn due_of(handle: HandleRecord, due: u64, other: u64, clock: u64) -> u64
    ensures { result ≡ due_of (is_timer handle.kind) handle.active handle.pending handle.due.at due other clock }
{
    if handle.is_timer() {
        if handle.active { handle.due.at } else { other }
    } else if handle.pending {
        due
    } else {
        clock
    }
}

/// While there is a request, what was kept. Where there is nothing, the clock.
fn due_in(content: Option<Content>, due: u64, other: u64, clock: u64) -> u64
    ensures { result ≡ due_in content due other clock }
{
    match content {
        Some(Content::Handle(handle)) => due_of(handle, due, other, clock),
        Some(Content::Request(_)) => due,
        None => clock,
    }
}

/// When what a name is bound to is due, or since when it waits, where this was kept.
fn due_under<M: Machine>(machine: &M, name: Var, due: u64) -> u64
    ensures { let s = after (M.program machine.now) (M.standing machine.now)
        in result ≡ due_under s (named s name).id due }
{
    let clock = machine.numbers().clock;
    match machine.named(name).id {
        None => clock,
        Some(id) => due_in(machine.held(id), due, due_else(machine, due), clock),
    }
}

/// What is kept of that, as the machine stands.
fn kept_due<M: Machine>(machine: &M, question: Question, due: u64) -> u64
    ensures { result ≡ kept_due question (after (M.program machine.now) (M.standing machine.now)) due }
{
    match question {
        Question::Late(name, _) => due_under(machine, name, due),
        _ => due,
    }
}

/// The callback in which a line was appended.
fn caller(line: Seen) -> Option<(Callback, Var)>
    ensures { result ≡ caller line }
{
    match line {
        Seen::Call(name, _) => Some((Callback::Handle, name)),
        Seen::Io(name, _) => Some((Callback::Handle, name)),
        Seen::After(_, name, _) => Some((Callback::After, name)),
        Seen::Closed(name, _) => Some((Callback::Close, name)),
        Seen::Op(Site::In(callback, name, _), _) => Some((callback, name)),
        _ => None,
    }
}

/// Whether no callback is under way.
fn is_over(place: Place) -> bool
    ensures { result ≡ is_over place }
{
    match place {
        Place::Main(_) => true,
        Place::Running(run) => run.body.is_none(),
    }
}

/// Whether a time is said of these calls of a name.
fn is_of_calls(takes: Takes, name: Var, call: Option<u32>) -> bool
    ensures { result ≡ is_of_calls name call takes }
{
    takes.name.0 == name.0 && takes.call == call
}

/// The time that is said of these calls of a name.
fn said_time(takes: &[Takes], name: Var, call: Option<u32>) -> Option<u64>
    ensures { result ≡ said_time takes.now name call }
{
    'times: for time in takes {
        if is_of_calls(*time, name, call) {
            return Some(time.ms);
        }
    }
    None
}

/// The time of one call, or else that of each.
fn or_time(once: Option<u64>, each: Option<u64>) -> u64
    ensures { result ≡ or_time once each }
{
    match once {
        Some(ms) => ms,
        None => each.unwrap_or(0),
    }
}

/// How long this call takes.
fn time_taken(takes: &[Takes], name: Var, call: u32) -> u64
    ensures { result ≡ time_taken takes.now name call }
{
    or_time(
        said_time(takes, name, Some(call)),
        said_time(takes, name, None),
    )
}

/// Whether a callback takes time.
pub fn takes_time(callback: Callback) -> bool
    ensures { result ≡ takes_time callback }
{
    match callback {
        Callback::Handle => true,
        Callback::After => true,
        Callback::Close => false,
    }
}

/// The time of a callback, where that is at its end.
fn time_at_end<M: Machine>(machine: &M, takes: &[Takes], callback: Callback, name: Var) -> u64
    ensures { result ≡ time_at_end takes.now (after (M.program machine.now) (M.standing machine.now)) (callback, name) }
{
    if takes_time(callback) && is_over(machine.place()) {
        time_taken(takes, name, machine.named(name).calls.of(callback))
    } else {
        0
    }
}

/// How many ms a callback still takes that has ended, behind a step with this line.
fn owed_by<M: Machine>(machine: &M, takes: &[Takes], owed: u64, line: Seen) -> u64
    ensures { result ≡ owed_by takes.now owed (after (M.program machine.now) (M.standing machine.now)) line }
{
    match line {
        Seen::Tick(_) => 0,
        _ => match caller(line) {
            None => owed,
            Some((callback, name)) => time_at_end(machine, takes, callback, name),
        },
    }
}

fn owed_after<M: Machine>(machine: &M, takes: &[Takes], owed: u64, line: Option<Seen>) -> u64
    ensures { result ≡ owed_after takes.now owed (after (M.program machine.now) (M.standing machine.now)) line }
{
    match line {
        None => owed,
        Some(line) => owed_by(machine, takes, owed, line),
    }
}

/// What is kept behind an event with this line, as the machine stands.
pub fn kept_after<M: Machine>(
    machine: &M,
    terms: &Terms,
    kept: Kept,
    event: Event,
    line: Option<Seen>,
) -> Kept
    ensures { result ≡ kept_after terms.now.recorded.items terms.now.takes.items terms.now.question kept event
        (after (M.program machine.now) (M.standing machine.now)) line }
{
    Kept {
        due: kept_due(machine, terms.question, kept.due),
        owed: owed_after(machine, &terms.takes, kept.owed, line),
        along: along_after(&terms.recorded, kept.along, event, line),
    }
}

/// Whether a callback's time is still to go by.
pub fn owes(kept: Kept) -> bool
    ensures { result ≡ owes kept }
{
    0 < kept.owed
}

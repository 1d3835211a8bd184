//! The text of a state.
#![tactic(auto, using(uv_script::proofs::Writing::writing))]

ghost use Rattle.std.specs.Prelude.{◌≡◌, ◌<◌, ◌^◌, ◌++◌, length, slice_get, IfOk, IfErr, codes};
ghost use Rattle.std.specs.List.{flat_map};
ghost use Rattle.uv_ids.specs.declared.fault.Fault.TheVariants.{Memory};
ghost use Rattle.uv_records.specs.Slots.{held};
ghost use Rattle.uv_model.specs.After.{after};
ghost use Rattle.uv_model.specs.declared.place.Place.TheVariants.{Running};
ghost use Rattle.uv_model.specs.Queries.{numbers, timer_ids};
ghost use Rattle.uv_script.specs.Writes.{Writes};
ghost use Rattle.uv_script.specs.Text.{name_text};
ghost use Rattle.uv_text.specs.Trace.{id_text};
ghost use Rattle.uv_text.specs.State.{numbered, flagged, steps_line, timers_text, stage_text, callback_word, body_text, place_line, name_line, name_part, kind_text, front_text, record_text, open_text, outcome_text, request_text, empty_text, slot_line, slot_part, free_line, unused_line, holder_text, member_text, list_line, list_word, held_line, bound_line, named_text, members_line, before_poll, after_poll, run_text, runs_upto, running_line, work_text, last_part, part_after, part_count, state_text};

use crate::parts::{Parts, push_parts};
use crate::room::{letters, put, put_bound, put_counts, put_flags, put_id, put_name};
use crate::trace::{push_id, push_timeout};
use std::alloc::{AllocError, Global};
use uv_ids::{Callback, Fault, Id, Kind, Var};
use uv_model::{Body, Machine, Numbers, Place, Run, Stage, TimersOf, Timing};
use uv_records::{HandleRecord, ListName, Named};
use uv_script::{Script, push_number, push_task_text};
use uv_session::Session;
use uv_work::{Content, Outcome, Request};

/// The text of a session's state: its numbers, its place, its names, its slots and its lists.
pub fn state_text<M: Machine>(alloc: Global, session: &Session<M>) -> Result<Vec<u8>, Fault>
    ensures text { IfOk result (λ text. text.items ≡ state_text session.now) }
    ensures err { IfErr result (λ fault. fault ≡ Memory) }
{
    let mut text = Vec::new(alloc);
    push_state(&mut text, session)?;
    Ok(text)
}

/// Puts the text of a session's state behind a text.
pub(crate) fn push_state<M: Machine>(
    text: &mut Vec<u8>,
    session: &Session<M>,
) -> Result<(), AllocError>
    ensures { Writes result text.old.items (state_text session.now) text.new.items }
{
    push_parts(text, &StateParts { session })
}

/// The text of a session's state in parts.
#[derive(Drop)]
pub struct StateParts<'a, M: Machine> {
    pub session: &'a Session<M>,
}

impl<'a, M: Machine> Parts for StateParts<'a, M> {
    ghost use Rattle.uv_text.specs.State.{state_part, state_parts};

    ghost parts = { λ state. state_parts state.session.now };

    ghost part = { λ state. state_part state.session.now };

    fn part_count(&self) -> usize {
        state_part_count(self.session.machine())
    }

    fn push_part(&self, text: &mut Vec<u8>, number: usize) -> Result<(), AllocError> {
        let steps = self.session.steps().len();
        push_state_part(text, self.session.machine(), steps, number)
    }
}

/// How many parts stand behind the lines of the slots.
const LAST_PARTS: usize = 9;

fn state_part_count<M: Machine>(machine: &M) -> usize
    ensures { result ≡ part_count (M.program machine.now) (after (M.program machine.now) (M.standing machine.now)) }
{
    1 + machine.script().names().len() + machine.used() as usize + LAST_PARTS
}

/// The numbers and the place, the line of a name or of a slot, or a part behind these.
#[tactic(auto, using(uv_script::proofs::Writing::writing), unfolding(crate::specs::State::part_after))]
fn push_state_part<M: Machine>(
    text: &mut Vec<u8>,
    machine: &M,
    steps: usize,
    number: usize,
) -> Result<(), AllocError>
    requires { number < part_count (M.program machine.now) (after (M.program machine.now) (M.standing machine.now)) }
    ensures { Writes result text.old.items (part_after
        (M.program machine.now) steps (after (M.program machine.now) (M.standing machine.now)) number) text.new.items }
{
    let names = machine.script().names().len();
    let used = machine.used() as usize;
    if number == 0 {
        push_head(text, machine, steps)
    } else if number <= names {
        push_name(text, machine, number - 1)
    } else if number <= names + used {
        push_slot(text, machine, (number - 1 - names) as u32)
    } else {
        push_last(text, machine, number - 1 - names - used)
    }
}

/// The numbers, and the place.
fn push_head<M: Machine>(text: &mut Vec<u8>, machine: &M, steps: usize) -> Result<(), AllocError>
    ensures { Writes result text.old.items (
        steps_line steps (numbers (after (M.program machine.now) (M.standing machine.now)))
        ++ place_line (M.program machine.now) (after (M.program machine.now) (M.standing machine.now)).place) text.new.items }
{
    push_steps(text, steps, machine.numbers())?;
    push_place(text, machine.script(), machine.place())
}

/// What stands behind the lines of the slots, a part of it.
#[tactic(auto, using(uv_script::proofs::Writing::writing), unfolding(crate::specs::State::last_part))]
fn push_last<M: Machine>(text: &mut Vec<u8>, machine: &M, number: usize) -> Result<(), AllocError>
    ensures { Writes result text.old.items (last_part
        (M.program machine.now) (after (M.program machine.now) (M.standing machine.now)) number) text.new.items }
{
    match number {
        0 => push_free(text, machine),
        1 => push_unused(text, machine.unused()),
        2 => push_timer_list(text, machine),
        3 => push_members(text, machine, ListName::Ready),
        4 => push_before_poll(text, machine),
        5 => push_after_poll(text, machine),
        6 => push_members(text, machine, ListName::Closing),
        7 => push_members(text, machine, ListName::ClosingYet),
        _ => push_work(text, machine),
    }
}

/// A word and a number.
pub(crate) fn push_numbered(text: &mut Vec<u8>, word: &str, n: u64) -> Result<(), AllocError>
    ensures { Writes result text.old.items (numbered word.now n) text.new.items }
{
    text.extend_from_slice(word.as_bytes())?;
    push_number(text, n)
}

/// A word and 1 or 0.
fn push_flagged(text: &mut Vec<u8>, word: &str, flag: bool) -> Result<(), AllocError>
    ensures { Writes result text.old.items (flagged word.now flag) text.new.items }
{
    text.extend_from_slice(word.as_bytes())?;
    text.extend_from_slice(if flag { b"1" } else { b"0" })
}

#[tactic(auto, using(uv_script::proofs::Writing::writing), unfolding(crate::specs::State::steps_line))]
fn push_steps(text: &mut Vec<u8>, steps: usize, numbers: Numbers) -> Result<(), AllocError>
    ensures { Writes result text.old.items (steps_line steps numbers) text.new.items }
{
    push_numbered(text, "steps ", steps as u64)?;
    push_numbered(text, " now ", numbers.time)?;
    push_numbered(text, " clock ", numbers.clock)?;
    push_flagged(text, " stop ", numbers.stop_flag)?;
    push_numbered(text, " next ", numbers.next_start)?;
    push_flagged(text, " idled ", numbers.idled)?;
    text.extend_from_slice(b"\n")
}

fn push_timers(text: &mut Vec<u8>, which: TimersOf, timing: Timing) -> Result<(), AllocError>
    ensures { Writes result text.old.items (timers_text which timing) text.new.items }
{
    match (which, timing) {
        (TimersOf::Entry, Timing::Collecting) => text.extend_from_slice(b"first collect"),
        (TimersOf::Entry, Timing::Firing) => text.extend_from_slice(b"first fire"),
        (TimersOf::Iteration, Timing::Collecting) => text.extend_from_slice(b"timers collect"),
        (TimersOf::Iteration, Timing::Firing) => text.extend_from_slice(b"timers fire"),
    }
}

fn push_stage(text: &mut Vec<u8>, stage: Stage) -> Result<(), AllocError>
    ensures { Writes result text.old.items (stage_text stage) text.new.items }
{
    match stage {
        Stage::Entry => text.extend_from_slice(b"entry"),
        Stage::Pending => text.extend_from_slice(b"pending"),
        Stage::Walking(kind) => text.extend_from_slice(kind.phase().word().as_bytes()),
        Stage::Poll(deadline) => {
            text.extend_from_slice(b"poll ")?;
            push_timeout(text, deadline)
        }
        Stage::Polled(true) => text.extend_from_slice(b"polled woken"),
        Stage::Polled(false) => text.extend_from_slice(b"polled"),
        Stage::Done => text.extend_from_slice(b"done"),
        Stage::DoneUnwoken => text.extend_from_slice(b"done unwoken"),
        Stage::Closing => text.extend_from_slice(b"closing"),
        Stage::Timers(which, timing) => push_timers(text, which, timing),
    }
}

fn push_callback(text: &mut Vec<u8>, callback: Callback) -> Result<(), AllocError>
    ensures { Writes result text.old.items (callback_word callback) text.new.items }
{
    match callback {
        Callback::Handle => text.extend_from_slice(b"on"),
        Callback::After => text.extend_from_slice(b"after"),
        Callback::Close => text.extend_from_slice(b"closed"),
    }
}

/// The callback under way, if there is one.
fn push_body(text: &mut Vec<u8>, script: &Script, body: Option<Body>) -> Result<(), AllocError>
    ensures { Writes result text.old.items (body_text script.now body) text.new.items }
{
    let Some(body) = body else {
        return Ok(());
    };
    text.extend_from_slice(b" + ")?;
    push_callback(text, body.callback)?;
    text.extend_from_slice(b" ")?;
    script.names().push_name(text, body.name)?;
    push_numbered(text, " ", u64::from(body.call))?;
    push_numbered(text, " ", body.next as u64)
}

#[tactic(auto, using(uv_script::proofs::Writing::writing), unfolding(crate::specs::State::place_line))]
fn push_place(text: &mut Vec<u8>, script: &Script, place: Place) -> Result<(), AllocError>
    ensures { Writes result text.old.items (place_line script.now place) text.new.items }
{
    match place {
        Place::Main(line) => {
            push_numbered(text, "place main ", line as u64)?;
            text.extend_from_slice(b"\n")
        }
        Place::Running(run) => push_run_place(text, script, run),
    }
}

/// The place of a run that is under way.
#[tactic(auto, using(uv_script::proofs::Writing::writing), unfolding(crate::specs::State::place_line))]
fn push_run_place(text: &mut Vec<u8>, script: &Script, run: Run) -> Result<(), AllocError>
    ensures { Writes result text.old.items (place_line script.now (Running run)) text.new.items }
{
    text.extend_from_slice(b"place ")?;
    text.extend_from_slice(run.mode.word().as_bytes())?;
    push_numbered(text, " ", run.line as u64)?;
    text.extend_from_slice(b" ")?;
    push_stage(text, run.stage)?;
    push_body(text, script, run.body)?;
    text.extend_from_slice(b"\n")
}

/// The most bytes of the line of a name, besides those of the name.
const NAME_LINE: usize = 61;

fn push_name_line(
    text: &mut Vec<u8>,
    script: &Script,
    name: Var,
    named: Named,
) -> Result<(), AllocError>
    ensures { Writes result text.old.items (name_line script.now name named) text.new.items }
{
    let name = letters(script, name);
    text.reserve(name.len() + NAME_LINE)?;
    put(text, b"name ");
    put_name(text, name);
    text.push_reserved(b' ');
    put_bound(text, named.id);
    put_counts(text, named.calls);
    text.push_reserved(b'\n');
    Ok(())
}

/// A name, by its number.
fn push_name<M: Machine>(text: &mut Vec<u8>, machine: &M, number: usize) -> Result<(), AllocError>
    requires { number < 2 ^ 32 }
    ensures { Writes result text.old.items (name_part
        (M.program machine.now) (after (M.program machine.now) (M.standing machine.now)) number) text.new.items }
{
    let name = Var(number as u32);
    push_name_line(text, machine.script(), name, machine.named(name))
}

/// The line of the slot with this id, where it still holds this.
fn push_held<M: Machine>(
    text: &mut Vec<u8>,
    machine: &M,
    id: Id,
    content: Option<Content>,
) -> Result<(), AllocError>
    ensures { Writes result text.old.items (held_line
        (M.program machine.now) (after (M.program machine.now) (M.standing machine.now)) id content) text.new.items }
{
    match content {
        Some(_) => push_slot_line(
            text,
            machine.script(),
            false,
            machine.worker_of(id),
            id,
            content,
        ),
        None => Ok(()),
    }
}

/// The line of the slot that holds what a name is bound to.
fn push_bound_line<M: Machine>(
    text: &mut Vec<u8>,
    machine: &M,
    id: Option<Id>,
) -> Result<(), AllocError>
    ensures { Writes result text.old.items (bound_line
        (M.program machine.now) (after (M.program machine.now) (M.standing machine.now)) id) text.new.items }
{
    match id {
        Some(id) => push_held(text, machine, id, machine.held(id)),
        None => Ok(()),
    }
}

/// Puts the line of a name behind a text, and that of its slot, if that still holds what the name is bound to.
pub fn push_named<M: Machine>(
    text: &mut Vec<u8>,
    session: &Session<M>,
    name: Var,
) -> Result<(), AllocError>
    ensures { Writes result text.old.items (named_text session.now name) text.new.items }
{
    let machine = session.machine();
    let named = machine.named(name);
    push_name_line(text, machine.script(), name, named)?;
    push_bound_line(text, machine, named.id)
}

/// What a handle has that those of another kind have not.
fn push_kind(text: &mut Vec<u8>, handle: &HandleRecord) -> Result<(), AllocError>
    ensures { Writes result text.old.items (kind_text handle.now.kind handle.now) text.new.items }
{
    match handle.kind {
        Kind::Timer => {
            push_flagged(text, " begun ", handle.begun)?;
            push_numbered(text, " due ", handle.due.at)?;
            push_numbered(text, " start ", handle.due.start)?;
            push_numbered(text, " repeat ", handle.repeat)
        }
        Kind::Async => push_flagged(text, " pending ", handle.pending),
        Kind::Idle | Kind::Prepare | Kind::Check | Kind::Io => Ok(()),
    }
}

/// The most bytes of a handle's line before what only its kind has, besides those of its name.
const HANDLE: usize = 60;

/// The line of a slot that holds a handle, up to what only its kind has.
fn push_handle(
    text: &mut Vec<u8>,
    script: &Script,
    id: Id,
    handle: &HandleRecord,
) -> Result<(), AllocError>
    ensures { Writes result text.old.items (codes "slot " ++ id_text id ++ codes " " ++ front_text script.now handle.now) text.new.items }
{
    let name = letters(script, handle.name);
    let word = handle.kind.word().as_bytes();
    text.reserve(name.len() + HANDLE)?;
    put(text, b"slot ");
    put_id(text, id);
    text.push_reserved(b' ');
    put(text, word);
    text.push_reserved(b' ');
    put_name(text, name);
    put_flags(text, handle);
    Ok(())
}

/// The line of a slot that holds a handle.
fn push_handle_line(
    text: &mut Vec<u8>,
    script: &Script,
    id: Id,
    handle: &HandleRecord,
) -> Result<(), AllocError>
    ensures { Writes result text.old.items (codes "slot " ++ id_text id ++ codes " " ++ record_text script.now handle.now ++ codes "\n")
        text.new.items }
{
    push_handle(text, script, id, handle)?;
    push_kind(text, handle)?;
    text.extend_from_slice(b"\n")
}

fn push_open(text: &mut Vec<u8>, worker: Option<usize>) -> Result<(), AllocError>
    ensures { Writes result text.old.items (open_text worker) text.new.items }
{
    match worker {
        Some(worker) => push_numbered(text, "running ", worker as u64),
        None => text.extend_from_slice(b"waiting"),
    }
}

/// What became of a request.
fn push_outcome(
    text: &mut Vec<u8>,
    worker: Option<usize>,
    outcome: Outcome,
) -> Result<(), AllocError>
    ensures { Writes result text.old.items (outcome_text worker outcome) text.new.items }
{
    match outcome {
        Outcome::Open => push_open(text, worker),
        Outcome::Finished(_) => text.extend_from_slice(b"done"),
        Outcome::Cancelled => text.extend_from_slice(b"cancelled"),
    }
}

fn push_request(
    text: &mut Vec<u8>,
    script: &Script,
    worker: Option<usize>,
    request: Request,
) -> Result<(), AllocError>
    ensures { Writes result text.old.items (request_text script.now worker request) text.new.items }
{
    text.extend_from_slice(b"work ")?;
    script.names().push_name(text, request.name)?;
    text.extend_from_slice(b" ")?;
    push_outcome(text, worker, request.outcome)?;
    push_numbered(text, " ", u64::from(request.task.rounds()))?;
    push_task_text(text, request.task.text())
}

/// The line of a slot.
fn push_slot_line(
    text: &mut Vec<u8>,
    script: &Script,
    is_free: bool,
    worker: Option<usize>,
    id: Id,
    content: Option<Content>,
) -> Result<(), AllocError>
    ensures { Writes result text.old.items (slot_line script.now is_free worker id content) text.new.items }
{
    match content {
        Some(Content::Handle(handle)) => push_handle_line(text, script, id, &handle),
        Some(Content::Request(request)) => push_request_line(text, script, worker, id, request),
        None => push_empty_line(text, is_free, id),
    }
}

/// The line of a slot that holds a request.
fn push_request_line(
    text: &mut Vec<u8>,
    script: &Script,
    worker: Option<usize>,
    id: Id,
    request: Request,
) -> Result<(), AllocError>
    ensures { Writes result text.old.items (codes "slot " ++ id_text id ++ codes " " ++ request_text script.now worker request ++ codes "\n")
        text.new.items }
{
    text.extend_from_slice(b"slot ")?;
    push_id(text, id)?;
    text.extend_from_slice(b" ")?;
    push_request(text, script, worker, request)?;
    text.extend_from_slice(b"\n")
}

/// The line of a slot that holds nothing.
fn push_empty_line(text: &mut Vec<u8>, is_free: bool, id: Id) -> Result<(), AllocError>
    ensures { Writes result text.old.items (codes "slot " ++ id_text id ++ codes " " ++ empty_text is_free ++ codes "\n") text.new.items }
{
    text.extend_from_slice(b"slot ")?;
    push_id(text, id)?;
    text.extend_from_slice(if is_free { b" empty\n" } else { b" retired\n" })
}

/// A slot that was used.
fn push_slot<M: Machine>(text: &mut Vec<u8>, machine: &M, number: u32) -> Result<(), AllocError>
    ensures { Writes result text.old.items (slot_part
        (M.program machine.now) (after (M.program machine.now) (M.standing machine.now)) number) text.new.items }
{
    let Some(slot) = machine.slot(number) else {
        return Ok(());
    };
    let id = Id {
        slot: number,
        generation: slot.generation,
    };
    push_slot_line(
        text,
        machine.script(),
        machine.is_free(number),
        machine.worker_of(id),
        id,
        slot.content,
    )
}

#[tactic(auto, using(crate::proofs::Pieces::pieces, uv_script::proofs::Writing::writing))]
fn push_numbers(text: &mut Vec<u8>, numbers: &[u32]) -> Result<(), AllocError>
    ensures { Writes result text.old.items (flat_map (numbered (codes " ")) numbers.now) text.new.items }
{
    for number in numbers {
        push_numbered(text, " ", u64::from(*number))?;
    }
    Ok(())
}

/// The free slots.
#[tactic(auto, using(uv_script::proofs::Writing::writing), unfolding(crate::specs::State::free_line))]
fn push_free<M: Machine>(text: &mut Vec<u8>, machine: &M) -> Result<(), AllocError>
    ensures { Writes result text.old.items (free_line (after (M.program machine.now) (M.standing machine.now)).arena.free) text.new.items }
{
    let Ok(free) = machine.free() else {
        return Err(AllocError);
    };
    text.extend_from_slice(b"free")?;
    push_numbers(text, free.as_slice())?;
    text.extend_from_slice(b"\n")
}

#[tactic(auto, using(uv_script::proofs::Writing::writing), unfolding(crate::specs::State::unused_line))]
fn push_unused(text: &mut Vec<u8>, unused: u32) -> Result<(), AllocError>
    ensures { Writes result text.old.items (unused_line unused) text.new.items }
{
    push_numbered(text, "unused ", u64::from(unused))?;
    text.extend_from_slice(b"\n")
}

/// The name of what is held.
fn push_holder(
    text: &mut Vec<u8>,
    script: &Script,
    content: Option<Content>,
) -> Result<(), AllocError>
    ensures { Writes result text.old.items (holder_text script.now content) text.new.items }
{
    match content {
        Some(Content::Handle(handle)) => script.names().push_name(text, handle.name),
        Some(Content::Request(request)) => script.names().push_name(text, request.name),
        None => Ok(()),
    }
}

/// A space, and a name.
fn push_spaced_name(text: &mut Vec<u8>, script: &Script, name: Var) -> Result<(), AllocError>
    ensures { Writes result text.old.items (codes " " ++ name_text script.now.names name) text.new.items }
{
    let name = letters(script, name);
    text.reserve(name.len() + 1)?;
    text.push_reserved(b' ');
    put_name(text, name);
    Ok(())
}

fn push_member<M: Machine>(text: &mut Vec<u8>, machine: &M, id: Id) -> Result<(), AllocError>
    ensures { Writes result text.old.items (member_text
        (M.program machine.now) (after (M.program machine.now) (M.standing machine.now)) id) text.new.items }
{
    match machine.held(id) {
        Some(Content::Handle(handle)) => push_spaced_name(text, machine.script(), handle.name),
        Some(Content::Request(request)) => push_spaced_name(text, machine.script(), request.name),
        None => text.extend_from_slice(b" "),
    }
}

#[tactic(auto, using(crate::proofs::Pieces::pieces, uv_script::proofs::Writing::writing))]
fn push_ids<M: Machine>(text: &mut Vec<u8>, machine: &M, ids: &[Id]) -> Result<(), AllocError>
    ensures { Writes result text.old.items (flat_map (member_text
        (M.program machine.now) (after (M.program machine.now) (M.standing machine.now))) ids.now) text.new.items }
{
    for id in ids {
        push_member(text, machine, *id)?;
    }
    Ok(())
}

/// A word and the names of these.
#[tactic(auto, using(uv_script::proofs::Writing::writing), unfolding(crate::specs::State::list_line))]
fn push_line<M: Machine>(
    text: &mut Vec<u8>,
    machine: &M,
    word: &str,
    ids: &[Id],
) -> Result<(), AllocError>
    ensures { Writes result text.old.items (list_line
        (M.program machine.now) (after (M.program machine.now) (M.standing machine.now)) word.now ids.now) text.new.items }
{
    text.extend_from_slice(word.as_bytes())?;
    push_ids(text, machine, ids)?;
    text.extend_from_slice(b"\n")
}

/// The active timers.
fn push_timer_list<M: Machine>(text: &mut Vec<u8>, machine: &M) -> Result<(), AllocError>
    ensures { Writes result text.old.items (list_line
        (M.program machine.now) (after (M.program machine.now) (M.standing machine.now))
        (codes "timers") (timer_ids (after (M.program machine.now) (M.standing machine.now)))) text.new.items }
{
    let Ok(ids) = machine.timers() else {
        return Err(AllocError);
    };
    push_line(text, machine, "timers", ids.as_slice())
}

/// A list's word.
pub(crate) fn list_word(list: ListName) -> &'static str
    ensures { result.now ≡ list_word list }
{
    match list {
        ListName::Ready => "ready",
        ListName::Idle => "idle",
        ListName::IdleYet => "idle-yet",
        ListName::Prepare => "prepare",
        ListName::PrepareYet => "prepare-yet",
        ListName::Check => "check",
        ListName::CheckYet => "check-yet",
        ListName::Async => "async",
        ListName::AsyncYet => "async-yet",
        ListName::Closing => "closing",
        ListName::ClosingYet => "closing-yet",
        ListName::Waiting => "waiting",
        ListName::Done => "done",
        ListName::DoneYet => "done-yet",
    }
}

/// A list's word and the names of its members.
fn push_members<M: Machine>(
    text: &mut Vec<u8>,
    machine: &M,
    list: ListName,
) -> Result<(), AllocError>
    ensures { Writes result text.old.items (members_line
        (M.program machine.now) (after (M.program machine.now) (M.standing machine.now)) list) text.new.items }
{
    let Ok(ids) = machine.members(list) else {
        return Err(AllocError);
    };
    push_line(text, machine, list_word(list), ids.as_slice())
}

/// The handles whose section is before the poll.
#[tactic(auto, using(uv_script::proofs::Writing::writing), unfolding(crate::specs::State::before_poll))]
fn push_before_poll<M: Machine>(text: &mut Vec<u8>, machine: &M) -> Result<(), AllocError>
    ensures { Writes result text.old.items (before_poll
        (M.program machine.now) (after (M.program machine.now) (M.standing machine.now))) text.new.items }
{
    push_members(text, machine, ListName::Idle)?;
    push_members(text, machine, ListName::IdleYet)?;
    push_members(text, machine, ListName::Prepare)?;
    push_members(text, machine, ListName::PrepareYet)
}

/// Those whose section is behind it.
#[tactic(auto, using(uv_script::proofs::Writing::writing), unfolding(crate::specs::State::after_poll))]
fn push_after_poll<M: Machine>(text: &mut Vec<u8>, machine: &M) -> Result<(), AllocError>
    ensures { Writes result text.old.items (after_poll
        (M.program machine.now) (after (M.program machine.now) (M.standing machine.now))) text.new.items }
{
    push_members(text, machine, ListName::Check)?;
    push_members(text, machine, ListName::CheckYet)?;
    push_members(text, machine, ListName::Async)?;
    push_members(text, machine, ListName::AsyncYet)
}

/// A worker, and the request that it runs.
fn push_run<M: Machine>(
    text: &mut Vec<u8>,
    machine: &M,
    worker: usize,
    run: Option<Id>,
) -> Result<(), AllocError>
    ensures { Writes result text.old.items (run_text
        (M.program machine.now) (after (M.program machine.now) (M.standing machine.now)) worker run) text.new.items }
{
    let Some(id) = run else {
        return Ok(());
    };
    push_numbered(text, " ", worker as u64)?;
    text.extend_from_slice(b":")?;
    push_holder(text, machine.script(), machine.held(id))
}

/// All workers that run a request.
#[tactic(auto, using(crate::proofs::Pieces::pieces, uv_script::proofs::Writing::writing))]
fn push_runs<M: Machine>(text: &mut Vec<u8>, machine: &M) -> Result<(), AllocError>
    ensures { Writes result text.old.items (runs_upto
        (M.program machine.now) (after (M.program machine.now) (M.standing machine.now))
        (length (after (M.program machine.now) (M.standing machine.now)).running)) text.new.items }
{
    for worker in 0..machine.workers() {
        push_run(text, machine, worker, machine.run_by(worker))?;
    }
    Ok(())
}

#[tactic(auto, using(uv_script::proofs::Writing::writing), unfolding(crate::specs::State::running_line))]
fn push_running<M: Machine>(text: &mut Vec<u8>, machine: &M) -> Result<(), AllocError>
    ensures { Writes result text.old.items (running_line
        (M.program machine.now) (after (M.program machine.now) (M.standing machine.now))) text.new.items }
{
    text.extend_from_slice(b"running")?;
    push_runs(text, machine)?;
    text.extend_from_slice(b"\n")
}

#[tactic(auto, using(uv_script::proofs::Writing::writing), unfolding(crate::specs::State::work_text))]
fn push_work<M: Machine>(text: &mut Vec<u8>, machine: &M) -> Result<(), AllocError>
    ensures { Writes result text.old.items (work_text
        (M.program machine.now) (after (M.program machine.now) (M.standing machine.now))) text.new.items }
{
    push_members(text, machine, ListName::Waiting)?;
    push_running(text, machine)?;
    push_members(text, machine, ListName::Done)?;
    push_members(text, machine, ListName::DoneYet)
}

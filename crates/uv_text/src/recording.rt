//! The text of a recording.
#![tactic(auto, using(uv_script::proofs::Writing::writing))]

ghost use Rattle.std.specs.Prelude.{◌≡◌, ◌<◌, ◌++◌, IfOk, IfErr, codes};
ghost use Rattle.uv_ids.specs.declared.fault.Fault.TheVariants.{Memory};
ghost use Rattle.uv_script.specs.Writes.{Writes};
ghost use Rattle.uv_text.specs.Recording.{is_callback, called_text, step_line, first_line, script_part, recording_part, recording_parts, recording_text};

use crate::parts::{Parts, push_parts};
use crate::trace::push_seen;
use std::alloc::{AllocError, Global};
use uv_ids::{Event, Fault, Seen};
use uv_model::Machine;
use uv_script::{Names, Script, push_number};
use uv_session::Session;

/// The recording of a session: its script, the steps that stand, and the callbacks that they called.
pub fn recording_text<M: Machine>(alloc: Global, session: &Session<M>) -> Result<Vec<u8>, Fault>
    ensures text { IfOk result (λ text. text.items ≡ recording_text session.now.program session.now.standing) }
    ensures err { IfErr result (λ fault. fault ≡ Memory) }
{
    let mut text = Vec::new(alloc);
    push_recording(&mut text, session)?;
    Ok(text)
}

/// Puts the recording of a session behind a text.
fn push_recording<M: Machine>(text: &mut Vec<u8>, session: &Session<M>) -> Result<(), AllocError>
    ensures { Writes result text.old.items (recording_text session.now.program session.now.standing) text.new.items }
{
    push_parts(text, &RecordingParts { session })
}

/// The recording of a session in parts. Its script is one of them.
#[derive(Drop)]
pub struct RecordingParts<'a, M: Machine> {
    pub session: &'a Session<M>,
}

impl<'a, M: Machine> Parts for RecordingParts<'a, M> {
    ghost use Rattle.uv_text.specs.Recording.{recording_part, recording_parts};

    ghost parts = { λ recording. recording_parts recording.session.now.standing };

    ghost part = { λ recording. recording_part recording.session.now.program recording.session.now.standing };

    fn part_count(&self) -> usize {
        2 * self.session.steps().len() + 3
    }

    fn push_part(&self, text: &mut Vec<u8>, number: usize) -> Result<(), AllocError> {
        push_recording_part(text, self.session.machine(), self.session.steps(), number)
    }
}

/// The script, the line of a step, the line `calls`, the line of a callback if its step called one, or the line `end`.
#[tactic(auto, using(uv_script::proofs::Writing::writing), unfolding(crate::specs::Recording::recording_part))]
fn push_recording_part<M: Machine>(
    text: &mut Vec<u8>,
    machine: &M,
    steps: &[Event],
    number: usize,
) -> Result<(), AllocError>
    requires steps { steps.now ≡ M.standing machine.now }
    requires number { number < recording_parts steps.now }
    ensures { Writes result text.old.items (recording_part (M.program machine.now) steps.now number) text.new.items }
{
    let script = machine.script();
    if number == 0 {
        push_script(text, script)
    } else if number <= steps.len() {
        push_step_line(text, script.names(), steps[number - 1])
    } else if number == steps.len() + 1 {
        text.extend_from_slice(b"calls\n")
    } else if number <= 2 * steps.len() + 1 {
        push_called(text, script, machine.seen(number - 1 - steps.len()))
    } else {
        text.extend_from_slice(b"end\n")
    }
}

/// The first line, without its line feed: the version.
fn push_first_line(text: &mut Vec<u8>, script: &Script) -> Result<(), AllocError>
    ensures { Writes result text.old.items (first_line script.now) text.new.items }
{
    if script.has_io() || script.timers_from_heap() {
        text.extend_from_slice(b"uvt 3")
    } else {
        text.extend_from_slice(b"uvt 2")
    }
}

/// The first line, the script, and the line `begin`.
#[tactic(auto, using(uv_script::proofs::Writing::writing), unfolding(crate::specs::Recording::script_part))]
fn push_script(text: &mut Vec<u8>, script: &Script) -> Result<(), AllocError>
    ensures { Writes result text.old.items (script_part script.now) text.new.items }
{
    push_first_line(text, script)?;
    text.extend_from_slice(b"\n")?;
    script.push_lines(text)?;
    text.extend_from_slice(b"begin\n")
}

fn push_step_line(text: &mut Vec<u8>, names: &Names, step: Event) -> Result<(), AllocError>
    ensures { Writes result text.old.items (step_line names.now step ++ codes "\n") text.new.items }
{
    push_step(text, names, step)?;
    text.extend_from_slice(b"\n")
}

/// A step's line, without its line feed.
pub fn push_step(text: &mut Vec<u8>, names: &Names, step: Event) -> Result<(), AllocError>
    ensures { Writes result text.old.items (step_line names.now step) text.new.items }
{
    match step {
        Event::Loop => text.extend_from_slice(b"loop"),
        Event::Take(worker) => {
            text.extend_from_slice(b"take ")?;
            push_number(text, u64::from(worker))
        }
        Event::Finish(worker) => {
            text.extend_from_slice(b"finish ")?;
            push_number(text, u64::from(worker))
        }
        Event::Cancel(name) => {
            text.extend_from_slice(b"cancel ")?;
            names.push_name(text, name)
        }
        Event::Send(name) => {
            text.extend_from_slice(b"send ")?;
            names.push_name(text, name)
        }
        Event::Io(name) => {
            text.extend_from_slice(b"io ")?;
            names.push_name(text, name)
        }
        Event::Tick(ms) => {
            text.extend_from_slice(b"tick ")?;
            push_number(text, ms)
        }
    }
}

/// The line of a callback, if a step called one.
fn push_called(text: &mut Vec<u8>, script: &Script, seen: Option<Seen>) -> Result<(), AllocError>
    ensures { Writes result text.old.items (called_text script.now seen) text.new.items }
{
    match seen {
        Some(seen) if is_callback(seen) => push_seen(text, script, seen),
        _ => Ok(()),
    }
}

/// Whether a callback begins with this line.
pub fn is_callback(seen: Seen) -> bool
    ensures { result ≡ is_callback seen }
{
    matches!(
        seen,
        Seen::Call(..) | Seen::Io(..) | Seen::After(..) | Seen::Closed(..)
    )
}

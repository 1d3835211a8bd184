//! The text of a trace.
#![tactic(auto, using(uv_script::proofs::Writing::writing))]

ghost use Rattle.std.specs.Prelude.{◌≡◌, ◌≤◌, ◌++◌, length, IfOk, IfErr, codes};
ghost use Rattle.uv_ids.specs.declared.fault.Fault.TheVariants.{Memory};
ghost use Rattle.uv_ids.specs.declared.seen.Seen.TheVariants.{Op, After, Call};
ghost use Rattle.uv_ids.specs.Words.{phase_word};
ghost use Rattle.hex.specs.Hex.{encode_lower};
ghost use Rattle.uv_script.specs.Writes.{Writes};
ghost use Rattle.uv_text.specs.Trace.{id_text, handle_text, timeout_text, answer_text, end_text, worker_text, outside_text, site_text, line_text, seen_text};

use crate::room::{ID, letters, put, put_id, put_name};
use std::alloc::{AllocError, Global};
use uv_ids::{Answer, Code, Fault, Id, Phase, Seen, Site, Var};
use uv_script::{Script, push_number};

/// A trace line with its line feed.
pub fn seen_text(alloc: Global, script: &Script, seen: Seen) -> Result<Vec<u8>, Fault>
    ensures text { IfOk result (λ text. text.items ≡ seen_text script.now seen) }
    ensures err { IfErr result (λ fault. fault ≡ Memory) }
{
    let mut text = Vec::new(alloc);
    push_seen(&mut text, script, seen)?;
    Ok(text)
}

/// Puts a trace line with its line feed behind a text.
#[inline(always)]
pub fn push_seen(text: &mut Vec<u8>, script: &Script, seen: Seen) -> Result<(), AllocError>
    ensures { Writes result text.old.items (seen_text script.now seen) text.new.items }
{
    match seen {
        Seen::Call(name, id) => push_call(text, script, name, id),
        Seen::Section(phase) => push_section(text, phase),
        _ => push_other(text, script, &seen),
    }
}

/// The same of a line that lies in an answer, and is read there: a copy of it would cost more than most texts.
#[inline(always)]
pub(crate) fn push_lent(text: &mut Vec<u8>, script: &Script, seen: &Seen) -> Result<(), AllocError>
    ensures { Writes result text.old.items (seen_text script.now seen.now) text.new.items }
{
    match seen {
        Seen::Call(name, id) => push_call(text, script, *name, *id),
        Seen::Section(phase) => push_section(text, *phase),
        _ => push_other(text, script, seen),
    }
}

/// The line of a callback of a handle, with its line feed. It is in a function of its own, and so is that of a section: most lines are
/// one of the two.
#[inline(always)]
fn push_call(text: &mut Vec<u8>, script: &Script, name: Var, id: Id) -> Result<(), AllocError>
    ensures { Writes result text.old.items (seen_text script.now (Call name id)) text.new.items }
{
    let name = letters(script, name);
    text.reserve(name.len() + 7 + ID)?;
    put(text, b"call ");
    put_name(text, name);
    text.push_reserved(b' ');
    put_id(text, id);
    text.push_reserved(b'\n');
    Ok(())
}

/// The line of a section, with its line feed.
#[inline(always)]
fn push_section(text: &mut Vec<u8>, phase: Phase) -> Result<(), AllocError>
    ensures { Writes result text.old.items (phase_word phase ++ codes "\n") text.new.items }
{
    let word = phase.word().as_bytes();
    text.reserve(word.len() + 1)?;
    put(text, word);
    text.push_reserved(b'\n');
    Ok(())
}

/// Any line, with its line feed.
#[inline(never)]
fn push_other(text: &mut Vec<u8>, script: &Script, seen: &Seen) -> Result<(), AllocError>
    ensures { Writes result text.old.items (seen_text script.now seen.now) text.new.items }
{
    push_any_line(text, script, *seen)?;
    text.push(b'\n')?;
    Ok(())
}

/// Puts a trace line behind a text, without a line feed.
#[inline(always)]
pub fn push_line(text: &mut Vec<u8>, script: &Script, seen: Seen) -> Result<(), AllocError>
    ensures { Writes result text.old.items (line_text script.now seen) text.new.items }
{
    match seen {
        Seen::Call(name, id) => push_handle(text, script, b"call ", name, id),
        Seen::Section(phase) => text.extend_from_slice(phase.word().as_bytes()),
        _ => push_any_line(text, script, seen),
    }
}

/// The same, whatever line it is: `push_line` tells those that come most often from the others.
#[inline(never)]
fn push_any_line(text: &mut Vec<u8>, script: &Script, seen: Seen) -> Result<(), AllocError>
    ensures { Writes result text.old.items (line_text script.now seen) text.new.items }
{
    match seen {
        Seen::Op(site, answer) => push_op(text, script, site, answer),
        Seen::Run(mode) => {
            text.extend_from_slice(b"run ")?;
            text.extend_from_slice(mode.word().as_bytes())
        }
        Seen::Section(phase) => text.extend_from_slice(phase.word().as_bytes()),
        Seen::Poll(timeout) => {
            text.extend_from_slice(b"poll ")?;
            push_timeout(text, timeout)
        }
        Seen::Call(name, id) => push_handle(text, script, b"call ", name, id),
        Seen::Io(name, id) => push_handle(text, script, b"call ", name, id),
        Seen::After(digest, name, id) => push_after(text, script, digest, name, id),
        Seen::Closed(name, id) => push_handle(text, script, b"closed ", name, id),
        Seen::End(true) => text.extend_from_slice(b"end 1"),
        Seen::End(false) => text.extend_from_slice(b"end 0"),
        Seen::Take(worker, name, id) => push_worker(text, script, b"take ", worker, name, id),
        Seen::Finish(worker, name, id) => push_worker(text, script, b"finish ", worker, name, id),
        Seen::Cancel(name, answer) => push_outside(text, script, b"cancel ", name, answer),
        Seen::Send(name, code) => push_outside(text, script, b"send ", name, Answer::Code(code)),
        Seen::Tick(ms) => {
            text.extend_from_slice(b"out tick ")?;
            push_number(text, ms)
        }
    }
}

/// An op, and what it answered.
#[inline(never)]
fn push_op(
    text: &mut Vec<u8>,
    script: &Script,
    site: Site,
    answer: Answer,
) -> Result<(), AllocError>
    ensures { Writes result text.old.items (line_text script.now (Op site answer)) text.new.items }
{
    push_site(text, script, site)?;
    text.extend_from_slice(b" = ")?;
    push_answer(text, answer)
}

/// The after callback of a request, and how the request ended.
#[inline(never)]
fn push_after(
    text: &mut Vec<u8>,
    script: &Script,
    digest: Option<[u8; 32]>,
    name: Var,
    id: Id,
) -> Result<(), AllocError>
    ensures { Writes result text.old.items (line_text script.now (After digest name id)) text.new.items }
{
    push_handle(text, script, b"after ", name, id)?;
    text.push(b' ')?;
    push_end(text, digest)
}

/// How a request ended.
fn push_end(text: &mut Vec<u8>, digest: Option<[u8; 32]>) -> Result<(), AllocError>
    ensures { Writes result text.old.items (end_text digest) text.new.items }
{
    match digest {
        Some(digest) => {
            text.extend_from_slice(Code::Ok.word().as_bytes())?;
            text.push(b' ')?;
            push_digest(text, digest)
        }
        None => text.extend_from_slice(Code::Ecanceled.word().as_bytes()),
    }
}

/// A digest, in hexadecimal digits.
fn push_digest(text: &mut Vec<u8>, digest: [u8; 32]) -> Result<(), AllocError>
    ensures { Writes result text.old.items (encode_lower digest) text.new.items }
{
    let mut digits = [0; 64];
    hex::encode_to_slice(digest, &mut digits).unwrap();
    text.extend_from_slice(&digits)
}

/// What a worker did, by its word, and the request that it did it with.
#[inline(never)]
fn push_worker(
    text: &mut Vec<u8>,
    script: &Script,
    word: &[u8],
    worker: u16,
    name: Var,
    id: Id,
) -> Result<(), AllocError>
    ensures { Writes result text.old.items (codes "out " ++ word.now ++ worker_text script.now worker name id) text.new.items }
{
    text.extend_from_slice(b"out ")?;
    text.extend_from_slice(word)?;
    push_number(text, u64::from(worker))?;
    push_handle(text, script, b" ", name, id)
}

/// A step from outside, by its word, with the name that it is of and what was answered.
#[inline(never)]
fn push_outside(
    text: &mut Vec<u8>,
    script: &Script,
    word: &[u8],
    name: Var,
    answer: Answer,
) -> Result<(), AllocError>
    ensures { Writes result text.old.items (codes "out " ++ word.now ++ outside_text script.now name answer) text.new.items }
{
    text.extend_from_slice(b"out ")?;
    text.extend_from_slice(word)?;
    script.names().push_name(text, name)?;
    text.extend_from_slice(b" = ")?;
    push_answer(text, answer)
}

/// A word, and a handle or a request by its name and its id.
#[inline(always)]
fn push_handle(
    text: &mut Vec<u8>,
    script: &Script,
    word: &[u8],
    name: Var,
    id: Id,
) -> Result<(), AllocError>
    requires { length word.now ≤ 7 }
    ensures { Writes result text.old.items (word.now ++ handle_text script.now name id) text.new.items }
{
    let name = letters(script, name);
    text.reserve(word.len() + name.len() + 1 + ID)?;
    put(text, word);
    put_name(text, name);
    text.push_reserved(b' ');
    put_id(text, id);
    Ok(())
}

/// The op at a place of the script.
fn push_site(text: &mut Vec<u8>, script: &Script, site: Site) -> Result<(), AllocError>
    ensures { Writes result text.old.items (site_text script.now site) text.new.items }
{
    match script.op_at(site) {
        Some(op) => op.push_text(text, script.names()),
        None => Ok(()),
    }
}

fn push_answer(text: &mut Vec<u8>, answer: Answer) -> Result<(), AllocError>
    ensures { Writes result text.old.items (answer_text answer) text.new.items }
{
    match answer {
        Answer::Code(code) => text.extend_from_slice(code.word().as_bytes()),
        Answer::Id(id) => push_id(text, id),
        Answer::Cancelled(_) => text.extend_from_slice(Code::Ok.word().as_bytes()),
        Answer::Number(number) => push_number(text, number),
        Answer::Flag(true) => text.extend_from_slice(b"1"),
        Answer::Flag(false) => text.extend_from_slice(b"0"),
        Answer::Timeout(timeout) => push_timeout(text, timeout),
    }
}

pub(crate) fn push_id(text: &mut Vec<u8>, id: Id) -> Result<(), AllocError>
    ensures { Writes result text.old.items (id_text id) text.new.items }
{
    text.reserve(ID)?;
    put_id(text, id);
    Ok(())
}

pub(crate) fn push_timeout(text: &mut Vec<u8>, timeout: Option<u64>) -> Result<(), AllocError>
    ensures { Writes result text.old.items (timeout_text timeout) text.new.items }
{
    match timeout {
        Some(ms) => push_number(text, ms),
        None => text.extend_from_slice(b"infinite"),
    }
}

//! The bytes of what is told of names.
ghost use Rattle.std.specs.Prelude.{◌≡◌, ◌+◌, ◌≤◌, ◌<◌, ◌++◌, true, OnOk, vec_len, vec_capacity};
ghost use Rattle.uv_work.specs.declared.content.Content.TheVariants.{Handle, Request};
ghost use Rattle.uv_model.specs.After.{after};
ghost use Rattle.uv_tale.specs.Tale.{Bound, Nothing, Gone, Holds, bound_to, name_at, told_name};
ghost use Rattle.uv_key.specs.Codes.{byte_code};
ghost use Rattle.uv_state_key.specs.Computed.{by_of};
ghost use Rattle.uv_state_key.specs.TaleKey.{handle_number, request_number, told_handle_code, told_request_code, bound_code, are_few, few_number, counts_code, told_code};

use crate::contents::{flags_of, kind_number, outcome_number, put_calls};
use crate::forms::{Form, less_calls, less_handle};
use crate::places::put_byte;
use std::alloc::AllocError;
use uv_ids::Id;
use uv_key::{push_bytes, put_number};
use uv_model::Machine;
use uv_records::{Calls, HandleRecord, Named};
use uv_work::{Content, Request};

/// The number of the name of what is held under an id.
pub(crate) fn name_at<M: Machine>(machine: &M, id: Id) -> u32
    ensures { result ≡ name_at (after (M.program machine.now) (M.standing machine.now)).arena.slots id }
{
    match machine.held(id) {
        None => 0,
        Some(Content::Handle(handle)) => handle.name.0,
        Some(Content::Request(request)) => request.name.0,
    }
}

// ---- counts

/// Whether three counts go into one byte.
#[inline(always)]
fn are_few(calls: Calls) -> bool
    ensures { result ≡ are_few calls }
{
    calls.handle < 6 && calls.after < 6 && calls.close < 6
}

/// That byte.
#[inline(always)]
fn few_number(calls: Calls) -> u8
    requires { are_few calls ≡ true }
    ensures { result ≡ few_number calls }
{
    calls.handle as u8 + 6 * calls.after as u8 + 36 * calls.close as u8
}

#[tactic(auto, unfolding(crate::specs::TaleKey::counts_code))]
#[inline(always)]
fn put_counts(out: &mut Vec<u8>, calls: Calls)
    requires { vec_len out.old + 31 ≤ vec_capacity out.old }
    ensures items { out.new.items ≡ out.old.items ++ counts_code calls }
    ensures len { vec_len out.new ≤ vec_len out.old + 31 }
    ensures room { vec_capacity out.new ≡ vec_capacity out.old }
{
    if are_few(calls) {
        put_byte(out, few_number(calls));
    } else {
        put_byte(out, 255);
        put_calls(out, calls);
    }
}

// ---- what names are bound to

/// A byte that says all, and counts.
#[inline(always)]
#[tactic(auto, using(crate::proofs::TaleCodes::few_alone))]
fn push_alone(out: &mut Vec<u8>, byte: u8, calls: Calls) -> Result<(), AllocError>
    ensures { OnOk result (out.new.items ≡ out.old.items ++ (byte_code byte ++ counts_code calls)) }
{
    if are_few(calls) {
        return out.extend_from_slice(&[byte, few_number(calls)]);
    }
    out.reserve(32)?;
    put_byte(out, byte);
    put_counts(out, calls);
    Ok(())
}

/// The byte of a handle.
#[inline(always)]
fn handle_number(handle: HandleRecord) -> u8
    ensures { result ≡ handle_number handle }
{
    2 + flags_of(handle) + 32 * kind_number(handle.kind)
}

/// A handle whose numbers are one byte each, and few counts: all six bytes at once.
#[inline(always)]
#[tactic(auto, using(crate::proofs::TaleCodes::few_handle))]
fn push_small_told(out: &mut Vec<u8>, handle: HandleRecord, calls: Calls) -> Result<(), AllocError>
    requires name { handle.name.0 < 128 }
    requires at { handle.due.at < 128 }
    requires start { handle.due.start < 128 }
    requires repeat { handle.repeat < 128 }
    requires few { are_few calls ≡ true }
    ensures { OnOk result (out.new.items ≡ out.old.items ++ (told_handle_code handle ++ counts_code calls)) }
{
    out.extend_from_slice(&[
        handle_number(handle),
        handle.due.at as u8,
        handle.due.start as u8,
        handle.repeat as u8,
        handle.name.0 as u8,
        few_number(calls),
    ])
}

#[tactic(auto, unfolding(crate::specs::TaleKey::told_handle_code))]
#[inline(always)]
fn put_told_handle(out: &mut Vec<u8>, handle: HandleRecord)
    requires { vec_len out.old + 41 ≤ vec_capacity out.old }
    ensures items { out.new.items ≡ out.old.items ++ told_handle_code handle }
    ensures len { vec_len out.new ≤ vec_len out.old + 41 }
    ensures room { vec_capacity out.new ≡ vec_capacity out.old }
{
    put_byte(out, handle_number(handle));
    put_number(out, handle.due.at);
    put_number(out, handle.due.start);
    put_number(out, handle.repeat);
    put_number(out, u64::from(handle.name.0));
}

/// A handle, and counts.
#[inline(always)]
fn push_told_handle(out: &mut Vec<u8>, handle: HandleRecord, calls: Calls) -> Result<(), AllocError>
    ensures { OnOk result (out.new.items ≡ out.old.items ++ (told_handle_code handle ++ counts_code calls)) }
{
    if handle.name.0 < 128
        && handle.due.at < 128
        && handle.due.start < 128
        && handle.repeat < 128
        && are_few(calls)
    {
        return push_small_told(out, handle, calls);
    }
    out.reserve(72)?;
    put_told_handle(out, handle);
    put_counts(out, calls);
    Ok(())
}

#[tactic(auto, unfolding(crate::specs::TaleKey::told_request_code))]
fn push_told_request(out: &mut Vec<u8>, request: Request) -> Result<(), AllocError>
    ensures { OnOk result (out.new.items ≡ out.old.items ++ told_request_code request) }
{
    out.reserve(21)?;
    put_byte(out, 194 + outcome_number(request.outcome));
    put_number(out, u64::from(request.name.0));
    put_number(out, u64::from(request.task.rounds()));
    push_bytes(out, request.task.text())
}

/// A request, and counts.
fn push_request_counts(out: &mut Vec<u8>, request: Request, calls: Calls) -> Result<(), AllocError>
    ensures { OnOk result (out.new.items ≡ out.old.items ++ (told_request_code request ++ counts_code calls)) }
{
    push_told_request(out, request)?;
    out.reserve(31)?;
    put_counts(out, calls);
    Ok(())
}

/// What a name is bound to, in this form, and how often its callbacks were called.
#[tactic(auto, unfolding(crate::specs::TaleKey::told_code))]
pub(crate) fn push_told<M: Machine>(
    out: &mut Vec<u8>,
    machine: &M,
    form: Form,
    named: Named,
) -> Result<(), AllocError>
    ensures { OnOk result (out.new.items ≡ out.old.items
        ++ told_code (told_name (by_of form) form.most (after (M.program machine.now) (M.standing machine.now)).arena.slots named)) }
{
    let calls = less_calls(form.most, named.calls);
    match named.id {
        None => push_alone(out, 0, calls),
        Some(id) => match machine.held(id) {
            None => push_alone(out, 1, calls),
            Some(Content::Handle(handle)) => {
                push_told_handle(out, less_handle(form, handle), calls)
            }
            Some(Content::Request(request)) => push_request_counts(out, request, calls),
        },
    }
}

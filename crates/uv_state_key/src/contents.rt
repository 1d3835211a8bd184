//! The bytes of names, and of what the slots hold.
ghost use Rattle.std.specs.Prelude.{◌≡◌, ◌+◌, ◌≤◌, ◌<◌, ◌++◌, OnOk, Some, vec_len, vec_capacity};
ghost use Rattle.uv_work.specs.declared.content.Content.TheVariants.{Handle};
ghost use Rattle.uv_work.specs.declared.request.Request.{Request};
ghost use Rattle.uv_state_key.specs.Key.{calls_code, named_code, kind_number, flags_of, handle_code, outcome_number, request_code, slot_code};

use crate::places::{bit, put_byte, put_id_option};
use std::alloc::AllocError;
use uv_ids::{Id, Kind};
use uv_key::{push_bytes, put_number};
use uv_records::{Calls, HandleRecord, Named, Slot};
use uv_work::{Content, Outcome, Request};

#[tactic(auto, unfolding(crate::specs::Key::calls_code))]
#[inline(always)]
pub(crate) fn put_calls(out: &mut Vec<u8>, calls: Calls)
    requires { vec_len out.old + 30 ≤ vec_capacity out.old }
    ensures items { out.new.items ≡ out.old.items ++ calls_code calls }
    ensures len { vec_len out.new ≤ vec_len out.old + 30 }
    ensures room { vec_capacity out.new ≡ vec_capacity out.old }
{
    put_number(out, u64::from(calls.handle));
    put_number(out, u64::from(calls.after));
    put_number(out, u64::from(calls.close));
}

#[tactic(auto, unfolding(crate::specs::Key::named_code))]
#[inline(always)]
fn put_named(out: &mut Vec<u8>, named: Named)
    requires { vec_len out.old + 51 ≤ vec_capacity out.old }
    ensures items { out.new.items ≡ out.old.items ++ named_code named }
    ensures len { vec_len out.new ≤ vec_len out.old + 51 }
    ensures room { vec_capacity out.new ≡ vec_capacity out.old }
{
    put_id_option(out, named.id);
    put_calls(out, named.calls);
}

/// Puts a name whose numbers are one byte each, as most are: all six bytes at once.
#[inline(always)]
#[tactic(auto, using(crate::proofs::Codes::small_named))]
fn push_small_named(out: &mut Vec<u8>, id: Id, calls: Calls) -> Result<(), AllocError>
    requires slot { id.slot < 128 }
    requires generation { id.generation < 128 }
    requires handle { calls.handle < 128 }
    requires after { calls.after < 128 }
    requires close { calls.close < 128 }
    ensures { OnOk result (out.new.items ≡ out.old.items ++ named_code (record { id = Some id; calls = calls })) }
{
    out.extend_from_slice(&[
        1,
        id.slot as u8,
        id.generation as u8,
        calls.handle as u8,
        calls.after as u8,
        calls.close as u8,
    ])
}

pub(crate) fn push_named(out: &mut Vec<u8>, named: Named) -> Result<(), AllocError>
    ensures { OnOk result (out.new.items ≡ out.old.items ++ named_code named) }
{
    if let Some(id) = named.id {
        let calls = named.calls;
        if id.slot < 128
            && id.generation < 128
            && calls.handle < 128
            && calls.after < 128
            && calls.close < 128
        {
            return push_small_named(out, id, calls);
        }
    }
    out.reserve(51)?;
    put_named(out, named);
    Ok(())
}

/// The number of a kind (own).
pub fn kind_number(kind: Kind) -> u8
    ensures { result ≡ kind_number kind }
{
    match kind {
        Kind::Timer => 0,
        Kind::Idle => 1,
        Kind::Prepare => 2,
        Kind::Check => 3,
        Kind::Async => 4,
        Kind::Io => 5,
    }
}

/// The flags of a handle, a bit each.
pub(crate) fn flags_of(handle: HandleRecord) -> u8
    ensures { result ≡ flags_of handle }
{
    bit(handle.referenced)
        + 2 * bit(handle.active)
        + 4 * bit(handle.closing)
        + 8 * bit(handle.begun)
        + 16 * bit(handle.pending)
}

#[tactic(auto, unfolding(crate::specs::Key::handle_code))]
#[inline(always)]
fn put_handle(out: &mut Vec<u8>, handle: HandleRecord)
    requires { vec_len out.old + 42 ≤ vec_capacity out.old }
    ensures items { out.new.items ≡ out.old.items ++ handle_code handle }
    ensures len { vec_len out.new ≤ vec_len out.old + 42 }
    ensures room { vec_capacity out.new ≡ vec_capacity out.old }
{
    put_byte(out, kind_number(handle.kind));
    put_byte(out, flags_of(handle));
    put_number(out, u64::from(handle.name.0));
    put_number(out, handle.due.at);
    put_number(out, handle.due.start);
    put_number(out, handle.repeat);
}

pub(crate) fn outcome_number(outcome: Outcome) -> u8
    ensures { result ≡ outcome_number outcome }
{
    match outcome {
        Outcome::Open => 0,
        Outcome::Finished(_) => 1,
        Outcome::Cancelled => 2,
    }
}

#[tactic(auto, unfolding(crate::specs::Key::request_code))]
fn push_request(out: &mut Vec<u8>, request: Request) -> Result<(), AllocError>
    requires { vec_len out.old + 21 ≤ vec_capacity out.old }
    ensures { OnOk result (out.new.items ≡ out.old.items ++ request_code request) }
{
    put_byte(out, outcome_number(request.outcome));
    put_number(out, u64::from(request.name.0));
    put_number(out, u64::from(request.task.rounds()));
    push_bytes(out, request.task.text())
}

/// Puts a handle whose numbers are one byte each: all eight bytes at once.
#[inline(always)]
#[tactic(auto, using(crate::proofs::Codes::small_handle))]
fn push_small_handle(
    out: &mut Vec<u8>,
    generation: u32,
    handle: HandleRecord,
) -> Result<(), AllocError>
    requires generation { generation < 128 }
    requires name { handle.name.0 < 128 }
    requires at { handle.due.at < 128 }
    requires start { handle.due.start < 128 }
    requires repeat { handle.repeat < 128 }
    ensures { OnOk result (out.new.items ≡ out.old.items ++ slot_code (record { generation = generation; content = Some (Handle handle) })) }
{
    out.extend_from_slice(&[
        generation as u8,
        1,
        kind_number(handle.kind),
        flags_of(handle),
        handle.name.0 as u8,
        handle.due.at as u8,
        handle.due.start as u8,
        handle.repeat as u8,
    ])
}

/// A slot with a handle.
#[inline(always)]
#[tactic(auto, unfolding(crate::specs::Key::slot_code))]
fn push_handle(out: &mut Vec<u8>, generation: u32, handle: HandleRecord) -> Result<(), AllocError>
    requires { vec_len out.old + 53 ≤ vec_capacity out.old }
    ensures { OnOk result (out.new.items ≡ out.old.items ++ slot_code (record { generation = generation; content = Some (Handle handle) })) }
{
    if generation < 128
        && handle.name.0 < 128
        && handle.due.at < 128
        && handle.due.start < 128
        && handle.repeat < 128
    {
        return push_small_handle(out, generation, handle);
    }
    put_number(out, u64::from(generation));
    put_byte(out, 1);
    put_handle(out, handle);
    Ok(())
}

#[tactic(auto, unfolding(crate::specs::Key::slot_code))]
#[inline(always)]
pub(crate) fn push_slot(out: &mut Vec<u8>, slot: Slot<Content>) -> Result<(), AllocError>
    requires { vec_len out.old + 53 ≤ vec_capacity out.old }
    ensures { OnOk result (out.new.items ≡ out.old.items ++ slot_code slot) }
{
    // (each arm puts its own number of what the slot holds, so that nothing is read of the slot that isn't written)
    let generation = slot.generation;
    match slot.content {
        None => {
            put_number(out, u64::from(generation));
            put_byte(out, 0);
            Ok(())
        }
        Some(Content::Handle(handle)) => push_handle(out, generation, handle),
        Some(Content::Request(request)) => {
            put_number(out, u64::from(generation));
            put_byte(out, 2);
            push_request(out, request)
        }
    }
}

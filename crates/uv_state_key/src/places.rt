//! The bytes of where the loop stands, and of its numbers.
ghost use Rattle.std.specs.Prelude.{◌≡◌, ◌+◌, ◌≤◌, ◌++◌, OnOk, vec_len, vec_capacity};
ghost use Rattle.uv_key.specs.Codes.{number_code, byte_code, option_code};
ghost use Rattle.uv_state_key.specs.Key.{id_code, bit, mode_number, callback_number, stage_part, stage_code, body_code, run_code, place_code, numbers_code};

use std::alloc::AllocError;
use uv_ids::{Callback, Id, Mode};
use uv_key::put_number;
use uv_model::{Body, Numbers, Place, Run, Stage, TimersOf, Timing};
use uv_records::WatcherKind;

/// 1 or 0.
pub(crate) fn bit(flag: bool) -> u8
    ensures { result ≡ bit flag }
{
    if flag { 1 } else { 0 }
}

#[inline(always)]
pub(crate) fn put_id(out: &mut Vec<u8>, id: Id)
    requires { vec_len out.old + 20 ≤ vec_capacity out.old }
    ensures items { out.new.items ≡ out.old.items ++ id_code id }
    ensures len { vec_len out.new ≤ vec_len out.old + 20 }
    ensures room { vec_capacity out.new ≡ vec_capacity out.old }
{
    put_number(out, u64::from(id.slot));
    put_number(out, u64::from(id.generation));
}

/// An id that may be missing.
#[inline(always)]
pub(crate) fn put_id_option(out: &mut Vec<u8>, id: Option<Id>)
    requires { vec_len out.old + 21 ≤ vec_capacity out.old }
    ensures items { out.new.items ≡ out.old.items ++ option_code id_code id }
    ensures len { vec_len out.new ≤ vec_len out.old + 21 }
    ensures room { vec_capacity out.new ≡ vec_capacity out.old }
{
    match id {
        None => put_byte(out, 0),
        Some(id) => {
            put_byte(out, 1);
            put_id(out, id);
        }
    }
}

pub(crate) fn push_id_option(out: &mut Vec<u8>, id: Option<Id>) -> Result<(), AllocError>
    ensures { OnOk result (out.new.items ≡ out.old.items ++ option_code id_code id) }
{
    out.reserve(21)?;
    put_id_option(out, id);
    Ok(())
}

#[tactic(auto, unfolding(uv_key::specs::Codes::byte_code))]
#[inline(always)]
pub(crate) fn put_byte(out: &mut Vec<u8>, byte: u8)
    requires { vec_len out.old + 1 ≤ vec_capacity out.old }
    ensures items { out.new.items ≡ out.old.items ++ byte_code byte }
    ensures len { vec_len out.new ≤ vec_len out.old + 1 }
    ensures room { vec_capacity out.new ≡ vec_capacity out.old }
{
    out.push_reserved(byte);
}

fn mode_number(mode: Mode) -> u8
    ensures { result ≡ mode_number mode }
{
    match mode {
        Mode::Default => 0,
        Mode::Once => 1,
        Mode::Nowait => 2,
    }
}

fn callback_number(callback: Callback) -> u8
    ensures { result ≡ callback_number callback }
{
    match callback {
        Callback::Handle => 0,
        Callback::After => 1,
        Callback::Close => 2,
    }
}

/// A stage's number.
fn stage_number(stage: Stage) -> u8
    ensures { result ≡ (stage_part stage).0 }
{
    match stage {
        Stage::Entry => 0,
        Stage::Pending => 1,
        Stage::Walking(WatcherKind::Idle) => 2,
        Stage::Walking(WatcherKind::Prepare) => 3,
        Stage::Poll(_) => 4,
        Stage::Done => 5,
        Stage::Walking(WatcherKind::Async) => 6,
        Stage::Walking(WatcherKind::Check) => 7,
        Stage::Closing => 8,
        Stage::Timers(TimersOf::Entry, Timing::Collecting) => 9,
        Stage::Timers(TimersOf::Entry, Timing::Firing) => 10,
        Stage::Timers(TimersOf::Iteration, Timing::Collecting) => 11,
        Stage::Timers(TimersOf::Iteration, Timing::Firing) => 12,
        Stage::Polled(false) => 13,
        Stage::Polled(true) => 14,
        Stage::DoneUnwoken => 15,
    }
}

/// The deadline of a poll.
pub(crate) fn stage_deadline(stage: Stage) -> Option<u64>
    ensures { result ≡ (stage_part stage).1 }
{
    match stage {
        Stage::Poll(deadline) => deadline,
        Stage::Entry => None,
        Stage::Pending => None,
        Stage::Walking(WatcherKind::Idle) => None,
        Stage::Walking(WatcherKind::Prepare) => None,
        Stage::Done => None,
        Stage::Walking(WatcherKind::Async) => None,
        Stage::Walking(WatcherKind::Check) => None,
        Stage::Closing => None,
        Stage::Timers(TimersOf::Entry, Timing::Collecting) => None,
        Stage::Timers(TimersOf::Entry, Timing::Firing) => None,
        Stage::Timers(TimersOf::Iteration, Timing::Collecting) => None,
        Stage::Timers(TimersOf::Iteration, Timing::Firing) => None,
        Stage::Polled(_) => None,
        Stage::DoneUnwoken => None,
    }
}

#[inline(always)]
fn put_deadline(out: &mut Vec<u8>, deadline: Option<u64>)
    requires { vec_len out.old + 11 ≤ vec_capacity out.old }
    ensures items { out.new.items ≡ out.old.items ++ option_code number_code deadline }
    ensures len { vec_len out.new ≤ vec_len out.old + 11 }
    ensures room { vec_capacity out.new ≡ vec_capacity out.old }
{
    match deadline {
        None => put_byte(out, 0),
        Some(at) => {
            put_byte(out, 1);
            put_number(out, at);
        }
    }
}

#[inline(always)]
fn put_stage(out: &mut Vec<u8>, stage: Stage)
    requires { vec_len out.old + 12 ≤ vec_capacity out.old }
    ensures items { out.new.items ≡ out.old.items ++ stage_code stage }
    ensures len { vec_len out.new ≤ vec_len out.old + 12 }
    ensures room { vec_capacity out.new ≡ vec_capacity out.old }
{
    put_byte(out, stage_number(stage));
    put_deadline(out, stage_deadline(stage));
}

#[tactic(auto, unfolding(crate::specs::Key::body_code))]
#[inline(always)]
fn put_body(out: &mut Vec<u8>, body: Body)
    requires { vec_len out.old + 31 ≤ vec_capacity out.old }
    ensures items { out.new.items ≡ out.old.items ++ body_code body }
    ensures len { vec_len out.new ≤ vec_len out.old + 31 }
    ensures room { vec_capacity out.new ≡ vec_capacity out.old }
{
    put_byte(out, callback_number(body.callback));
    put_number(out, u64::from(body.name.0));
    put_number(out, u64::from(body.call));
    put_number(out, body.next as u64);
}

#[inline(always)]
fn put_body_option(out: &mut Vec<u8>, body: Option<Body>)
    requires { vec_len out.old + 32 ≤ vec_capacity out.old }
    ensures items { out.new.items ≡ out.old.items ++ option_code body_code body }
    ensures len { vec_len out.new ≤ vec_len out.old + 32 }
    ensures room { vec_capacity out.new ≡ vec_capacity out.old }
{
    match body {
        None => put_byte(out, 0),
        Some(body) => {
            put_byte(out, 1);
            put_body(out, body);
        }
    }
}

#[tactic(auto, unfolding(crate::specs::Key::run_code))]
#[inline(always)]
fn put_run(out: &mut Vec<u8>, run: Run)
    requires { vec_len out.old + 55 ≤ vec_capacity out.old }
    ensures items { out.new.items ≡ out.old.items ++ run_code run }
    ensures len { vec_len out.new ≤ vec_len out.old + 55 }
    ensures room { vec_capacity out.new ≡ vec_capacity out.old }
{
    put_byte(out, mode_number(run.mode));
    put_number(out, run.line as u64);
    put_stage(out, run.stage);
    put_body_option(out, run.body);
}

#[inline(always)]
fn put_place(out: &mut Vec<u8>, place: Place)
    requires { vec_len out.old + 56 ≤ vec_capacity out.old }
    ensures items { out.new.items ≡ out.old.items ++ place_code place }
    ensures len { vec_len out.new ≤ vec_len out.old + 56 }
    ensures room { vec_capacity out.new ≡ vec_capacity out.old }
{
    match place {
        Place::Main(line) => {
            put_byte(out, 0);
            put_number(out, line as u64);
        }
        Place::Running(run) => {
            put_byte(out, 1);
            put_run(out, run);
        }
    }
}

pub(crate) fn push_place(out: &mut Vec<u8>, place: Place) -> Result<(), AllocError>
    ensures { OnOk result (out.new.items ≡ out.old.items ++ place_code place) }
{
    out.reserve(56)?;
    put_place(out, place);
    Ok(())
}

#[tactic(auto, unfolding(crate::specs::Key::numbers_code))]
#[inline(always)]
fn put_numbers(out: &mut Vec<u8>, numbers: Numbers)
    requires { vec_len out.old + 32 ≤ vec_capacity out.old }
    ensures items { out.new.items ≡ out.old.items ++ numbers_code numbers }
    ensures len { vec_len out.new ≤ vec_len out.old + 32 }
    ensures room { vec_capacity out.new ≡ vec_capacity out.old }
{
    put_number(out, numbers.time);
    put_number(out, numbers.clock);
    put_number(out, numbers.next_start);
    put_byte(out, bit(numbers.stop_flag));
    put_byte(out, bit(numbers.idled));
}

pub(crate) fn push_numbers(out: &mut Vec<u8>, numbers: Numbers) -> Result<(), AllocError>
    ensures { OnOk result (out.new.items ≡ out.old.items ++ numbers_code numbers) }
{
    out.reserve(32)?;
    put_numbers(out, numbers);
    Ok(())
}

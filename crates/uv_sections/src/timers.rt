//! The section of timers: those that are due are set aside, and then called; or each is called straight from the heap.
ghost use Rattle.std.specs.Prelude.{◌≡◌, ◌<◌, ◌^◌, Some, None, IfSome, IfNone};
ghost use Rattle.uv_script.specs.Program.{Program};
ghost use Rattle.uv_model.specs.declared.place.Timing.TheVariants.{Collecting};
ghost use Rattle.uv_model.specs.Next.{call_due, fire, collect, timers};
ghost use Rattle.uv_memory.specs.Image.{held};
ghost use Rattle.uv_stands.specs.Doing.{Returns, Goes};
ghost use Rattle.uv_stands.specs.Ready.{IsReady};
ghost use Rattle.uv_sections.specs.Section.{CollectsNone, FiresNone};

use crate::calling::begin_body;
use crate::iterating::turn;
use crate::standing::stand_in;
use uv_handle::handle_at;
use uv_ids::{Callback, Id};
use uv_memory::Memory;
use uv_model::{Run, Stage, TimersOf, Timing, Turn};
use uv_script::Script;
use uv_stands::{PackedLine, PackedPlace};
use uv_timer::{TimerChange, first_due};

/// Calls the front of the timers that are set aside, which is set again if it repeats. None, and nothing changed, where there is none.
fn call_timer(
    memory: &mut Memory<PackedPlace>,
    script: &Script,
    run: Run,
    part: TimersOf,
) -> Option<PackedLine>
    requires ready { IsReady (held memory.old) }
    ensures returns { IfSome result (λ _. Returns memory.new.step_record (held memory.old) (held memory.new)) }
    ensures goes { IfSome result (λ line. Goes (λ s. fire script.now s run part)
        (held memory.old).image (held memory.new).image line) }
    ensures same { IfNone result (held memory.new ≡ held memory.old) }
    ensures none { IfNone result (FiresNone (held memory.old).image) }
    ensures pieces { memory.new.slots.room ≡ memory.old.slots.room }
{
    memory.is_sound();
    match memory.fire_timer() {
        None => None,
        Some(id) => match handle_at(memory.slots(), id) {
            Err(_) => unreachable!(),
            Ok(handle) => {
                let firing = Run {
                    stage: Stage::Timers(part, Timing::Firing),
                    ..run
                };
                begin_body(memory, script, firing, Callback::Handle, handle.name);
                Some(PackedLine::call(handle.name, id))
            }
        },
    }
}

/// Calls the front of the timers that are set aside, or leaves the section.
fn fire(memory: &mut Memory<PackedPlace>, script: &Script, run: Run, part: TimersOf) -> PackedLine
    requires ready { IsReady (held memory.old) }
    requires line { run.line < 2 ^ 63 }
    ensures returns { Returns memory.new.step_record (held memory.old) (held memory.new) }
    ensures goes { Goes (λ s. fire script.now s run part)
        (held memory.old).image (held memory.new).image result }
    ensures pieces { memory.new.slots.room ≡ memory.old.slots.room }
{
    match call_timer(memory, script, run, part) {
        Some(called) => called,
        None => turn(memory, script, run, Turn::Behind(part)),
    }
}

/// Sets the first timer aside, if it is due: its id. None, and nothing changed, where none is.
fn set_aside(memory: &mut Memory<PackedPlace>, run: Run, part: TimersOf) -> Option<Id>
    requires ready { IsReady (held memory.old) }
    ensures returns { IfSome result (λ _. Returns memory.new.step_record (held memory.old) (held memory.new)) }
    ensures goes { IfSome result (λ _. (p : Program)
        → Goes (λ s. collect p s run part) (held memory.old).image (held memory.new).image None) }
    ensures same { IfNone result (held memory.new ≡ held memory.old) }
    ensures none { IfNone result (CollectsNone (held memory.old).image) }
    ensures pieces { memory.new.slots.room ≡ memory.old.slots.room }
{
    memory.is_fit();
    memory.is_sound();
    match memory.collect_timer() {
        None => None,
        Some(id) => {
            let stage = Stage::Timers(part, Timing::Collecting);
            stand_in(memory, run, stage);
            Some(id)
        }
    }
}

/// Sets the first timer aside, without a line, if it is due; else begins to call those that are.
fn collect(
    memory: &mut Memory<PackedPlace>,
    script: &Script,
    run: Run,
    part: TimersOf,
) -> PackedLine
    requires ready { IsReady (held memory.old) }
    requires line { run.line < 2 ^ 63 }
    ensures returns { Returns memory.new.step_record (held memory.old) (held memory.new) }
    ensures goes { Goes (λ s. collect script.now s run part)
        (held memory.old).image (held memory.new).image result }
    ensures pieces { memory.new.slots.room ≡ memory.old.slots.room }
{
    match set_aside(memory, run, part) {
        Some(_) => PackedLine::nothing(),
        None => fire(memory, script, run, part),
    }
}

/// Calls the first timer, if it is due, straight from the heap, and sets it again if it repeats. None, and nothing changed, where none is due.
fn call_from_heap(
    memory: &mut Memory<PackedPlace>,
    script: &Script,
    run: Run,
    part: TimersOf,
) -> Option<PackedLine>
    requires ready { IsReady (held memory.old) }
    ensures returns { IfSome result (λ _. Returns memory.new.step_record (held memory.old) (held memory.new)) }
    ensures goes { IfSome result (λ line. Goes (λ s. call_due script.now s run part)
        (held memory.old).image (held memory.new).image line) }
    ensures same { IfNone result (held memory.new ≡ held memory.old) }
    ensures none { IfNone result (CollectsNone (held memory.old).image) }
    ensures pieces { memory.new.slots.room ≡ memory.old.slots.room }
{
    memory.is_fit();
    memory.is_sound();
    match first_due(memory.slots(), memory.heap(), memory.times().time) {
        None => None,
        Some((id, handle)) => {
            let change = TimerChange::again(memory.times(), handle);
            memory.reschedule(id, change);
            let calling = Run {
                stage: Stage::Timers(part, Timing::Collecting),
                ..run
            };
            begin_body(memory, script, calling, Callback::Handle, handle.name);
            Some(PackedLine::call(handle.name, id))
        }
    }
}

/// Calls the first timer, if it is due, straight from the heap, or leaves the section.
fn call_due(
    memory: &mut Memory<PackedPlace>,
    script: &Script,
    run: Run,
    part: TimersOf,
) -> PackedLine
    requires ready { IsReady (held memory.old) }
    requires line { run.line < 2 ^ 63 }
    ensures returns { Returns memory.new.step_record (held memory.old) (held memory.new) }
    ensures goes { Goes (λ s. call_due script.now s run part)
        (held memory.old).image (held memory.new).image result }
    ensures pieces { memory.new.slots.room ≡ memory.old.slots.room }
{
    match call_from_heap(memory, script, run, part) {
        Some(called) => called,
        None => turn(memory, script, run, Turn::Behind(part)),
    }
}

/// What is done first in a timers section, where due timers are called straight from the heap, or else set aside.
fn next_due(
    memory: &mut Memory<PackedPlace>,
    script: &Script,
    run: Run,
    part: TimersOf,
) -> PackedLine
    requires ready { IsReady (held memory.old) }
    requires line { run.line < 2 ^ 63 }
    ensures returns { Returns memory.new.step_record (held memory.old) (held memory.new) }
    ensures goes { Goes (λ s. timers script.now s run part Collecting)
        (held memory.old).image (held memory.new).image result }
    ensures pieces { memory.new.slots.room ≡ memory.old.slots.room }
{
    if script.timers_from_heap() {
        call_due(memory, script, run, part)
    } else {
        collect(memory, script, run, part)
    }
}

/// Goes on in a section of timers.
pub fn in_timers(
    memory: &mut Memory<PackedPlace>,
    script: &Script,
    run: Run,
    part: TimersOf,
    timing: Timing,
) -> PackedLine
    requires ready { IsReady (held memory.old) }
    requires line { run.line < 2 ^ 63 }
    ensures returns { Returns memory.new.step_record (held memory.old) (held memory.new) }
    ensures goes { Goes (λ s. timers script.now s run part timing)
        (held memory.old).image (held memory.new).image result }
    ensures pieces { memory.new.slots.room ≡ memory.old.slots.room }
{
    match timing {
        Timing::Collecting => next_due(memory, script, run, part),
        Timing::Firing => fire(memory, script, run, part),
    }
}

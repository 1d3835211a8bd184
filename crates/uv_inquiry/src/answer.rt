//! The texts of answers.
#![tactic(auto, using(uv_script::proofs::Writing::writing))]

ghost use Rattle.std.specs.Prelude.{◌≡◌, ◌++◌, None, IfOk, IfErr};
ghost use Rattle.uv_ids.specs.declared.fault.Fault.TheVariants.{Memory};
ghost use Rattle.uv_script.specs.Writes.{Writes};
ghost use Rattle.uv_asking.specs.Asked.{asked_in};
ghost use Rattle.uv_inquiry.specs.Texts.{late_text, every_text, latest_text, some_text, more_text, at_least_text, steps_text, states_text, calls_text, found_text, bound_text, more_bound, more_bounds, within_text, bounds_text, moved_text, clock_too, never_text, unsettled_text, out_of_memory_text, too_deep_text, no_end_text};

use crate::inquiry::Inquiry;
use crate::session::push_session;
use std::alloc::{AllocError, Global};
use uv_asking::{Asking, Most};
use uv_ids::{Event, Fault};
use uv_script::{Names, Script, push_number};

/// The steps that answer the question, as a session that a conversation reads, behind a line of how many they are and how many
/// states were seen.
pub fn found_text(
    alloc: Global,
    script: &Script,
    steps: &[Event],
    states: u64,
) -> Result<Vec<u8>, Fault>
    ensures text { IfOk result (λ text. text.items ≡ found_text script.now steps.now states) }
    ensures err { IfErr result (λ fault. fault ≡ Memory) }
{
    let mut text = Vec::new(alloc);
    push_found(&mut text, script, steps, states)?;
    Ok(text)
}

/// Puts the steps that answer the question behind a text.
#[tactic(auto, using(uv_script::proofs::Writing::writing), unfolding(crate::specs::Texts::found_text))]
pub fn push_found(
    text: &mut Vec<u8>,
    script: &Script,
    steps: &[Event],
    states: u64,
) -> Result<(), AllocError>
    ensures { Writes result text.old.items (found_text script.now steps.now states) text.new.items }
{
    text.extend_from_slice(b"found in ")?;
    push_steps(text, steps.len() as u64)?;
    text.extend_from_slice(b", ")?;
    push_states(text, states)?;
    text.extend_from_slice(b"\n")?;
    push_session(text, script, steps)
}

/// That no order of steps within the bounds answers the question, and how many states were seen.
pub fn never_text(alloc: Global, inquiry: &Inquiry, states: u64) -> Result<Vec<u8>, Fault>
    ensures text { IfOk result (λ text. text.items ≡ never_text inquiry.now.script (asked_in inquiry.now.asking) states) }
    ensures err { IfErr result (λ fault. fault ≡ Memory) }
{
    let mut text = Vec::new(alloc);
    push_never(&mut text, inquiry, states)?;
    Ok(text)
}

/// Puts that no order of steps answers the question behind a text.
#[tactic(auto, using(uv_script::proofs::Writing::writing), unfolding(crate::specs::Texts::never_text))]
pub fn push_never(text: &mut Vec<u8>, inquiry: &Inquiry, states: u64) -> Result<(), AllocError>
    ensures { Writes result text.old.items (never_text inquiry.now.script (asked_in inquiry.now.asking) states) text.new.items }
{
    text.extend_from_slice(b"never")?;
    push_every_bound(text, inquiry.script.names(), &inquiry.asking)?;
    text.extend_from_slice(b": ")?;
    push_states(text, states)?;
    text.extend_from_slice(b", every order\n")
}

/// The steps in which the timer is called so many ms late, as a session, behind a line that says so, and that in no order it is called later.
pub fn latest_text(
    alloc: Global,
    inquiry: &Inquiry,
    steps: &[Event],
    late: u64,
    states: u64,
) -> Result<Vec<u8>, Fault>
    ensures text { IfOk result (λ text. text.items ≡ latest_text inquiry.now.script (asked_in inquiry.now.asking) steps.now late states) }
    ensures err { IfErr result (λ fault. fault ≡ Memory) }
{
    let mut text = Vec::new(alloc);
    push_latest(&mut text, inquiry, steps, late, states)?;
    Ok(text)
}

/// Puts that behind a text.
#[tactic(auto, using(uv_script::proofs::Writing::writing), unfolding(crate::specs::Texts::latest_text))]
pub fn push_latest(
    text: &mut Vec<u8>,
    inquiry: &Inquiry,
    steps: &[Event],
    late: u64,
    states: u64,
) -> Result<(), AllocError>
    ensures { Writes result text.old.items (latest_text inquiry.now.script (asked_in inquiry.now.asking) steps.now late states) text.new.items }
{
    push_late(text, inquiry, late)?;
    push_every(text, steps.len() as u64, states)?;
    push_session(text, &inquiry.script, steps)
}

/// So many ms late within the bounds.
#[tactic(auto, using(uv_script::proofs::Writing::writing), unfolding(crate::specs::Texts::late_text))]
fn push_late(text: &mut Vec<u8>, inquiry: &Inquiry, late: u64) -> Result<(), AllocError>
    ensures { Writes result text.old.items (late_text inquiry.now.script (asked_in inquiry.now.asking) late) text.new.items }
{
    text.extend_from_slice(b"latest ")?;
    push_number(text, late)?;
    text.extend_from_slice(b" ms")?;
    push_every_bound(text, inquiry.script.names(), &inquiry.asking)
}

/// So many steps and states, of every order.
#[tactic(auto, using(uv_script::proofs::Writing::writing), unfolding(crate::specs::Texts::every_text))]
fn push_every(text: &mut Vec<u8>, steps: u64, states: u64) -> Result<(), AllocError>
    ensures { Writes result text.old.items (every_text steps states) text.new.items }
{
    text.extend_from_slice(b", in ")?;
    push_steps(text, steps)?;
    text.extend_from_slice(b": ")?;
    push_states(text, states)?;
    text.extend_from_slice(b", every order\n")
}

/// The steps in which the timer is called so many ms late, as a session, behind a line that says so, and that it isn't settled whether later.
pub fn at_least_text(
    alloc: Global,
    script: &Script,
    steps: &[Event],
    late: u64,
    states: u64,
) -> Result<Vec<u8>, Fault>
    ensures text { IfOk result (λ text. text.items ≡ at_least_text script.now steps.now late states) }
    ensures err { IfErr result (λ fault. fault ≡ Memory) }
{
    let mut text = Vec::new(alloc);
    push_at_least(&mut text, script, steps, late, states)?;
    Ok(text)
}

/// Puts that behind a text.
#[tactic(auto, using(uv_script::proofs::Writing::writing), unfolding(crate::specs::Texts::at_least_text))]
pub fn push_at_least(
    text: &mut Vec<u8>,
    script: &Script,
    steps: &[Event],
    late: u64,
    states: u64,
) -> Result<(), AllocError>
    ensures { Writes result text.old.items (at_least_text script.now steps.now late states) text.new.items }
{
    push_some(text, late)?;
    push_more_states(text, steps.len() as u64, states)?;
    push_session(text, script, steps)
}

/// So many ms late at least.
#[tactic(auto, using(uv_script::proofs::Writing::writing), unfolding(crate::specs::Texts::some_text))]
fn push_some(text: &mut Vec<u8>, late: u64) -> Result<(), AllocError>
    ensures { Writes result text.old.items (some_text late) text.new.items }
{
    text.extend_from_slice(b"latest ")?;
    push_number(text, late)?;
    text.extend_from_slice(b" ms at least")
}

/// So many steps, and more states than were to be kept.
#[tactic(auto, using(uv_script::proofs::Writing::writing), unfolding(crate::specs::Texts::more_text))]
fn push_more_states(text: &mut Vec<u8>, steps: u64, states: u64) -> Result<(), AllocError>
    ensures { Writes result text.old.items (more_text steps states) text.new.items }
{
    text.extend_from_slice(b", in ")?;
    push_steps(text, steps)?;
    text.extend_from_slice(b": ")?;
    push_unsettled(text, states)
}

/// That there are more states than were to be kept.
pub fn unsettled_text(alloc: Global, states: u64) -> Result<Vec<u8>, Fault>
    ensures text { IfOk result (λ text. text.items ≡ unsettled_text states) }
    ensures err { IfErr result (λ fault. fault ≡ Memory) }
{
    let mut text = Vec::new(alloc);
    push_unsettled(&mut text, states)?;
    Ok(text)
}

/// Puts that there are more states than were to be kept behind a text.
#[tactic(auto, using(uv_script::proofs::Writing::writing), unfolding(crate::specs::Texts::unsettled_text))]
pub fn push_unsettled(text: &mut Vec<u8>, states: u64) -> Result<(), AllocError>
    ensures { Writes result text.old.items (unsettled_text states) text.new.items }
{
    text.extend_from_slice(b"not settled within ")?;
    push_states(text, states)?;
    text.extend_from_slice(b"\n")?;
    Ok(())
}

/// That memory was refused, and how many states were seen until then.
pub fn out_of_memory_text(alloc: Global, states: u64) -> Result<Vec<u8>, Fault>
    ensures text { IfOk result (λ text. text.items ≡ out_of_memory_text states) }
    ensures err { IfErr result (λ fault. fault ≡ Memory) }
{
    let mut text = Vec::new(alloc);
    push_out_of_memory(&mut text, states)?;
    Ok(text)
}

/// Puts that memory was refused behind a text.
#[tactic(auto, using(uv_script::proofs::Writing::writing), unfolding(crate::specs::Texts::out_of_memory_text))]
pub fn push_out_of_memory(text: &mut Vec<u8>, states: u64) -> Result<(), AllocError>
    ensures { Writes result text.old.items (out_of_memory_text states) text.new.items }
{
    text.extend_from_slice(b"not settled within ")?;
    push_states(text, states)?;
    text.extend_from_slice(b": out of memory\n")?;
    Ok(())
}

/// That an order of steps has more of them than a session holds.
pub fn too_deep_text(alloc: Global) -> Result<Vec<u8>, Fault>
    ensures text { IfOk result (λ text. text.items ≡ too_deep_text) }
    ensures err { IfErr result (λ fault. fault ≡ Memory) }
{
    let mut text = Vec::new(alloc);
    push_too_deep(&mut text)?;
    Ok(text)
}

/// Puts that an order of steps has more of them than a session holds behind a text.
pub fn push_too_deep(text: &mut Vec<u8>) -> Result<(), AllocError>
    ensures { Writes result text.old.items too_deep_text text.new.items }
{
    text.extend_from_slice(b"not settled within 16777216 steps\n")
}

/// The warning where `may_never_end` holds.
pub fn no_end_text() -> &'static str
    ensures { result.now ≡ no_end_text }
{
    "no bound is given, and the script repeats: there may be no end of states\n"
}

#[tactic(auto, using(uv_script::proofs::Writing::writing), unfolding(crate::specs::Texts::steps_text))]
fn push_steps(text: &mut Vec<u8>, steps: u64) -> Result<(), AllocError>
    ensures { Writes result text.old.items (steps_text steps) text.new.items }
{
    push_number(text, steps)?;
    if steps == 1 {
        text.extend_from_slice(b" step")
    } else {
        text.extend_from_slice(b" steps")
    }
}

#[tactic(auto, using(uv_script::proofs::Writing::writing), unfolding(crate::specs::Texts::states_text))]
fn push_states(text: &mut Vec<u8>, states: u64) -> Result<(), AllocError>
    ensures { Writes result text.old.items (states_text states) text.new.items }
{
    push_number(text, states)?;
    if states == 1 {
        text.extend_from_slice(b" state")
    } else {
        text.extend_from_slice(b" states")
    }
}

#[tactic(auto, using(uv_script::proofs::Writing::writing), unfolding(crate::specs::Texts::calls_text))]
fn push_calls(text: &mut Vec<u8>, calls: u32) -> Result<(), AllocError>
    ensures { Writes result text.old.items (calls_text calls) text.new.items }
{
    push_number(text, calls as u64)?;
    if calls == 1 {
        text.extend_from_slice(b" call of ")
    } else {
        text.extend_from_slice(b" calls of ")
    }
}

/// A name's bound.
#[tactic(auto, using(uv_script::proofs::Writing::writing), unfolding(crate::specs::Texts::bound_text))]
fn push_bound(text: &mut Vec<u8>, names: &Names, most: Most) -> Result<(), AllocError>
    ensures { Writes result text.old.items (bound_text names.now most) text.new.items }
{
    push_calls(text, most.calls)?;
    names.push_name(text, most.name)
}

/// A name's bound behind another one.
#[tactic(auto, using(uv_script::proofs::Writing::writing), unfolding(crate::specs::Texts::more_bound))]
fn push_more(text: &mut Vec<u8>, names: &Names, most: Most) -> Result<(), AllocError>
    ensures { Writes result text.old.items (more_bound names.now most) text.new.items }
{
    text.extend_from_slice(b", ")?;
    push_bound(text, names, most)
}

fn push_more_bounds(text: &mut Vec<u8>, names: &Names, most: &[Most]) -> Result<(), AllocError>
    ensures { Writes result text.old.items (more_bounds names.now most.now) text.new.items }
{
    for bound in most {
        push_more(text, names, *bound)?;
    }
    Ok(())
}

/// The bounds, behind the word `within`.
fn push_every_bound(text: &mut Vec<u8>, names: &Names, asking: &Asking) -> Result<(), AllocError>
    ensures { Writes result text.old.items (bounds_text names.now asking.now.differ asking.now.clock asking.now.most.items) text.new.items }
{
    match asking.differ {
        Some(moved) => push_moved(text, names, moved, asking.clock, &asking.most),
        None => push_within(text, names, asking),
    }
}

/// How many events were moved at the most, and then the other bounds.
#[tactic(auto, using(uv_script::proofs::Writing::writing), unfolding(crate::specs::Texts::moved_text))]
fn push_moved(
    text: &mut Vec<u8>,
    names: &Names,
    moved: u32,
    clock: Option<u64>,
    most: &[Most],
) -> Result<(), AllocError>
    ensures { Writes result text.old.items (moved_text names.now moved clock most.now) text.new.items }
{
    text.extend_from_slice(b" within ")?;
    push_number(text, moved as u64)?;
    text.extend_from_slice(b" moved")?;
    push_clock_too(text, clock)?;
    push_more_bounds(text, names, most)
}

/// The clock's bound, behind another one.
fn push_clock_too(text: &mut Vec<u8>, clock: Option<u64>) -> Result<(), AllocError>
    ensures { Writes result text.old.items (clock_too clock) text.new.items }
{
    match clock {
        Some(ms) => {
            text.extend_from_slice(b", clock ")?;
            push_number(text, ms)
        }
        None => Ok(()),
    }
}

/// The bounds where no event was recorded, behind the word `within`.
fn push_within(text: &mut Vec<u8>, names: &Names, asking: &Asking) -> Result<(), AllocError>
    ensures { Writes result text.old.items (within_text names.now asking.now.clock asking.now.most.items) text.new.items }
{
    match asking.clock {
        Some(ms) => {
            text.extend_from_slice(b" within clock ")?;
            push_number(text, ms)?;
            push_more_bounds(text, names, &asking.most)?;
            Ok(())
        }
        None => push_names_within(text, names, &asking.most),
    }
}

/// The bounds of names, behind the word `within`.
fn push_names_within(text: &mut Vec<u8>, names: &Names, most: &[Most]) -> Result<(), AllocError>
    ensures { Writes result text.old.items (within_text names.now None most.now) text.new.items }
{
    match most {
        [] => Ok(()),
        [first, more @ ..] => {
            text.extend_from_slice(b" within ")?;
            push_bound(text, names, *first)?;
            push_more_bounds(text, names, more)
        }
    }
}

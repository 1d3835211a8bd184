//! The bytes of a state, or of what is told of it.
ghost use Rattle.std.specs.Prelude.{◌≡◌, ◌++◌, slice_get, OnOk, IfOk};
ghost use Rattle.uv_key.specs.Codes.{list_code, option_code};
ghost use Rattle.uv_model.specs.After.{after};
ghost use Rattle.uv_key.proofs.Loops.{piece};
ghost use Rattle.uv_state_key.specs.Holding.{content_at, held_by, id_at, and_content};
ghost use Rattle.uv_state_key.specs.Key.{id_code, named_code, slot_code, arena_code, watchers_code, requests_code, state_code};
ghost use Rattle.uv_state_key.specs.TaleKey.{key_code};

use crate::contents::{push_named, push_slot};
use crate::holds::{Holds, add_content, no_holds};
use crate::lists::{push_free, push_members_if, push_walk, push_walks};
use crate::places::{push_id_option, push_numbers, push_place};
use crate::tale::push_tale;
use std::alloc::AllocError;
use uv_ids::{Id, Var};
use uv_key::push_number;
use uv_model::Machine;
use uv_records::ListName;

/// Appends the bytes that name the state of a machine, or what is told of it with counts up to a number. Want of memory may leave a part
/// of them.
pub fn push_key<M: Machine>(
    out: &mut Vec<u8>,
    machine: &M,
    most: Option<u64>,
) -> Result<(), AllocError>
    ensures { OnOk result (out.new.items ≡ out.old.items
        ++ key_code most (after (M.program machine.now) (M.standing machine.now))) }
{
    match most {
        None => push_state(out, machine),
        Some(most) => push_tale(out, machine, most),
    }
}

/// The bytes of the state of a machine.
#[tactic(auto, unfolding(crate::specs::Key::state_code))]
fn push_state<M: Machine>(out: &mut Vec<u8>, machine: &M) -> Result<(), AllocError>
    ensures { OnOk result (out.new.items ≡ out.old.items
        ++ state_code (after (M.program machine.now) (M.standing machine.now))) }
{
    push_place(out, machine.place())?;
    push_names(out, machine)?;
    let holds = push_arena(out, machine)?;
    push_members_if(out, machine, false, ListName::Ready, holds.rests)?;
    push_watchers(out, machine, holds)?;
    push_walk(
        out,
        machine,
        false,
        ListName::Closing,
        ListName::ClosingYet,
        holds.closing,
    )?;
    push_requests(out, machine, holds)?;
    push_numbers(out, machine.numbers())
}

/// What each name is bound to, and its counts.
#[tactic(auto, unfolding(uv_key::specs::Codes::list_code))]
fn push_names<M: Machine>(out: &mut Vec<u8>, machine: &M) -> Result<(), AllocError>
    ensures { OnOk result (out.new.items ≡ out.old.items
        ++ list_code named_code (after (M.program machine.now) (M.standing machine.now)).names) }
{
    let count = machine.script().names().len();
    push_number(out, count as u64)?;
    for number in 0..count {
        push_named(out, machine.named(Var(number as u32)))?;
    }
    Ok(())
}

/// A slot that was used, and what the slots hold with it.
#[inline(always)]
fn push_used<M: Machine>(
    out: &mut Vec<u8>,
    machine: &M,
    number: u32,
    holds: &mut Holds,
) -> Result<(), AllocError>
    ensures items { OnOk result (out.new.items ≡ out.old.items
        ++ piece slot_code (slice_get (after (M.program machine.now) (M.standing machine.now)).arena.slots number)) }
    ensures holds { OnOk result (holds.new
        ≡ and_content holds.old (id_at (after (M.program machine.now) (M.standing machine.now)).arena.slots number)
        (content_at (after (M.program machine.now) (M.standing machine.now)).arena.slots number)) }
{
    out.reserve(53)?;
    match machine.slot(number) {
        Some(slot) => {
            add_content(
                holds,
                Id {
                    slot: number,
                    generation: slot.generation,
                },
                slot.content,
            );
            push_slot(out, slot)
        }
        None => Ok(()),
    }
}

/// All of them, and what they hold.
#[tactic(auto, unfolding(uv_key::specs::Codes::list_code))]
fn push_slots<M: Machine>(out: &mut Vec<u8>, machine: &M) -> Result<Holds, AllocError>
    ensures items { OnOk result (out.new.items ≡ out.old.items
        ++ list_code slot_code (after (M.program machine.now) (M.standing machine.now)).arena.slots) }
    ensures holds { IfOk result (λ holds. holds ≡ held_by (after (M.program machine.now) (M.standing machine.now))) }
{
    push_number(out, u64::from(machine.used()))?;
    let mut holds = no_holds();
    for number in 0..machine.used() {
        push_used(out, machine, number, &mut holds)?;
    }
    Ok(holds)
}

#[tactic(auto, unfolding(crate::specs::Key::arena_code))]
fn push_arena<M: Machine>(out: &mut Vec<u8>, machine: &M) -> Result<Holds, AllocError>
    ensures items { OnOk result (out.new.items ≡ out.old.items
        ++ arena_code (after (M.program machine.now) (M.standing machine.now)).arena) }
    ensures holds { IfOk result (λ holds. holds ≡ held_by (after (M.program machine.now) (M.standing machine.now))) }
{
    let holds = push_slots(out, machine)?;
    push_free(out, machine)?;
    push_number(out, u64::from(machine.unused()))?;
    Ok(holds)
}

/// The lists that sections walk.
#[tactic(auto, unfolding(crate::specs::Key::watchers_code, crate::specs::Listing::walks_code))]
fn push_watchers<M: Machine>(out: &mut Vec<u8>, machine: &M, holds: Holds) -> Result<(), AllocError>
    requires { holds ≡ held_by (after (M.program machine.now) (M.standing machine.now)) }
    ensures { OnOk result (out.new.items ≡ out.old.items
        ++ watchers_code (after (M.program machine.now) (M.standing machine.now))) }
{
    push_walks(out, machine, false, holds)
}

/// What each worker runs.
#[tactic(auto, unfolding(uv_key::specs::Codes::list_code))]
fn push_each_run<M: Machine>(out: &mut Vec<u8>, machine: &M) -> Result<(), AllocError>
    ensures { OnOk result (out.new.items ≡ out.old.items
        ++ list_code (option_code id_code) (after (M.program machine.now) (M.standing machine.now)).running) }
{
    push_number(out, machine.workers() as u64)?;
    for worker in 0..machine.workers() {
        push_id_option(out, machine.run_by(worker))?;
    }
    Ok(())
}

/// The requests that wait, that workers run, and that are done.
#[tactic(auto, unfolding(crate::specs::Key::requests_code))]
fn push_requests<M: Machine>(out: &mut Vec<u8>, machine: &M, holds: Holds) -> Result<(), AllocError>
    requires { holds ≡ held_by (after (M.program machine.now) (M.standing machine.now)) }
    ensures { OnOk result (out.new.items ≡ out.old.items
        ++ requests_code (after (M.program machine.now) (M.standing machine.now))) }
{
    push_members_if(out, machine, false, ListName::Waiting, holds.opened)?;
    push_each_run(out, machine)?;
    push_walk(
        out,
        machine,
        false,
        ListName::Done,
        ListName::DoneYet,
        holds.ended,
    )
}

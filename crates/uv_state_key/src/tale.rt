//! The bytes of what is told of a state.
ghost use Rattle.std.specs.Prelude.{◌≡◌, ◌++◌, OnOk};
ghost use Rattle.uv_key.specs.Codes.{list_code};
ghost use Rattle.uv_model.specs.After.{after};
ghost use Rattle.uv_tale.specs.Tale.{tale, tale_by};
ghost use Rattle.uv_state_key.specs.Computed.{by_of};
ghost use Rattle.uv_state_key.specs.Holding.{and_content, content_at, held_by, id_at};
ghost use Rattle.uv_state_key.specs.Listing.{named_requests_code, named_lists_code, told_state_code};
ghost use Rattle.uv_state_key.specs.TaleKey.{told_code, tale_code};

use crate::bases::form_of;
use crate::bound::push_told;
use crate::forms::{Form, less_numbers, less_place};
use crate::holds::{Holds, add_content, no_holds};
use crate::lists::{push_members_if, push_walk, push_walks};
use crate::places::{push_numbers, push_place};
use crate::runs::push_ordered_runs;
use std::alloc::AllocError;
use uv_ids::{Id, Var};
use uv_key::push_number;
use uv_model::Machine;
use uv_records::ListName;

/// The bytes of what is told of the state of a machine, with calls counted up to a number.
pub(crate) fn push_tale<M: Machine>(
    out: &mut Vec<u8>,
    machine: &M,
    most: u64,
) -> Result<(), AllocError>
    ensures { OnOk result (out.new.items ≡ out.old.items
        ++ tale_code (tale most (after (M.program machine.now) (M.standing machine.now)))) }
{
    let form = form_of(machine, most)?;
    push_tale_in(out, machine, form)
}

/// The same by how much its times are to be earlier.
#[tactic(auto, unfolding(crate::specs::Listing::told_state_code))]
fn push_tale_in<M: Machine>(out: &mut Vec<u8>, machine: &M, form: Form) -> Result<(), AllocError>
    ensures { OnOk result (out.new.items ≡ out.old.items
        ++ told_state_code (by_of form) form.most (after (M.program machine.now) (M.standing machine.now))) }
{
    push_place(out, less_place(form, machine.place()))?;
    push_told_names(out, machine, form)?;
    push_number(out, u64::from(machine.used()))?;
    push_number(out, u64::from(machine.unused()))?;
    push_told_lists(out, machine)?;
    push_numbers(out, less_numbers(form, machine.numbers()))
}

/// What is told of each name.
#[tactic(auto, unfolding(uv_key::specs::Codes::list_code))]
fn push_told_names<M: Machine>(out: &mut Vec<u8>, machine: &M, form: Form) -> Result<(), AllocError>
    ensures { OnOk result (out.new.items ≡ out.old.items
        ++ list_code told_code (tale_by (by_of form) form.most (after (M.program machine.now) (M.standing machine.now))).names) }
{
    let count = machine.script().names().len();
    push_number(out, count as u64)?;
    for number in 0..count {
        push_told(out, machine, form, machine.named(Var(number as u32)))?;
    }
    Ok(())
}

// ---- lists

/// With what a slot holds.
#[inline(always)]
fn add_slot<M: Machine>(holds: &mut Holds, machine: &M, number: u32)
    ensures { holds.new ≡ and_content holds.old (id_at (after (M.program machine.now) (M.standing machine.now)).arena.slots number)
        (content_at (after (M.program machine.now) (M.standing machine.now)).arena.slots number) }
{
    match machine.slot(number) {
        None => {}
        Some(slot) => add_content(
            holds,
            Id {
                slot: number,
                generation: slot.generation,
            },
            slot.content,
        ),
    }
}

/// What the slots hold.
fn held_by<M: Machine>(machine: &M) -> Holds
    ensures { result ≡ held_by (after (M.program machine.now) (M.standing machine.now)) }
{
    let mut holds = no_holds();
    for number in 0..machine.used() {
        add_slot(&mut holds, machine, number);
    }
    holds
}

/// The requests that wait, that workers run, and that are done.
#[tactic(auto, unfolding(crate::specs::Listing::named_requests_code))]
fn push_told_requests<M: Machine>(
    out: &mut Vec<u8>,
    machine: &M,
    holds: Holds,
) -> Result<(), AllocError>
    requires { holds ≡ held_by (after (M.program machine.now) (M.standing machine.now)) }
    ensures { OnOk result (out.new.items ≡ out.old.items
        ++ named_requests_code (after (M.program machine.now) (M.standing machine.now))) }
{
    push_members_if(out, machine, true, ListName::Waiting, holds.opened)?;
    push_ordered_runs(out, machine)?;
    push_walk(
        out,
        machine,
        true,
        ListName::Done,
        ListName::DoneYet,
        holds.ended,
    )
}

/// All lists.
#[tactic(auto, unfolding(crate::specs::Listing::named_lists_code))]
fn push_told_lists<M: Machine>(out: &mut Vec<u8>, machine: &M) -> Result<(), AllocError>
    ensures { OnOk result (out.new.items ≡ out.old.items
        ++ named_lists_code (after (M.program machine.now) (M.standing machine.now))) }
{
    let holds = held_by(machine);
    push_members_if(out, machine, true, ListName::Ready, holds.rests)?;
    push_walks(out, machine, true, holds)?;
    push_walk(
        out,
        machine,
        true,
        ListName::Closing,
        ListName::ClosingYet,
        holds.closing,
    )?;
    push_told_requests(out, machine, holds)
}

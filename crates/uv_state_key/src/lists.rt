//! The bytes of lists: of what stands on them by ids, or by the numbers of names, and of free slots.
ghost use Rattle.std.specs.Prelude.{◌≡◌, ◌+◌, ◌≤◌, ◌++◌, ◌∷◌, false, [], OnOk, vec_len, vec_capacity};
ghost use Rattle.uv_key.specs.Codes.{number_code, list_code};
ghost use Rattle.uv_model.specs.After.{after};
ghost use Rattle.uv_model.specs.Queries.{members};
ghost use Rattle.uv_state_key.specs.Holding.{AreFew, held_by};
ghost use Rattle.uv_state_key.specs.declared.holds.Few.TheVariants.{One};
ghost use Rattle.uv_state_key.specs.Listing.{member_code, members_code, walks_code};

use crate::bound::name_at;
use crate::holds::{Few, Holds};
use crate::places::put_id;
use std::alloc::AllocError;
use uv_ids::Id;
use uv_key::{push_number, put_number};
use uv_model::Machine;
use uv_records::ListName;

/// A member of a list.
#[inline(always)]
fn put_member<M: Machine>(out: &mut Vec<u8>, machine: &M, named: bool, id: Id)
    requires { vec_len out.old + 20 ≤ vec_capacity out.old }
    ensures items { out.new.items ≡ out.old.items
        ++ member_code named (after (M.program machine.now) (M.standing machine.now)).arena.slots id }
    ensures len { vec_len out.new ≤ vec_len out.old + 20 }
    ensures room { vec_capacity out.new ≡ vec_capacity out.old }
{
    if named {
        put_number(out, u64::from(name_at(machine, id)));
    } else {
        put_id(out, id);
    }
}

fn push_member<M: Machine>(
    out: &mut Vec<u8>,
    machine: &M,
    named: bool,
    id: Id,
) -> Result<(), AllocError>
    ensures { OnOk result (out.new.items ≡ out.old.items
        ++ member_code named (after (M.program machine.now) (M.standing machine.now)).arena.slots id) }
{
    out.reserve(20)?;
    put_member(out, machine, named, id);
    Ok(())
}

#[tactic(auto, unfolding(uv_key::specs::Codes::list_code))]
fn push_ids<M: Machine>(
    out: &mut Vec<u8>,
    machine: &M,
    named: bool,
    ids: &[Id],
) -> Result<(), AllocError>
    ensures { OnOk result (out.new.items ≡ out.old.items
        ++ members_code named (after (M.program machine.now) (M.standing machine.now)).arena.slots ids.now) }
{
    push_number(out, ids.len() as u64)?;
    for id in ids {
        push_member(out, machine, named, *id)?;
    }
    Ok(())
}

/// The members of a list.
fn push_members<M: Machine>(
    out: &mut Vec<u8>,
    machine: &M,
    named: bool,
    list: ListName,
) -> Result<(), AllocError>
    ensures { OnOk result (out.new.items ≡ out.old.items
        ++ members_code named (after (M.program machine.now) (M.standing machine.now)).arena.slots
        (members (after (M.program machine.now) (M.standing machine.now)) list)) }
{
    let Ok(ids) = machine.members(list) else {
        return Err(AllocError);
    };
    push_ids(out, machine, named, ids.as_slice())
}

/// No members.
#[tactic(auto, unfolding(uv_key::specs::Codes::list_code), using(uv_key::proofs::Numbers::number_small))]
fn push_none<M: Machine>(out: &mut Vec<u8>, machine: &M, named: bool) -> Result<(), AllocError>
    ensures { OnOk result (out.new.items ≡ out.old.items
        ++ members_code named (after (M.program machine.now) (M.standing machine.now)).arena.slots []) }
{
    out.push(0)?;
    Ok(())
}

/// The members of a list, which is empty unless it may have some.
#[inline(always)]
pub(crate) fn push_members_if<M: Machine>(
    out: &mut Vec<u8>,
    machine: &M,
    named: bool,
    list: ListName,
    may: bool,
) -> Result<(), AllocError>
    requires { may ≡ false → members (after (M.program machine.now) (M.standing machine.now)) list ≡ [] }
    ensures { OnOk result (out.new.items ≡ out.old.items
        ++ members_code named (after (M.program machine.now) (M.standing machine.now)).arena.slots
        (members (after (M.program machine.now) (M.standing machine.now)) list)) }
{
    if may {
        push_members(out, machine, named, list)
    } else {
        push_none(out, machine, named)
    }
}

/// Two lists without members.
#[inline(always)]
fn push_neither<M: Machine>(out: &mut Vec<u8>, machine: &M, named: bool) -> Result<(), AllocError>
    ensures { OnOk result (out.new.items ≡ out.old.items
        ++ (members_code named (after (M.program machine.now) (M.standing machine.now)).arena.slots []
        ++ members_code named (after (M.program machine.now) (M.standing machine.now)).arena.slots [])) }
{
    push_none(out, machine, named)?;
    push_none(out, machine, named)
}

/// A list with this member alone, and one without.
fn push_single<M: Machine>(
    out: &mut Vec<u8>,
    machine: &M,
    named: bool,
    id: Id,
) -> Result<(), AllocError>
    ensures { OnOk result (out.new.items ≡ out.old.items
        ++ (members_code named (after (M.program machine.now) (M.standing machine.now)).arena.slots (id ∷ [])
        ++ members_code named (after (M.program machine.now) (M.standing machine.now)).arena.slots [])) }
{
    out.reserve(22)?;
    out.push_reserved(1);
    put_member(out, machine, named, id);
    out.push_reserved(0);
    Ok(())
}

/// Two lists, of which one has this member, and the other none.
#[tactic(auto, using(crate::proofs::Listed::one_behind, crate::proofs::Listed::none_before))]
fn push_one_of<M: Machine>(
    out: &mut Vec<u8>,
    machine: &M,
    named: bool,
    list: ListName,
    yet: ListName,
    id: Id,
) -> Result<(), AllocError>
    requires { AreFew (One id) (members (after (M.program machine.now) (M.standing machine.now)) list)
        (members (after (M.program machine.now) (M.standing machine.now)) yet) }
    ensures { OnOk result (out.new.items ≡ out.old.items
        ++ (members_code named (after (M.program machine.now) (M.standing machine.now)).arena.slots
        (members (after (M.program machine.now) (M.standing machine.now)) list)
        ++ members_code named (after (M.program machine.now) (M.standing machine.now)).arena.slots
        (members (after (M.program machine.now) (M.standing machine.now)) yet))) }
{
    let Ok(ids) = machine.members(yet) else {
        return Err(AllocError);
    };
    if ids.len() == 0 {
        return push_single(out, machine, named, id);
    }
    push_none(out, machine, named)?;
    push_ids(out, machine, named, ids.as_slice())
}

/// The members of a list, and then those of it that are yet to be called, where so many stand on the two.
#[inline(always)]
pub(crate) fn push_walk<M: Machine>(
    out: &mut Vec<u8>,
    machine: &M,
    named: bool,
    list: ListName,
    yet: ListName,
    few: Few,
) -> Result<(), AllocError>
    requires { AreFew few (members (after (M.program machine.now) (M.standing machine.now)) list)
        (members (after (M.program machine.now) (M.standing machine.now)) yet) }
    ensures { OnOk result (out.new.items ≡ out.old.items
        ++ (members_code named (after (M.program machine.now) (M.standing machine.now)).arena.slots
        (members (after (M.program machine.now) (M.standing machine.now)) list)
        ++ members_code named (after (M.program machine.now) (M.standing machine.now)).arena.slots
        (members (after (M.program machine.now) (M.standing machine.now)) yet))) }
{
    match few {
        Few::None => push_neither(out, machine, named),
        Few::One(id) => push_one_of(out, machine, named, list, yet, id),
        Few::Many => {
            push_members(out, machine, named, list)?;
            push_members(out, machine, named, yet)
        }
    }
}

/// The lists that sections walk.
#[tactic(auto, unfolding(crate::specs::Listing::walks_code))]
pub(crate) fn push_walks<M: Machine>(
    out: &mut Vec<u8>,
    machine: &M,
    named: bool,
    holds: Holds,
) -> Result<(), AllocError>
    requires { holds ≡ held_by (after (M.program machine.now) (M.standing machine.now)) }
    ensures { OnOk result (out.new.items ≡ out.old.items
        ++ walks_code named (after (M.program machine.now) (M.standing machine.now))) }
{
    push_walk(
        out,
        machine,
        named,
        ListName::Idle,
        ListName::IdleYet,
        holds.idle,
    )?;
    push_walk(
        out,
        machine,
        named,
        ListName::Prepare,
        ListName::PrepareYet,
        holds.prepare,
    )?;
    push_walk(
        out,
        machine,
        named,
        ListName::Check,
        ListName::CheckYet,
        holds.check,
    )?;
    push_walk(
        out,
        machine,
        named,
        ListName::Async,
        ListName::AsyncYet,
        holds.wakes,
    )
}

#[tactic(auto, unfolding(uv_key::specs::Codes::list_code))]
fn push_numbers(out: &mut Vec<u8>, numbers: &[u32]) -> Result<(), AllocError>
    ensures { OnOk result (out.new.items ≡ out.old.items ++ list_code number_code numbers.now) }
{
    push_number(out, numbers.len() as u64)?;
    for number in numbers {
        push_number(out, u64::from(*number))?;
    }
    Ok(())
}

/// The free slots.
pub(crate) fn push_free<M: Machine>(out: &mut Vec<u8>, machine: &M) -> Result<(), AllocError>
    ensures { OnOk result (out.new.items ≡ out.old.items
        ++ list_code number_code (after (M.program machine.now) (M.standing machine.now)).arena.free) }
{
    let Ok(free) = machine.free() else {
        return Err(AllocError);
    };
    push_numbers(out, free.as_slice())
}

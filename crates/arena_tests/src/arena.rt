//! What no clause says: a worked example, and each call once with ample memory.
ghost use Rattle.std.specs.Prelude.{◌≡◌, false};
ghost use Rattle.uv_arena.specs.Image.{on_list};

use std::alloc::{AllocError, Global};
use std::test::Fail;
use uv_arena::Slots;
use uv_ids::Id;
use uv_records::{ListName, Pends};

/// What a slot holds here. An odd one pends.
#[derive(Clone, Copy, PartialEq)]
struct Number(u64);

impl Pends for Number {
    ghost use Rattle.std.specs.Prelude.{◌%◌, ◌==◌};

    ghost is_pending = { λ n. n.0 % 2 == 1 };

    fn pends(&self) -> bool {
        self.0 % 2 == 1
    }
}

/// Whether these are the members of a list, read from its front.
fn has_members(slots: &Slots<Number>, list: ListName, members: &[u32]) -> bool {
    let mut next = slots.first(list);
    for slot in members {
        let Some(id) = next else {
            return false;
        };
        if id.slot != *slot || !slots.on_list(id) {
            return false;
        }
        next = slots.next(id);
    }
    next.is_none()
}

/// Whether these are the members of a list, read from its back.
fn has_turned(slots: &Slots<Number>, list: ListName, members: &[u32]) -> bool {
    let mut next = slots.last(list);
    for slot in members {
        let Some(id) = next else {
            return false;
        };
        if id.slot != *slot || !slots.on_list(id) {
            return false;
        }
        next = slots.prev(id);
    }
    next.is_none()
}

/// Puts a slot on a list, if it may be put there.
fn push(slots: &mut Slots<Number>, list: ListName, id: Id, front: bool) {
    if slots.get(id).is_none() || slots.on_list(id) {
        return;
    }
    if front {
        slots.push_front(list, id);
    } else {
        slots.push_back(list, id);
    }
}

/// Four slots on the idle list: 2, 0, 1, 3.
fn listed(alloc: Global) -> Result<Slots<Number>, AllocError> {
    let mut slots = Slots::new(alloc, 4, 9)?;
    for content in 0u64..4 {
        let Ok((id, _)) = slots.insert(Number(content)) else {
            break;
        };
        push(&mut slots, ListName::Idle, id, id.slot % 2 == 0);
    }
    Ok(slots)
}

/// Takes a slot off its list, and puts it back between its neighbours.
fn unlink_and_back(slots: &mut Slots<Number>, id: Id) {
    if slots.on_list(id) {
        let place = slots.unlink(id);
        slots.undo_unlink(place);
    }
}

fn splice(slots: &mut Slots<Number>, from: ListName, to: ListName) {
    if slots.first(to).is_none() {
        slots.splice(from, to);
    }
}

/// Frees a slot, takes it again, and takes both back: what it held, and the id that it had in between.
fn there_and_back(slots: &mut Slots<Number>, id: Id, content: u64) -> Option<(u64, Id)>
    requires { on_list slots.old.image id ≡ false }
    ensures { slots.new.image ≡ slots.old.image }
{
    match slots.remove(id) {
        None => None,
        Some(freed) => match slots.insert(Number(content)) {
            Err(_) => {
                slots.undo_remove(freed.1, freed.0);
                None
            }
            Ok(taken) => {
                slots.undo_insert(taken.1);
                slots.undo_remove(freed.1, freed.0);
                Some((freed.0.0, taken.0))
            }
        },
    }
}

fn live(slot: u32) -> Id {
    Id {
        slot,
        generation: 0,
    }
}

const FIRST: Id = Id {
    slot: 0,
    generation: 0,
};

/// What the first slot holds once it was freed.
const AGAIN: Id = Id {
    slot: 0,
    generation: 1,
};

/// The id of the slot that is taken for a number, if one is left.
fn taken(slots: &mut Slots<Number>, content: u64) -> Option<Id> {
    slots.insert(Number(content)).ok().map(|made| made.0)
}

/// Whether two slots are taken, and no third one is left.
fn fills(slots: &mut Slots<Number>) -> bool {
    taken(slots, 70) == Some(FIRST)
        && taken(slots, 71) == Some(live(1))
        && taken(slots, 72).is_none()
}

/// Whether the first slot is freed and taken again, and both are taken back.
fn reuses(slots: &mut Slots<Number>) -> bool {
    if slots.on_list(FIRST) {
        return false;
    }
    slots.next(FIRST).is_none()
        && slots.prev(FIRST).is_none()
        && there_and_back(slots, FIRST, 73) == Some((70, AGAIN))
        && slots.get(FIRST) == Some(Number(70))
        && slots.get(AGAIN).is_none()
        && slots.first_free().is_none()
        && slots.last_free().is_none()
        && slots.used() == slots.capacity()
}

#[test]
fn takes_a_reused_slot_back(rt: HostRuntime) -> Result<(), Fail> {
    let mut slots = Slots::new(rt.alloc(), 2, 1)?;
    assert!(&rt; fills(&mut slots) && reuses(&mut slots));
    Ok(())
}

/// Whether some slot holds something, and whether one holds what pends.
fn holds(slots: &Slots<Number>) -> (bool, bool) {
    (slots.holds_any(), slots.holds_pending())
}

/// Whether one slot is taken, and what it holds pends, and no longer.
fn counts(slots: &mut Slots<Number>) -> bool {
    holds(slots) == (false, false)
        && taken(slots, 70) == Some(FIRST)
        && holds(slots) == (true, false)
        && slots.set(FIRST, Number(71)) == Some(Number(70))
        && holds(slots) == (true, true)
        && slots.set(FIRST, Number(72)) == Some(Number(71))
        && holds(slots) == (true, false)
}

#[test]
fn counts_what_slots_hold(rt: HostRuntime) -> Result<(), Fail> {
    let mut slots = Slots::new(rt.alloc(), 2, 1)?;
    assert!(&rt; counts(&mut slots));
    Ok(())
}

/// Whether a list of four is read there and back.
fn reads(slots: &Slots<Number>) -> bool {
    has_members(slots, ListName::Idle, &[2, 0, 1, 3])
        && has_turned(slots, ListName::Idle, &[3, 1, 0, 2])
        && slots.next(AGAIN).is_none()
        && slots.prev(AGAIN).is_none()
}

/// Whether all of it is on another list.
fn is_moved(slots: &Slots<Number>) -> bool {
    has_members(slots, ListName::IdleYet, &[2, 0, 1, 3]) && has_members(slots, ListName::Idle, &[])
}

#[test]
fn lists_read_both_ways(rt: HostRuntime) -> Result<(), Fail> {
    let mut slots = listed(rt.alloc())?;
    assert!(&rt; reads(&slots));
    unlink_and_back(&mut slots, live(0));
    assert!(&rt; reads(&slots));
    splice(&mut slots, ListName::Idle, ListName::IdleYet);
    assert!(&rt; is_moved(&slots));
    push(&mut slots, ListName::Idle, live(1), true);
    assert!(&rt; is_moved(&slots));
    Ok(())
}

/// Takes a slot, and takes that back: its id.
fn insert_and_back(slots: &mut Slots<Number>, content: u64) -> Option<Id>
    ensures { slots.new.image ≡ slots.old.image }
{
    match slots.insert(Number(content)) {
        Err(_) => None,
        Ok(made) => {
            slots.undo_insert(made.1);
            Some(made.0)
        }
    }
}

/// Whether the last slot of the first piece is taken, and then the first one of the second, which is taken back and taken again.
fn crosses(slots: &mut Slots<Number>) -> bool {
    insert_and_back(slots, 70) == Some(live(1023))
        && taken(slots, 71) == Some(live(1023))
        && insert_and_back(slots, 72) == Some(live(1024))
        && slots.used() == 1024
        && slots.next_free() == Some(live(1024))
        && taken(slots, 73) == Some(live(1024))
        && slots.get(live(1023)) == Some(Number(71))
        && slots.get(live(1024)) == Some(Number(73))
        && slots.get(FIRST) == Some(Number(0))
}

#[test]
fn goes_on_in_the_second_piece(rt: HostRuntime) -> Result<(), Fail> {
    let mut slots = Slots::new(rt.alloc(), 2000, 9)?;
    for content in 0u64..1023 {
        assert!(&rt; slots.insert(Number(content)).is_ok());
    }
    assert!(&rt; crosses(&mut slots));
    Ok(())
}

#[test]
fn sixteen_million_slots_begin_without_a_piece(rt: HostRuntime) -> Result<(), Fail> {
    let mut slots = Slots::new(rt.alloc(), 16_777_215, 9)?;
    assert!(&rt; slots.used() == 0 && slots.capacity() == 16_777_215);
    assert!(&rt; insert_and_back(&mut slots, 70) == Some(FIRST));
    Ok(())
}

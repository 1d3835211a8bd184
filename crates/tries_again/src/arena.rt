//! The second piece of an arena, for which there may be no memory.
ghost use Rattle.std.specs.Prelude.{◌≡◌};

use crate::turns::Turns;
use std::alloc::{AllocError, Global};
use std::io;
use std::io::{Print, Read};
use uv_arena::{InsertFault, Slots};
use uv_ids::Id;
use uv_records::Pends;

/// What a slot holds here: a number, which never pends.
#[derive(Clone, Copy)]
struct Number(u64);

impl Pends for Number {
    ghost use Rattle.std.specs.Prelude.{false};

    ghost is_pending = { λ _. false };

    fn pends(&self) -> bool {
        false
    }
}

/// What the first slot of the second piece is given.
const NEXT: Id = Id {
    slot: 1024,
    generation: 0,
};

/// An arena whose first piece is full.
fn filled(alloc: Global) -> Result<Slots<Number>, AllocError> {
    let mut slots = Slots::new(alloc, 2000, 9)?;
    for content in 0u64..1024 {
        if slots.insert(Number(content)).is_err() {
            return Err(AllocError);
        }
    }
    Ok(slots)
}

/// Takes a slot, and takes that back: the id that it had.
fn insert_and_back(slots: &mut Slots<Number>, content: u64) -> Result<Id, InsertFault>
    ensures { slots.new.image ≡ slots.old.image }
{
    let (id, undo) = slots.insert(Number(content))?;
    slots.undo_insert(undo);
    Ok(id)
}

/// Whether no slot of the second piece was taken.
fn is_as_before(slots: &Slots<Number>) -> bool {
    slots.used() == 1024 && slots.next_free() == Some(NEXT)
}

fn crosses<I: Read, R: Print>(
    rt: &R,
    slots: &mut Slots<Number>,
    turns: &mut Turns<I>,
) -> io::Result<bool> {
    turns.wait(rt, "refuse")?;
    let first = insert_and_back(slots, 7);
    turns.wait(rt, "grant")?;
    let is_before = is_as_before(slots);
    let piece = if first == Err(InsertFault::Memory) {
        "refused"
    } else {
        "there"
    };
    println!(rt; "the second piece: {piece}")?;
    let made = insert_and_back(slots, 8);
    turns.wait(rt, "refuse")?;
    let again = insert_and_back(slots, 9);
    turns.wait(rt, "grant")?;
    Ok(is_before && made == Ok(NEXT) && again == Ok(NEXT) && is_as_before(slots))
}

/// Goes on in the second piece where there is no memory, where there is, and once more where there is none: the piece stays. Says whether
/// all went as it must.
pub fn tried<I: Read, R: Print>(rt: &R, alloc: Global, turns: &mut Turns<I>) -> io::Result<bool> {
    match filled(alloc) {
        Ok(mut slots) => crosses(rt, &mut slots, turns),
        Err(_) => Ok(false),
    }
}

//! What no clause says: a worked example, and that the calls succeed.
ghost use Rattle.std.specs.Prelude.{◌≡◌, ◌≤◌};
ghost use Rattle.uv_heap.specs.Undo.{CanUndoPush};

use std::alloc::{AllocError, Global};
use std::process::Abort;
use std::test::Fail;
use uv_heap::{Entry, HeapPushUndo, HeapRemoveUndo, TimerHeap};
use uv_ids::Due;

const SLOTS: u32 = 100;

/// A timer that is due at this time, in the slot of that number.
fn timer(at: u32) -> Entry {
    let due = Due {
        at: u64::from(at),
        start: 0,
    };
    Entry { due, slot: at }
}

fn put(rt: &impl Abort, heap: &mut TimerHeap, entry: Entry) -> HeapPushUndo
    ensures { CanUndoPush heap.new.array result.place }
{
    heap.reserve(entry.slot).expect(rt, "there is memory");
    assert!(rt; heap.place_of(entry.slot).is_none());
    heap.push(entry)
}

/// Whether the timers lie so, by their dues.
fn has_dues(heap: &TimerHeap, dues: &[u64]) -> bool {
    for (entry, due) in heap.entries().iter().zip(dues) {
        if entry.due.at != *due {
            return false;
        }
    }
    heap.len() == dues.len()
}

/// Whether the seven timers lie as they were put in.
fn has_seven(heap: &TimerHeap) -> bool {
    has_dues(heap, &[1, 10, 2, 11, 12, 3, 4])
}

/// Seven timers are put in.
fn fill<R: Abort>(rt: &R, heap: &mut TimerHeap) {
    assert!(rt; heap.is_empty() && heap.least().is_none());
    for at in &[1, 10, 2, 11, 12, 3, 4] {
        put(rt, heap, timer(*at));
    }
    assert!(rt; has_seven(heap) && heap.least() == Some(timer(1)) && heap.place_of(12) == Some(4));
}

/// One in the middle is removed, and put back.
fn remove_and_back<R: Abort>(rt: &R, heap: &mut TimerHeap) {
    assert!(rt; 3 < heap.len());
    let undo = heap.remove_at(3);
    let removed = HeapRemoveUndo {
        place: 3,
        rest: 1,
        entry: timer(11),
    };
    let is_removed = has_dues(heap, &[1, 4, 2, 10, 12, 3])
        && undo == removed
        && heap.place_of(11).is_none();
    heap.undo_remove(undo);
    assert!(rt; is_removed && has_seven(heap));
}

/// One that goes to the top is put in, and taken out again.
fn push_and_back<R: Abort>(rt: &R, heap: &mut TimerHeap) {
    let undo = put(rt, heap, timer(0));
    let is_at_top = has_dues(heap, &[0, 1, 2, 10, 12, 3, 4, 11])
        && undo == HeapPushUndo { place: 0 };
    heap.undo_push(undo);
    assert!(rt; is_at_top && has_seven(heap));
}

#[test]
fn walks_a_path_both_ways(rt: HostRuntime) {
    let mut heap = TimerHeap::new(rt.alloc());
    fill(&rt, &mut heap);
    remove_and_back(&rt, &mut heap);
    push_and_back(&rt, &mut heap);
}

/// Makes so many changes, chosen by chance, and takes them back, the last one first. Answers whether each earlier array
/// was found again, with its places.
fn walk(alloc: Global, heap: &mut TimerHeap, chance: u32, steps: u32) -> Result<bool, AllocError>
    requires { SLOTS ≤ heap.old.room }
    ensures array { heap.new.array ≡ heap.old.array }
    ensures room { heap.new.room ≡ heap.old.room }
{
    if steps == 0 {
        return Ok(true);
    }
    let before = Vec::from_slice(alloc, heap.entries())?;
    let chance = chance.wrapping_mul(1_664_525).wrapping_add(1_013_904_223);
    let slot = chance / 65536 % SLOTS;
    let found = match heap.place_of(slot) {
        Some(place) => {
            let undo = heap.remove_at(place);
            let found = walk(alloc, heap, chance, steps - 1);
            heap.undo_remove(undo);
            found
        }
        None => {
            let at = u64::from(chance % 50);
            let start = u64::from(steps);
            let due = Due { at, start };
            let undo = heap.push(Entry { due, slot });
            let found = walk(alloc, heap, chance, steps - 1);
            heap.undo_push(undo);
            found
        }
    };
    Ok(found? && is_as_before(heap, before.as_slice()))
}

fn is_as_before(heap: &TimerHeap, before: &[Entry]) -> bool {
    for (place, entry) in before.iter().enumerate() {
        match heap.place_of(entry.slot) {
            Some(at) if at as usize == place => {}
            _ => return false,
        }
    }
    heap.entries() == before
}

#[test]
fn walks_many_changes_both_ways(rt: HostRuntime) -> Result<(), Fail> {
    let mut heap = TimerHeap::new(rt.alloc());
    heap.reserve(SLOTS - 1).expect(&rt, "there is memory");
    assert!(&rt; walk(rt.alloc(), &mut heap, 7, 600)?);
    assert!(&rt; heap.is_empty());
    Ok(())
}

//! The four changes of the heap's array.
ghost use Rattle.std.specs.Prelude.{◌≡◌, ◌+◌, ◌<◌, ◌≤◌, ◌∷◌, [], ◌++◌, None, length};
ghost use Rattle.uv_heap.specs.Array.{entry_at, place_in};
ghost use Rattle.uv_heap.specs.Moves.{pushed, removed};
ghost use Rattle.uv_heap.specs.Undo.{push_undone, removal_undone};

use crate::entry::Entry;
use crate::placed::PlacedEntries;
use crate::sift;
use crate::undo::HeapRemoveUndo;

/// Puts an entry last and moves it up. Answers where it comes to rest.
pub(crate) fn push(entries: &mut PlacedEntries, entry: Entry) -> u32
    requires room { entry.slot < entries.old.room }
    requires absent { place_in entries.old.array entry.slot ≡ None }
    ensures array { entries.new.array ≡ (pushed entries.old.array entry).array }
    ensures place { result ≡ (pushed entries.old.array entry).place }
    ensures room { entries.new.room ≡ entries.old.room }
{
    let last = entries.as_slice().len();
    entries.push(entry);
    sift::move_up(entries, last) as u32
}

/// The entry at a place, where it came to rest after a push, goes.
pub(crate) fn undo_push(entries: &mut PlacedEntries, place: usize)
    requires { place < length entries.old.array }
    ensures array { entries.new.array ≡ push_undone entries.old.array place }
    ensures room { entries.new.room ≡ entries.old.room }
{
    let last = entries.as_slice().len() - 1;
    sift::lower(entries, place, last);
    let _ = entries.pop();
}

/// The last entry takes the place of the one there, which goes.
pub(crate) fn remove(entries: &mut PlacedEntries, place: usize) -> HeapRemoveUndo
    requires { place < length entries.old.array }
    ensures array { entries.new.array ≡ (removed entries.old.array place).array }
    ensures place { result.place ≡ place }
    ensures rest { result.rest ≡ (removed entries.old.array place).place }
    ensures entry { result.entry ≡ entry_at entries.old.array place }
    ensures room { entries.new.room ≡ entries.old.room }

    // The slot has no place any more, and room still.
    ensures absent { place_in entries.new.array result.entry.slot ≡ None }
    ensures has_room { result.entry.slot < entries.new.room }
{
    let last = entries.as_slice().len() - 1;
    let entry = entries.as_slice()[place];
    entries.swap(place, last);
    let _ = entries.pop();
    let from = place as u32;
    if place == last {
        let rest = from;
        return HeapRemoveUndo {
            place: from,
            rest,
            entry,
        };
    }
    let rest = sift::settle(entries, place) as u32;
    HeapRemoveUndo {
        place: from,
        rest,
        entry,
    }
}

/// The entry that took the place goes back to the end, and the one that was there comes again.
pub(crate) fn undo_remove(entries: &mut PlacedEntries, undo: HeapRemoveUndo)
    requires place_within { undo.place ≤ length entries.old.array }
    requires rest_within { undo.place < length entries.old.array → undo.rest < length entries.old.array }
    requires room { undo.entry.slot < entries.old.room }
    requires absent { place_in entries.old.array undo.entry.slot ≡ None }
    ensures array { entries.new.array ≡ removal_undone entries.old.array undo }
    ensures room { entries.new.room ≡ entries.old.room }
{
    let last = entries.as_slice().len();
    let place = undo.place as usize;
    if place == last {
        entries.push(undo.entry);
        return;
    }
    sift::go_back(entries, undo.rest as usize, place);
    entries.push(undo.entry);
    entries.swap(place, last);
}

//! How an entry moves in the heap's array.
ghost use Rattle.std.specs.Prelude.{◌≡◌, ◌+◌, ◌*◌, ◌<◌, ◌↔◌, IsTrue, IsSome, IfSome, length};
ghost use Rattle.uv_heap.specs.Array.{parent};
ghost use Rattle.uv_heap.specs.Moves.{must_rise, must_sink, lesser_child, moved_up, moved_down, settled};
ghost use Rattle.uv_heap.specs.Undo.{raised, lowered, returned};

use crate::entry::Entry;
use crate::placed::PlacedEntries;

/// The place above one that is not the root.
fn parent(place: usize) -> usize
    requires { 0 < place }
    ensures { result ≡ parent place }
{
    (place - 1) / 2
}

/// Whether the entry at a place is less than its parent.
fn must_rise(entries: &PlacedEntries, place: usize) -> bool
    requires { place < length entries.now.array }
    ensures { result ≡ must_rise entries.now.array place }
{
    let array = entries.as_slice();
    place > 0 && array[place].is_before(&array[parent(place)])
}

/// The place of the lesser child, of a place that has one.
fn lesser_child(array: &[Entry], place: usize) -> usize
    requires { 2 * place + 1 < length array.now }
    ensures { result ≡ lesser_child array.now place }
{
    let left = 2 * place + 1;
    let right = left + 1;
    if right < array.len() && array[right].is_before(&array[left]) {
        right
    } else {
        left
    }
}

/// The place of the lesser child, where the entry at a place is greater than it.
fn child_to_pass(entries: &PlacedEntries, place: usize) -> Option<usize>
    requires { place < length entries.now.array }
    ensures greater { IsSome result ↔ IsTrue (must_sink entries.now.array place) }
    ensures child { IfSome result (λ child. child ≡ lesser_child entries.now.array place) }
{
    let array = entries.as_slice();
    if place >= array.len() / 2 {
        return None;
    }
    let child = lesser_child(array, place);
    if array[child].is_before(&array[place]) {
        Some(child)
    } else {
        None
    }
}

/// The entry at a place moves up while it is less than its parent. Answers where it comes to rest.
pub(crate) fn move_up(entries: &mut PlacedEntries, from: usize) -> usize
    requires { from < length entries.old.array }
    ensures array { entries.new.array ≡ (moved_up from entries.old.array from).array }
    ensures place { result ≡ (moved_up from entries.old.array from).place }
    ensures room { entries.new.room ≡ entries.old.room }
{
    let mut place = from;
    while must_rise(entries, place) {
        let above = parent(place);
        entries.swap(place, above);
        place = above;
    }
    place
}

/// The entry at a place moves down while it is greater than its lesser child. Answers where it comes to rest.
pub(crate) fn move_down(entries: &mut PlacedEntries, from: usize) -> usize
    requires { from < length entries.old.array }
    ensures array { entries.new.array
        ≡ (moved_down (length entries.old.array) entries.old.array from).array }
    ensures place { result ≡ (moved_down (length entries.old.array) entries.old.array from).place }
    ensures room { entries.new.room ≡ entries.old.room }
{
    let mut place = from;
    while let Some(child) = child_to_pass(entries, place) {
        entries.swap(place, child);
        place = child;
    }
    place
}

/// The entry at a place moves up, or else down. Answers where it comes to rest.
pub(crate) fn settle(entries: &mut PlacedEntries, place: usize) -> usize
    requires { place < length entries.old.array }
    ensures array { entries.new.array ≡ (settled entries.old.array place).array }
    ensures place { result ≡ (settled entries.old.array place).place }
    ensures room { entries.new.room ≡ entries.old.room }
{
    if must_rise(entries, place) {
        move_up(entries, place)
    } else {
        move_down(entries, place)
    }
}

/// The entry at `from` goes up the chain of parents to `to`.
fn raise(entries: &mut PlacedEntries, from: usize, to: usize)
    requires { from < length entries.old.array }
    ensures array { entries.new.array ≡ raised from entries.old.array from to }
    ensures room { entries.new.room ≡ entries.old.room }
{
    let mut place = from;
    while place > to {
        let above = parent(place);
        entries.swap(place, above);
        place = above;
    }
}

/// The entry at `from` goes down the chain of parents of `to`, to `to`.
pub(crate) fn lower(entries: &mut PlacedEntries, from: usize, to: usize)
    requires { to < length entries.old.array }
    ensures array { entries.new.array ≡ lowered to entries.old.array from to }
    ensures room { entries.new.room ≡ entries.old.room }
{
    if from < to {
        let above = parent(to);
        lower(entries, from, above);
        entries.swap(above, to);
    }
}

/// The entry that came to rest at `rest` goes back to `place`, the way that it came.
pub(crate) fn go_back(entries: &mut PlacedEntries, rest: usize, place: usize)
    requires rest_within { rest < length entries.old.array }
    requires place_within { place < length entries.old.array }
    ensures array { entries.new.array ≡ returned entries.old.array rest place }
    ensures room { entries.new.room ≡ entries.old.room }
{
    if rest <= place {
        lower(entries, rest, place);
    } else {
        raise(entries, rest, place);
    }
}

//! Whether each shift is the log's part for its worker: the log is gone over once, for all of them together.
ghost use Rattle.std.specs.Prelude.{◌≡◌, ◌==◌, ◌<◌, ◌≤◌, ◌∷◌, ◌↔◌, ℕ, List, IfSome, IfNone, map, length, slice_index, false, []};
ghost use Rattle.std.specs.Bool.{MatchBool};
ghost use Rattle.uv_ids.specs.Limits.{MOST_WORKERS};
ghost use Rattle.uv_work.specs.declared.event.PoolEvent.{PoolEvent};
ghost use Rattle.uv_live.specs.Following.{Decides};
ghost use Rattle.uv_live.specs.Settling.{worked, is_of, AreLeft, AreParts, AreShifts, IsByWorker};

use crate::following::is_same;
use std::sync::ledger::Ledger;
use uv_ids::MOST_WORKERS;
use uv_pool::Shift;
use uv_work::PoolEvent;

/// The most shifts: a pool has no more workers.
const MOST_SHIFTS: usize = MOST_WORKERS as usize;

/// The worker whose event it is, if it is a worker's.
fn worker_of(event: PoolEvent) -> Option<u16>
    ensures some { IfSome result (λ k. (j : ℕ) → is_of j event ≡ (k == j)) }
    ensures none { IfNone result ((j : ℕ) → is_of j event ≡ false) }
{
    match event {
        PoolEvent::Take(k, _) => Some(k),
        PoolEvent::Finish(k, _) => Some(k),
        PoolEvent::Queue(_) => None,
        PoolEvent::Cancel(_) => None,
        PoolEvent::Collect(_) => None,
    }
}

/// Whether an entry of the log is the next event of its worker's shift, of which so many were met before; then it is met. An entry of
/// no shift's worker is passed over.
fn meets<L: Ledger>(entry: PoolEvent, shifts: &[Shift<L>], met: &mut [usize]) -> bool
    requires { length shifts.now ≤ length met.old }
    ensures { let all = map (λ s. worked s.worker s.events.items s.share.amount) shifts.now in MatchBool result
        ((rest : List PoolEvent) → AreLeft all met.new rest ↔ AreLeft all met.old (entry ∷ rest))
        ((rest : List PoolEvent) → ¬ AreLeft all met.old (entry ∷ rest)) }
{
    let Some(worker) = worker_of(entry) else {
        return true;
    };
    let worker = worker as usize;
    if worker >= shifts.len() {
        return true;
    }
    let events = shifts[worker].events.as_slice();
    let place = met[worker];
    if place >= events.len() {
        return false;
    }
    if !is_same(events[place], entry) {
        return false;
    }
    met[worker] = place + 1;
    true
}

/// None is met yet.
fn none_met() -> [usize; MOST_SHIFTS]
    ensures length { length result ≡ MOST_WORKERS }
    ensures none { (k : ℕ) → slice_index result k ≡ 0 }
{
    [0; MOST_SHIFTS]
}

/// Whether the log is made of the events of all shifts, each in its order, and of entries that are no worker's.
fn are_parts<L: Ledger>(log: &[PoolEvent], shifts: &[Shift<L>]) -> bool
    requires { length shifts.now ≤ MOST_WORKERS }
    ensures { Decides result (AreParts log.now (map (λ s. worked s.worker s.events.items s.share.amount) shifts.now)) }
{
    let mut met = none_met();
    'entries: for n in 0..log.len() {
        if !meets(log[n], shifts, &mut met) {
            return false;
        }
    }
    all_met(shifts, &met)
}

/// Whether none of the shifts has an event more than were met.
fn all_met<L: Ledger>(shifts: &[Shift<L>], met: &[usize]) -> bool
    requires { length shifts.now ≤ length met.now }
    ensures { Decides result (AreLeft (map (λ s. worked s.worker s.events.items s.share.amount) shifts.now) met.now []) }
{
    'shifts: for k in 0..shifts.len() {
        if met[k] < shifts[k].events.len() {
            return false;
        }
    }
    true
}

/// Whether the shift is that of the worker with this number.
fn is_by_worker<L: Ledger>(k: usize, shift: &Shift<L>) -> bool
    ensures { Decides result (IsByWorker k (worked shift.now.worker shift.now.events.items shift.now.share.amount)) }
{
    if shift.worker as usize != k {
        return false;
    }
    true
}

/// Whether the shifts are those of the workers 0, 1, .. in order.
pub(crate) fn are_shifts<L: Ledger>(log: &[PoolEvent], shifts: &[Shift<L>]) -> bool
    requires { length shifts.now ≤ MOST_WORKERS }
    ensures { Decides result (AreShifts log.now (map (λ s. worked s.worker s.events.items s.share.amount) shifts.now)) }
{
    if !are_parts(log, shifts) {
        return false;
    }
    'shifts: for k in 0..shifts.len() {
        if !is_by_worker(k, &shifts[k]) {
            return false;
        }
    }
    true
}

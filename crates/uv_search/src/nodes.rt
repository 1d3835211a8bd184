//! Pairs of numbers in a row, and where each is.
ghost use Rattle.std.specs.Prelude.{◌≡◌, ◌<◌, ◌≤◌, ◌^◌, ◌++◌, ◌∷◌, [], ℕ, true, false, Some, length, map, slice_get, OnOk, OnErr, IfOk, IfSome, IfNone, vec_len, vec_capacity};
ghost use Rattle.uv_search.specs.Chains.{AreLinked, Linked, place_of};
ghost use Rattle.uv_search.specs.Cuts.{IsEntered};

use std::alloc::{AllocError, Global};
use std::marker::Model;

/// How many rows there may be at most: each has a number that, and one more, is a `u32`.
pub(crate) const MOST: usize = 0xFFFF_FFFF;

/// Half as many places as there are first.
const FIRST_PLACES: usize = 16;

/// Pairs, numbered from 0 in the order in which they were added.
#[derive(Drop)]
pub(crate) struct Nodes {
    alloc: Global,
    /// Of each place the last pair there, by its number and one more.
    last: Vec<u32>,
    /// Of each pair the one before it at its place.
    before: Vec<u32>,
    pairs: Vec<(u32, u32)>,
}

impl Model for Nodes {
    ghost use Rattle.std.specs.Prelude.{List, ℕ};
    ghost use Rattle.uv_search.specs.Chains.{AreLinked};

    ghost Value = { List (ℕ × ℕ) };

    ghost view = { λ n. n.pairs.items };

    ghost invariant = { λ n. AreLinked n.last.items n.before.items n.pairs.items };
}

#[tactic(auto, unfolding(crate::specs::Chains::place_of))]
fn place(pair: (u32, u32), count: usize) -> usize
    requires { 0 < count }
    ensures value { result ≡ place_of count pair }
    ensures below { result < count }
{
    let both = pair.0 as u64 * 0x1_0000_0000 + pair.1 as u64;
    (both.wrapping_mul(0x9e37_79b9_7f4a_7c15) >> 32) as usize % count
}

fn is_same(a: (u32, u32), b: (u32, u32)) -> bool
    ensures yes { result ≡ true → a ≡ b }
    ensures no { result ≡ false → a ≡ b → ⊥ }
{
    a.0 == b.0 && a.1 == b.1
}

/// Links all pairs anew.
fn link(pairs: &[(u32, u32)], before: &mut [u32], last: &mut [u32])
    requires long { length before.old ≡ length pairs.now }
    requires few { length pairs.now < 2 ^ 32 }
    requires room { 0 < length last.old }
    requires none { (i at : ℕ) → slice_get last.old i ≡ Some at → at ≡ 0 }
    ensures linked { Linked last.new before.new (map (place_of (length last.old)) pairs.now) (length pairs.now) }
    ensures before { length before.new ≡ length before.old }
    ensures last { length last.new ≡ length last.old }
{
    for row in 0..pairs.len() {
        let place = place(pairs[row], last.len());
        before[row] = last[place];
        last[place] = row as u32 + 1;
    }
}

/// Twice as many places, where there are as many pairs as places.
fn widen(
    alloc: Global,
    pairs: &[(u32, u32)],
    before: &mut [u32],
    last: &mut Vec<u32>,
) -> Result<(), AllocError>
    requires linked { AreLinked last.old.items before.old pairs.now }
    requires few { length pairs.now < 0xFFFF_FFFF }
    ensures linked { AreLinked last.new.items before.new pairs.now }
    ensures room { OnOk result (length pairs.now < length last.new.items) }
{
    let count = pairs.len();
    if count < last.len() {
        return Ok(());
    }
    let mut wider: Vec<u32> = Vec::new(alloc);
    wider.resize(count.max(FIRST_PLACES) * 2, 0)?;
    link(pairs, before, wider.as_mut_slice());
    *last = wider;
    Ok(())
}

/// Makes room for one pair more.
#[inline(always)]
fn make_room(
    alloc: Global,
    pairs: &mut Vec<(u32, u32)>,
    before: &mut Vec<u32>,
    last: &mut Vec<u32>,
) -> Result<(), AllocError>
    requires linked { AreLinked last.old.items before.old.items pairs.old.items }
    requires few { length pairs.old.items < 0xFFFF_FFFF }
    ensures linked { AreLinked last.new.items before.new.items pairs.new.items }
    ensures same { pairs.new.items ≡ pairs.old.items }
    ensures places { OnOk result (length pairs.new.items < length last.new.items) }
    ensures pairs { OnOk result (vec_len pairs.new < vec_capacity pairs.new) }
    ensures before { OnOk result (vec_len before.new < vec_capacity before.new) }
{
    pairs.reserve(1)?;
    before.reserve(1)?;
    widen(alloc, pairs.as_slice(), before.as_mut_slice(), last)
}

/// One pair more, behind the others, which are so many. There is room for it.
#[inline(always)]
fn put(
    pairs: &mut Vec<(u32, u32)>,
    before: &mut Vec<u32>,
    last: &mut Vec<u32>,
    pair: (u32, u32),
    count: usize,
)
    requires linked { AreLinked last.old.items before.old.items pairs.old.items }
    requires count { count ≡ length pairs.old.items }
    requires few { length pairs.old.items < 0xFFFF_FFFF }
    requires places { length pairs.old.items < length last.old.items }
    requires pairs { vec_len pairs.old < vec_capacity pairs.old }
    requires before { vec_len before.old < vec_capacity before.old }
    ensures linked { AreLinked last.new.items before.new.items pairs.new.items }
    ensures pairs { pairs.new.items ≡ pairs.old.items ++ pair ∷ [] }
{
    let place = place(pair, last.len());
    before.push_reserved(last[place]);
    pairs.push_reserved(pair);
    last[place] = count as u32 + 1;
}

/// The number of this pair among these.
fn find(pairs: &[(u32, u32)], before: &[u32], last: &[u32], pair: (u32, u32)) -> Option<u32>
    requires linked { AreLinked last.now before.now pairs.now }
    ensures some { IfSome result (λ number. slice_get pairs.now number ≡ Some pair) }
    ensures none { IfNone result ((i : ℕ) → slice_get pairs.now i ≡ Some pair → ⊥) }
{
    if last.is_empty() {
        return None;
    }
    let mut at = last[place(pair, last.len())];
    while at > 0 {
        let row = at - 1;
        if is_same(pairs[row as usize], pair) {
            return Some(row);
        }
        at = before[row as usize];
    }
    None
}

impl Nodes {
    pub(crate) fn new(alloc: Global) -> Nodes
        ensures { result ≡ [] }
    {
        Nodes {
            alloc,
            last: Vec::new(alloc),
            before: Vec::new(alloc),
            pairs: Vec::new(alloc),
        }
    }

    pub(crate) fn len(&self) -> usize
        ensures { result ≡ length self.now }
    {
        self.pairs.len()
    }

    /// The number of this pair.
    pub(crate) fn number(&self, pair: (u32, u32)) -> Option<u32>
        ensures some { IfSome result (λ number. slice_get self.now number ≡ Some pair) }
        ensures none { IfNone result ((i : ℕ) → slice_get self.now i ≡ Some pair → ⊥) }
    {
        find(
            self.pairs.as_slice(),
            self.before.as_slice(),
            self.last.as_slice(),
            pair,
        )
    }

    /// One more, behind the others.
    pub(crate) fn add(&mut self, pair: (u32, u32)) -> Result<u32, AllocError>
        ensures ok { OnOk result (self.new ≡ self.old ++ pair ∷ []) }
        ensures number { IfOk result (λ number. number ≡ length self.old) }
        ensures err { OnErr result (self.new ≡ self.old) }
    {
        let count = self.pairs.len();
        if count >= MOST {
            return Err(AllocError);
        }
        make_room(
            self.alloc,
            &mut self.pairs,
            &mut self.before,
            &mut self.last,
        )?;
        put(
            &mut self.pairs,
            &mut self.before,
            &mut self.last,
            pair,
            count,
        );
        Ok(count as u32)
    }

    /// The number of this pair, which is added if it isn't there.
    pub(crate) fn enter(&mut self, pair: (u32, u32)) -> Result<u32, AllocError>
        ensures ok { IfOk result (λ number. slice_get self.new number ≡ Some pair) }
        ensures entered { IsEntered self.old pair self.new }
    {
        match self.number(pair) {
            Some(number) => Ok(number),
            None => self.add(pair),
        }
    }
}

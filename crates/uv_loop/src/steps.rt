//! The steps that stand.
ghost use Rattle.std.specs.Prelude.{◌≡◌, ◌<◌, ◌++◌, ◌∷◌, [], OnOk, IsTrue, IsFalse, length, take};
ghost use Rattle.uv_memory.specs.Record.{at_place};
ghost use Rattle.uv_loop.specs.Taken.{AreSame, IsOneMore};

use crate::line_row::LineRow;
use std::alloc::{AllocError, Global};
use std::marker::Model;
use uv_ids::Seen;
use uv_memory::{LastStep, Trail};
use uv_stands::{PackedLine, PackedPlace};

/// For how many steps room is made at once.
const BATCH: usize = 64;

/// The steps that stand: what each appended to the trace, which tells its event, and what takes it back.
#[derive(Drop)]
pub(crate) struct Steps {
    pub(crate) seen: LineRow,
    pub(crate) trail: Trail<PackedPlace>,
    /// For so many more there is room for sure: one look in place of one at each row.
    ready: usize,
}

impl Model for Steps {
    ghost use Rattle.std.specs.Prelude.{◌≤◌};
    ghost use Rattle.uv_loop.specs.Standing.{Standing};

    ghost Value = { Standing };

    ghost view = { λ s. record { seen = s.seen; trail = s.trail; ready = s.ready } };

    ghost invariant = { λ s. (s.ready ≤ s.seen.room) × (s.ready ≤ s.trail.room) };
}

impl Steps {
    pub(crate) fn new(alloc: Global) -> Steps
        ensures seen { result.seen.items ≡ [] }
        ensures records { result.trail.records ≡ [] }
    {
        Steps {
            seen: LineRow::new(alloc),
            trail: Trail::new(alloc),
            ready: 0,
        }
    }

    /// How many there are.
    pub(crate) fn len(&self) -> usize
        ensures { result ≡ length self.now.seen.items }
    {
        self.seen.len()
    }

    /// Makes room for one more.
    #[inline(always)]
    pub(crate) fn reserve(&mut self) -> Result<(), AllocError>
        ensures same { AreSame self.old self.new }
        ensures ok { OnOk result (0 < self.new.ready) }
    {
        if self.ready > 0 {
            return Ok(());
        }
        self.make_ready()
    }

    /// Makes room for some more at once, or where there is no memory for these, for one.
    #[cold]
    #[inline(never)]
    fn make_ready(&mut self) -> Result<(), AllocError>
        ensures same { AreSame self.old self.new }
        ensures ok { OnOk result (0 < self.new.ready) }
    {
        if self.reserve_some(BATCH).is_ok() {
            return Ok(());
        }
        self.reserve_some(1)
    }

    /// Makes room for so many more.
    fn reserve_some(&mut self, count: usize) -> Result<(), AllocError>
        ensures same { AreSame self.old self.new }
        ensures ok { OnOk result (self.new.ready ≡ count) }
    {
        if self.seen.reserve(count).is_err() || self.trail.reserve(count).is_err() {
            return Err(AllocError);
        }
        self.ready = count;
        Ok(())
    }

    /// One more. It takes no memory.
    #[inline(always)]
    pub(crate) fn push(&mut self, line: Option<Seen>, last: &LastStep<PackedPlace>)
        requires { 0 < self.old.ready }
        ensures { IsOneMore self.old self.new line last.now }
    {
        self.ready -= 1;
        self.seen.push(line);
        self.trail.push_at(last.place(), last);
    }

    /// One more, whose line fits in two words. It takes no memory.
    #[inline(always)]
    pub(crate) fn push_packed(&mut self, line: &PackedLine, last: &LastStep<PackedPlace>)
        requires { 0 < self.old.ready }
        ensures { IsOneMore self.old self.new line.now last.now }
    {
        self.ready -= 1;
        self.seen.push_packed(line);
        self.trail.push_at(last.place(), last);
    }

    pub(crate) fn is_empty(&self) -> bool
        ensures none { IsTrue result → self.now.trail.records ≡ [] }
        ensures some { IsFalse result → 0 < length self.now.trail.records }
    {
        self.trail.len() == 0
    }

    /// The last one of some goes: this takes it back, and the loop stood at the place that is answered.
    pub(crate) fn pop(&mut self, last: &mut LastStep<PackedPlace>) -> PackedPlace
        requires some { 0 < length self.old.trail.records }
        requires each { length self.old.seen.items ≡ length self.old.trail.records }
        ensures records { self.old.trail.records ≡ self.new.trail.records ++ at_place result last.new ∷ [] }
        ensures seen { self.new.seen.items ≡ take (length self.new.trail.records) self.old.seen.items }
    {
        self.seen.pop();
        match self.trail.pop_at(last) {
            None => unreachable!(),
            Some(place) => place,
        }
    }
}

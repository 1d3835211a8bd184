//! What the steps that stand appended to the trace, in two rows by its width.
ghost use Rattle.std.specs.Prelude.{◌≡◌, ◌<◌, ◌≤◌, ◌+◌, ◌++◌, ◌∷◌, [], OnOk, Some, length, slice_get, take, pred};

use std::alloc::{AllocError, Global};
use std::marker::Model;
use uv_ids::Seen;
use uv_stands::{Line, PackedLine};

/// What each step appended to the trace, the first step's first.
#[derive(Drop)]
pub(crate) struct LineRow {
    lines: Vec<Line>,
    wides: Vec<Seen>,
}

impl Model for LineRow {
    ghost use Rattle.std.specs.Prelude.{◌-◌, min, vec_len, vec_capacity};
    ghost use Rattle.uv_loop.specs.LineRows.{KeptLines, all_said, AreKept};

    ghost Value = { KeptLines };

    ghost view = { λ r. record {
      items = all_said r.wides.items r.lines.items;
      room = min (vec_capacity r.lines - vec_len r.lines) (vec_capacity r.wides - vec_len r.wides);
    } };

    ghost invariant = { λ r. AreKept r.lines.items r.wides.items };
}

impl LineRow {
    pub(crate) fn new(alloc: Global) -> LineRow
        ensures { result.items ≡ [] }
    {
        LineRow {
            lines: Vec::new(alloc),
            wides: Vec::new(alloc),
        }
    }

    pub(crate) fn len(&self) -> usize
        ensures { result ≡ length self.now.items }
    {
        self.lines.len()
    }

    /// What a step appended.
    #[inline(always)]
    pub(crate) fn at(&self, step: usize) -> Option<Seen>
        requires { step < length self.now.items }
        ensures { slice_get self.now.items step ≡ Some result }
    {
        self.lines[step].said(self.wides.as_slice())
    }

    /// Makes room for so many more.
    pub(crate) fn reserve(&mut self, count: usize) -> Result<(), AllocError>
        ensures same { self.new.items ≡ self.old.items }
        ensures ok { OnOk result (count ≤ self.new.room) }
        ensures kept { self.old.room ≤ self.new.room }
    {
        self.lines.reserve(count)?;
        self.wides.reserve(count)
    }

    /// One more. It takes no memory.
    #[inline(always)]
    pub(crate) fn push(&mut self, line: Option<Seen>)
        requires { 0 < self.old.room }
        ensures items { self.new.items ≡ self.old.items ++ line ∷ [] }
        ensures room { self.old.room ≤ self.new.room + 1 }
    {
        match Line::narrow(line) {
            Ok(narrow) => self.lines.push_reserved(narrow),
            Err(wide) => {
                self.lines.push_reserved(Line::Wide(self.wides.len()));
                self.wides.push_reserved(wide);
            }
        }
    }

    /// One more, which fits in two words. It takes no memory.
    #[inline(always)]
    pub(crate) fn push_packed(&mut self, line: &PackedLine)
        requires { 0 < self.old.room }
        ensures items { self.new.items ≡ self.old.items ++ line.now ∷ [] }
        ensures room { self.old.room ≤ self.new.room + 1 }
    {
        self.lines.push_reserved(line.line());
    }

    /// The last one goes, if there is one.
    pub(crate) fn pop(&mut self)
        ensures items { self.new.items ≡ take (pred (length self.old.items)) self.old.items }
        ensures room { self.old.room ≤ self.new.room }
    {
        let Some(line) = self.lines.pop() else {
            return;
        };
        if line.is_wide() {
            let Some(_) = self.wides.pop() else {
                unreachable!()
            };
        }
    }
}

//! The lines of a callback, with an index of them by their calls.
ghost use Rattle.std.specs.Prelude.{◌≡◌, ◌≤◌, ◌++◌, ◌∷◌, [], drop, map, OnOk, OnErr};
ghost use Rattle.std.specs.BTreeSet.{IsUnchanged};
ghost use Rattle.uv_script.specs.Program.{is_for, next_line};
ghost use Rattle.uv_script.specs.Index.{IsNoted, earlier, next_of};
ghost use Rattle.uv_script.specs.SameWork.{same_line};

use crate::op::CallbackLine;
use crate::same_work::same_lines;
use std::alloc::{AllocError, Global};
use std::collections::BTreeSet;
use std::marker::Model;

/// How many lines are looked at one by one before the index is asked. Most callbacks have no more, and then nothing is in their index.
const LOOKED_AT: usize = 16;

/// Where a line stands: the call that it is for, none where it is for every call, and its place among the lines.
type Spot = (Option<u32>, usize);

/// The lines of a callback, in their order. A call finds its next line without a look at those of all other calls.
#[derive(Drop)]
pub(crate) struct CallbackLines {
    lines: Vec<CallbackLine>,
    /// The spot of each line but the first ones, which are looked at.
    spots: BTreeSet<Spot>,
}

impl Model for CallbackLines {
    ghost use Rattle.std.specs.Prelude.{List};
    ghost use Rattle.uv_script.specs.declared.op.CallbackLine.{CallbackLine as Line};
    ghost use Rattle.uv_script.specs.Index.{IsIndex};

    ghost Value = { List Line };

    ghost view = { λ a. a.lines.items };

    ghost invariant = { λ a. IsIndex a.lines.items a.spots };
}

/// Whether a line is for a call.
fn is_for(line: CallbackLine, call: u32) -> bool
    ensures { result ≡ is_for call line.call }
{
    match line.call {
        None => true,
        Some(its) => its == call,
    }
}

/// The first of two places, of which either may be missing.
fn earlier(a: Option<usize>, b: Option<usize>) -> Option<usize>
    ensures { result ≡ earlier a b }
{
    match (a, b) {
        (None, b) => b,
        (Some(a), None) => Some(a),
        (Some(a), Some(b)) => Some(a.min(b)),
    }
}

/// Adds the spot of a line to an index.
fn note(spots: &mut BTreeSet<Spot>, spot: Spot) -> Result<(), AllocError>
    ensures ok { OnOk result (IsNoted spot spots.old spots.new) }
    ensures err { OnErr result (IsUnchanged spots.old spots.new) }
{
    let (_, place) = spot;
    if place >= LOOKED_AT {
        spots.insert(spot)?;
    }
    Ok(())
}

impl CallbackLines {
    /// No line.
    pub(crate) fn new(alloc: Global) -> CallbackLines
        ensures { result ≡ [] }
    {
        CallbackLines {
            lines: Vec::new(alloc),
            spots: BTreeSet::new(alloc),
        }
    }

    /// The lines, in their order.
    pub(crate) fn as_slice(&self) -> &[CallbackLine]
        ensures { result.now ≡ self.now }
    {
        &self.lines
    }

    /// Adds a line behind the others. Without memory nothing changes.
    pub(crate) fn push(&mut self, line: CallbackLine) -> Result<(), AllocError>
        ensures ok { OnOk result (self.new ≡ self.old ++ line ∷ []) }
        ensures err { OnErr result (self.new ≡ self.old) }
    {
        self.lines.reserve(1)?;
        note(&mut self.spots, (line.call, self.lines.len()))?;
        self.lines.push_reserved(line);
        Ok(())
    }

    /// Each request asks for the least task. No line's call changes, so the index stays.
    pub(crate) fn ask_same_work(&mut self)
        ensures { self.new ≡ map same_line self.old }
    {
        same_lines(&mut self.lines);
    }

    /// The first line from this one on that is for a call.
    pub(crate) fn next_line(&self, call: u32, from: usize) -> Option<usize>
        ensures { result ≡ next_line call from (drop from self.now) }
    {
        let lines = self.lines.as_slice();
        for next in from..lines.len() {
            if next - from == LOOKED_AT {
                return self.by_index(call, next);
            }
            if is_for(lines[next], call) {
                return Some(next);
            }
        }
        None
    }

    /// The same by the index.
    fn by_index(&self, call: u32, from: usize) -> Option<usize>
        requires { LOOKED_AT ≤ from }
        ensures { result ≡ next_line call from (drop from self.now) }
    {
        earlier(self.next_of(None, from), self.next_of(Some(call), from))
    }

    /// The first line from this one on that is for a call alone; for every call, with none.
    fn next_of(&self, call: Option<u32>, from: usize) -> Option<usize>
        requires { LOOKED_AT ≤ from }
        ensures { result ≡ next_of call from (drop from self.now) }
    {
        let &(its, place) = self.spots.range((call, from)..).next()?;
        if its == call { Some(place) } else { None }
    }
}

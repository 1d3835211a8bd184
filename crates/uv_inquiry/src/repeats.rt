//! Whether the states of a search may have no end.
ghost use Rattle.std.specs.Prelude.{◌≡◌, ◌↔◌, ◌<◌, ℕ, length, IsTrue, true, false};
ghost use Rattle.uv_ids.specs.declared.id.Var.{Var};
ghost use Rattle.uv_ids.specs.declared.phase.Kind.TheVariants.{Idle};
ghost use Rattle.uv_ids.specs.declared.seen.Callback.{Callback};
ghost use Rattle.uv_ids.specs.declared.seen.Site.TheVariants.{Main, In};
ghost use Rattle.uv_script.specs.declared.op.Op.TheVariants.{Init, StartWatcher};
ghost use Rattle.uv_script.specs.Program.{IsWhole};
ghost use Rattle.uv_asking.specs.Asked.{asked_in};
ghost use Rattle.uv_inquiry.specs.Repeats.{MayNeverEnd, IsUnbounded, GoesOn, Repeats, Idles, HasOp, is_wanted, is_main, in_lines, HasWanted, NoneAt};

use crate::inquiry::Inquiry;
use uv_asking::Asking;
use uv_ids::{Callback, Kind, Var};
use uv_script::{CallbackLine, MainOp, Op, Script};

/// The most lines of a script that count.
const MOST_LINES: usize = 1_048_575;

/// An op that is looked for.
#[derive(Clone, Copy)]
enum Wanted {
    /// It starts a timer with a repeat, or sets a repeat.
    Repeat,
    /// `init NAME idle`.
    InitIdle(Var),
    /// `start NAME`.
    StartWatcher(Var),
}

impl Wanted {
    /// Whether this op is such a one.
    fn is(self, op: Op) -> bool
        ensures { result ≡ is_wanted self op }
    {
        match (self, op) {
            (Wanted::Repeat, Op::Start(_, _, repeat)) => repeat > 0,
            (Wanted::Repeat, Op::SetRepeat(_, repeat)) => repeat > 0,
            (Wanted::InitIdle(name), Op::Init(other, Kind::Idle)) => other.0 == name.0,
            (Wanted::StartWatcher(name), Op::StartWatcher(other)) => other.0 == name.0,
            _ => false,
        }
    }

    /// Whether this line of the main program is one with such an op.
    fn is_main(self, line: MainOp) -> bool
        ensures { result ≡ is_main self line }
    {
        match line {
            MainOp::Op(op) => self.is(op),
            MainOp::Run(_) => false,
        }
    }
}

/// Whether no bound is given for the clock or for a name, and callbacks may come without end: an idle handle is started, or a timer
/// repeats and the clock may go on. Where what came in a recording is all that comes, it goes on no further than it did there.
///
/// A script may have no end of states in other ways: a callback that starts its own timer again isn't seen.
pub fn may_never_end(inquiry: &Inquiry) -> bool
    ensures { IsTrue result ↔ MayNeverEnd inquiry.now.script (asked_in inquiry.now.asking) }
{
    is_unbounded(&inquiry.asking) && goes_on(&inquiry.script, &inquiry.asking)
}

/// Whether no bound is given for the clock or for a name.
fn is_unbounded(asking: &Asking) -> bool
    ensures { IsTrue result ↔ IsUnbounded (asked_in asking.now) }
{
    asking.clock.is_none() && asking.most.is_empty()
}

/// Whether callbacks may come without end.
#[tactic(auto, using(crate::proofs::Ops::ops))]
fn goes_on(script: &Script, asking: &Asking) -> bool
    ensures { IsTrue result ↔ GoesOn script.now (asked_in asking.now) }
{
    let names = script.names().len();
    match asking.differ {
        None => has_op(script, Wanted::Repeat) || idles(script, names),
        Some(_) => idles(script, names),
    }
}

/// Whether an idle handle is started.
#[tactic(auto, using(crate::proofs::Ops::ops))]
fn idles(script: &Script, names: usize) -> bool
    requires whole { IsWhole script.now }
    requires names { names ≡ length script.now.names }
    ensures yes { result ≡ true → Idles script.now }
    ensures no { result ≡ false → Idles script.now → ⊥ }
{
    for name in 0..names {
        if idles_by(script, Var(name as u32)) {
            return true;
        }
    }
    false
}

/// Whether this idle handle is started.
#[tactic(auto, using(crate::proofs::Ops::ops))]
fn idles_by(script: &Script, name: Var) -> bool
    requires whole { IsWhole script.now }
    ensures { IsTrue result ↔ (HasOp script.now (Init name Idle) × HasOp script.now (StartWatcher name)) }
{
    has_op(script, Wanted::InitIdle(name)) && has_op(script, Wanted::StartWatcher(name))
}

/// Whether the script has such an op.
#[tactic(auto, using(crate::proofs::Ops::ops))]
fn has_op(script: &Script, wanted: Wanted) -> bool
    requires whole { IsWhole script.now }
    ensures yes { result ≡ true → HasWanted script.now wanted }
    ensures no { result ≡ false → HasWanted script.now wanted → ⊥ }
{
    in_main(script, wanted) || in_callbacks(script, wanted)
}

fn in_main(script: &Script, wanted: Wanted) -> bool
    requires whole { IsWhole script.now }
    ensures yes { result ≡ true → HasWanted script.now wanted }
    ensures no { result ≡ false → (line : ℕ) → NoneAt script.now wanted (Main line) }
{
    for line in 0..MOST_LINES {
        let Some(op) = script.main_op(line) else {
            return false;
        };
        if wanted.is_main(op) {
            return true;
        }
    }
    false
}

fn in_callbacks(script: &Script, wanted: Wanted) -> bool
    requires whole { IsWhole script.now }
    ensures yes { result ≡ true → HasWanted script.now wanted }
    ensures no { result ≡ false → (kind : Callback) (v : Var) (line : ℕ) → NoneAt script.now wanted (In kind v line) }
{
    for name in 0..script.names().len() {
        if in_callbacks_of(script, Var(name as u32), wanted) {
            return true;
        }
    }
    false
}

fn in_callbacks_of(script: &Script, name: Var, wanted: Wanted) -> bool
    ensures yes { result ≡ true → HasWanted script.now wanted }
    ensures no { result ≡ false → (kind : Callback) (line : ℕ) → NoneAt script.now wanted (In kind name line) }
{
    if in_callback(script, Callback::Handle, name, wanted) {
        return true;
    }
    if in_callback(script, Callback::After, name, wanted) {
        return true;
    }
    in_callback(script, Callback::Close, name, wanted)
}

fn in_callback(script: &Script, kind: Callback, name: Var, wanted: Wanted) -> bool
    ensures yes { result ≡ true → HasWanted script.now wanted }
    ensures no { result ≡ false → (line : ℕ) → NoneAt script.now wanted (In kind name line) }
{
    in_lines(script.lines_in(kind, name), wanted)
}

fn in_lines(lines: &[CallbackLine], wanted: Wanted) -> bool
    ensures { result ≡ in_lines wanted lines.now }
{
    lines.iter().any(|line| wanted.is(line.op))
}

//! What holds of each op of a script.
ghost use Rattle.std.specs.Prelude.{◌≡◌, drop, length};
ghost use Rattle.std.specs.List.{list_all};
ghost use Rattle.uv_script.specs.Program.{IsWhole, callbacks_of};
ghost use Rattle.uv_find.specs.Holding.{test_of};
ghost use Rattle.uv_find.specs.Ops.{of_main, of_lines, of_callbacks, each_op};

use crate::at_once::is_no_cancel;
use crate::forgetting::is_small_op;
use crate::mates::spares;
use uv_ids::{Callback, Var};
use uv_script::{CallbackLine, MainOp, Op, Script};

/// The most lines of a script that count.
const MOST_LINES: usize = 1_048_575;

/// What is asked of an op.
#[derive(Clone, Copy)]
pub(crate) enum OpTest {
    /// Its times are short.
    IsShort,
    /// It is no cancel.
    IsNoCancel,
    /// It names neither this name nor the next one.
    Spares(u32),
}

fn holds(test: OpTest, op: Op) -> bool
    ensures { result ≡ test_of test op }
{
    match test {
        OpTest::IsShort => is_small_op(op),
        OpTest::IsNoCancel => is_no_cancel(op),
        OpTest::Spares(first) => spares(first, op),
    }
}

/// Whether this holds of each op of a script, which has so many names.
pub(crate) fn each_op(script: &Script, names: usize, test: OpTest) -> bool
    requires whole { IsWhole script.now }
    requires names { names ≡ length script.now.names }
    ensures { result ≡ each_op (test_of test) script.now }
{
    holds_in_main(script, test) && holds_in_callbacks(script, names, test)
}

fn of_main(test: OpTest, line: MainOp) -> bool
    ensures { result ≡ of_main (test_of test) line }
{
    match line {
        MainOp::Op(op) => holds(test, op),
        MainOp::Run(_) => true,
    }
}

#[tactic(auto, using(crate::proofs::Scans::scanning))]
fn holds_in_main(script: &Script, test: OpTest) -> bool
    requires whole { IsWhole script.now }
    ensures { result ≡ list_all (of_main (test_of test)) script.now.main }
{
    'lines: for line in 0..MOST_LINES {
        let Some(op) = script.main_op(line) else {
            return true;
        };
        if !of_main(test, op) {
            return false;
        }
    }
    true
}

#[tactic(auto, using(crate::proofs::Scans::scanning))]
fn holds_in_callbacks(script: &Script, names: usize, test: OpTest) -> bool
    requires whole { IsWhole script.now }
    requires names { names ≡ length script.now.names }
    ensures { result ≡ list_all (of_callbacks (test_of test)) script.now.callbacks }
{
    'names: for name in 0..names {
        if !of_callbacks(test, script, Var(name as u32)) {
            return false;
        }
    }
    true
}

/// Whether this holds of each line of the main program from this one on.
#[tactic(auto, using(crate::proofs::Scans::scanning))]
pub(crate) fn holds_in_main_from(script: &Script, first: usize, test: OpTest) -> bool
    requires whole { IsWhole script.now }
    ensures { result ≡ list_all (of_main (test_of test)) (drop first script.now.main) }
{
    'lines: for line in first..MOST_LINES {
        let Some(op) = script.main_op(line) else {
            return true;
        };
        if !of_main(test, op) {
            return false;
        }
    }
    true
}

fn of_callbacks(test: OpTest, script: &Script, name: Var) -> bool
    ensures { result ≡ of_callbacks (test_of test) (callbacks_of script.now name) }
{
    of_lines(test, script.lines_in(Callback::Handle, name))
        && of_lines(test, script.lines_in(Callback::After, name))
        && of_lines(test, script.lines_in(Callback::Close, name))
}

fn of_lines(test: OpTest, lines: &[CallbackLine]) -> bool
    ensures { result ≡ of_lines (test_of test) lines.now }
{
    lines.iter().all(|line| holds(test, line.op))
}

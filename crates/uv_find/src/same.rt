//! Callbacks that do the same, except for their own names.
ghost use Rattle.std.specs.Prelude.{◌≡◌, ◌+◌, ◌<◌, ◌≤◌};
ghost use Rattle.uv_script.specs.Program.{callbacks_of, lines_in};
ghost use Rattle.uv_find.specs.Same.{op_code, op_times, op_task, other_name, same_task, same_tasks, turned_name, same_call, turned_op, turned_line, turned_lines, turned_callbacks, all_turned};

use crate::questions::op_name;
use uv_ids::{Callback, Var};
use uv_script::{CallbackLine, Op, Script};
use uv_state_key::kind_number;
use uv_work::Task;

fn op_code(op: Op) -> u8
    ensures { result ≡ op_code op }
{
    match op {
        Op::Init(_, kind) => kind_number(kind),
        Op::Start(_, _, _) => 6,
        Op::StartWatcher(_) => 7,
        Op::Stop(_) => 8,
        Op::Again(_) => 9,
        Op::SetRepeat(_, _) => 10,
        Op::DueIn(_) => 11,
        Op::Ref(_) => 12,
        Op::Unref(_) => 13,
        Op::HasRef(_) => 14,
        Op::IsActive(_) => 15,
        Op::Close(_) => 16,
        Op::IsClosing(_) => 17,
        Op::Send(_) => 18,
        Op::Queue(_, _) => 19,
        Op::Cancel(_) => 20,
        Op::CloseLoop => 21,
        Op::StopLoop => 22,
        Op::UpdateTime => 23,
        Op::Now => 24,
        Op::IsAlive => 25,
        Op::Timeout => 26,
    }
}

/// The ms that an op names.
fn op_times(op: Op) -> (u64, u64)
    ensures { result ≡ op_times op }
{
    match op {
        Op::Start(_, timeout, again) => (timeout, again),
        Op::SetRepeat(_, again) => (again, 0),
        _ => (0, 0),
    }
}

fn op_task(op: Op) -> Option<Task>
    ensures { result ≡ op_task op }
{
    match op {
        Op::Queue(_, task) => Some(task),
        _ => None,
    }
}

pub(crate) fn same_task(one: Task, two: Task) -> bool
    ensures { result ≡ same_task one two }
{
    one.rounds() == two.rounds() && one.text() == two.text()
}

fn same_tasks(one: Option<Task>, two: Option<Task>) -> bool
    ensures { result ≡ same_tasks one two }
{
    match (one, two) {
        (None, None) => true,
        (Some(one), Some(two)) => same_task(one, two),
        (None, Some(_)) => false,
        (Some(_), None) => false,
    }
}

/// The name that takes this one's place, where a name and the next one change places.
fn other_name(first: u32, name: Var) -> Var
    requires { first + 1 < 4294967296 }
    ensures { result ≡ other_name first name }
{
    if name.0 == first {
        Var(first + 1)
    } else if name.0 == first + 1 {
        Var(first)
    } else {
        name
    }
}

fn turned_name(first: u32, one: Option<Var>, two: Option<Var>) -> bool
    requires { first + 1 < 4294967296 }
    ensures { result ≡ turned_name first one two }
{
    match (one, two) {
        (None, None) => true,
        (Some(one), Some(two)) => other_name(first, one).0 == two.0,
        (None, Some(_)) => false,
        (Some(_), None) => false,
    }
}

fn same_call(one: Option<u32>, two: Option<u32>) -> bool
    ensures { result ≡ same_call one two }
{
    match (one, two) {
        (None, None) => true,
        (Some(one), Some(two)) => one == two,
        (None, Some(_)) => false,
        (Some(_), None) => false,
    }
}

fn turned_op(first: u32, one: Op, two: Op) -> bool
    requires { first + 1 < 4294967296 }
    ensures { result ≡ turned_op first one two }
{
    let (timeout, again) = op_times(one);
    let (other, other_again) = op_times(two);
    op_code(one) == op_code(two)
        && timeout == other
        && again == other_again
        && turned_name(first, op_name(one), op_name(two))
        && same_tasks(op_task(one), op_task(two))
}

fn turned_line(first: u32, one: CallbackLine, two: CallbackLine) -> bool
    requires { first + 1 < 4294967296 }
    ensures { result ≡ turned_line first one two }
{
    same_call(one.call, two.call) && turned_op(first, one.op, two.op)
}

#[tactic(auto, using(crate::proofs::Equal::comparing))]
fn turned_lines(first: u32, one: &[CallbackLine], two: &[CallbackLine]) -> bool
    requires { first + 1 < 4294967296 }
    ensures { result ≡ turned_lines first one.now two.now }
{
    if one.len() != two.len() {
        return false;
    }
    'lines: for line in 0..one.len() {
        if !turned_line(first, one[line], two[line]) {
            return false;
        }
    }
    true
}

fn turned_kind(first: u32, script: &Script, kind: Callback, one: Var, two: Var) -> bool
    requires { first + 1 < 4294967296 }
    ensures { result ≡ turned_lines first (lines_in script.now kind one) (lines_in script.now kind two) }
{
    turned_lines(
        first,
        script.lines_in(kind, one),
        script.lines_in(kind, two),
    )
}

/// Whether the callbacks of one name are those of another one, with the two names exchanged in their lines.
fn turned_callbacks(first: u32, script: &Script, one: Var, two: Var) -> bool
    requires { first + 1 < 4294967296 }
    ensures { result ≡ turned_callbacks first (callbacks_of script.now one) (callbacks_of script.now two) }
{
    turned_kind(first, script, Callback::Handle, one, two)
        && turned_kind(first, script, Callback::After, one, two)
        && turned_kind(first, script, Callback::Close, one, two)
}

/// Whether each of the first names has the callbacks of the one whose place it takes, where a name and the next one change places.
pub(crate) fn all_turned(first: u32, script: &Script, names: usize) -> bool
    requires first { first + 1 < 4294967296 }
    requires names { names ≤ 4294967296 }
    ensures { result ≡ all_turned first script.now names }
{
    let mut all = true;
    'names: for number in 0..names {
        let name = Var(number as u32);
        all = all && turned_callbacks(first, script, name, other_name(first, name));
    }
    all
}

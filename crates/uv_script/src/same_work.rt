//! Lines whose requests ask for the same work, in place of their own.
#![tactic(auto, using(crate::proofs::Changed::changed_more))]

ghost use Rattle.std.specs.Prelude.{◌≡◌, map};
ghost use Rattle.uv_script.specs.SameWork.{least_task, same_op, same_main, same_line, same_callbacks};

use crate::op::{CallbackLine, Callbacks, MainOp, Op};
use uv_work::Task;

/// One round over the empty text.
fn least_task() -> Task
    ensures { result ≡ least_task }
{
    match Task::new(1, b"") {
        Some(task) => task,
        None => unreachable!(),
    }
}

/// An op that queues a request asks for the least task; any other is as it was.
fn same_op(op: &mut Op)
    ensures { op.new ≡ same_op op.old }
{
    if let Op::Queue(_, task) = op {
        *task = least_task();
    }
}

/// So it is with each line of a callback,
pub(crate) fn same_lines(lines: &mut [CallbackLine])
    ensures { lines.new ≡ map same_line lines.old }
{
    for line in lines.iter_mut() {
        same_op(&mut line.op);
    }
}

/// with a line of the main program, where a run is as it was,
fn same_line_of_main(line: &mut MainOp)
    ensures { line.new ≡ same_main line.old }
{
    if let MainOp::Op(op) = line {
        same_op(op);
    }
}

/// with each of them,
pub(crate) fn same_main(lines: &mut [MainOp])
    ensures { lines.new ≡ map same_main lines.old }
{
    for line in lines.iter_mut() {
        same_line_of_main(line);
    }
}

/// and with each line of these names' callbacks.
pub(crate) fn same_callbacks(callbacks: &mut [Callbacks])
    ensures { callbacks.new ≡ map same_callbacks callbacks.old }
{
    for of_name in callbacks.iter_mut() {
        of_name.ask_same_work();
    }
}

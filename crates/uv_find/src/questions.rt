//! Whether a step answers a question.
ghost use Rattle.std.specs.Prelude.{◌≡◌, ◌==◌, ◌&&◌};
ghost use Rattle.uv_model.specs.After.{after};
ghost use Rattle.uv_script.specs.Program.{is_for, op_name};
ghost use Rattle.uv_find.specs.Questions.{begun, is_which, is_call, is_uncalled, name_in, answered_name, is_name, is_of, is_awaited, is_late, answers_line, line_answers, has_ended};

use crate::kept::takes_time;
use uv_asking::{Question, Which};
use uv_ids::{Callback, Seen, Var};
use uv_model::{Machine, Place};
use uv_records::Calls;
use uv_script::Op;
use uv_session::Break;

/// The callback that a line begins.
fn begun(line: Seen) -> Option<(Callback, Var)>
    ensures { result ≡ begun line }
{
    match line {
        Seen::Call(name, _) => Some((Callback::Handle, name)),
        Seen::Io(name, _) => Some((Callback::Handle, name)),
        Seen::After(_, name, _) => Some((Callback::After, name)),
        Seen::Closed(name, _) => Some((Callback::Close, name)),
        _ => None,
    }
}

/// Whether a callback is one of those that are meant.
fn is_which(which: Which, callback: Callback) -> bool
    ensures { result ≡ is_which which callback }
{
    match (which, callback) {
        (Which::Any, _) => true,
        (Which::Handle, Callback::Handle) => true,
        (Which::After, Callback::After) => true,
        (Which::Close, Callback::Close) => true,
        _ => false,
    }
}

/// Whether the line begins such a callback of this name, and with a number that one.
fn is_call<M: Machine>(
    machine: &M,
    line: Seen,
    which: Which,
    name: Var,
    number: Option<u32>,
) -> bool
    ensures { result ≡ is_call which name number (after (M.program machine.now) (M.standing machine.now)) (begun line) }
{
    match begun(line) {
        None => false,
        Some((callback, called)) => is_which(which, callback)
            && called.0 == name.0
            && is_for(machine.named(name).calls.of(callback), number),
    }
}

/// Whether a number is for this call.
fn is_for(count: u32, number: Option<u32>) -> bool
    ensures { result ≡ is_for count number }
{
    match number {
        None => true,
        Some(number) => number == count,
    }
}

/// Whether no callback was called.
fn is_none_called(calls: Calls) -> bool
    ensures { result ≡ ((calls.handle == 0) && (calls.after == 0) && (calls.close == 0)) }
{
    calls.handle == 0 && calls.after == 0 && calls.close == 0
}

/// Whether no callback of this name was called.
pub fn is_uncalled<M: Machine>(machine: &M, name: Var) -> bool
    ensures { result ≡ is_uncalled (after (M.program machine.now) (M.standing machine.now)) name }
{
    is_none_called(machine.named(name).calls)
}

/// The name that an op names.
pub(crate) fn op_name(op: Op) -> Option<Var>
    ensures { result ≡ op_name op }
{
    match op {
        Op::Init(name, _) => Some(name),
        Op::Start(name, _, _) => Some(name),
        Op::StartWatcher(name) => Some(name),
        Op::Stop(name) => Some(name),
        Op::Again(name) => Some(name),
        Op::SetRepeat(name, _) => Some(name),
        Op::DueIn(name) => Some(name),
        Op::Ref(name) => Some(name),
        Op::Unref(name) => Some(name),
        Op::HasRef(name) => Some(name),
        Op::IsActive(name) => Some(name),
        Op::Close(name) => Some(name),
        Op::IsClosing(name) => Some(name),
        Op::Send(name) => Some(name),
        Op::Queue(name, _) => Some(name),
        Op::Cancel(name) => Some(name),
        Op::CloseLoop => None,
        Op::StopLoop => None,
        Op::UpdateTime => None,
        Op::Now => None,
        Op::IsAlive => None,
        Op::Timeout => None,
    }
}

/// The same of what may be missing.
fn name_in(op: Option<Op>) -> Option<Var>
    ensures { result ≡ name_in op }
{
    match op {
        None => None,
        Some(op) => op_name(op),
    }
}

/// The name of which a line tells what was answered.
fn answered_name<M: Machine>(machine: &M, line: Seen) -> Option<Var>
    ensures { result ≡ answered_name (M.program machine.now) line }
{
    match line {
        Seen::Op(site, _) => name_in(machine.script().op_at(site)),
        Seen::After(_, name, _) => Some(name),
        Seen::Cancel(name, _) => Some(name),
        Seen::Send(name, _) => Some(name),
        _ => None,
    }
}

/// Whether it is this name.
fn is_name(name: Var, other: Option<Var>) -> bool
    ensures { result ≡ is_name name other }
{
    match other {
        None => false,
        Some(other) => other.0 == name.0,
    }
}

/// Whether it is this name, or any will do.
fn is_of(name: Option<Var>, other: Option<Var>) -> bool
    ensures { result ≡ is_of name other }
{
    match name {
        None => true,
        Some(name) => is_name(name, other),
    }
}

/// Whether that is the callback of this name's handle or request.
fn is_awaited(begun: Option<(Callback, Var)>, name: Var) -> bool
    ensures { result ≡ is_awaited name begun }
{
    match begun {
        None => false,
        Some((callback, called)) => takes_time(callback) && called.0 == name.0,
    }
}

/// Whether the line begins that, so many ms after this time or later.
fn is_late<M: Machine>(machine: &M, line: Seen, name: Var, ms: u64, due: u64) -> bool
    ensures { result ≡ is_late name ms due (after (M.program machine.now) (M.standing machine.now)) line }
{
    is_awaited(begun(line), name) && ms <= machine.numbers().clock.saturating_sub(due)
}

/// Whether a line answers the question, as the machine stands after it.
fn answers_line<M: Machine>(machine: &M, question: Question, due: u64, line: Seen) -> bool
    ensures { result ≡ answers_line (M.program machine.now) question due (after (M.program machine.now) (M.standing machine.now)) line }
{
    match question {
        Question::Call(which, name, number) => is_call(machine, line, which, name, number),
        Question::Code(code, name) => Break::Code(code).matches(line)
            && is_of(name, answered_name(machine, line)),
        Question::Section(word) => Break::Section(word).matches(line),
        Question::Poll => Break::Poll.matches(line),
        Question::Never(_) => false,
        Question::Stuck => false,
        Question::Late(name, ms) => is_late(machine, line, name, ms, due),
        Question::Before(name, other) => is_call(machine, line, Which::Any, name, None)
            && is_uncalled(machine, other),
        Question::Behind(name, other) => is_call(machine, line, Which::Any, name, None)
            && !is_uncalled(machine, other),
    }
}

/// Whether a step with this line answers the question, as the machine stands after it.
pub fn line_answers<M: Machine>(
    machine: &M,
    question: Question,
    due: u64,
    line: Option<Seen>,
) -> bool
    ensures { result ≡ line_answers (M.program machine.now) question due (after (M.program machine.now) (M.standing machine.now)) line }
{
    match line {
        None => false,
        Some(line) => answers_line(machine, question, due, line),
    }
}

/// Whether the main program is at its end.
pub fn has_ended<M: Machine>(machine: &M) -> bool
    ensures { result ≡ has_ended (M.program machine.now) (after (M.program machine.now) (M.standing machine.now)).place }
{
    match machine.place() {
        Place::Main(line) => machine.script().main_op(line).is_none(),
        Place::Running(_) => false,
    }
}

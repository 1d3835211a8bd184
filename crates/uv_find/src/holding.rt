//! Where moves are held back behind the loop's step.
ghost use Rattle.std.specs.Prelude.{◌≡◌, slice_get};
ghost use Rattle.uv_apart.specs.Apart.{is_apart, is_apart_op, is_apart_line, is_apart_main, is_apart_stage};
ghost use Rattle.uv_alike.specs.Asks.{op_reads_clock, line_reads_clock, main_reads_clock, stage_reads_clock, reads_clock};
ghost use Rattle.uv_asking.specs.Asked.{asked_in};
ghost use Rattle.uv_find.specs.Holding.{can_meet, can_all_meet, asks_late, may_hold, hold_of, is_of_io, may_take_io, is_loop_apart};
ghost use Rattle.uv_model.specs.After.{after};
ghost use Rattle.uv_model.specs.Next.{refreshes};

use uv_asking::{Asking, Offer, Offered, Question};
use uv_ids::{Event, Mode, Order};
use uv_model::{Machine, Place, Stage};
use uv_records::WatcherKind;
use uv_script::{CallbackLine, MainOp, Op};

/// Whether moves may be held back beside what is offered: it is of the thread pool, or of the clock (where the loop waits, and, if ticks may
/// come, at any step), or a callback of I/O.
fn can_meet(ticks: bool, offer: Offer) -> bool
    ensures { result ≡ can_meet ticks offer }
{
    match offer {
        Offer::Take => true,
        Offer::Wait => true,
        Offer::WaitFor(_) => true,
        Offer::Step(Event::Finish(_)) => true,
        Offer::Step(Event::Tick(_)) => ticks,
        Offer::Step(Event::Io(_)) => true,
        _ => false,
    }
}

fn can_all_meet(ticks: bool, offers: &[Offered]) -> bool
    ensures { result ≡ can_all_meet ticks offers.now }
{
    offers.iter().all(|offered| can_meet(ticks, offered.offer))
}

/// Whether it is asked how late a timer is called.
pub(crate) fn asks_late(question: Question) -> bool
    ensures { result ≡ asks_late question }
{
    match question {
        Question::Late(_, _) => true,
        _ => false,
    }
}

/// Whether moves may be held back: no time of a callback is said, and nothing comes but of the pool, of the clock and of I/O.
fn may_hold(asking: &Asking) -> bool
    ensures { result ≡ may_hold (asked_in asking.now) }
{
    !asking.full
        && asking.differ.is_none()
        && asking.takes.is_empty()
        && !asks_late(asking.question)
        && can_all_meet(true, &asking.offers)
}

/// Where moves may be held back, whether ticks may come at any step.
pub(crate) fn hold_of(asking: &Asking) -> Option<bool>
    ensures { result ≡ hold_of (asked_in asking.now) }
{
    if may_hold(asking) {
        Some(!can_all_meet(false, &asking.offers))
    } else {
        None
    }
}

/// Whether an op is apart from what workers take and finish.
pub(crate) fn is_apart_op(op: Op) -> bool
    ensures { result ≡ is_apart_op op }
{
    match op {
        Op::Cancel(_) => false,
        _ => true,
    }
}

fn is_apart_line(line: Option<CallbackLine>) -> bool
    ensures { result ≡ is_apart_line line }
{
    match line {
        None => true,
        Some(line) => is_apart_op(line.op),
    }
}

fn is_apart_main(line: Option<MainOp>) -> bool
    ensures { result ≡ is_apart_main line }
{
    match line {
        None => false,
        Some(MainOp::Run(_)) => true,
        Some(MainOp::Op(op)) => is_apart_op(op),
    }
}

fn is_apart_stage(stage: Stage) -> bool
    ensures { result ≡ is_apart_stage stage }
{
    match stage {
        Stage::Poll(_) => false,
        Stage::Polled(woken) => !woken,
        _ => true,
    }
}

/// Whether the loop's next step is apart from what workers take and finish.
fn is_apart<M: Machine>(machine: &M) -> bool
    ensures { result ≡ is_apart (M.program machine.now) (after (M.program machine.now) (M.standing machine.now)) }
{
    match machine.place() {
        Place::Main(line) => is_apart_main(machine.script().main_op(line)),
        Place::Running(run) => match run.body {
            None => is_apart_stage(run.stage),
            Some(body) => is_apart_line(
                machine
                    .script()
                    .lines_in(body.callback, body.name)
                    .get(body.next)
                    .copied(),
            ),
        },
    }
}

/// Whether an op reads the clock.
fn op_reads_clock(op: Op) -> bool
    ensures { result ≡ op_reads_clock op }
{
    match op {
        Op::UpdateTime => true,
        _ => false,
    }
}

fn line_reads_clock(line: Option<CallbackLine>) -> bool
    ensures { result ≡ line_reads_clock line }
{
    match line {
        None => false,
        Some(line) => op_reads_clock(line.op),
    }
}

/// Whether a run refreshes the time as it begins.
fn refreshes(order: Order, mode: Mode) -> bool
    ensures { result ≡ refreshes order mode }
{
    match (order, mode) {
        (Order::V145, Mode::Default) => true,
        _ => false,
    }
}

fn main_reads_clock(order: Order, line: Option<MainOp>) -> bool
    ensures { result ≡ main_reads_clock order line }
{
    match line {
        None => false,
        Some(MainOp::Run(mode)) => refreshes(order, mode),
        Some(MainOp::Op(op)) => op_reads_clock(op),
    }
}

fn stage_reads_clock(stage: Stage, order: Order) -> bool
    ensures { result ≡ stage_reads_clock stage order }
{
    match (stage, order) {
        (Stage::Entry, Order::V144) => true,
        (Stage::Closing, _) => true,
        (Stage::Poll(_), _) => true,
        _ => false,
    }
}

/// Whether the loop's next step may read the clock.
fn reads_clock<M: Machine>(machine: &M) -> bool
    ensures { result ≡ reads_clock (M.program machine.now) (after (M.program machine.now) (M.standing machine.now)) }
{
    let script = machine.script();
    match machine.place() {
        Place::Main(line) => main_reads_clock(script.order(), script.main_op(line)),
        Place::Running(run) => match run.body {
            None => stage_reads_clock(run.stage, script.order()),
            Some(body) => line_reads_clock(
                script
                    .lines_in(body.callback, body.name)
                    .get(body.next)
                    .copied(),
            ),
        },
    }
}

/// Whether a callback of I/O may begin in this stage.
fn is_of_io(stage: Stage) -> bool
    ensures { result ≡ is_of_io stage }
{
    match stage {
        Stage::Pending => true,
        Stage::Poll(_) => true,
        Stage::Polled(_) => true,
        Stage::Done => true,
        Stage::DoneUnwoken => true,
        Stage::Walking(WatcherKind::Async) => true,
        _ => false,
    }
}

/// Whether a callback of I/O may begin where the loop stands.
fn may_take_io<M: Machine>(machine: &M) -> bool
    ensures { result ≡ may_take_io (M.program machine.now) (after (M.program machine.now) (M.standing machine.now)).place }
{
    match machine.place() {
        Place::Main(_) => false,
        Place::Running(run) => match run.body {
            None => machine.script().has_io() && is_of_io(run.stage),
            Some(_) => false,
        },
    }
}

/// Whether the loop's next step is apart from what may come: of the pool, of I/O, and of the clock if ticks may come at any step.
pub(crate) fn is_loop_apart<M: Machine>(machine: &M, ticks: bool) -> bool
    ensures { result ≡ is_loop_apart (M.program machine.now) ticks (after (M.program machine.now) (M.standing machine.now)) }
{
    is_apart(machine) && !(ticks && reads_clock(machine)) && !may_take_io(machine)
}

//! How a run goes on from a turn: timers begin, or the pending section, or the run ends.
ghost use Rattle.std.specs.Prelude.{◌≡◌, ◌<◌, ◌^◌, Some, false};
ghost use Rattle.uv_model.specs.State.{State};
ghost use Rattle.uv_script.specs.Program.{order_of};
ghost use Rattle.uv_model.specs.declared.place.Way.TheVariants.{ToTimers as to_timers, ToPending as to_pending};
ghost use Rattle.uv_model.specs.Next.{ends, goes, goes_by, idled_at, idled_then, time_at, turns};
ghost use Rattle.uv_memory.specs.Image.{held};
ghost use Rattle.uv_memory.specs.Undo.{Recorded};
ghost use Rattle.uv_stands.specs.Doing.{OfEach, Returns, Goes};
ghost use Rattle.uv_stands.specs.Stands.{StandsFor};

use crate::standing::{stand_at, stand_in};
use uv_ids::{Order, Phase};
use uv_memory::Memory;
use uv_model::{Place, Run, Stage, TimersOf, Timing, Turn, Way, way};
use uv_records::ListName;
use uv_script::Script;
use uv_stands::{PackedLine, PackedPlace, has_members, is_alive};

/// Clears the stop flag.
fn clear_stop(memory: &mut Memory<PackedPlace>)
    ensures recorded { Recorded memory.new.step_record (held memory.old) (held memory.new) }
    ensures stands { (s : State) → StandsFor (held memory.old).image s
        → StandsFor (held memory.new).image (record s { stop_flag = false }) }
    ensures pieces { memory.new.slots.room ≡ memory.old.slots.room }
{
    memory.set_stop(false);
}

/// The run ends, and says whether the loop is alive; the stop flag is cleared.
pub(crate) fn end_run(memory: &mut Memory<PackedPlace>, run: Run) -> PackedLine
    requires line { run.line < 2 ^ 63 }
    ensures returns { Returns memory.new.step_record (held memory.old) (held memory.new) }
    ensures goes { Goes (λ s. ends s run) (held memory.old).image (held memory.new).image result }
    ensures pieces { memory.new.slots.room ≡ memory.old.slots.room }
{
    let alive = is_alive(memory);
    clear_stop(memory);
    stand_at(memory, PackedPlace::main(run.line + 1));
    PackedLine::end(alive)
}

/// Whether the loop goes on: it is alive, and the stop flag is clear.
fn goes(memory: &Memory<PackedPlace>) -> bool
    ensures { OfEach (held memory.now).image (λ s. goes s ≡ result) }
{
    is_alive(memory) && !memory.stop_flag()
}

/// The loop's time, and whether it idled, as these timers begin.
fn set_for_timers(memory: &mut Memory<PackedPlace>, order: Order, part: TimersOf)
    ensures recorded { Recorded memory.new.step_record (held memory.old) (held memory.new) }
    ensures stands { (s : State) → StandsFor (held memory.old).image s
        → StandsFor (held memory.new).image (record s { time = time_at order part s; idled = idled_at order part s }) }
    ensures pieces { memory.new.slots.room ≡ memory.old.slots.room }
{
    match (order, part) {
        (Order::V144, TimersOf::Entry) => memory.begin_iteration(),
        (Order::V145, TimersOf::Entry) => memory.pass(),
        (_, TimersOf::Iteration) => memory.update_time(),
    }
}

/// Timers begin.
fn begin_timers(
    memory: &mut Memory<PackedPlace>,
    order: Order,
    run: Run,
    part: TimersOf,
) -> PackedLine
    ensures returns { Returns memory.new.step_record (held memory.old) (held memory.new) }
    ensures goes { Goes (λ s. goes_by order s run (to_timers part)) (held memory.old).image (held memory.new).image result }
    ensures pieces { memory.new.slots.room ≡ memory.old.slots.room }
{
    set_for_timers(memory, order, part);
    let stage = Stage::Timers(part, Timing::Collecting);
    stand_in(memory, run, stage);
    PackedLine::section(Phase::Timers)
}

/// Whether the loop idled, as the pending section begins: in the order of 1.45 it keeps whether an idle handle is active.
fn note_idle(memory: &mut Memory<PackedPlace>, order: Order)
    ensures recorded { Recorded memory.new.step_record (held memory.old) (held memory.new) }
    ensures stands { OfEach (held memory.old).image
        (λ s. StandsFor (held memory.new).image (record s { idled = idled_then order s })) }
    ensures pieces { memory.new.slots.room ≡ memory.old.slots.room }
{
    match order {
        Order::V144 => memory.pass(),
        Order::V145 => {
            let idled = has_members(memory, ListName::Idle);
            memory.set_idled(idled);
        }
    }
}

/// The pending section begins.
fn begin_pending(memory: &mut Memory<PackedPlace>, order: Order, run: Run) -> PackedLine
    ensures returns { Returns memory.new.step_record (held memory.old) (held memory.new) }
    ensures goes { Goes (λ s. goes_by order s run to_pending) (held memory.old).image (held memory.new).image result }
    ensures pieces { memory.new.slots.room ≡ memory.old.slots.room }
{
    note_idle(memory, order);
    stand_in(memory, run, Stage::Pending);
    PackedLine::section(Phase::Pending)
}

/// The run goes on so.
fn go_by(memory: &mut Memory<PackedPlace>, order: Order, run: Run, way: Way) -> PackedLine
    requires line { run.line < 2 ^ 63 }
    ensures returns { Returns memory.new.step_record (held memory.old) (held memory.new) }
    ensures goes { Goes (λ s. goes_by order s run way) (held memory.old).image (held memory.new).image result }
    ensures pieces { memory.new.slots.room ≡ memory.old.slots.room }
{
    match way {
        Way::ToTimers(part) => begin_timers(memory, order, run, part),
        Way::ToPending => begin_pending(memory, order, run),
        Way::ToEnd => end_run(memory, run),
    }
}

/// The run goes on from a turn, in the order of the script.
pub fn turn(memory: &mut Memory<PackedPlace>, script: &Script, run: Run, turn: Turn) -> PackedLine
    requires line { run.line < 2 ^ 63 }
    ensures returns { Returns memory.new.step_record (held memory.old) (held memory.new) }
    ensures goes { Goes (λ s. turns (order_of script.now) s run turn) (held memory.old).image (held memory.new).image result }
    ensures pieces { memory.new.slots.room ≡ memory.old.slots.room }
{
    let order = script.order();
    let going = goes(memory);
    let way = way(order, run.mode, going, turn);
    go_by(memory, order, run, way)
}

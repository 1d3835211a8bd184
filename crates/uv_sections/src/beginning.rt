//! Sections and runs begin.
ghost use Rattle.std.specs.Prelude.{◌≡◌, Some, [], if◌then◌else◌};
ghost use Rattle.uv_records.specs.declared.lists.ListName.TheVariants.{ClosingYet, DoneYet};
ghost use Rattle.uv_records.specs.Lists.{yet_of};
ghost use Rattle.uv_arena.specs.Image.{members};
ghost use Rattle.uv_script.specs.Program.{order_of};
ghost use Rattle.uv_script.specs.declared.op.MainOp.TheVariants.{Run as run_line};
ghost use Rattle.uv_model.specs.State.{State, refreshed};
ghost use Rattle.uv_model.specs.Next.{begins, begin_walk, begin_closing, begin_done, main_step, refreshes};
ghost use Rattle.uv_memory.specs.Image.{held};
ghost use Rattle.uv_memory.specs.Undo.{Recorded};
ghost use Rattle.uv_stands.specs.Doing.{Returns, Goes};
ghost use Rattle.uv_stands.specs.Stands.{StandsFor};

use crate::standing::stand_in;
use uv_ids::{Mode, Order, Phase, Seen};
use uv_memory::Memory;
use uv_model::{Run, Stage};
use uv_records::WatcherKind;
use uv_script::Script;
use uv_stands::{PackedLine, PackedPlace};

/// Begins a section of watchers.
pub fn begin_walk(memory: &mut Memory<PackedPlace>, run: Run, kind: WatcherKind) -> PackedLine
    requires empty { members (held memory.old).image.arena (yet_of kind) ≡ [] }
    ensures returns { Returns memory.new.step_record (held memory.old) (held memory.new) }
    ensures goes { Goes (λ s. begin_walk s run kind) (held memory.old).image (held memory.new).image result }
    ensures pieces { memory.new.slots.room ≡ memory.old.slots.room }
{
    memory.begin(kind);
    stand_in(memory, run, Stage::Walking(kind));
    PackedLine::section(kind.phase())
}

/// Begins the closing section.
pub fn begin_closing(memory: &mut Memory<PackedPlace>, run: Run) -> PackedLine
    requires empty { members (held memory.old).image.arena ClosingYet ≡ [] }
    ensures returns { Returns memory.new.step_record (held memory.old) (held memory.new) }
    ensures goes { Goes (λ s. begin_closing s run) (held memory.old).image (held memory.new).image result }
    ensures pieces { memory.new.slots.room ≡ memory.old.slots.room }
{
    memory.begin_closing();
    stand_in(memory, run, Stage::Closing);
    PackedLine::section(Phase::Closing)
}

/// Begins the done section.
pub(crate) fn begin_done(memory: &mut Memory<PackedPlace>, run: Run) -> PackedLine
    requires empty { members (held memory.old).image.arena DoneYet ≡ [] }
    ensures returns { Returns memory.new.step_record (held memory.old) (held memory.new) }
    ensures goes { Goes (λ s. begin_done s run) (held memory.old).image (held memory.new).image result }
    ensures pieces { memory.new.slots.room ≡ memory.old.slots.room }
{
    memory.begin_done();
    stand_in(memory, run, Stage::Done);
    PackedLine::section(Phase::Done)
}

/// Leaves the poll: the time is refreshed, and the done section begins.
pub fn leave_poll(memory: &mut Memory<PackedPlace>, run: Run) -> PackedLine
    requires empty { members (held memory.old).image.arena DoneYet ≡ [] }
    ensures returns { Returns memory.new.step_record (held memory.old) (held memory.new) }
    ensures goes { Goes (λ s. begin_done (refreshed s) run) (held memory.old).image (held memory.new).image result }
    ensures pieces { memory.new.slots.room ≡ memory.old.slots.room }
{
    memory.leave_poll();
    stand_in(memory, run, Stage::Done);
    PackedLine::section(Phase::Done)
}

/// Begins a section in which nobody is called.
pub(crate) fn begin_empty(
    memory: &mut Memory<PackedPlace>,
    run: Run,
    stage: Stage,
    phase: Phase,
) -> PackedLine
    ensures returns { Returns memory.new.step_record (held memory.old) (held memory.new) }
    ensures goes { Goes (λ s. begins s run stage phase) (held memory.old).image (held memory.new).image result }
    ensures pieces { memory.new.slots.room ≡ memory.old.slots.room }
{
    memory.pass();
    stand_in(memory, run, stage);
    PackedLine::section(phase)
}

/// The loop's time is that of the clock.
fn refresh(memory: &mut Memory<PackedPlace>)
    ensures recorded { Recorded memory.new.step_record (held memory.old) (held memory.new) }
    ensures stands { (s : State) → StandsFor (held memory.old).image s → StandsFor (held memory.new).image (refreshed s) }
    ensures pieces { memory.new.slots.room ≡ memory.old.slots.room }
{
    memory.update_time();
}

/// The loop's time is that of the clock in a default run in the order of 1.45, and stays in another one.
fn refresh_in(memory: &mut Memory<PackedPlace>, order: Order, mode: Mode)
    ensures recorded { Recorded memory.new.step_record (held memory.old) (held memory.new) }
    ensures stands { (s : State) → StandsFor (held memory.old).image s
        → StandsFor (held memory.new).image (if refreshes order mode then refreshed s else s) }
    ensures pieces { memory.new.slots.room ≡ memory.old.slots.room }
{
    match order {
        Order::V144 => memory.pass(),
        Order::V145 => match mode {
            Mode::Default => refresh(memory),
            Mode::Once | Mode::Nowait => memory.pass(),
        },
    }
}

/// Begins a run of a line of the main program (uv_run).
pub fn begin_run(memory: &mut Memory<PackedPlace>, script: &Script, line: usize, mode: Mode) -> Seen
    ensures returns { Returns memory.new.step_record (held memory.old) (held memory.new) }
    ensures goes { Goes (λ s. main_step (order_of script.now) s line (Some (run_line mode)))
        (held memory.old).image (held memory.new).image (Some result) }
    ensures pieces { memory.new.slots.room ≡ memory.old.slots.room }
{
    refresh_in(memory, script.order(), mode);
    let run = Run {
        mode,
        line,
        stage: Stage::Entry,
        body: None,
    };
    stand_in(memory, run, Stage::Entry);
    Seen::Run(mode)
}

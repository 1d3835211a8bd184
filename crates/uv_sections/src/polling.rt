//! The poll begins, and what is behind one that a callback of I/O left.
ghost use Rattle.std.specs.Prelude.{◌≡◌, ◌<◌, ◌≤◌, ◌^◌, Some, IfSome, []};
ghost use Rattle.uv_ids.specs.declared.phase.Phase.TheVariants as phase;
ghost use Rattle.uv_records.specs.declared.lists.ListName.TheVariants.{DoneYet};
ghost use Rattle.uv_records.specs.declared.lists.WatcherKind.TheVariants.{Async as async};
ghost use Rattle.uv_arena.specs.Image.{members};
ghost use Rattle.uv_model.specs.declared.place.Stage.TheVariants.{Walking};
ghost use Rattle.uv_model.specs.Limits.{LONGEST_POLL};
ghost use Rattle.uv_model.specs.State.{State};
ghost use Rattle.uv_model.specs.Timeout.{deadline_of};
ghost use Rattle.uv_model.specs.Next.{begins, begin_poll, leave_polled, stage_polled, time_polled};
ghost use Rattle.uv_memory.specs.Image.{held};
ghost use Rattle.uv_memory.specs.Undo.{Recorded};
ghost use Rattle.uv_stands.specs.Doing.{OfEach, Returns, Goes};
ghost use Rattle.uv_stands.specs.Ready.{IsReady};
ghost use Rattle.uv_stands.specs.Stands.{StandsFor};

use crate::beginning::{begin_done, begin_empty};
use crate::standing::stand_in;
use uv_ids::Phase;
use uv_memory::Memory;
use uv_model::{Run, Stage};
use uv_records::WatcherKind;
use uv_stands::{PackedLine, PackedPlace, is_woken, poll_timeout};

/// When the poll is over, at the latest, in ms; none is never.
fn deadline_of(memory: &Memory<PackedPlace>, timeout: Option<u64>) -> Option<u64>
    requires time { (held memory.now).image.times.time < 2 ^ 63 }
    requires short { IfSome timeout (λ ms. ms ≤ LONGEST_POLL) }
    ensures { OfEach (held memory.now).image (λ s. deadline_of s timeout ≡ result) }
{
    match timeout {
        None => None,
        Some(ms) => Some(memory.times().time + ms),
    }
}

/// Begins the poll, with its timeout.
pub fn begin_poll(memory: &mut Memory<PackedPlace>, run: Run) -> PackedLine
    requires ready { IsReady (held memory.old) }
    ensures returns { Returns memory.new.step_record (held memory.old) (held memory.new) }
    ensures goes { Goes (λ s. begin_poll s run) (held memory.old).image (held memory.new).image result }
    ensures pieces { memory.new.slots.room ≡ memory.old.slots.room }
{
    let timeout = poll_timeout(memory, run.mode);
    let deadline = deadline_of(memory, timeout);
    memory.pass();
    stand_in(memory, run, Stage::Poll(deadline));
    PackedLine::poll(timeout)
}

/// Leaves the poll, where the run is in it, as a callback of I/O begins: the time is refreshed, and it is kept whether the poll was
/// woken before.
pub(crate) fn polled(memory: &mut Memory<PackedPlace>, run: Run) -> Run
    ensures recorded { Recorded memory.new.step_record (held memory.old) (held memory.new) }
    ensures run { OfEach (held memory.old).image (λ s. record run { stage = stage_polled s run.stage } ≡ result) }
    ensures stands { (s : State) → StandsFor (held memory.old).image s
        → StandsFor (held memory.new).image (record s { time = time_polled s run.stage }) }
    ensures pieces { memory.new.slots.room ≡ memory.old.slots.room }
{
    match run.stage {
        Stage::Poll(_) => {
            let stage = Stage::Polled(is_woken(memory));
            memory.update_time();
            Run { stage, ..run }
        }
        _ => {
            memory.pass();
            run
        }
    }
}

/// Goes on behind a poll that a callback of I/O left: where nobody woke it, nobody is called in the done section.
pub fn leave_polled(memory: &mut Memory<PackedPlace>, run: Run, woken: bool) -> PackedLine
    requires empty { members (held memory.old).image.arena DoneYet ≡ [] }
    ensures returns { Returns memory.new.step_record (held memory.old) (held memory.new) }
    ensures goes { Goes (λ s. leave_polled s run woken) (held memory.old).image (held memory.new).image result }
    ensures pieces { memory.new.slots.room ≡ memory.old.slots.room }
{
    if woken {
        begin_done(memory, run)
    } else {
        begin_empty(memory, run, Stage::DoneUnwoken, Phase::Done)
    }
}

/// Begins the async section of an iteration whose poll nobody woke: nobody is called there.
pub fn begin_unwoken_async(memory: &mut Memory<PackedPlace>, run: Run) -> PackedLine
    ensures returns { Returns memory.new.step_record (held memory.old) (held memory.new) }
    ensures goes { Goes (λ s. begins s run (Walking async) phase.Async) (held memory.old).image (held memory.new).image result }
    ensures pieces { memory.new.slots.room ≡ memory.old.slots.room }
{
    let stage = Stage::Walking(WatcherKind::Async);
    begin_empty(memory, run, stage, Phase::Async)
}

//! What a run does next where no body is under way.
ghost use Rattle.std.specs.Prelude.{◌≡◌, ◌<◌, ◌^◌, None, true};
ghost use Rattle.uv_script.specs.Program.{arena_size};
ghost use Rattle.uv_model.specs.Next.{stage_step};
ghost use Rattle.uv_memory.specs.Image.{held};
ghost use Rattle.uv_stands.specs.Ready.{IsReady};
ghost use Rattle.uv_loop.specs.Acting.{MayBehind};
ghost use Rattle.uv_loop.specs.Begins.{IsClearBehind};
ghost use Rattle.uv_loop.specs.Staged.{is_staged, is_staged_in};
ghost use Rattle.uv_loop.specs.Turning.{Turns};

use uv_memory::Memory;
use uv_model::{Run, Stage, Turn};
use uv_records::WatcherKind;
use uv_script::Script;
use uv_sections::{
    begin_unwoken_async, begin_walk, in_closing, in_timers, in_walk, leave_poll, leave_polled, turn,
};
use uv_stands::{PackedLine, PackedPlace, PlaceForm};

/// Whether it is any other than the done section.
fn is_before_or_behind_done(stage: Stage) -> bool
    ensures { result ≡ is_staged_in None stage }
{
    !matches!(stage, Stage::Done)
}

/// Whether no body is under way, in a run that is not in its done section: the line of the next step fits in two words then.
#[inline(always)]
pub(crate) fn is_staged(place: PackedPlace) -> bool
    ensures { result ≡ is_staged place }
{
    match place.form() {
        PlaceForm::Main(_) => false,
        PlaceForm::Between(_, _, stage) => is_before_or_behind_done(stage),
        PlaceForm::Within(_, _, _, _) => false,
        PlaceForm::WithinPoll { .. } => false,
    }
}

/// What the run does next where no body is under way, except its done section.
pub(crate) fn in_stage(memory: &mut Memory<PackedPlace>, script: &Script, run: &Run) -> PackedLine
    requires ready { IsReady (held memory.old) }
    requires last { (held memory.old).image.arena.last ≡ (arena_size script.now).last_generation }
    requires line { run.now.line < 2 ^ 63 }
    requires staged { is_staged_in None run.now.stage ≡ true }
    requires clear { IsClearBehind run.now.stage (held memory.old).image.arena }
    requires may { MayBehind run.now.stage (held memory.old).image }
    ensures turns { Turns (λ s. stage_step script.now s run.now run.now.stage) memory.new.step_record (held memory.old) (held memory.new) result }
    ensures pieces { memory.new.slots.room ≡ memory.old.slots.room }
{
    match run.stage {
        Stage::Entry => turn(memory, script, *run, Turn::AtEntry),
        Stage::Pending => begin_walk(memory, *run, WatcherKind::Idle),
        Stage::Walking(kind) => in_walk(memory, script, run, kind),
        Stage::Poll(_) => leave_poll(memory, *run),
        Stage::Polled(woken) => leave_polled(memory, *run, woken),
        Stage::Done => unreachable!(),
        Stage::DoneUnwoken => begin_unwoken_async(memory, *run),
        Stage::Closing => in_closing(memory, script, *run),
        Stage::Timers(part, timing) => in_timers(memory, script, *run, part, timing),
    }
}

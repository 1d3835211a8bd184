//! The loop does its next step.
ghost use Rattle.std.specs.Prelude.{◌≤◌, ◌≡◌, IfOk, IfErr, true, false};
ghost use Rattle.uv_ids.specs.declared.event.Event.TheVariants.{Loop};
ghost use Rattle.uv_model.specs.Next.{run_step, next};
ghost use Rattle.uv_script.specs.Program.{arena_size};
ghost use Rattle.uv_memory.specs.Image.{held};
ghost use Rattle.uv_stands.specs.Ready.{IsReady};
ghost use Rattle.uv_ops.specs.Wanting.{WantsPiece};
ghost use Rattle.uv_loop.specs.Acting.{MayAt};
ghost use Rattle.uv_loop.specs.Begins.{IsClear, IsClearIn};
ghost use Rattle.uv_loop.specs.Staged.{is_staged, is_staged_in};
ghost use Rattle.uv_loop.specs.Turning.{Turns};

use crate::bodies::{in_body, in_main};
use crate::staging::in_stage;
use std::alloc::AllocError;
use uv_ids::Seen;
use uv_memory::Memory;
use uv_model::{Place, Run};
use uv_script::Script;
use uv_sections::in_done;
use uv_stands::{PackedLine, PackedPlace, PlaceForm};

/// The loop does its next step in a stage but the done section.
#[inline(always)]
pub(crate) fn stage_on(memory: &mut Memory<PackedPlace>, script: &Script) -> PackedLine
    requires ready { IsReady (held memory.old) }
    requires last { (held memory.old).image.arena.last ≡ (arena_size script.now).last_generation }
    requires clear { IsClear (held memory.old).image }
    requires may { MayAt script.now (held memory.old).image.place (held memory.old).image }
    requires staged { is_staged (held memory.old).image.place ≡ true }
    ensures turns { Turns (λ s. next script.now s Loop) memory.new.step_record (held memory.old) (held memory.new) result }
    ensures pieces { memory.new.slots.room ≡ memory.old.slots.room }
{
    match memory.place().form() {
        PlaceForm::Between(mode, line, stage) => {
            let run = Run {
                mode,
                line,
                stage,
                body: None,
            };
            in_stage(memory, script, &run)
        }
        PlaceForm::Main(_) => unreachable!(),
        PlaceForm::Within(_, _, _, _) => unreachable!(),
        PlaceForm::WithinPoll { .. } => unreachable!(),
    }
}

/// The loop does its next step in the main program, in a body or in the done section.
#[inline(always)]
pub(crate) fn turn(
    memory: &mut Memory<PackedPlace>,
    script: &Script,
) -> Result<Option<Seen>, AllocError>
    requires ready { IsReady (held memory.old) }
    requires last { (held memory.old).image.arena.last ≡ (arena_size script.now).last_generation }
    requires clear { IsClear (held memory.old).image }
    requires may { MayAt script.now (held memory.old).image.place (held memory.old).image }
    requires other { is_staged (held memory.old).image.place ≡ false }
    ensures turns { IfOk result (λ line. Turns (λ s. next script.now s Loop) memory.new.step_record (held memory.old) (held memory.new) line) }
    ensures memory { IfErr result (λ _. WantsPiece memory.old memory.new) }
    ensures pieces { memory.old.slots.room ≤ memory.new.slots.room }
{
    let place = memory.place().place();
    match &place {
        Place::Main(line) => in_main(memory, script, *line),
        Place::Running(run) => in_run(memory, script, run),
    }
}

/// The run under way goes on in a body, or in its done section.
fn in_run(
    memory: &mut Memory<PackedPlace>,
    script: &Script,
    run: &Run,
) -> Result<Option<Seen>, AllocError>
    requires ready { IsReady (held memory.old) }
    requires last { (held memory.old).image.arena.last ≡ (arena_size script.now).last_generation }
    requires clear { IsClearIn run.now.body run.now.stage (held memory.old).image.arena }
    requires other { is_staged_in run.now.body run.now.stage ≡ false }
    ensures turns { IfOk result (λ line. Turns (λ s. run_step script.now s run.now run.now.body)
        memory.new.step_record (held memory.old) (held memory.new) line) }
    ensures memory { IfErr result (λ _. WantsPiece memory.old memory.new) }
    ensures pieces { memory.old.slots.room ≤ memory.new.slots.room }
{
    match run.body {
        None => Ok(in_done(memory, script, *run)),
        Some(body) => in_body(memory, script, run, body),
    }
}

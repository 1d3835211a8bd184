//! The ops of bodies and of the main program.
ghost use Rattle.std.specs.Prelude.{◌≤◌, ◌≡◌, ◌<◌, ◌^◌, None, Some, IfSome, IfOk, IfErr, is_some, true, slice_get};
ghost use Rattle.uv_script.specs.Program.{Program, lines_in, order_of};
ghost use Rattle.uv_model.specs.declared.place.Body.{Body};
ghost use Rattle.uv_model.specs.Next.{body_step, main_step};
ghost use Rattle.uv_memory.specs.Image.{held};
ghost use Rattle.uv_stands.specs.Doing.{Returns};
ghost use Rattle.uv_stands.specs.Ready.{IsReady};
ghost use Rattle.uv_ops.specs.Wanting.{WantsPiece};
ghost use Rattle.uv_loop.specs.Turning.{Turns, PerformsAt};

use std::alloc::AllocError;
use uv_ids::{Answer, Seen, Site};
use uv_memory::Memory;
use uv_model::{Body, Place, Run, body_from};
use uv_ops::perform;
use uv_script::{CallbackLine, MainOp, Op, Script};
use uv_sections::{begin_run, stand_at};
use uv_stands::PackedPlace;

/// Does an op, after which the loop is at this place.
fn perform_at(
    memory: &mut Memory<PackedPlace>,
    op: Op,
    place: PackedPlace,
) -> Result<Answer, AllocError>
    requires ready { IsReady (held memory.old) }
    ensures returns { IfOk result (λ _. Returns memory.new.step_record (held memory.old) (held memory.new)) }
    ensures performs { IfOk result (λ answer. PerformsAt op place (held memory.old).image (held memory.new).image answer) }
    ensures memory { IfErr result (λ _. WantsPiece memory.old memory.new) }
    ensures pieces { memory.old.slots.room ≤ memory.new.slots.room }
{
    let answer = perform(memory, op)?;
    stand_at(memory, place);
    Ok(answer)
}

/// The body under way is over.
fn leave_body(memory: &mut Memory<PackedPlace>, run: &Run)
    requires ready { IsReady (held memory.old) }
    ensures turns { (p : Program) → (body : Body) → Turns (λ s. body_step p s run.now body None)
        memory.new.step_record (held memory.old) (held memory.new) None }
    ensures pieces { memory.new.slots.room ≡ memory.old.slots.room }
{
    memory.pass();
    let place = PackedPlace::between(run.mode, run.line, run.stage);
    stand_at(memory, place);
}

/// The line that a body does next, if it has one.
fn line_of(script: &Script, body: Body) -> Option<CallbackLine>
    ensures line { result ≡ slice_get (lines_in script.now body.callback body.name) body.next }
    ensures within { IfSome result (λ _. body.next < 2 ^ 63) }
{
    let lines = script.lines_in(body.callback, body.name);
    lines.get(body.next).copied()
}

/// The body under way does its next op.
pub(crate) fn in_body(
    memory: &mut Memory<PackedPlace>,
    script: &Script,
    run: &Run,
    body: Body,
) -> Result<Option<Seen>, AllocError>
    requires ready { IsReady (held memory.old) }
    ensures turns { IfOk result (λ line. Turns
        (λ s. body_step script.now s run.now body (slice_get (lines_in script.now body.callback body.name) body.next))
        memory.new.step_record (held memory.old) (held memory.new) line) }
    ensures memory { IfErr result (λ _. WantsPiece memory.old memory.new) }
    ensures pieces { memory.old.slots.room ≤ memory.new.slots.room }
{
    match line_of(script, body) {
        None => {
            leave_body(memory, run);
            Ok(None)
        }
        Some(line) => {
            let rest = body_from(script, body.callback, body.name, body.call, body.next + 1);
            let place = PackedPlace::running(Run { body: rest, ..*run });
            let answer = perform_at(memory, line.op, place)?;
            let site = Site::In(body.callback, body.name, body.next);
            Ok(Some(Seen::Op(site, answer)))
        }
    }
}

/// The main program does its next line.
pub(crate) fn in_main(
    memory: &mut Memory<PackedPlace>,
    script: &Script,
    line: usize,
) -> Result<Option<Seen>, AllocError>
    requires ready { IsReady (held memory.old) }
    requires line { line < 2 ^ 63 }
    requires may { is_some (slice_get script.now.main line) ≡ true }
    ensures turns { IfOk result (λ seen. Turns (λ s. main_step (order_of script.now) s line (slice_get script.now.main line))
        memory.new.step_record (held memory.old) (held memory.new) seen) }
    ensures memory { IfErr result (λ _. WantsPiece memory.old memory.new) }
    ensures pieces { memory.old.slots.room ≤ memory.new.slots.room }
{
    match script.main_op(line) {
        None => unreachable!(),
        Some(MainOp::Run(mode)) => Ok(Some(begin_run(memory, script, line, mode))),
        Some(MainOp::Op(op)) => {
            let answer = perform_at(memory, op, PackedPlace::main(line + 1))?;
            Ok(Some(Seen::Op(Site::Main(line), answer)))
        }
    }
}

//! The replay of a recording.
ghost use Rattle.std.specs.Prelude.{◌≡◌, ◌≢◌, ◌<◌, ◌≤◌, ◌+◌, ◌-◌, ◌^◌, ℕ, [], None, List, length, true, false, codes, IfErr, OnOk};
ghost use Rattle.uv_ids.specs.declared.event.Event.{Event};
ghost use Rattle.uv_script.specs.Grammar.{IsScript};
ghost use Rattle.uv_script.specs.Program.{Program};
ghost use Rattle.uv_text.specs.Recording.{recording_text};
ghost use Rattle.uv_engine.specs.declared.verdict.Verdict.{Verdict};
ghost use Rattle.uv_engine.specs.declared.verdict.Verdict.TheVariants.{Same};
ghost use Rattle.uv_engine.specs.Devices.{ReaderCounts, IsTooLong, WriterCounts, OnAnswer, TakesWithin};
ghost use Rattle.uv_engine.specs.Input.{left, EndIsSeen, size};
ghost use Rattle.uv_engine.specs.Rerun.{CanCount, ReadsSteps, ReadsCalls, Judges, JudgesRest, IsReadingFault};
ghost use Rattle.uv_engine.specs.Taking.{SpendsBudget, SpendsGiven};
ghost use Rattle.uv_engine.specs.Verdict.{AllTaken, HasVerdict, HasOneVerdict, Replays, IsReplayFault};

use crate::input::Input;
use crate::numbered::Numbered;
use crate::rerun::Rerun;
use crate::sink::Sink;
use crate::source::{LIMIT, Source};
use crate::verdict::Verdict;
use std::alloc::Global;
use uv_ids::Fault;
use uv_model::Machine;
use uv_text::{is_callback_line, read_step};

/// Runs the steps that a recording has, up to the line `calls`.
fn read_steps<M: Machine, R: Source>(
    rerun: &mut Rerun<M>,
    input: &mut Numbered,
    reader: &mut R,
) -> Result<(), Fault>
    requires end { R.Tells → EndIsSeen input.old.input (R.remaining reader.old) }
    requires few { CanCount input.old.taken input.old.input }
    requires fresh { M.standing rerun.old.machine ≡ [] }
    requires running { rerun.old.halted ≡ None }
    ensures steps { R.Tells → ReadsSteps (M.program rerun.old.machine) input.old.taken (left input.old.input (R.remaining reader.old)) result
        input.new.taken (left input.new.input (R.remaining reader.new)) (M.standing rerun.new.machine) rerun.new.halted }
    ensures program { OnOk result (M.program rerun.new.machine ≡ M.program rerun.old.machine) }
    ensures looked { rerun.new.looked ≡ rerun.old.looked }
    ensures count { rerun.new.count ≡ rerun.old.count }
    ensures parted { rerun.new.parted ≡ rerun.old.parted }
    ensures few { OnOk result (CanCount input.new.taken input.new.input) }
    ensures end { OnOk result (R.Tells → EndIsSeen input.new.input (R.remaining reader.new)) }
    ensures budget { OnAnswer result (R.Tells → SpendsBudget input.old.input (R.remaining reader.old) input.new.input (R.remaining reader.new)) }
    ensures given { OnOk result (SpendsGiven input.old.input (R.given reader.old) input.new.input (R.given reader.new)) }
    ensures err { IfErr result IsReadingFault }
    ensures reader { ReaderCounts result (IsTooLong R.Tells input.old.input.budget (R.remaining reader.old) (R.given reader.old)
        (R.given reader.new)) (R.failures reader.old) (R.failures reader.new) }
{
    'lines: loop {
        let Some(line) = input.next_line(reader)? else {
            return Err(input.missing());
        };
        if is_calls(line.text.as_slice()) {
            return Ok(());
        }
        let script = rerun.machine.script();
        let Some(step) = read_step(script, line.text.as_slice()) else {
            return Err(input.bad());
        };
        rerun.take(step)?;
        input.input.reuse(line);
    }
}

fn is_calls(line: &[u8]) -> bool
    ensures is { result ≡ true → line.now ≡ codes "calls" }
    ensures other { result ≡ false → line.now ≢ codes "calls" }
{
    line == b"calls".as_slice()
}

/// Compares the callbacks that a recording has, up to the line `end`. There is room for the text of each.
fn read_calls<M: Machine, R: Source>(
    rerun: &mut Rerun<M>,
    room: &mut Vec<u8>,
    input: &mut Numbered,
    reader: &mut R,
) -> Result<(), Fault>
    requires end { R.Tells → EndIsSeen input.old.input (R.remaining reader.old) }
    requires few { CanCount input.old.taken input.old.input }
    requires looked { rerun.old.looked ≡ 0 }
    requires count { rerun.old.count ≡ 0 }
    requires parted { rerun.old.parted ≡ None }
    ensures calls { R.Tells → (es : List Event) → ReadsCalls (M.program rerun.old.machine) es (M.standing rerun.old.machine) rerun.old.halted
        input.old.taken (left input.old.input (R.remaining reader.old)) result
        input.new.taken (left input.new.input (R.remaining reader.new)) rerun.new.looked rerun.new.count rerun.new.parted }
    ensures machine { rerun.new.machine ≡ rerun.old.machine }
    ensures halted { rerun.new.halted ≡ rerun.old.halted }
    ensures looked { rerun.new.looked ≤ length (M.standing rerun.old.machine) }
    ensures count { OnOk result (rerun.new.count < 2 ^ 64 - 1) }
    ensures few { OnOk result (CanCount input.new.taken input.new.input) }
    ensures end { OnOk result (R.Tells → EndIsSeen input.new.input (R.remaining reader.new)) }
    ensures budget { OnAnswer result (R.Tells → SpendsBudget input.old.input (R.remaining reader.old) input.new.input (R.remaining reader.new)) }
    ensures given { OnOk result (SpendsGiven input.old.input (R.given reader.old) input.new.input (R.given reader.new)) }
    ensures err { IfErr result IsReadingFault }
    ensures reader { ReaderCounts result (IsTooLong R.Tells input.old.input.budget (R.remaining reader.old) (R.given reader.old)
        (R.given reader.new)) (R.failures reader.old) (R.failures reader.new) }
{
    'lines: loop {
        let Some(line) = input.next_line(reader)? else {
            return Err(input.missing());
        };
        if is_end(line.text.as_slice()) {
            return Ok(());
        }
        if !is_callback_line(line.text.as_slice()) {
            return Err(input.bad());
        }
        rerun.meet(room, line.text.as_slice())?;
        input.input.reuse(line);
    }
}

fn is_end(line: &[u8]) -> bool
    ensures is { result ≡ true → line.now ≡ codes "end" }
    ensures other { result ≡ false → line.now ≢ codes "end" }
{
    line == b"end".as_slice()
}

/// Reads a recording to its end, and runs its steps while they come.
fn judge<M: Machine, R: Source>(alloc: Global, limit: u64, reader: &mut R) -> Result<Verdict, Fault>
    requires few { limit ≤ 2 ^ 30 }
    ensures verdict { R.Tells → Judges (R.remaining reader.old) result }
    ensures within { OnAnswer result (R.Tells → TakesWithin limit (R.remaining reader.old) (R.remaining reader.new)) }
    ensures err { IfErr result IsReadingFault }
    ensures reader { ReaderCounts result (IsTooLong R.Tells limit (R.remaining reader.old) (R.given reader.old)
        (R.given reader.new)) (R.failures reader.old) (R.failures reader.new) }
{
    let mut input = Numbered {
        input: Input::new(alloc, limit),
        taken: 0,
    };
    let version = input.read_version(reader)?;
    let script = input.read_script(alloc, version, reader)?;
    let mut rerun = Rerun {
        machine: M::begin(alloc, script)?,
        halted: None,
        looked: 0,
        count: 0,
        parted: None,
    };
    let mut room = Vec::new(alloc);
    judge_rest(&mut rerun, &mut room, &mut input, reader)
}

/// Reads what is behind the script of a recording. There is room for the text of each callback.
fn judge_rest<M: Machine, R: Source>(
    rerun: &mut Rerun<M>,
    room: &mut Vec<u8>,
    input: &mut Numbered,
    reader: &mut R,
) -> Result<Verdict, Fault>
    requires end { R.Tells → EndIsSeen input.old.input (R.remaining reader.old) }
    requires few { CanCount input.old.taken input.old.input }
    requires fresh { M.standing rerun.old.machine ≡ [] }
    requires running { rerun.old.halted ≡ None }
    requires looked { rerun.old.looked ≡ 0 }
    requires count { rerun.old.count ≡ 0 }
    requires parted { rerun.old.parted ≡ None }
    ensures verdict { R.Tells → JudgesRest (M.program rerun.old.machine) input.old.taken (left input.old.input (R.remaining reader.old)) result }
    ensures budget { OnAnswer result (R.Tells → SpendsBudget input.old.input (R.remaining reader.old) input.new.input (R.remaining reader.new)) }
    ensures err { IfErr result IsReadingFault }
    ensures reader { ReaderCounts result (IsTooLong R.Tells input.old.input.budget (R.remaining reader.old) (R.given reader.old)
        (R.given reader.new)) (R.failures reader.old) (R.failures reader.new) }
{
    read_steps(rerun, input, reader)?;
    read_calls(rerun, room, input, reader)?;
    input.expect_end(reader)?;
    Ok(rerun.verdict())
}

/// A text has one verdict, or one first bad line, and not both. It does nothing, and is called for its clause.
pub fn one_verdict()
    ensures one { (text : List ℕ) → HasOneVerdict text }
{}

/// The text of a recording, of any script and any steps that it takes, is a recording, and the verdict on it is `same` and no other.
/// It does nothing, and is called for its clauses.
pub fn recordings_rerun_same()
    ensures same { (text : List ℕ) (p : Program) (es : List Event) → IsScript text p → AllTaken p es → HasVerdict (recording_text p es) Same }
    ensures only { (text : List ℕ) (p : Program) (es : List Event) → IsScript text p → AllTaken p es →
        (v : Verdict) → HasVerdict (recording_text p es) v → v ≡ Same }
{}

/// Runs a recording's steps again, and writes the verdict: whether their callbacks are those that are recorded. So many bytes are read,
/// and no more.
///
/// `Script` names the recording's first line outside its grammar, from 1, and nothing is written then. Where a step is not
/// taken, that is the verdict, and `Refused` or `StepsFull` the answer; where the callbacks are others, `Differs` with the first
/// place. `Read` comes where the reader fails, and else only where the recording is longer than the limit. `Write` comes where
/// the writer fails or takes no byte, and only there.
pub fn replay_within<M: Machine, R: Source, W: Sink>(
    alloc: Global,
    limit: u64,
    reader: &mut R,
    writer: &mut W,
) -> Result<(), Fault>
    requires few { limit ≤ 2 ^ 30 }
    ensures text { R.Tells → W.Tells → Replays (R.remaining reader.old) result (W.written writer.old) (W.written writer.new) }
    ensures within { OnAnswer result (R.Tells → TakesWithin limit (R.remaining reader.old) (R.remaining reader.new)) }
    ensures err { IfErr result IsReplayFault }
    ensures reader { ReaderCounts result (IsTooLong R.Tells limit (R.remaining reader.old) (R.given reader.old)
        (R.given reader.new)) (R.failures reader.old) (R.failures reader.new) }
    ensures writer { WriterCounts result (W.failures writer.old) (W.failures writer.new) }
{
    let verdict = judge::<M, R>(alloc, limit, reader)?;
    verdict.tell(alloc, writer)
}

/// Runs a recording's steps again, as `replay_within` does, of 2^30 bytes at the most.
pub fn replay<M: Machine, R: Source, W: Sink>(
    alloc: Global,
    reader: &mut R,
    writer: &mut W,
) -> Result<(), Fault>
    ensures text { R.Tells → W.Tells → Replays (R.remaining reader.old) result (W.written writer.old) (W.written writer.new) }
    ensures within { OnAnswer result (R.Tells → TakesWithin (2 ^ 30) (R.remaining reader.old) (R.remaining reader.new)) }
    ensures err { IfErr result IsReplayFault }
    ensures reader { ReaderCounts result (IsTooLong R.Tells (2 ^ 30) (R.remaining reader.old) (R.given reader.old)
        (R.given reader.new)) (R.failures reader.old) (R.failures reader.new) }
    ensures writer { WriterCounts result (W.failures writer.old) (W.failures writer.new) }
{
    replay_within::<M, R, W>(alloc, LIMIT, reader, writer)
}

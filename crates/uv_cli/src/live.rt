//! A live run of the script of a reader.
ghost use Rattle.std.specs.Prelude.{◌≡◌, ◌^◌, IfErr, IfSome};
ghost use Rattle.uv_ids.specs.declared.fault.Fault.TheVariants.{Write};
ghost use Rattle.uv_script.specs.Program.{IsWorkerCount};
ghost use Rattle.uv_engine.specs.Devices.{IsTooLong, ReaderCounts, TakesWithin, WriterCounts};
ghost use Rattle.uv_script.specs.Writes.{Writes};
ghost use Rattle.uv_cli.specs.Live.{to_run, of_reader, of_writer, IsLiveFault, OnRead, RunsLive};

use std::alloc::Global;
use std::sync::Wait;
use std::thread::Threads;
use uv_engine::{Sink, Source, read_alone, write_text};
use uv_ids::{Fault, Id};
use uv_live::JumpClock;
use uv_model::Machine;
use uv_pool::Gate;
use uv_run::live;
use uv_script::Script;
use uv_text::recording_text;

/// Why a live run wrote no recording, or not all of it.
#[derive(Clone, Copy)]
pub enum NoRecording {
    /// This line of the script is outside the grammar.
    BadScript(usize),
    /// The script couldn't be read: the reader failed, the input is too long, or memory was refused.
    Unread(Fault),
    /// The run failed, or there was no memory for its recording.
    Failed(Fault),
    /// The writer failed.
    Unwritten,
}

/// A gate that holds nobody.
#[derive(Clone, Copy)]
struct Open;

impl Gate for Open {
    ghost begins = { λ g k id after. Unit {0} };

    ghost ends = { λ g k id after. Unit {0} };

    ghost sends = { λ g s after. Unit {0} };

    fn begun(&mut self, _k: u16, _id: Id) {}

    fn ended(&mut self, _k: u16, _id: Id) {}

    fn sending(&mut self, _s: u8) {}
}

/// The script with the number of workers that is asked for.
fn with_workers(mut script: Script, workers: Option<u16>) -> Script
    requires within { IfSome workers IsWorkerCount }
    ensures { result ≡ to_run workers script }
{
    if let Some(workers) = workers {
        script.set_workers(workers);
    }
    script
}

/// Writes a whole text, and passes it on.
fn write_whole<W: Sink>(writer: &mut W, text: &[u8]) -> Result<(), Fault>
    ensures text { W.Tells → Writes result (W.written writer.old) text.now (W.written writer.new) }
    ensures err { IfErr result (λ fault. fault ≡ Write) }
    ensures writer { WriterCounts result (W.failures writer.old) (W.failures writer.new) }
{
    write_text(writer, text)?;
    if writer.flush().is_err() {
        return Err(Fault::Write);
    }
    Ok(())
}

/// Runs the script of a reader on real threads, over a machine, and writes the recording of what they did. The clock jumps from 0 on.
#[tactic(auto, using(crate::proofs::Failing::failing))]
pub fn run_live<M: Machine, H: Threads + Wait + Sync, R: Source, W: Sink>(
    rt: &H,
    alloc: Global,
    workers: Option<u16>,
    reader: &mut R,
    writer: &mut W,
) -> Result<(), NoRecording>
    requires within { IfSome workers IsWorkerCount }
    ensures text { R.Tells → W.Tells → RunsLive workers (R.remaining reader.old) result (W.written writer.old) (W.written writer.new) }
    ensures within { OnRead result (R.Tells → TakesWithin (2 ^ 30) (R.remaining reader.old) (R.remaining reader.new)) }
    ensures err { IfErr result IsLiveFault }
    ensures reader { ReaderCounts (of_reader result) (IsTooLong R.Tells (2 ^ 30) (R.remaining reader.old) (R.given reader.old)
        (R.given reader.new)) (R.failures reader.old) (R.failures reader.new) }
    ensures writer { WriterCounts (of_writer result) (W.failures writer.old) (W.failures writer.new) }
{
    let script = match read_alone(alloc, reader) {
        Ok(script) => script,
        Err(Fault::Script { line }) => return Err(NoRecording::BadScript(line)),
        Err(fault) => return Err(NoRecording::Unread(fault)),
    };
    let script = with_workers(script, workers);
    let mut clock = JumpClock::new(0);
    let session = match live::<M, _, _, _>(rt, alloc, script, &mut clock, &Open) {
        Ok(session) => session,
        Err(fault) => return Err(NoRecording::Failed(fault)),
    };
    let text = match recording_text(alloc, &session) {
        Ok(text) => text,
        Err(fault) => return Err(NoRecording::Failed(fault)),
    };
    match write_whole(writer, text.as_slice()) {
        Ok(()) => Ok(()),
        Err(_) => Err(NoRecording::Unwritten),
    }
}

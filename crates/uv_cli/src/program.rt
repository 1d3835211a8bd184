//! The program over any reader and writers.
ghost use Rattle.std.specs.Prelude.{◌≡◌, ◌≢◌, ◌^◌, map, IfSome, Some, None};
ghost use Rattle.uv_script.specs.Program.{IsWorkerCount};
ghost use Rattle.uv_words.specs.declared.command_line.Job.TheVariants.{Debug, Replay, Live};
ghost use Rattle.uv_engine.specs.Devices.{IsTooLong, TakesWithin};
ghost use Rattle.uv_engine.specs.declared.conversation.Ended.{Ended};
ghost use Rattle.uv_cli.specs.Live.{EndsLive, Lives};
ghost use Rattle.uv_cli.specs.Status.{Ends, EndsBy, Runs, Reruns, Ran, MayEnd, status_of};
ghost use Rattle.uv_words.specs.Words.{job_of};

use crate::live::{NoRecording, run_live};
use std::alloc::Global;
use std::io::Write;
use std::sync::Wait;
use std::thread::Threads;
use uv_engine::{Sink, Source, converse, replay};
use uv_ids::Fault;
use uv_model::Machine;
use uv_words::{Job, NoJob, read_words};

/// Does what the words say, of which the first is the program's own, and gives the exit status: 0 where it is done, 2 for a
/// bad command line, a bad script or a bad recording, 3 where a recording's verdict isn't `same`, 4 for any other fault. A fault
/// is a line on the errors, `uvt: ` and its text. Whatever the words ask for is done over the same machine.
pub fn run<M: Machine, H: Threads + Wait + Sync, R: Source, W: Sink, E: Write>(
    rt: &H,
    alloc: Global,
    words: &[&str],
    reader: &mut R,
    writer: &mut W,
    errors: &mut E,
) -> u8
    ensures text { R.Tells → W.Tells → Ran (job_of (map (λ word. word.now) words.now))
        (R.remaining reader.old) (W.written writer.old) (W.written writer.new) result }

    // On any device, also one that doesn't tell its bytes, it ends with one of these statuses.
    ensures status { MayEnd (job_of (map (λ word. word.now) words.now)) result }

    // Which fault, of the input, of a device, of memory or of the run, it is that ends it so.
    ensures ends { Ends (job_of (map (λ word. word.now) words.now))
        (IsTooLong R.Tells (2 ^ 30) (R.remaining reader.old) (R.given reader.old) (R.given reader.new))
        (R.failures reader.old) (R.failures reader.new) (W.failures writer.old) (W.failures writer.new) result }

    // Where the words are no command line, nothing is read and nothing is written.
    ensures untouched { job_of (map (λ word. word.now) words.now) ≡ None → (reader.new ≡ reader.old) × (writer.new ≡ writer.old) }

    // With any status but 4, that of a refused allocation and of a device that failed, it has read 2^30 bytes at the most.
    ensures within { result ≢ 4 → R.Tells → TakesWithin (2 ^ 30) (R.remaining reader.old) (R.remaining reader.new) }

    // A terminal doesn't tell its bytes. Yet with any status but 4 neither device has failed.
    ensures reader { result ≢ 4 → R.failures reader.new ≡ R.failures reader.old }
    ensures writer { result ≢ 4 → W.failures writer.new ≡ W.failures writer.old }
{
    match read_words(alloc, words) {
        Ok(Job::Debug) => debug::<M, _, _, _>(alloc, reader, writer, errors),
        Ok(Job::Replay) => rerun::<M, _, _, _>(alloc, reader, writer, errors),
        Ok(Job::Live(workers)) => live::<M, _, _, _, _>(rt, alloc, workers, reader, writer, errors),
        Err(NoJob::BadWords) => bad_words(errors),
        Err(NoJob::Memory) => fail(Fault::Memory, errors),
    }
}

fn debug<M: Machine, R: Source, W: Sink, E: Write>(
    alloc: Global,
    reader: &mut R,
    writer: &mut W,
    errors: &mut E,
) -> u8
    ensures text { R.Tells → W.Tells → Runs (R.remaining reader.old) (W.written writer.old) (W.written writer.new) result }
    ensures status { MayEnd (Some Debug) result }
    ensures ends { EndsBy Ended Debug (IsTooLong R.Tells (2 ^ 30) (R.remaining reader.old) (R.given reader.old) (R.given reader.new))
        (R.failures reader.old) (R.failures reader.new) (W.failures writer.old) (W.failures writer.new) result }
    ensures within { result ≢ 4 → R.Tells → TakesWithin (2 ^ 30) (R.remaining reader.old) (R.remaining reader.new) }
    ensures reader { result ≢ 4 → R.failures reader.new ≡ R.failures reader.old }
    ensures writer { result ≢ 4 → W.failures writer.new ≡ W.failures writer.old }
{
    match converse::<M, _, _>(alloc, reader, writer) {
        Ok(_) => 0,
        Err(fault) => fail(fault, errors),
    }
}

fn rerun<M: Machine, R: Source, W: Sink, E: Write>(
    alloc: Global,
    reader: &mut R,
    writer: &mut W,
    errors: &mut E,
) -> u8
    ensures text { R.Tells → W.Tells → Reruns (R.remaining reader.old) (W.written writer.old) (W.written writer.new) result }
    ensures status { MayEnd (Some Replay) result }
    ensures ends { EndsBy (Unit {0}) Replay (IsTooLong R.Tells (2 ^ 30) (R.remaining reader.old) (R.given reader.old) (R.given reader.new))
        (R.failures reader.old) (R.failures reader.new) (W.failures writer.old) (W.failures writer.new) result }
    ensures within { result ≢ 4 → R.Tells → TakesWithin (2 ^ 30) (R.remaining reader.old) (R.remaining reader.new) }
    ensures reader { result ≢ 4 → R.failures reader.new ≡ R.failures reader.old }
    ensures writer { result ≢ 4 → W.failures writer.new ≡ W.failures writer.old }
{
    match replay::<M, _, _>(alloc, reader, writer) {
        Ok(()) => 0,
        Err(fault) => fail(fault, errors),
    }
}

fn live<M: Machine, H: Threads + Wait + Sync, R: Source, W: Sink, E: Write>(
    rt: &H,
    alloc: Global,
    workers: Option<u16>,
    reader: &mut R,
    writer: &mut W,
    errors: &mut E,
) -> u8
    requires within { IfSome workers IsWorkerCount }
    ensures text { R.Tells → W.Tells → Lives workers (R.remaining reader.old) (W.written writer.old) (W.written writer.new) result }
    ensures status { MayEnd (Some (Live workers)) result }
    ensures ends { EndsLive (IsTooLong R.Tells (2 ^ 30) (R.remaining reader.old) (R.given reader.old) (R.given reader.new))
        (R.failures reader.old) (R.failures reader.new) (W.failures writer.old) (W.failures writer.new) result }
    ensures within { result ≢ 4 → R.Tells → TakesWithin (2 ^ 30) (R.remaining reader.old) (R.remaining reader.new) }
    ensures reader { result ≢ 4 → R.failures reader.new ≡ R.failures reader.old }
    ensures writer { result ≢ 4 → W.failures writer.new ≡ W.failures writer.old }
{
    match run_live::<M, _, _, _>(rt, alloc, workers, reader, writer) {
        Ok(()) => 0,
        Err(NoRecording::BadScript(line)) => {
            report(Fault::Script { line }, errors);
            2
        }
        Err(NoRecording::Unread(fault)) => {
            report(fault, errors);
            4
        }
        Err(NoRecording::Failed(fault)) => {
            report(fault, errors);
            4
        }
        Err(NoRecording::Unwritten) => {
            report(Fault::Write, errors);
            4
        }
    }
}

/// Says that the command line is bad, and gives the exit status.
pub fn bad_words<E: Write>(errors: &mut E) -> u8
    ensures { result ≡ 2 }
{
    let _ = writeln!(errors, "uvt: bad command line");
    2
}

/// Says what went wrong.
fn report<E: Write>(fault: Fault, errors: &mut E) {
    let _ = writeln!(errors, "uvt: {fault}");
}

/// Says what went wrong, and gives the exit status.
pub fn fail<E: Write>(fault: Fault, errors: &mut E) -> u8
    ensures { result ≡ status_of fault }
{
    report(fault, errors);
    match fault {
        Fault::Script { .. } => 2,
        Fault::Differs { .. } | Fault::Refused(_) | Fault::StepsFull => 3,
        _ => 4,
    }
}

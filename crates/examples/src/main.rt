//! Runs each example over the plain loop, except those that print an image, and compares what is written with the output beside it.
//! Then it runs them over the loop of the program, each time with a read, a write or a flush that fails in mid-stream, and calls
//! once what may want memory.
#![tactic(auto)]

mod devices;
mod sessions;

use devices::{answer_of, answers_line_by_line, fails_early, stops_at_its_limit, writes_are_short};
use sessions::{reads_a_script, replays, shows_its_texts, stops_at_breaks};
use std::alloc::Global;
use std::io::Print;
use std::rt::Files;
use std::{fs, io};
use uv_ids::Fault;
use uv_loop::ArenaLoop;
use uv_plain::PlainLoop;

const EXAMPLES: [&str; 23] = [
    "two-timers",
    "falls-behind",
    "step-back",
    "run-ends-early",
    "watcher-waits",
    "poll-does-not-block",
    "loop-is-busy",
    "who-keeps-it-alive",
    "closed-handle",
    "sends-are-one",
    "closed-twice",
    "lost-send",
    "stale-name",
    "never-called",
    "break-at-a-code",
    "what-it-waits-for",
    "done-out-of-order",
    "cancel-in-time",
    "tenth-waits",
    "next-job",
    "live-run-back",
    "check-before-timer",
    "timer-before-check",
];

/// The examples: behind a function, since a proof writes out a constant where it meets it.
fn examples() -> &'static [&'static str] {
    &EXAMPLES
}

/// Whether a conversation with the plain loop writes this.
fn is_answered(alloc: Global, input: &[u8], wanted: &[u8]) -> bool {
    let mut written = Vec::new(alloc);
    let answer = answer_of::<PlainLoop, _, _>(alloc, input, &mut written);
    answer.is_ok() && written.as_slice() == wanted
}

fn read<R: Files + AllocGlobal>(rt: &R, name: &str, ending: &str) -> io::Result<Vec<u8>> {
    let path = format!(in rt.alloc(); "{name}.{ending}")?;
    fs::read(rt, path.as_str())
}

/// Whether an example writes what is shown beside it, and a beginning of that where a device fails.
fn is_as_shown<R: Files + AllocGlobal>(rt: &R, name: &str) -> io::Result<bool> {
    let input = read(rt, name, "uvt")?;
    let wanted = read(rt, name, "out")?;
    Ok(is_answered(rt.alloc(), &input, &wanted) && fails_early(rt.alloc(), &input, &wanted))
}

fn tell<R: Print>(rt: &R, what: &str, is_right: bool) -> io::Result<()> {
    let verdict = if is_right { "as shown" } else { "differs" };
    println!(rt; "{what}: {verdict}")
}

/// Tells of a try that may want memory, which is there.
fn tell_try<R: Print>(rt: &R, what: &str, tried: Result<bool, Fault>) -> io::Result<()> {
    tell(rt, what, matches!(tried, Ok(true)))
}

const LAYOUT: &[u8] = b"var t\nmain init t timer\nbegin\nloop\nimage\nimage t\ntrace\n";

const NO_LAYOUT: &[u8] = b"init t timer = 0.0\nrefused image\nbad command\ninit t timer = 0.0\n";

fn tell_of_calls<R: Print + AllocGlobal>(rt: &R) -> io::Result<()> {
    let alloc = rt.alloc();
    tell_try(
        rt,
        "a run stops at breaks",
        stops_at_breaks::<ArenaLoop>(alloc),
    )?;
    tell_try(
        rt,
        "a session has its texts",
        shows_its_texts::<ArenaLoop>(alloc),
    )?;
    tell_try(rt, "a recording is replayed", replays::<ArenaLoop>(alloc))?;
    tell_try(rt, "a script is read alone", reads_a_script(alloc))?;
    tell_try(rt, "no write is long", writes_are_short(alloc))
}

fn main(rt: HostRuntime) -> io::Result<()> {
    let alloc = rt.alloc();
    for name in examples() {
        tell(&rt, name, is_as_shown(&rt, name)?)?;
    }
    tell(
        &rt,
        "a machine without one memory has no image",
        is_answered(alloc, LAYOUT, NO_LAYOUT),
    )?;
    tell(
        &rt,
        "each line is answered before the next is read",
        answers_line_by_line(alloc),
    )?;
    tell(
        &rt,
        "lines without end stop at the limit",
        stops_at_its_limit(alloc),
    )?;
    tell_of_calls(&rt)
}

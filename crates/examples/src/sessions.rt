//! What may want memory, called once where there is enough of it.

use std::alloc::Global;
use uv_engine::{Reader, Writer, read_alone, replay};
use uv_ids::{Event, Fault, Var};
use uv_model::{Machine, STEPS};
use uv_script::Script;
use uv_session::{Break, Session, Stop};
use uv_text::{recording_text, state_text};

/// A session of a script.
fn opened<M: Machine>(alloc: Global, text: &[u8]) -> Result<Session<M>, Fault> {
    let script = Script::parse(alloc, text)?;
    let machine = M::begin(alloc, script)?;
    Ok(Session::new(alloc, machine, STEPS))
}

const IDLE: &[u8] = b"var i\nmain init i idle\nmain start i\nmain run default\non i @3 stop i\n";

/// Whether a run of so many steps stops so.
fn stops<M: Machine>(session: &mut Session<M>, times: usize, wanted: Stop) -> bool {
    session.run_to_break(Event::Loop, times) == Ok(wanted)
}

fn goes_to_breaks<M: Machine>(session: &mut Session<M>) -> bool {
    session.add_break(Break::Call(Var(0))).is_ok()
        && stops(session, 100, Stop::Break(7))
        && stops(session, 9, Stop::All)
        && stops(session, 2, Stop::Break(17))
        && session.back_to_break() == Ok(7)
        && session.steps().len() == 7
}

/// Whether runs stop at the calls of a name, and going back does.
pub fn stops_at_breaks<M: Machine>(alloc: Global) -> Result<bool, Fault> {
    let mut session = opened::<M>(alloc, IDLE)?;
    Ok(goes_to_breaks(&mut session))
}

const TIMER: &[u8] = b"var t\nmain init t timer\n";

const STATE: &[u8] = b"steps 1 now 0 clock 0 stop 0 next 0 idled 0\n\
    place main 1\n\
    name t 0.0 0 0 0\n\
    slot 0.0 timer t ref 1 active 0 closing 0 begun 0 due 0 start 0 repeat 0\n\
    free\n\
    unused 1023\n\
    timers\n\
    ready\n\
    idle\n\
    idle-yet\n\
    prepare\n\
    prepare-yet\n\
    check\n\
    check-yet\n\
    async\n\
    async-yet\n\
    closing\n\
    closing-yet\n\
    waiting\n\
    running\n\
    done\n\
    done-yet\n";

const RECORDING: &[u8] =
    b"uvt 2\norder 1.45\nworkers 4\nslots 1024 4294967295\nvar t\nmain init t timer\nbegin\nloop\ntick 7\ncalls\nend\n";

/// Whether a text was answered, and is this one.
fn is_text(text: Result<Vec<u8>, Fault>, wanted: &[u8]) -> bool {
    match text {
        Ok(text) => text.as_slice() == wanted,
        Err(_) => false,
    }
}

fn shows<M: Machine>(alloc: Global, session: &mut Session<M>) -> bool {
    session.do_event(Event::Loop).is_ok()
        && is_text(state_text(alloc, session), STATE)
        && session.do_event(Event::Tick(7)).is_ok()
        && is_text(recording_text(alloc, session), RECORDING)
}

/// Whether the texts of a session's state and of its recording are these.
pub fn shows_its_texts<M: Machine>(alloc: Global) -> Result<bool, Fault> {
    let mut session = opened::<M>(alloc, TIMER)?;
    Ok(shows(alloc, &mut session))
}

fn verdict_of<M: Machine>(alloc: Global, input: &[u8], output: &mut Vec<u8>) -> Result<(), Fault> {
    let mut reader = Reader::new(input);
    let mut writer = Writer::new(output);
    replay::<M, _, _>(alloc, &mut reader, &mut writer)
}

/// Whether a recording is replayed, and the verdict written.
pub fn replays<M: Machine>(alloc: Global) -> Result<bool, Fault> {
    let mut text = Vec::new(alloc);
    verdict_of::<M>(alloc, RECORDING, &mut text)?;
    Ok(text.as_slice() == b"same\n".as_slice())
}

const SCRIPT: &[u8] = b"order 1.45\nworkers 4\nslots 1024 4294967295\nvar t\nmain init t timer\n";

/// Whether a script is read up to the line `begin`.
pub fn reads_a_script(alloc: Global) -> Result<bool, Fault> {
    let mut reader = Reader::new(b"var t\nmain init t timer\nbegin\nvar t\n".as_slice());
    let script = read_alone(alloc, &mut reader)?;
    let text = script.text()?;
    Ok(text.as_slice() == SCRIPT)
}

//! A session, a step of it at a time, each again where memory was wanted.

use std::alloc::Global;
use uv_ids::{Event, Fault, Var};
use uv_model::{Machine, STEPS};
use uv_script::Script;
use uv_session::Session;
use uv_text::image_text;

/// How often a call is tried that may want memory: of all allocations one is refused.
const TRIES: u32 = 3;

const SCRIPT: &[u8] = b"slots 9 1\nworkers 2\nvar t\nvar a\nvar p\nvar q\n\
    main init t timer\nmain init a async\nmain queue p 2 abc\nmain queue q 1\nmain start t 3 4\nmain run default\n\
    on t @2 close t\non a close a\nclosed a init a idle\nafter p queue q 1\n";

/// The steps: those of the loop between others, up to the end of the main program.
const STEPS_TAKEN: &[Event] = &[
    Event::Loop,
    Event::Loop,
    Event::Loop,
    Event::Loop,
    Event::Take(1),
    Event::Loop,
    Event::Take(0),
    Event::Loop,
    Event::Loop,
    Event::Send(Var(1)),
    Event::Loop,
    Event::Loop,
    Event::Finish(1),
    Event::Tick(3),
    Event::Loop,
    Event::Loop,
    Event::Loop,
    Event::Loop,
    Event::Loop,
    Event::Loop,
    Event::Loop,
    Event::Loop,
    Event::Loop,
    Event::Loop,
    Event::Loop,
    Event::Loop,
    Event::Loop,
    Event::Cancel(Var(3)),
    Event::Loop,
];

/// The steps: behind a function, since a proof writes out a constant where it meets it.
fn steps() -> &'static [Event] {
    STEPS_TAKEN
}

/// A session of the script of this text.
pub fn opened<M: Machine>(alloc: Global, text: &[u8]) -> Result<Session<M>, Fault> {
    let script = Script::parse(alloc, text)?;
    let machine = M::begin(alloc, script)?;
    Ok(Session::new(alloc, machine, STEPS))
}

/// A session of the script.
pub fn begun<M: Machine>(alloc: Global) -> Option<Session<M>> {
    for _ in 0..TRIES {
        if let Ok(session) = opened(alloc, SCRIPT) {
            return Some(session);
        }
    }
    None
}

/// How the session's memory lies.
pub fn image<M: Machine>(alloc: Global, session: &Session<M>) -> Option<Vec<u8>> {
    for _ in 0..TRIES {
        if let Ok(image) = image_text(alloc, session) {
            return image;
        }
    }
    None
}

/// Whether the session's memory lies so.
pub fn has_image<M: Machine>(alloc: Global, session: &Session<M>, wanted: &[u8]) -> bool {
    match image(alloc, session) {
        Some(image) => image.as_slice() == wanted,
        None => false,
    }
}

/// Whether a step is taken at once, or after a want of memory behind which the memory lies as it did.
fn takes<M: Machine>(alloc: Global, session: &mut Session<M>, event: Event) -> bool {
    let Some(before) = image(alloc, session) else {
        return false;
    };
    match session.do_event(event) {
        Ok(_) => true,
        Err(Fault::Memory) => {
            has_image(alloc, session, before.as_slice()) && session.do_event(event).is_ok()
        }
        Err(_) => false,
    }
}

/// Takes all steps, and answers how the memory lay before them; none where a step wasn't taken as it must.
pub fn takes_all<M: Machine>(alloc: Global, session: &mut Session<M>) -> Option<Vec<u8>> {
    let fresh = image(alloc, session)?;
    for event in steps() {
        if !takes(alloc, session, *event) {
            return None;
        }
    }
    Some(fresh)
}

/// Whether all steps are taken back, without memory.
pub fn goes_back<M: Machine>(session: &mut Session<M>) -> bool {
    session.back(session.steps().len()).is_ok() && session.steps().is_empty()
}

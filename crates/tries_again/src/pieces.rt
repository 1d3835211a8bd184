//! A session whose handles need a second piece of memory for their slots.

use crate::session::{goes_back, has_image, image, opened};
use crate::turns::Turns;
use std::alloc::{AllocError, Global};
use std::io;
use std::io::{Print, Read};
use uv_ids::{Event, Fault};
use uv_model::Machine;
use uv_session::Session;

/// How many handles are made: one more than a piece has slots.
const HANDLES: usize = 1025;

/// A check handle for each name, in an arena of 2,000 slots.
fn script(alloc: Global) -> Result<Vec<u8>, AllocError> {
    let mut text = format!(in alloc; "slots 2000\n")?.into_bytes();
    for handle in 0..HANDLES {
        let lines = format!(in alloc; "var n{handle}\nmain init n{handle} check\n")?;
        text.extend_from_slice(lines.as_bytes())?;
    }
    Ok(text)
}

fn makes<M: Machine>(session: &mut Session<M>, handles: usize) -> bool {
    for _ in 0..handles {
        if session.do_event(Event::Loop).is_err() {
            return false;
        }
    }
    true
}

/// Has the step that needs the second piece taken where memory may be refused. Says whether it was taken at once, or wanted memory,
/// left the session's memory as it lay, and was taken where there was some.
fn makes_the_last<M: Machine, I: Read, R: Print>(
    rt: &R,
    alloc: Global,
    session: &mut Session<M>,
    turns: &mut Turns<I>,
) -> io::Result<bool> {
    let Some(before) = image(alloc, session) else {
        return Ok(false);
    };
    turns.wait(rt, "refuse")?;
    let first = session.do_event(Event::Loop);
    turns.wait(rt, "grant")?;
    match first {
        Ok(_) => {
            println!(rt; "the last handle: made at once")?;
            Ok(true)
        }
        Err(Fault::Memory) => {
            println!(rt; "the last handle: refused")?;
            Ok(has_image(alloc, session, before.as_slice()) && makes(session, 1))
        }
        Err(_) => Ok(false),
    }
}

/// Takes all steps back, and runs them again, while no memory is granted. Says whether the memory lies as it did each time.
fn goes_back_and_on<M: Machine, I: Read, R: Print>(
    rt: &R,
    alloc: Global,
    session: &mut Session<M>,
    fresh: &[u8],
    turns: &mut Turns<I>,
) -> io::Result<bool> {
    let Some(last) = image(alloc, session) else {
        return Ok(false);
    };
    turns.wait(rt, "refuse")?;
    let is_back = goes_back(session);
    turns.wait(rt, "grant")?;
    let is_fresh = has_image(alloc, session, fresh);
    turns.wait(rt, "refuse")?;
    let is_on = session.forward(HANDLES).is_ok();
    turns.wait(rt, "grant")?;
    Ok(is_back && is_fresh && is_on && has_image(alloc, session, last.as_slice()))
}

fn tries<M: Machine, I: Read, R: Print>(
    rt: &R,
    alloc: Global,
    session: &mut Session<M>,
    turns: &mut Turns<I>,
) -> io::Result<bool> {
    let Some(fresh) = image(alloc, session) else {
        return Ok(false);
    };
    if !makes(session, HANDLES - 1) || !makes_the_last(rt, alloc, session, turns)? {
        return Ok(false);
    }
    goes_back_and_on(rt, alloc, session, fresh.as_slice(), turns)
}

/// Makes the handles, the last of them where memory may be refused, and takes all of it back and on again. Says whether all went as it must.
pub fn tried<M: Machine, I: Read, R: Print>(
    rt: &R,
    alloc: Global,
    turns: &mut Turns<I>,
) -> io::Result<bool> {
    let Ok(text) = script(alloc) else {
        return Ok(false);
    };
    match opened::<M>(alloc, text.as_slice()) {
        Ok(mut session) => tries(rt, alloc, &mut session, turns),
        Err(_) => Ok(false),
    }
}

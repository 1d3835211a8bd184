//! Sessions over one memory and over the plain loop take the same steps, and the former go back through the very images of their memory.

use crate::given::opened;
use crate::scripts::{MIXED, SCRIPTS, drawn_after, event_of, mark_of, marks_of, text_of};
use std::alloc::Global;
use uv_ids::{Fault, Id};
use uv_loop::ArenaLoop;
use uv_model::Machine;
use uv_plain::PlainLoop;
use uv_records::ListName;
use uv_session::Session;
use uv_text::image_text;

/// Whether a list of both has the same members.
fn is_list_alike<A: Machine, B: Machine>(machine: &A, plain: &B, list: ListName) -> bool {
    match (machine.members(list), plain.members(list)) {
        (Ok(members), Ok(wanted)) => members.as_slice() == wanted.as_slice(),
        _ => false,
    }
}

/// Whether some lists of both have the same members.
fn are_lists_alike<A: Machine, B: Machine>(machine: &A, plain: &B) -> bool {
    is_list_alike(machine, plain, ListName::Idle)
        && is_list_alike(machine, plain, ListName::Async)
        && is_list_alike(machine, plain, ListName::Closing)
        && is_list_alike(machine, plain, ListName::Waiting)
        && is_list_alike(machine, plain, ListName::Done)
}

/// Whether a slot of both holds the same.
fn is_slot_alike<A: Machine, B: Machine>(machine: &A, plain: &B, slot: u32) -> bool {
    let id = Id {
        slot,
        generation: 0,
    };
    machine.slot(slot) == plain.slot(slot) && machine.held(id) == plain.held(id)
}

/// Whether both show the same state.
fn are_alike<A: Machine, B: Machine>(machine: &A, plain: &B) -> bool {
    machine.place() == plain.place()
        && machine.numbers() == plain.numbers()
        && are_lists_alike(machine, plain)
        && is_slot_alike(machine, plain, 0)
        && is_slot_alike(machine, plain, 1)
        && is_slot_alike(machine, plain, 2)
}

/// Whether both answer a mark alike, a step back for `<` and the mark's event otherwise, and show the same state then.
fn obey_alike<A: Machine, B: Machine>(
    session: &mut Session<A>,
    plain: &mut Session<B>,
    mark: u8,
) -> bool {
    let answers_alike = if mark == b'<' {
        session.back(1) == plain.back(1)
    } else {
        session.do_event(event_of(mark)) == plain.do_event(event_of(mark))
    };
    answers_alike && are_alike(session.machine(), plain.machine())
}

/// Puts the image of the session's memory behind those noted before. Says whether there was one.
fn note_image<M: Machine>(session: &Session<M>, alloc: Global, images: &mut Vec<Vec<u8>>) -> bool {
    match image_text(alloc, session) {
        Ok(Some(image)) => images.push(image).is_ok(),
        _ => false,
    }
}

/// Whether the session's memory has this image.
fn has_image<M: Machine>(session: &Session<M>, alloc: Global, wanted: &[u8]) -> bool {
    match image_text(alloc, session) {
        Ok(Some(image)) => image.as_slice() == wanted,
        _ => false,
    }
}

/// Whether both take the events alike, and the first one has an image after each step that stands, which is noted.
fn go_alike<A: Machine, B: Machine>(
    session: &mut Session<A>,
    plain: &mut Session<B>,
    alloc: Global,
    marks: &[u8],
    images: &mut Vec<Vec<u8>>,
) -> bool {
    for mark in marks {
        if !obey_alike(session, plain, *mark) {
            return false;
        }
        if session.steps().len() > images.len() && !note_image(session, alloc, images) {
            return false;
        }
    }
    images.len() == session.steps().len()
}

/// Whether the session goes back through the noted images, the last one first.
fn goes_back<M: Machine>(session: &mut Session<M>, alloc: Global, images: &[Vec<u8>]) -> bool {
    for image in images.iter().rev() {
        if !has_image(session, alloc, image.as_slice()) || session.back(1).is_err() {
            return false;
        }
    }
    session.steps().is_empty()
}

/// Whether the session goes on through the noted images again.
fn goes_again<M: Machine>(session: &mut Session<M>, alloc: Global, images: &[Vec<u8>]) -> bool {
    for image in images {
        if session.forward(1).is_err() || !has_image(session, alloc, image.as_slice()) {
            return false;
        }
    }
    session.taken_back().is_empty()
}

/// Whether both machines take a script to its end, of 20 steps and more, and the first one goes back and on again.
fn walk_alike<A: Machine, B: Machine>(
    session: &mut Session<A>,
    plain: &mut Session<B>,
    alloc: Global,
    marks: &[u8],
) -> bool {
    let mut images = Vec::new(alloc);
    go_alike(session, plain, alloc, marks, &mut images)
        && images.len() >= 20
        && goes_back(session, alloc, images.as_slice())
        && goes_again(session, alloc, images.as_slice())
}

fn walks<A: Machine, B: Machine>(alloc: Global, script: usize) -> Result<bool, Fault> {
    let mut session = opened::<A>(alloc, text_of(script), 200)?;
    let mut plain = opened::<B>(alloc, text_of(script), 200)?;
    Ok(walk_alike(&mut session, &mut plain, alloc, marks_of(script)))
}

#[test]
fn each_script_is_walked_alike_and_back(rt: HostRuntime) -> Result<(), Fault> {
    for script in 0..SCRIPTS {
        assert!(&rt;
            walks::<ArenaLoop, PlainLoop>(rt.alloc(), script)?,
            "script {script}"
        );
    }
    Ok(())
}

/// Whether both stay alike through 300 marks that are drawn, and many steps stand then.
fn stray_alike<A: Machine, B: Machine>(
    session: &mut Session<A>,
    plain: &mut Session<B>,
    seed: u32,
) -> bool {
    let mut number = seed;
    for _ in 0..300 {
        number = drawn_after(number);
        if !obey_alike(session, plain, mark_of(number)) {
            return false;
        }
    }
    session.steps().len() > 200
}

/// Whether the session goes back to its first image, and no further.
fn goes_home<M: Machine>(session: &mut Session<M>, alloc: Global, first: &[u8]) -> bool {
    session.back(session.steps().len()).is_ok()
        && has_image(session, alloc, first)
        && session.back(1).is_err()
}

/// Whether both machines take steps that are drawn, on and back, and then the first one goes back to its beginning.
fn stray_and_go_home<A: Machine, B: Machine>(
    session: &mut Session<A>,
    plain: &mut Session<B>,
    alloc: Global,
    seed: u32,
) -> bool {
    match image_text(alloc, session) {
        Ok(Some(first)) => {
            stray_alike(session, plain, seed) && goes_home(session, alloc, first.as_slice())
        }
        _ => false,
    }
}

fn strays<A: Machine, B: Machine>(alloc: Global, seed: u32) -> Result<bool, Fault> {
    let mut session = opened::<A>(alloc, MIXED, 300)?;
    let mut plain = opened::<B>(alloc, MIXED, 300)?;
    Ok(stray_and_go_home(&mut session, &mut plain, alloc, seed))
}

#[test]
fn sessions_that_are_drawn_are_taken_alike(rt: HostRuntime) -> Result<(), Fault> {
    for seed in 0..8 {
        assert!(&rt;
            strays::<ArenaLoop, PlainLoop>(rt.alloc(), seed)?,
            "seed {seed}"
        );
    }
    Ok(())
}

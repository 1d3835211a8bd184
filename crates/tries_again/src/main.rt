//! Takes the steps of a session where memory may run out: a step that wanted it is taken again, and behind a want of memory all is as before.
//! Then all steps are taken back, while none is granted; and the pool's book notes an entry for which it has made room, while none is
//! granted either. Before that, if it is asked for, an arena goes on in its second piece, and so many handles are made that their slots need
//! one, and all of it is taken back and run again while none is granted. `tests/refused-allocations/run` runs it so.
#![tactic(auto)]

mod arena;
mod book;
mod pieces;
mod session;
mod turns;

use crate::session::{begun, goes_back, takes_all};
use crate::turns::Turns;
use std::alloc::Global;
use std::io;
use std::io::{Print, Read};
use std::marker::Brand;
use std::sync::ledger::Blank;
use uv_loop::ArenaLoop;
use uv_model::Machine;
use uv_session::Session;

/// Takes the steps, and takes them all back. Says whether all went as it must.
fn tries<M: Machine, I: Read, R: Print>(
    rt: &R,
    alloc: Global,
    session: &mut Session<M>,
    turns: &mut Turns<I>,
) -> io::Result<bool> {
    let Some(fresh) = takes_all(alloc, session) else {
        return Ok(false);
    };
    turns.wait(rt, "refuse")?;
    let is_back = goes_back(session);
    turns.wait(rt, "grant")?;
    Ok(is_back && session::has_image(alloc, session, fresh.as_slice()))
}

fn tried<M: Machine, I: Read, R: Print>(
    rt: &R,
    alloc: Global,
    turns: &mut Turns<I>,
) -> io::Result<bool> {
    match begun::<M>(alloc) {
        Some(mut session) => tries(rt, alloc, &mut session, turns),
        None => Ok(false),
    }
}

/// The arena that needs a second piece, if it is wanted.
fn arena_tried<I: Read, R: Print>(rt: &R, alloc: Global, turns: &mut Turns<I>) -> io::Result<bool> {
    Ok(!turns.asks(rt, "arena?")? || arena::tried(rt, alloc, turns)?)
}

/// The session that needs a second piece, if it is wanted.
fn pieces_tried<I: Read, R: Print>(
    rt: &R,
    alloc: Global,
    turns: &mut Turns<I>,
) -> io::Result<bool> {
    Ok(!turns.asks(rt, "pieces?")? || pieces::tried::<ArenaLoop, _, _>(rt, alloc, turns)?)
}

fn main(rt: HostRuntime) -> io::Result<()> {
    let mut turns = Turns::new(rt.stdin());
    let alloc = rt.alloc();
    let is_right = arena_tried(&rt, alloc, &mut turns)?
        && pieces_tried(&rt, alloc, &mut turns)?
        && tried::<ArenaLoop, _, _>(&rt, alloc, &mut turns)?
        && book::tried::<Brand, _, _>(&rt, alloc, Blank::new(3), &mut turns)?;
    let verdict = if is_right {
        "as before"
    } else {
        "not as before"
    };
    println!(rt; "{verdict}")
}

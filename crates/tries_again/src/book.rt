//! The pool's book, which makes room for an entry first, and then notes it without memory.
ghost use Rattle.std.specs.Prelude.{◌≡◌, ◌<◌};

use crate::turns::Turns;
use std::alloc::Global;
use std::io;
use std::io::{Print, Read};
use std::sync::ledger::{Blank, Ledger};
use uv_ids::{Fault, Id};
use uv_pool::PoolBook;
use uv_work::{Job, Task};

const REQUEST: Id = Id {
    slot: 0,
    generation: 0,
};

fn submits<L: Ledger>(book: &mut PoolBook<L>) -> bool {
    match Task::new(1, b"abc") {
        Some(task) => book.submit(Job { req: REQUEST, task }).is_ok(),
        None => false,
    }
}

fn notes_an_entry<L: Ledger, I: Read, R: Print>(
    rt: &R,
    book: &mut PoolBook<L>,
    turns: &mut Turns<I>,
) -> io::Result<bool> {
    turns.wait(rt, "refuse")?;
    let is_refused = book.reserve() == Err(Fault::Memory);
    let is_as_before = book.log().is_empty();
    turns.wait(rt, "grant")?;
    let room = if is_refused { "refused" } else { "there" };
    println!(rt; "room for an entry: {room}")?;
    let is_made = book.reserve().is_ok();
    turns.wait(rt, "refuse")?;
    let is_noted = submits(book);
    turns.wait(rt, "grant")?;
    Ok(is_as_before && (!is_made || is_noted && book.log().len() == 1))
}

/// Has a book make room where there is no memory, and then where there is; then an entry is noted without. Says whether all went as
/// it must.
pub fn tried<L: Ledger, I: Read, R: Print>(
    rt: &R,
    alloc: Global,
    blank: Blank,
    turns: &mut Turns<I>,
) -> io::Result<bool>
    requires name { blank.name ≡ L.name }
    requires parts { blank.parts ≡ L.parts }
    requires more { 2 < blank.parts }
{
    match PoolBook::<L>::new(alloc, blank, 2) {
        Ok(mut book) => notes_an_entry(rt, &mut book, turns),
        Err(fault) => Ok(fault == Fault::Memory),
    }
}

//! The way of the fewest moves.
ghost use Rattle.std.specs.Prelude.{◌≡◌, ◌∷◌, drop, length, IfOk, IfSome, IfNone, OnOk};
ghost use Rattle.uv_search.specs.Settled.{IsTooDeep, IsWay};

use crate::maze::Maze;
use crate::round::{Round, look_around};
use crate::shortening::shorten;
use std::alloc::{AllocError, Global};

/// Makes a way of the fewest moves that answers, by a search of one layer of places after another. So many moves are made for it at most, and
/// those of one way more; then it gives up. Whether there is one. Nothing changes, and it says nothing of the way: who wants to know makes its moves.
fn nearest<M: Maze>(
    alloc: Global,
    maze: &mut M,
    way: &mut Vec<usize>,
    effort: usize,
) -> Result<bool, AllocError>
    ensures rules { M.rules maze.new ≡ M.rules maze.old }
    ensures same { OnOk result ((M.place maze.new ≡ M.place maze.old) × (M.before maze.new ≡ M.before maze.old)) }
{
    let mut round = Round::new(alloc);
    look_around(maze, &mut round, usize::MAX, way, effort)
}

/// Makes the moves of a way of the fewest, if one is found by so many moves. It is none, and nothing changes, where none is.
fn take_nearest<M: Maze>(
    alloc: Global,
    maze: &mut M,
    effort: usize,
) -> Result<Option<Vec<usize>>, AllocError>
    ensures rules { M.rules maze.new ≡ M.rules maze.old }
    ensures some { let r = M.rules maze.old
        in IfOk result (λ led. IfSome led (λ short.
        IsWay (M.moves r) (M.next r) (M.key r) (M.IsDeep r) (M.place maze.old) short.items (M.place maze.new)
        × (drop (length short.items) (M.place maze.new ∷ M.before maze.new) ≡ M.place maze.old ∷ M.before maze.old))) }
    ensures none { IfOk result (λ led. IfNone led ((M.place maze.new ≡ M.place maze.old) × (M.before maze.new ≡ M.before maze.old))) }
{
    let mut way = Vec::new(alloc);
    if nearest(alloc, maze, &mut way, effort)? {
        shorten(alloc, maze, way, effort)
    } else {
        Ok(None)
    }
}

/// Makes a way from here shorter: one of the fewest moves is searched, and where that takes too many moves, moves are left out of this
/// one (`shorten`). So many moves are made for each of the two at most, and those of one way more. The maze stands where the shorter way
/// leads; it is none, and the maze stands where it stood, where the way doesn't answer or may not be gone.
pub fn shortest<M: Maze>(
    alloc: Global,
    maze: &mut M,
    way: Vec<usize>,
    effort: usize,
) -> Result<Option<Vec<usize>>, AllocError>
    ensures rules { M.rules maze.new ≡ M.rules maze.old }
    ensures some { let r = M.rules maze.old
        in IfOk result (λ led. IfSome led (λ short.
        IsWay (M.moves r) (M.next r) (M.key r) (M.IsDeep r) (M.place maze.old) short.items (M.place maze.new)
        × (drop (length short.items) (M.place maze.new ∷ M.before maze.new) ≡ M.place maze.old ∷ M.before maze.old))) }
    ensures none { IfOk result (λ led. IfNone led ((M.place maze.new ≡ M.place maze.old) × (M.before maze.new ≡ M.before maze.old))) }
    ensures sure { let r = M.rules maze.old
        in IfOk result (λ led. IfNone led ((q : M.Place) → IsWay (M.moves r) (M.next r) (M.key r) (M.IsDeep r) (M.place maze.old) way.items q
        → (deep : M.Place) × IsTooDeep (M.moves r) (M.next r) (M.key r) (M.IsDeep r) (M.place maze.old) deep)) }
{
    match take_nearest(alloc, maze, effort)? {
        Some(short) => Ok(Some(short)),
        None => shorten(alloc, maze, way, effort),
    }
}

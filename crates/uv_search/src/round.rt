//! A round by breadth: one place after another, in the order in which they are reached.
ghost use Rattle.std.specs.Prelude.{◌≡◌, [], ◌<◌, OnOk};
ghost use Rattle.uv_search.specs.Settled.{AreFew};
ghost use Rattle.uv_search.specs.Ways.{CanLead};

use crate::maze::{Maze, Went};
use crate::seen::{Entered, Key, Seen, enter_here};
use crate::shortening::{go_back, walk};
use std::alloc::{AllocError, Global};

/// How a place was reached: by this move, from one that was reached before.
#[derive(Clone, Copy)]
struct Reaching {
    /// Which one, from 1; 0 is where the round began.
    from: usize,
    number: usize,
}

/// What a round keeps.
#[derive(Drop)]
pub(crate) struct Round {
    /// The keys of the places that were reached, where the round began first.
    pub(crate) seen: Seen,
    /// How each of the others was reached.
    reached: Vec<Reaching>,
    /// The key that was asked last.
    pub(crate) key: Key,
}

impl Round {
    pub(crate) fn new(alloc: Global) -> Round
        ensures { result.seen ≡ [] }
    {
        Round {
            seen: Seen::new(alloc),
            reached: Vec::new(alloc),
            key: Key {
                bytes: Vec::new(alloc),
            },
        }
    }

    /// Makes of a way the moves to a place that was reached.
    fn way_to(&self, place: usize, way: &mut Vec<usize>) -> Result<(), AllocError> {
        way.clear();
        let mut at = place;
        'moves: for _ in 0..self.reached.len() {
            if at == 0 || at > self.reached.len() {
                break;
            }
            let step = self.reached[at - 1];
            way.push(step.number)?;
            at = step.from;
        }
        way.reverse();
        Ok(())
    }
}

/// Looks where a move leads, and keeps the key there, where there are fewer than so many. Whether it answers. The maze stays where it is.
fn look<M: Maze>(
    maze: &mut M,
    round: &mut Round,
    limit: usize,
    from: usize,
    number: usize,
) -> Result<bool, AllocError>
    requires { number < M.moves (M.rules maze.old) (M.place maze.old) }
    ensures rules { M.rules maze.new ≡ M.rules maze.old }
    ensures looked { let r = M.rules maze.old
        in OnOk result ((M.place maze.new ≡ M.place maze.old) × (M.before maze.new ≡ M.before maze.old)
        × ((p : M.Place) → CanLead (M.moves r) (M.next r) p (M.place maze.old)
        → AreFew (M.moves r) (M.next r) (M.key r) (M.IsDeep r) p limit round.old.seen
        → AreFew (M.moves r) (M.next r) (M.key r) (M.IsDeep r) p limit round.new.seen)) }
{
    match maze.go(number)? {
        Went::Refused => Ok(false),
        Went::TooDeep => Ok(false),
        Went::Answered => {
            maze.back();
            Ok(true)
        }
        Went::Moved => {
            let entered = enter_here(maze, limit, &mut round.seen, &mut round.key)?;
            maze.back();
            if let Entered::New = entered {
                round.reached.push(Reaching { from, number })?;
            }
            Ok(false)
        }
    }
}

/// Looks at each move from here, up to one that answers, and keeps where they lead. The maze stays where it is.
fn spread<M: Maze>(
    maze: &mut M,
    round: &mut Round,
    limit: usize,
    from: usize,
) -> Result<Option<usize>, AllocError>
    ensures rules { M.rules maze.new ≡ M.rules maze.old }
    ensures looked { let r = M.rules maze.old
        in OnOk result ((M.place maze.new ≡ M.place maze.old) × (M.before maze.new ≡ M.before maze.old)
        × ((p : M.Place) → CanLead (M.moves r) (M.next r) p (M.place maze.old)
        → AreFew (M.moves r) (M.next r) (M.key r) (M.IsDeep r) p limit round.old.seen
        → AreFew (M.moves r) (M.next r) (M.key r) (M.IsDeep r) p limit round.new.seen)) }
{
    let count = maze.moves();
    'moves: for number in 0..count {
        if look(maze, round, limit, from, number)? {
            return Ok(Some(number));
        }
    }
    Ok(None)
}

/// Goes to a place that was reached, looks at each move from there, and goes back. The move that answers, if one does.
fn visit<M: Maze>(
    maze: &mut M,
    round: &mut Round,
    limit: usize,
    way: &[usize],
    from: usize,
) -> Result<Option<usize>, AllocError>
    ensures rules { M.rules maze.new ≡ M.rules maze.old }
    ensures looked { let r = M.rules maze.old
        in OnOk result ((M.place maze.new ≡ M.place maze.old) × (M.before maze.new ≡ M.before maze.old)
        × (AreFew (M.moves r) (M.next r) (M.key r) (M.IsDeep r) (M.place maze.old) limit round.old.seen
        → AreFew (M.moves r) (M.next r) (M.key r) (M.IsDeep r) (M.place maze.old) limit round.new.seen)) }
{
    let (made, _) = walk(maze, way)?;
    let found = spread(maze, round, limit, from)?;
    go_back(maze, made);
    Ok(found)
}

/// Looks from one place after another, in the order in which they were reached, for a move that answers, and makes the way that ends in it.
/// Whether there is one. So many moves are made for it at most, and those of one way more, and so many keys are kept. The maze stays where it is.
pub(crate) fn look_around<M: Maze>(
    maze: &mut M,
    round: &mut Round,
    limit: usize,
    way: &mut Vec<usize>,
    effort: usize,
) -> Result<bool, AllocError>
    ensures rules { M.rules maze.new ≡ M.rules maze.old }
    ensures looked { let r = M.rules maze.old
        in OnOk result ((M.place maze.new ≡ M.place maze.old) × (M.before maze.new ≡ M.before maze.old)
        × (AreFew (M.moves r) (M.next r) (M.key r) (M.IsDeep r) (M.place maze.old) limit round.old.seen
        → AreFew (M.moves r) (M.next r) (M.key r) (M.IsDeep r) (M.place maze.old) limit round.new.seen)) }
{
    let _ = enter_here(maze, limit, &mut round.seen, &mut round.key)?;
    let mut left = effort;
    let mut from = 0;
    'places: while left > 0 {
        left -= 1;
        if from > round.reached.len() {
            break;
        }
        round.way_to(from, way)?;
        left = left.saturating_sub(way.len());
        if let Some(number) = visit(maze, round, limit, way.as_slice(), from)? {
            way.push(number)?;
            return Ok(true);
        }
        from += 1;
    }
    Ok(false)
}

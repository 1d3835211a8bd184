//! What is near, however deep other ways go.
ghost use Rattle.std.specs.Prelude.{◌≡◌, [], ◌∷◌, ◌≤◌, drop, take, length, IfOk, IfSome, IfNone, MatchOption};
ghost use Rattle.uv_search.specs.Settled.{AreFew, Ends, IsPassed, IsWay, Settles};
ghost use Rattle.uv_search.specs.Ways.{Passes};
ghost use Rattle.uv_search.specs.declared.finding.Ending.TheVariants.{Answered as answered};
ghost use Rattle.uv_search.specs.declared.finding.Found.TheVariants.{Way as found_way};

use crate::finding::Reached;
use crate::maze::{Maze, Went};
use crate::round::{Round, look_around};
use crate::seen::{Entered, enter_here};
use crate::shortening::go_back;
use std::alloc::{AllocError, Global};

/// Keeps the key of the place, and makes a move. Whether it answers; nothing where it isn't accepted, may not be made, or there are more keys than
/// may be kept.
fn pass_on<M: Maze>(
    maze: &mut M,
    round: &mut Round,
    limit: usize,
    number: usize,
) -> Result<Option<bool>, AllocError>
    ensures rules { M.rules maze.new ≡ M.rules maze.old }
    ensures led { let r = M.rules maze.old
        in IfOk result (λ led. MatchOption led ((M.place maze.new ≡ M.place maze.old) × (M.before maze.new ≡ M.before maze.old))
        (λ answers. Passes (M.moves r) (M.next r) (M.key r) (M.place maze.old) (M.before maze.old) number answers
        limit round.old.seen round.new.seen (M.place maze.new) (M.before maze.new))) }
{
    if number >= maze.moves() {
        return Ok(None);
    }
    if let Entered::Full = enter_here(maze, limit, &mut round.seen, &mut round.key)? {
        return Ok(None);
    }
    match maze.go(number)? {
        Went::Moved => Ok(Some(false)),
        Went::Answered => Ok(Some(true)),
        Went::Refused => Ok(None),
        Went::TooDeep => Ok(None),
    }
}

/// Makes these moves up to the first that answers, and keeps the keys of the places where they are made. How many they are. Where none answers, or
/// one can't be made so, it goes back.
fn pass<M: Maze>(
    maze: &mut M,
    round: &mut Round,
    limit: usize,
    way: &[usize],
) -> Result<Option<usize>, AllocError>
    ensures rules { M.rules maze.new ≡ M.rules maze.old }
    ensures led { let r = M.rules maze.old
        in IfOk result (λ led. MatchOption led ((M.place maze.new ≡ M.place maze.old) × (M.before maze.new ≡ M.before maze.old))
        (λ count. (count ≤ length way.now)
        × IsWay (M.moves r) (M.next r) (M.key r) (M.IsDeep r) (M.place maze.old) (take count way.now) (M.place maze.new)
        × IsPassed (M.moves r) (M.next r) (M.key r) (M.IsDeep r) round.new.seen (M.place maze.old) (take count way.now)
        × (drop count (M.place maze.new ∷ M.before maze.new) ≡ M.place maze.old ∷ M.before maze.old)
        × (AreFew (M.moves r) (M.next r) (M.key r) (M.IsDeep r) (M.place maze.old) limit round.old.seen
        → AreFew (M.moves r) (M.next r) (M.key r) (M.IsDeep r) (M.place maze.old) limit round.new.seen))) }
{
    'moves: for index in 0..way.len() {
        match pass_on(maze, round, limit, way[index])? {
            Some(answers) => {
                if answers {
                    return Ok(Some(index + 1));
                }
            }
            None => {
                go_back(maze, index);
                return Ok(None);
            }
        }
    }
    go_back(maze, way.len());
    Ok(None)
}

/// Looks around, and passes along the way that was found, of which as many moves are left as were made. How many keys were kept until it answered.
fn find_near<M: Maze>(
    maze: &mut M,
    round: &mut Round,
    limit: usize,
    way: &mut Vec<usize>,
    effort: usize,
) -> Result<Option<usize>, AllocError>
    requires { round.old.seen ≡ [] }
    ensures rules { M.rules maze.new ≡ M.rules maze.old }
    ensures led { let r = M.rules maze.old
        in IfOk result (λ led. MatchOption led ((M.place maze.new ≡ M.place maze.old) × (M.before maze.new ≡ M.before maze.old))
        (λ keys. Ends (M.moves r) (M.next r) (M.key r) (M.IsDeep r) (M.apart r) (M.covered r) (M.IsTold r) (M.place maze.old) limit
        (answered keys) way.new.items (M.place maze.new)
        × (drop (length way.new.items) (M.place maze.new ∷ M.before maze.new) ≡ M.place maze.old ∷ M.before maze.old))) }
{
    if !look_around(maze, round, limit, way, effort)? {
        return Ok(None);
    }
    match pass(maze, round, limit, way.as_slice())? {
        Some(count) => {
            way.truncate(count);
            Ok(Some(round.seen.len()))
        }
        None => Ok(None),
    }
}

/// The same, with what a round keeps.
fn start_near<M: Maze>(
    alloc: Global,
    maze: &mut M,
    limit: usize,
    way: &mut Vec<usize>,
    effort: usize,
) -> Result<Option<usize>, AllocError>
    ensures rules { M.rules maze.new ≡ M.rules maze.old }
    ensures led { let r = M.rules maze.old
        in IfOk result (λ led. MatchOption led ((M.place maze.new ≡ M.place maze.old) × (M.before maze.new ≡ M.before maze.old))
        (λ keys. Ends (M.moves r) (M.next r) (M.key r) (M.IsDeep r) (M.apart r) (M.covered r) (M.IsTold r) (M.place maze.old) limit
        (answered keys) way.new.items (M.place maze.new)
        × (drop (length way.new.items) (M.place maze.new ∷ M.before maze.new) ≡ M.place maze.old ∷ M.before maze.old))) }
{
    let mut round = Round::new(alloc);
    find_near(maze, &mut round, limit, way, effort)
}

/// A way of the fewest moves that answers, by a search of one layer of places after another. So many moves are made for it at most, and those of
/// two ways more, and so many keys are kept. The maze stands where the way leads. It is none, and the maze stands where it stood, where no way
/// is found by that.
pub fn search_near<M: Maze>(
    alloc: Global,
    maze: &mut M,
    limit: usize,
    effort: usize,
) -> Result<Option<Reached>, AllocError>
    ensures rules { M.rules maze.new ≡ M.rules maze.old }
    ensures some { let r = M.rules maze.old
        in IfOk result (λ led. IfSome led (λ reached.
        Settles (M.moves r) (M.next r) (M.key r) (M.IsDeep r) (M.apart r) (M.covered r) (M.IsTold r) (M.place maze.old) limit (found_way reached)
        (M.place maze.new)
        × (drop (length reached.way.items) (M.place maze.new ∷ M.before maze.new) ≡ M.place maze.old ∷ M.before maze.old))) }
    ensures none { IfOk result (λ led. IfNone led ((M.place maze.new ≡ M.place maze.old) × (M.before maze.new ≡ M.before maze.old))) }
{
    let mut way = Vec::new(alloc);
    match start_near(alloc, maze, limit, &mut way, effort)? {
        Some(keys) => Ok(Some(Reached { way, keys })),
        None => Ok(None),
    }
}

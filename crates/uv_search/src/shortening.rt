//! A way that answers, made shorter.
ghost use Rattle.std.specs.Prelude.{◌≡◌, ◌∷◌, ◌++◌, ◌+◌, ◌<◌, ◌≤◌, drop, take, length, IfOk, IfSome, IfNone, MatchOption};
ghost use Rattle.std.specs.Bool.{MatchBool};
ghost use Rattle.uv_search.specs.Settled.{DontAnswer, IsTooDeep, IsWay};
ghost use Rattle.uv_search.specs.Ways.{LeadTo, Tries};

use crate::maze::{Maze, Went};
use std::alloc::{AllocError, Global};

/// Takes so many moves back.
pub fn go_back<M: Maze>(maze: &mut M, moves: usize)
    requires { moves ≤ length (M.before maze.old) }
    ensures rules { M.rules maze.new ≡ M.rules maze.old }
    ensures before { drop moves (M.place maze.old ∷ M.before maze.old) ≡ M.place maze.new ∷ M.before maze.new }
{
    'back: for _ in 0..moves {
        maze.back();
    }
}

/// Makes these moves as far as they are accepted, up to the first that answers. How many were made, and whether the last of them answers.
pub(crate) fn walk<M: Maze>(maze: &mut M, way: &[usize]) -> Result<(usize, bool), AllocError>
    ensures rules { M.rules maze.new ≡ M.rules maze.old }
    ensures led { let r = M.rules maze.old
        in IfOk result (λ led. (led.0 ≤ length way.now)
        × LeadTo (M.moves r) (M.next r) (M.place maze.old) (take led.0 way.now) (M.place maze.new)
        × (drop led.0 (M.place maze.new ∷ M.before maze.new) ≡ M.place maze.old ∷ M.before maze.old)
        × MatchBool led.1 (IsWay (M.moves r) (M.next r) (M.key r) (M.IsDeep r) (M.place maze.old) (take led.0 way.now) (M.place maze.new))
        ((q : M.Place) → IsWay (M.moves r) (M.next r) (M.key r) (M.IsDeep r) (M.place maze.old) way.now q
        → (deep : M.Place) × IsTooDeep (M.moves r) (M.next r) (M.key r) (M.IsDeep r) (M.place maze.old) deep)) }
{
    'moves: for index in 0..way.len() {
        let number = way[index];
        if number >= maze.moves() {
            return Ok((index, false));
        }
        match maze.go(number)? {
            Went::Moved => {}
            Went::Answered => return Ok((index + 1, true)),
            Went::Refused => return Ok((index, false)),
            Went::TooDeep => return Ok((index, false)),
        }
    }
    Ok((way.len(), false))
}

/// What became of a move that was tried.
enum Tried {
    /// It was made and doesn't answer the question, or it isn't accepted and was left out.
    GoesOn,
    /// It was made, and answers the question.
    Answered,
    /// It wasn't made: no more moves may be made here.
    TooDeep,
}

/// Makes a move where it is accepted, and appends it to those that were made.
fn add_move<M: Maze>(
    maze: &mut M,
    made: &mut Vec<usize>,
    number: usize,
) -> Result<Tried, AllocError>
    ensures rules { M.rules maze.new ≡ M.rules maze.old }
    ensures tries { let r = M.rules maze.old
        in IfOk result (λ tried. Tries (M.moves r) (M.next r) (M.IsDeep r) tried number
        (M.place maze.old) (M.before maze.old) made.old.items (M.place maze.new) (M.before maze.new) made.new.items) }
{
    if number >= maze.moves() {
        return Ok(Tried::GoesOn);
    }
    match maze.go(number)? {
        Went::Refused => Ok(Tried::GoesOn),
        Went::TooDeep => Ok(Tried::TooDeep),
        Went::Moved => {
            made.push(number)?;
            Ok(Tried::GoesOn)
        }
        Went::Answered => {
            made.push(number)?;
            Ok(Tried::Answered)
        }
    }
}

/// Makes those of these moves that are accepted, each where the ones before it led, up to the first that answers, and gives what was made.
/// Where none answers, or no more may be made, it goes back.
fn retrace<M: Maze>(
    alloc: Global,
    maze: &mut M,
    way: &[usize],
) -> Result<Option<Vec<usize>>, AllocError>
    ensures rules { M.rules maze.new ≡ M.rules maze.old }
    ensures made { let r = M.rules maze.old
        in IfOk result (λ led. MatchOption led ((M.place maze.new ≡ M.place maze.old) × (M.before maze.new ≡ M.before maze.old)
        × DontAnswer (M.moves r) (M.next r) (M.key r) (M.IsDeep r) (M.place maze.old) way.now)
        (λ made. (length made.items ≤ length way.now)
        × IsWay (M.moves r) (M.next r) (M.key r) (M.IsDeep r) (M.place maze.old) made.items (M.place maze.new)
        × (drop (length made.items) (M.place maze.new ∷ M.before maze.new) ≡ M.place maze.old ∷ M.before maze.old))) }
{
    let mut made = Vec::new(alloc);
    'moves: for index in 0..way.len() {
        match add_move(maze, &mut made, way[index])? {
            Tried::GoesOn => {}
            Tried::Answered => return Ok(Some(made)),
            Tried::TooDeep => {
                go_back(maze, made.len());
                return Ok(None);
            }
        }
    }
    go_back(maze, made.len());
    Ok(None)
}

/// Leaves the move in this place out of a way, and with it all that aren't accepted then, and what stands behind the first move that
/// answers. Whether what is left still answers: if not, the way stays as it is.
fn leave_out<M: Maze>(
    alloc: Global,
    maze: &mut M,
    way: &mut Vec<usize>,
    place: usize,
) -> Result<bool, AllocError>
    requires { place < length way.old.items }
    ensures rules { M.rules maze.new ≡ M.rules maze.old }
    ensures left { let r = M.rules maze.old
        in IfOk result (λ left. (M.place maze.new ≡ M.place maze.old) × (M.before maze.new ≡ M.before maze.old)
        × MatchBool left ((length way.new.items < length way.old.items)
        × ((t : M.Place) × IsWay (M.moves r) (M.next r) (M.key r) (M.IsDeep r) (M.place maze.old) way.new.items t))
        ((way.new.items ≡ way.old.items) × DontAnswer (M.moves r) (M.next r) (M.key r) (M.IsDeep r) (M.place maze.old)
        (take place way.old.items ++ drop (place + 1) way.old.items))) }
{
    let mut shorter = Vec::new(alloc);
    shorter.extend_from_slice(&way[..place])?;
    shorter.extend_from_slice(&way[place + 1..])?;
    match retrace(alloc, maze, &shorter)? {
        Some(made) => {
            go_back(maze, made.len());
            *way = made;
            Ok(true)
        }
        None => Ok(false),
    }
}

/// Makes a way from here shorter: a move is left out of it, and with it those behind it that aren't accepted then, as long as what is left
/// answers. Moves of other numbers than 0 are tried first, and after each that could be left out all are tried again from the beginning. So
/// many moves are made for it at most, and those of one way more. The maze stands where the shorter way leads; it is none, and the maze
/// stands where it stood, where the way doesn't answer or may not be gone.
pub fn shorten<M: Maze>(
    alloc: Global,
    maze: &mut M,
    way: Vec<usize>,
    effort: usize,
) -> Result<Option<Vec<usize>>, AllocError>
    ensures rules { M.rules maze.new ≡ M.rules maze.old }
    ensures some { let r = M.rules maze.old
        in IfOk result (λ led. IfSome led (λ short.
        IsWay (M.moves r) (M.next r) (M.key r) (M.IsDeep r) (M.place maze.old) short.items (M.place maze.new)
        × (drop (length short.items) (M.place maze.new ∷ M.before maze.new) ≡ M.place maze.old ∷ M.before maze.old))) }
    ensures long { IfOk result (λ led. IfSome led (λ short. length short.items ≤ length way.items)) }
    ensures none { IfOk result (λ led. IfNone led ((M.place maze.new ≡ M.place maze.old) × (M.before maze.new ≡ M.before maze.old))) }
    ensures sure { let r = M.rules maze.old
        in IfOk result (λ led. IfNone led ((q : M.Place) → IsWay (M.moves r) (M.next r) (M.key r) (M.IsDeep r) (M.place maze.old) way.items q
        → (deep : M.Place) × IsTooDeep (M.moves r) (M.next r) (M.key r) (M.IsDeep r) (M.place maze.old) deep)) }
{
    let mut way = way;
    let mut left = effort;
    let mut place = 0;
    let mut outside = true;
    'tries: while left > 0 {
        left -= 1;
        if place >= way.len() {
            if !outside {
                break;
            }
            outside = false;
            place = 0;
        } else if (way[place] != 0) != outside {
            place += 1;
        } else {
            left = left.saturating_sub(way.len());
            if leave_out(alloc, maze, &mut way, place)? {
                outside = true;
                place = 0;
            } else {
                place += 1;
            }
        }
    }
    let (count, answers) = walk(maze, &way)?;
    if answers {
        way.truncate(count);
        return Ok(Some(way));
    }
    go_back(maze, count);
    Ok(None)
}

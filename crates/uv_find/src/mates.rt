//! Requests that are alike: of two that run, only the first one is finished first.
ghost use Rattle.std.specs.Prelude.{◌≡◌, ◌-◌, ◌+◌, ◌<◌, [], IfOk, IfSome, length};
ghost use Rattle.std.specs.List.{list_any};
ghost use Rattle.uv_asking.specs.Asked.{asked_in};
ghost use Rattle.uv_script.specs.Program.{IsWhole};
ghost use Rattle.uv_script.specs.Program.{callbacks_of};
ghost use Rattle.uv_model.specs.After.{after};
ghost use Rattle.uv_model.specs.Bounds.{line_of};
ghost use Rattle.uv_model.specs.State.{request};
ghost use Rattle.uv_find.specs.Ops.{is_beside, spares};
ghost use Rattle.uv_find.specs.Mates.{offer_spares, offers_spare, bounds_spare, question_spares, is_mate, mates_of, some_mates, mates_in, has_mate, main_spares, place_spares, same_calls, are_alike, are_run_alike, run_of, request_of, later_rank};
ghost use Rattle.uv_find.specs.Holding.{is_of_pool};
ghost use Rattle.uv_find.specs.Ranks.{runner};
ghost use Rattle.uv_find.specs.Spots.{rules_by};

use crate::ops::{OpTest, holds_in_main_from};
use crate::questions::op_name;
use crate::ranks::runner;
use crate::same::{all_turned, same_task};
use crate::terms::Terms;
use std::alloc::{AllocError, Global};
use uv_asking::{Asking, Most, Offer, Offered, Question};
use uv_ids::{Event, Id, Var};
use uv_model::{Machine, Place};
use uv_records::Calls;
use uv_script::{Op, Script};
use uv_work::{Content, Request};

/// Whether it is neither this name nor the next one.
fn is_beside(first: u32, name: Option<Var>) -> bool
    ensures { result ≡ is_beside first name }
{
    match name {
        None => true,
        Some(name) => name.0 != first && u64::from(name.0) != u64::from(first) + 1,
    }
}

/// Whether an op names neither.
pub(crate) fn spares(first: u32, op: Op) -> bool
    ensures { result ≡ spares first op }
{
    is_beside(first, op_name(op))
}

fn offer_spares(first: u32, offer: Offer) -> bool
    ensures { result ≡ offer_spares first offer }
{
    match offer {
        Offer::Step(Event::Cancel(name)) => is_beside(first, Some(name)),
        Offer::Step(Event::Send(name)) => is_beside(first, Some(name)),
        Offer::Step(Event::Io(name)) => is_beside(first, Some(name)),
        _ => true,
    }
}

fn offers_spare(first: u32, offers: &[Offered]) -> bool
    ensures { result ≡ offers_spare first offers.now }
{
    offers
        .iter()
        .all(|offered| offer_spares(first, offered.offer))
}

fn bounds_spare(first: u32, most: &[Most]) -> bool
    ensures { result ≡ bounds_spare first most.now }
{
    most.iter().all(|bound| is_beside(first, Some(bound.name)))
}

/// Whether a question asks of neither. Whether the loop is stuck is asked of each move, and those are others once names have changed.
fn question_spares(first: u32, question: Question) -> bool
    ensures { result ≡ question_spares first question }
{
    match question {
        Question::Call(_, name, _) => is_beside(first, Some(name)),
        Question::Code(_, name) => is_beside(first, name),
        Question::Never(name) => is_beside(first, Some(name)),
        Question::Before(name, other) => {
            is_beside(first, Some(name)) && is_beside(first, Some(other))
        }
        Question::Behind(name, other) => {
            is_beside(first, Some(name)) && is_beside(first, Some(other))
        }
        Question::Late(_, _) => false,
        Question::Stuck => false,
        _ => true,
    }
}

/// Whether a name and the next one are alike: where they change places each callback does what it did, and nothing else speaks of them.
fn is_mate(script: &Script, asking: &Asking, names: usize, first: u32) -> bool
    requires whole { IsWhole script.now }
    requires names { names ≡ length script.now.names }
    requires within { first + 1 < names }
    ensures { result ≡ is_mate script.now (asked_in asking.now) first }
{
    all_turned(first, script, names)
        && offers_spare(first, &asking.offers)
        && bounds_spare(first, &asking.most)
        && question_spares(first, asking.question)
}

/// Of the first names, whether each is like the next one.
fn mates_of(
    alloc: Global,
    script: &Script,
    asking: &Asking,
    names: usize,
) -> Result<Vec<bool>, AllocError>
    requires whole { IsWhole script.now }
    requires names { names ≡ length script.now.names }
    ensures { IfOk result (λ mates. mates.items ≡ mates_of script.now (asked_in asking.now) (names - 1)) }
{
    let mut mates = Vec::new(alloc);
    'names: for first in 0..names.saturating_sub(1) {
        mates.push(is_mate(script, asking, names, first as u32))?;
    }
    Ok(mates)
}

fn are_some(mates: &[bool]) -> bool
    ensures { result ≡ list_any (λ b. b) mates.now }
{
    mates.iter().any(|mate| *mate)
}

/// Of each name, whether it is like the next one. Nothing, where more is asked than of the pool, or no two names are alike.
pub(crate) fn mates_in(
    alloc: Global,
    script: &Script,
    asking: &Asking,
    of_pool: bool,
) -> Result<Vec<bool>, AllocError>
    requires { of_pool ≡ is_of_pool script.now (asked_in asking.now) }
    ensures { IfOk result (λ mates. mates.items ≡ mates_in script.now (asked_in asking.now)) }
{
    if !of_pool {
        return Ok(Vec::new(alloc));
    }
    let mates = mates_of(alloc, script, asking, script.names().len())?;
    if are_some(&mates) {
        Ok(mates)
    } else {
        Ok(Vec::new(alloc))
    }
}

fn has_mate(mates: &[bool], name: u32) -> bool
    ensures { result ≡ has_mate mates.now name }
{
    mates.get(name as usize).copied().unwrap_or(false)
}

/// At which line of the main program a place stands.
fn line_of(place: Place) -> usize
    ensures { result ≡ line_of place }
{
    match place {
        Place::Main(line) => line,
        Place::Running(run) => run.line,
    }
}

/// Whether no line that is ahead of the main program names either.
fn main_spares(script: &Script, place: Place, first: u32) -> bool
    ensures { result ≡ main_spares first script.now place }
{
    // (which says that the script is whole)
    let _ = script.names();
    holds_in_main_from(script, line_of(place), OpTest::Spares(first))
}

/// Whether no callback of either is under way.
fn place_spares(place: Place, first: u32) -> bool
    ensures { result ≡ place_spares first place }
{
    match place {
        Place::Main(_) => true,
        Place::Running(run) => match run.body {
            None => true,
            Some(body) => is_beside(first, Some(body.name)),
        },
    }
}

fn same_calls(one: Calls, two: Calls) -> bool
    ensures { result ≡ same_calls one two }
{
    one.handle == two.handle && one.after == two.after && one.close == two.close
}

/// The request that is held under an id.
fn request<M: Machine>(machine: &M, id: Id) -> Option<Request>
    ensures { result ≡ request (after (M.program machine.now) (M.standing machine.now)) id }
{
    match machine.held(id) {
        Some(Content::Request(request)) => Some(request),
        _ => None,
    }
}

/// Whether two requests are of one name and the next one, which are alike, and say the same.
fn are_alike<M: Machine>(machine: &M, terms: &Terms, one: Request, two: Request) -> bool
    ensures { let p = M.program machine.now
        in result ≡ are_alike (rules_by p terms.now) (after p (M.standing machine.now)) (Some one) (Some two) }
{
    has_mate(&terms.mates, one.name.0)
        && u64::from(two.name.0) == u64::from(one.name.0) + 1
        && same_task(one.task, two.task)
        && same_calls(machine.named(one.name).calls, machine.named(two.name).calls)
        && main_spares(machine.script(), machine.place(), one.name.0)
        && place_spares(machine.place(), one.name.0)
}

/// What the worker of this rank runs.
fn run_of<M: Machine>(machine: &M, rank: u16) -> Option<Request>
    ensures { let s = after (M.program machine.now) (M.standing machine.now)
        in result ≡ request_of s (run_of s (runner s rank)) }
{
    let worker = runner(machine, rank)?;
    let id = machine.run_by(worker as usize)?;
    request(machine, id)
}

/// The rank of the request that the move of this number finishes, where it isn't the first.
pub(crate) fn later_rank(workers: u16, number: usize) -> Option<u16>
    ensures rank { result ≡ later_rank workers number }
    ensures later { IfSome result (λ rank. 0 < rank) }
{
    if 2 < number && number < workers as usize + 2 {
        Some((number - 2) as u16)
    } else {
        None
    }
}

/// Whether the workers of two ranks run requests that are alike.
pub(crate) fn are_run_alike<M: Machine>(machine: &M, terms: &Terms, rank: u16) -> bool
    requires { 0 < rank }
    ensures { let p = M.program machine.now in let s = after p (M.standing machine.now)
        in result ≡ are_run_alike (rules_by p terms.now) s (runner s (rank - 1)) (runner s rank) }
{
    match (run_of(machine, rank - 1), run_of(machine, rank)) {
        (Some(one), Some(two)) => are_alike(machine, terms, one, two),
        _ => false,
    }
}

//! A search through all orders.
ghost use Rattle.std.specs.Prelude.{◌≡◌, ◌+◌, ◌*◌, min, false};
ghost use Rattle.uv_find.specs.Found.{AreRegular, Finds, IsMore, KeysTell, EachFinishes};
ghost use Rattle.uv_find.specs.Questions.{place_answers};
ghost use Rattle.uv_find.specs.SameWork.{AnswersStand, DepthStands, NeverStands};
ghost use Rattle.uv_find.specs.Within.{NearIsWithin};

use crate::orders::Orders;
use std::alloc::Global;
use uv_model::{Machine, STEPS};
use uv_search::{Found, Reached, go_back, search, search_near, shortest};
use uv_tasks::work_is_free;

/// So many moves are made by breadth where there are more places than may be kept. So many are made to make the steps that are found fewer, so
/// many more for each place that was kept until then, and so many at most (own): an answer that came at once isn't kept waiting.
const EFFORT: usize = 65_536;

const EFFORT_EACH: usize = 1_024;

const EFFORT_MOST: usize = 2_097_152;

/// How many moves that may take, where so many places were kept.
fn effort(keys: usize) -> usize
    ensures { result ≡ min (keys * 1024 + 65536) 2097152 }
{
    keys.saturating_mul(EFFORT_EACH)
        .saturating_add(EFFORT)
        .min(EFFORT_MOST)
}

/// What a search of orders finds.
#[derive(Clone, Copy, PartialEq, Eq)]
pub enum Answer {
    /// The last step answers the question, or the place does from which none is taken. So many places were kept until then: those on the way
    /// to the answer that was found first are among them.
    Found(usize),
    /// No steps do, however many, and the place doesn't. So many places were kept of those that they lead to, and that are told apart: all that
    /// were tried, and where no move was held back, all that there are. Where a search forgets, the steps are fewer than a slot has generations.
    Never(usize),
    /// Steps lead to more places than may be kept.
    Unsettled,
    /// Steps lead to where no more of them may be taken.
    TooDeep,
    /// Memory was refused. Steps lead to so many places that were kept until then.
    OutOfMemory(usize),
}

/// Searches from where the orders stand, and keeps so many places at most. Of the steps that are found, each is left out, with those
/// that aren't accepted without it, as long as the rest still answers: those from outside first.
pub fn find<M: Machine>(alloc: Global, orders: &mut Orders<M>, limit: usize) -> Answer
    ensures found { Finds orders.old.rules orders.old.spot limit result orders.new.spot }
    ensures rules { orders.new.rules ≡ orders.old.rules }
{
    if orders.step_count() >= STEPS - 1 {
        return Answer::TooDeep;
    }
    match orders.place_answers() {
        Ok(true) => Answer::Found(0),
        Ok(false) => find_behind(alloc, orders, limit),
        Err(_) => Answer::OutOfMemory(0),
    }
}

/// The same, where the place from which it searches doesn't answer.
fn find_behind<M: Machine>(alloc: Global, orders: &mut Orders<M>, limit: usize) -> Answer
    requires here { place_answers orders.old.rules orders.old.spot.place orders.old.rules.question ≡ false }
    ensures found { Finds orders.old.rules orders.old.spot limit result orders.new.spot }
    ensures rules { orders.new.rules ≡ orders.old.rules }
{
    match search(alloc, orders, limit) {
        Found::Way(Reached { way, keys }) => {
            go_back(orders, way.len());
            match shortest(alloc, orders, way, effort(keys)) {
                Ok(Some(_)) => Answer::Found(keys),
                Ok(None) => Answer::TooDeep,
                Err(_) => Answer::OutOfMemory(keys),
            }
        }
        Found::Never(places) => Answer::Never(places),
        Found::Unsettled => find_near(alloc, orders, limit),
        Found::TooDeep => Answer::TooDeep,
        Found::OutOfMemory(places) => Answer::OutOfMemory(places),
    }
}

/// Searches what is near, where there are more places than may be kept: the search goes deep first, and may pass by an answer of a few steps.
fn find_near<M: Machine>(alloc: Global, orders: &mut Orders<M>, limit: usize) -> Answer
    requires more { IsMore orders.old.rules orders.old.spot.place limit }
    ensures found { Finds orders.old.rules orders.old.spot limit result orders.new.spot }
    ensures rules { orders.new.rules ≡ orders.old.rules }
{
    match search_near(alloc, orders, limit, EFFORT) {
        Ok(Some(reached)) => Answer::Found(reached.keys),
        Ok(None) => Answer::Unsettled,
        Err(_) => Answer::Unsettled,
    }
}

/// Searches in the same way, but not what is near, and leaves no step out of those that are found.
pub fn find_any<M: Machine>(alloc: Global, orders: &mut Orders<M>, limit: usize) -> Answer
    requires here { place_answers orders.old.rules orders.old.spot.place orders.old.rules.question ≡ false }
    ensures found { Finds orders.old.rules orders.old.spot limit result orders.new.spot }
    ensures rules { orders.new.rules ≡ orders.old.rules }
{
    match search(alloc, orders, limit) {
        Found::Way(reached) => Answer::Found(reached.keys),
        Found::Never(places) => Answer::Never(places),
        Found::Unsettled => Answer::Unsettled,
        Found::TooDeep => Answer::TooDeep,
        Found::OutOfMemory(places) => Answer::OutOfMemory(places),
    }
}

/// The key of a place tells all of it that decides what comes after, of those that steps lead to. It does nothing, and is called for its
/// clause.
pub fn place_keys_tell()
    ensures { KeysTell }
{}

/// The states that steps lead to are regular, where a search may forget: what is said of regular states alone holds of them. It does nothing, and
/// is called for its clause.
pub fn states_are_regular()
    ensures { AreRegular }
{}

/// Wherever events lead, each worker that runs a request may finish it: also where a search forgets which of them runs which. It does nothing,
/// and is called for its clause.
pub fn each_finishes()
    ensures { EachFinishes }
{}

/// Each move of an order that differs from a recording is an offer of every order of what came in it, except a send that libuv sees otherwise
/// than the loop does, and a take of a worker that isn't the idle one of the least number. It does nothing, and is called for its clause.
pub fn near_is_within()
    ensures { NearIsWithin }
{}

/// Which work requests ask for makes no difference to what is found: what is so of the script in which each asks for the same is so of the
/// script itself. It does nothing else, and is called for its clauses.
pub fn work_makes_no_difference()
    ensures answers { AnswersStand }
    ensures never { NeverStands }
    ensures depth { DepthStands }
{
    work_is_free();
}

//! The choices of a place.
ghost use Rattle.std.specs.Prelude.{◌≡◌, ◌<◌, IfOk, None, length, slice_get, slice_set, option_map};
ghost use Rattle.uv_asking.specs.declared.asking.Offered.{Offered};
ghost use Rattle.uv_model.specs.After.{after};
ghost use Rattle.uv_find.specs.Orders.{is_brief, less, lessened, offered_by, choice_at};
ghost use Rattle.uv_find.specs.Spots.{rules_by, place_by};
ghost use Rattle.uv_find.specs.Steps.{Stands, MakesMove, TakesOffer, choice_of, runs_none, has_none, is_idle, state_in};

use crate::forgetting::LONG;
use crate::kept::Kept;
use crate::left::Left;
use crate::ranks::{ranked, runner};
use crate::recorded::choose_recorded;
use crate::steps::{deadline_at, may_last, may_take, offered_here, step_within};
use crate::terms::{Terms, move_count};
use std::alloc::AllocError;
use uv_asking::{Offer, Offered};
use uv_ids::Event;
use uv_model::{Machine, Outcome};
use uv_session::Session;
use uv_work::WorkResult;

/// An event that may come, with what is left and kept of the place where it does.
#[derive(Drop)]
pub struct Choice {
    pub event: Event,
    pub left: Vec<Left>,
    pub kept: Kept,
}

/// A choice that was made, and what its step did.
#[derive(Drop)]
pub struct Moved {
    pub choice: Choice,
    pub outcome: Outcome,
}

/// The event of an offer that was taken, and what its step did.
#[derive(Clone, Copy)]
pub struct Taken {
    pub event: Event,
    pub outcome: Outcome,
}

/// Once less.
fn less(left: Left) -> Left
    ensures { result ≡ less left }
{
    match left {
        Left::Times(times) => Left::Times(times.saturating_sub(1)),
        _ => left,
    }
}

/// The offer of this number may be taken once less. What was left of it before.
#[tactic(auto, using(crate::proofs::Undone::set_beyond))]
pub fn lessen(left: &mut Vec<Left>, number: usize) -> Left
    ensures less { left.new.items ≡ lessened left.old.items number }
    ensures was { slice_set left.new.items number result ≡ left.old.items }
{
    if number < left.len() {
        let was = left[number];
        left[number] = less(was);
        was
    } else {
        Left::Over
    }
}

/// Where a search forgets, no long time goes by at once.
fn is_brief(forget: Option<u64>, event: Event) -> bool
    ensures { result ≡ is_brief forget event }
{
    match (forget, event) {
        (Some(_), Event::Tick(ms)) => ms < LONG,
        _ => true,
    }
}

/// The event of an offer, if it may still be taken. Nothing changes.
fn offered<M: Machine>(
    session: &mut Session<M>,
    terms: &Terms,
    left: &Vec<Left>,
    kept: Kept,
    number: usize,
) -> Result<Option<Event>, AllocError>
    requires room { length session.old.standing < session.old.limit }
    requires back { M.BackWantsMemory → ⊥ }
    ensures same { Stands session.old session.old.standing session.new }
    ensures event { IfOk result (λ event. event ≡ offered_by (rules_by session.old.program terms.now) (place_by session.old left.now.items kept)
        (slice_get terms.now.offers.items number) (slice_get left.now.items number)) }
{
    match (terms.offers.get(number).copied(), left.get(number).copied()) {
        (Some(offered), Some(left)) => {
            let event = offered_here(session, terms.clock, kept, offered.offer, left)?;
            let event = ranked(session.machine(), terms.forget, event);
            Ok(event.filter(|event| is_brief(terms.forget, *event)))
        }
        _ => Ok(None),
    }
}

/// Whether a worker of this number, or of this rank where a search forgets, runs nothing.
fn runs_none<M: Machine>(machine: &M, forget: Option<u64>, number: u16) -> bool
    ensures { result ≡ runs_none forget (after (M.program machine.now) (M.standing machine.now)) number }
{
    match forget {
        None => machine.run_by(number as usize).is_none(),
        Some(_) => runner(machine, number).is_none(),
    }
}

/// Whether no event that is offered leads on: a worker would finish that runs nothing, there is no deadline to wait for, or no poll that may
/// last so long.
fn has_none<M: Machine>(session: &Session<M>, forget: Option<u64>, offer: Offer) -> bool
    ensures { result ≡ has_none forget (state_in session.now) offer }
{
    match offer {
        Offer::Step(Event::Finish(number)) => runs_none(session.machine(), forget, number),
        Offer::Wait => deadline_at(session.machine().place()).is_none(),
        Offer::WaitFor(ms) => !may_last(session.machine(), ms),
        _ => false,
    }
}

/// Whether the offer of this number is spent, or has no event that leads on: then it isn't tried.
#[inline(always)]
pub fn is_idle<M: Machine>(
    session: &Session<M>,
    terms: &Terms,
    left: &Vec<Left>,
    number: usize,
) -> bool
    ensures { result ≡ is_idle terms.now.forget (state_in session.now) (slice_get terms.now.offers.items number) (slice_get left.now.items number) }
{
    match (terms.offers.get(number).copied(), left.get(number).copied()) {
        (Some(offered), Some(left)) => {
            if may_take(left) {
                has_none(session, terms.forget, offered.offer)
            } else {
                true
            }
        }
        _ => true,
    }
}

/// Takes the offer of this number, if it may be taken, the loop accepts it and the bounds hold then; nothing changes else.
#[inline(always)]
#[tactic(auto, unfolding(crate::specs::Orders::choice_at))]
pub fn make_offer<M: Machine>(
    session: &mut Session<M>,
    terms: &Terms,
    left: &Vec<Left>,
    kept: Kept,
    number: usize,
    results: &mut Vec<WorkResult>,
) -> Result<Option<Taken>, AllocError>
    requires room { length session.old.standing < session.old.limit }
    requires back { M.BackWantsMemory → ⊥ }
    requires offers { terms.now.differ ≡ None }
    ensures { TakesOffer terms.now session.old left.now.items kept number result session.new }
{
    if number >= terms.offers.len() {
        return Ok(None);
    }
    match offered(session, terms, left, kept, number)? {
        None => Ok(None),
        Some(event) => match step_within(session, event, &terms.most, results)? {
            None => Ok(None),
            Some(outcome) => Ok(Some(Taken { event, outcome })),
        },
    }
}

/// What the move of this number along a recording is here, if it is any. Nothing changes.
#[tactic(auto, unfolding(crate::specs::Orders::choice_at))]
fn choose<M: Machine>(
    session: &mut Session<M>,
    terms: &Terms,
    left: &Vec<Left>,
    kept: Kept,
    number: usize,
) -> Result<Option<Choice>, AllocError>
    requires room { length session.old.standing < session.old.limit }
    requires back { M.BackWantsMemory → ⊥ }
    requires along { terms.now.differ ≡ None → ⊥ }
    ensures same { Stands session.old session.old.standing session.new }
    ensures choice { IfOk result (λ choice. option_map choice_of choice
        ≡ choice_at (rules_by session.old.program terms.now) (place_by session.old left.now.items kept) number) }
{
    if number < move_count(terms, left) {
        match terms.differ {
            None => Ok(None),
            Some(_) => choose_recorded(session, terms, left, kept, number),
        }
    } else {
        Ok(None)
    }
}

/// Makes the move of this number along a recording, if it is one, the loop accepts it and the bounds hold then; nothing changes else.
pub fn make_move<M: Machine>(
    session: &mut Session<M>,
    terms: &Terms,
    left: &Vec<Left>,
    kept: Kept,
    number: usize,
    results: &mut Vec<WorkResult>,
) -> Result<Option<Moved>, AllocError>
    requires room { length session.old.standing < session.old.limit }
    requires back { M.BackWantsMemory → ⊥ }
    requires along { terms.now.differ ≡ None → ⊥ }
    ensures { MakesMove terms.now session.old left.now.items kept number result session.new }
{
    match choose(session, terms, left, kept, number)? {
        None => Ok(None),
        Some(choice) => match step_within(session, choice.event, &terms.most, results)? {
            None => Ok(None),
            Some(outcome) => Ok(Some(Moved { choice, outcome })),
        },
    }
}

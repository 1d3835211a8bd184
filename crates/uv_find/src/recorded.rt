//! What came in a recording, and may come at another place.
ghost use Rattle.std.specs.Prelude.{◌≡◌, ◌<◌, IfOk, length, slice_get, slice_set, Some, option_map};
ghost use Rattle.uv_model.specs.After.{after};
ghost use Rattle.uv_find.specs.Orders.{is_clear, waiting, waits_or_goes, with_kept, going, waited_for, came, comes_by, comes, moves, accepts, is_ready, held_if, held_back, spent, spent_if, spare_behind, past, go_on_by};
ghost use Rattle.uv_find.specs.Orders.{go_on, is_due, along_at, come, come_by, come_in_place, in_place_of, in_place};
ghost use Rattle.uv_find.specs.Kept.{with_spare};
ghost use Rattle.uv_find.specs.Orders.{free_of, elsewhere_by, elsewhere_with, elsewhere_of, elsewhere, recorded_at};
ghost use Rattle.uv_find.specs.Spots.{rules_by, place_by};
ghost use Rattle.uv_find.specs.Steps.{Stands, choice_of, passed_of, state_in};

use crate::choices::Choice;
use crate::kept::{Along, Kept, behind, owes, waited, with_spare};
use crate::left::Left;
use crate::sources::next_of;
use crate::steps::{
    aim, deadline_at, is_blocked, is_free, is_in_poll, is_made, take_back, timed, wait_for,
    wait_until,
};
use crate::terms::Terms;
use std::alloc::{AllocError, Global};
use uv_asking::Recorded;
use uv_ids::{Event, Fault};
use uv_model::Machine;
use uv_session::Session;

/// While a callback's time is still to go by, no callback of I/O begins, and no other time goes by.
fn is_clear(kept: Kept, event: Event) -> bool
    ensures { result ≡ is_clear kept event }
{
    match event {
        Event::Io(_) => !owes(kept),
        Event::Tick(_) => !owes(kept),
        _ => true,
    }
}

/// What was a wait goes by only where the loop is blocked so long. Nothing changes.
fn waited_for<M: Machine>(
    session: &mut Session<M>,
    event: Event,
) -> Result<Option<Event>, AllocError>
    requires room { length session.old.standing < session.old.limit }
    requires back { M.BackWantsMemory → ⊥ }
    ensures same { Stands session.old session.old.standing session.new }
    ensures event { IfOk result (λ came. came ≡ waited_for session.old.program (state_in session.old) event) }
{
    match event {
        Event::Tick(ms) => wait_for(session, ms),
        other => Ok(Some(other)),
    }
}

fn came<M: Machine>(
    session: &mut Session<M>,
    recorded: Recorded,
) -> Result<Option<Event>, AllocError>
    requires room { length session.old.standing < session.old.limit }
    requires back { M.BackWantsMemory → ⊥ }
    ensures same { Stands session.old session.old.standing session.new }
    ensures event { IfOk result (λ event. event ≡ came session.old.program (state_in session.old) recorded) }
{
    if recorded.waits {
        waited_for(session, recorded.event)
    } else {
        Ok(Some(recorded.event))
    }
}

fn comes_by<M: Machine>(
    session: &mut Session<M>,
    kept: Kept,
    recorded: Option<Recorded>,
) -> Result<Option<Event>, AllocError>
    requires room { length session.old.standing < session.old.limit }
    requires back { M.BackWantsMemory → ⊥ }
    ensures same { Stands session.old session.old.standing session.new }
    ensures event { IfOk result (λ event. event ≡ comes_by session.old.program (state_in session.old) kept recorded) }
{
    match recorded {
        None => Ok(None),
        Some(recorded) => {
            let machine = session.machine();
            if is_made(machine, aim(recorded.event)) && is_clear(kept, recorded.event) {
                came(session, recorded)
            } else {
                Ok(None)
            }
        }
    }
}

/// The recorded event of this number, where what it is for was made. Nothing changes.
fn comes<M: Machine>(
    session: &mut Session<M>,
    recorded: &[Recorded],
    kept: Kept,
    number: usize,
) -> Result<Option<Event>, AllocError>
    requires room { length session.old.standing < session.old.limit }
    requires back { M.BackWantsMemory → ⊥ }
    ensures same { Stands session.old session.old.standing session.new }
    ensures event { IfOk result (λ event. event ≡ comes session.old.program recorded.now (state_in session.old) kept number) }
{
    comes_by(session, kept, recorded.get(number).copied())
}

/// Whether the loop accepts an event. Nothing changes.
fn accepts_one<M: Machine>(session: &mut Session<M>, event: Event) -> Result<bool, AllocError>
    requires room { length session.old.standing < session.old.limit }
    requires back { M.BackWantsMemory → ⊥ }
    ensures same { Stands session.old session.old.standing session.new }
    ensures accepts { IfOk result (λ taken. taken ≡ accepts session.old.program (state_in session.old) (Some event)) }
{
    match session.do_event(event) {
        Ok(_) => {
            take_back(session);
            Ok(true)
        }
        Err(Fault::Refused(_)) => Ok(false),
        Err(_) => Err(AllocError),
    }
}

fn accepts<M: Machine>(session: &mut Session<M>, event: Option<Event>) -> Result<bool, AllocError>
    requires room { length session.old.standing < session.old.limit }
    requires back { M.BackWantsMemory → ⊥ }
    ensures same { Stands session.old session.old.standing session.new }
    ensures accepts { IfOk result (λ taken. taken ≡ accepts session.old.program (state_in session.old) event) }
{
    match event {
        None => Ok(false),
        Some(event) => accepts_one(session, event),
    }
}

/// Whether the next event of a source is ahead, one of the first recorded ones, and the loop accepts it here. Nothing changes.
fn is_ready<M: Machine>(
    session: &mut Session<M>,
    recorded: &[Recorded],
    kept: Kept,
    count: usize,
    source: Left,
) -> Result<bool, AllocError>
    requires room { length session.old.standing < session.old.limit }
    requires back { M.BackWantsMemory → ⊥ }
    ensures same { Stands session.old session.old.standing session.new }
    ensures ready { IfOk result (λ ready. ready ≡ is_ready session.old.program recorded.now (state_in session.old) kept count source) }
{
    match source {
        Left::Ahead(number) => {
            if number < count {
                let event = comes(session, recorded, kept, number)?;
                accepts(session, event)
            } else {
                Ok(false)
            }
        }
        _ => Ok(false),
    }
}

/// What is ahead and ready is held back.
fn held_if(ready: bool, source: Left) -> Left
    ensures { result ≡ held_if ready source }
{
    match (ready, source) {
        (true, Left::Ahead(number)) => Left::Held(number),
        _ => source,
    }
}

/// What is left of each source past the first recorded events, so many: those that are ready are held back. Nothing changes.
fn hold_back<M: Machine>(
    session: &mut Session<M>,
    recorded: &[Recorded],
    kept: Kept,
    count: usize,
    left: &[Left],
    alloc: Global,
) -> Result<Vec<Left>, AllocError>
    requires room { length session.old.standing < session.old.limit }
    requires back { M.BackWantsMemory → ⊥ }
    ensures same { Stands session.old session.old.standing session.new }
    ensures held { IfOk result (λ held. held.items ≡ held_back session.old.program recorded.now (state_in session.old) kept count left.now) }
{
    let mut held = Vec::new(alloc);
    'sources: for source in left {
        let ready = is_ready(session, recorded, kept, count, *source)?;
        held.push(held_if(ready, *source))?;
    }
    Ok(held)
}

/// One less may come at another place.
fn spent(spare: u32) -> Option<u32>
    ensures { result ≡ spent spare }
{
    if spare == 0 { None } else { Some(spare - 1) }
}

fn spent_if(ready: bool, spare: u32) -> Option<u32>
    ensures { result ≡ spent_if ready spare }
{
    if ready { spent(spare) } else { Some(spare) }
}

/// How many more may come at another place, past the first recorded events, so many. Nothing changes.
fn spare_behind<M: Machine>(
    session: &mut Session<M>,
    recorded: &[Recorded],
    kept: Kept,
    count: usize,
    left: &[Left],
    spare: u32,
) -> Result<Option<u32>, AllocError>
    requires room { length session.old.standing < session.old.limit }
    requires back { M.BackWantsMemory → ⊥ }
    ensures same { Stands session.old session.old.standing session.new }
    ensures spare { IfOk result (λ more. more ≡ spare_behind session.old.program recorded.now (state_in session.old) kept count left.now
        (Some spare)) }
{
    let mut more = spare;
    'sources: for source in left {
        let ready = is_ready(session, recorded, kept, count, *source)?;
        match spent_if(ready, more) {
            None => return Ok(None),
            Some(less) => more = less,
        }
    }
    Ok(Some(more))
}

/// What is left of each source, and how many more may come at another place, past recorded events.
#[derive(Drop)]
pub struct Passed {
    left: Vec<Left>,
    spare: u32,
}

/// Past the first recorded events, so many, if that holds back no more than may come at another place. Nothing changes.
fn past<M: Machine>(
    session: &mut Session<M>,
    terms: &Terms,
    left: &Vec<Left>,
    kept: Kept,
    count: usize,
) -> Result<Option<Passed>, AllocError>
    requires room { length session.old.standing < session.old.limit }
    requires back { M.BackWantsMemory → ⊥ }
    ensures same { Stands session.old session.old.standing session.new }
    ensures past { IfOk result (λ past_it. option_map passed_of past_it
        ≡ past (rules_by session.old.program terms.now) (place_by session.old left.now.items kept) count) }
{
    let Some(spare) = spare_behind(
        session,
        &terms.recorded,
        kept,
        count,
        left,
        kept.along.spare,
    )?
    else {
        return Ok(None);
    };
    let left = hold_back(
        session,
        &terms.recorded,
        kept,
        count,
        left,
        *left.allocator(),
    )?;
    Ok(Some(Passed { left, spare }))
}

/// Where the loop waits, the clock goes on to the poll's deadline. Nothing changes.
fn waiting<M: Machine>(session: &mut Session<M>, terms: &Terms) -> Result<Option<Event>, AllocError>
    requires room { length session.old.standing < session.old.limit }
    requires back { M.BackWantsMemory → ⊥ }
    ensures same { Stands session.old session.old.standing session.new }
    ensures event { IfOk result (λ event. event ≡ waiting (rules_by session.old.program terms.now) (state_in session.old)) }
{
    if terms.waits {
        let clock = session.machine().numbers().clock;
        let deadline = deadline_at(session.machine().place());
        let event = wait_until(session, deadline)?;
        Ok(timed(terms.clock, clock, event))
    } else {
        Ok(None)
    }
}

/// That is one of the steps to the next event's place.
fn waits_or_goes(recorded: &[Recorded], kept: Kept, waiting: Option<Event>) -> (Event, Kept)
    ensures { result ≡ waits_or_goes recorded.now kept waiting }
{
    match waiting {
        None => (Event::Loop, kept),
        Some(event) => (event, waited(recorded, kept)),
    }
}

fn with_kept(kept: Kept, event: Option<Event>) -> Option<(Event, Kept)>
    ensures { result ≡ with_kept kept event }
{
    match event {
        None => None,
        Some(event) => Some((event, kept)),
    }
}

/// How the loop goes on, and what is kept then: a callback's time goes by first. Nothing changes.
fn going<M: Machine>(
    session: &mut Session<M>,
    terms: &Terms,
    kept: Kept,
) -> Result<Option<(Event, Kept)>, AllocError>
    requires room { length session.old.standing < session.old.limit }
    requires back { M.BackWantsMemory → ⊥ }
    ensures same { Stands session.old session.old.standing session.new }
    ensures goes { IfOk result (λ goes. goes ≡ going (rules_by session.old.program terms.now) (state_in session.old) kept) }
{
    if owes(kept) {
        let clock = session.machine().numbers().clock;
        Ok(with_kept(
            kept,
            timed(terms.clock, clock, Some(Event::Tick(kept.owed))),
        ))
    } else {
        let waiting = waiting(session, terms)?;
        Ok(Some(waits_or_goes(&terms.recorded, kept, waiting)))
    }
}

/// The loop goes on.
fn going_on(going: Option<(Event, Kept)>, past: Option<Passed>) -> Option<Choice>
    ensures { option_map choice_of result ≡ go_on_by going (option_map passed_of past) }
{
    match (going, past) {
        (Some((event, kept)), Some(past)) => Some(Choice {
            event,
            left: past.left,
            kept: with_spare(kept, past.spare),
        }),
        _ => None,
    }
}

/// The loop goes on, past all whose place was reached. Nothing changes.
fn go_on<M: Machine>(
    session: &mut Session<M>,
    terms: &Terms,
    left: &Vec<Left>,
    kept: Kept,
) -> Result<Option<Choice>, AllocError>
    requires room { length session.old.standing < session.old.limit }
    requires back { M.BackWantsMemory → ⊥ }
    ensures same { Stands session.old session.old.standing session.new }
    ensures choice { IfOk result (λ choice. option_map choice_of choice
        ≡ go_on (rules_by session.old.program terms.now) (place_by session.old left.now.items kept)) }
{
    let going = going(session, terms, kept)?;
    let past = past(session, terms, left, kept, kept.along.next)?;
    Ok(going_on(going, past))
}

/// Whether the place of the recorded event of this number was reached, or the loop can't go on to it. Nothing changes.
fn is_due<M: Machine>(
    session: &mut Session<M>,
    terms: &Terms,
    left: &Vec<Left>,
    kept: Kept,
    number: usize,
) -> Result<bool, AllocError>
    requires room { length session.old.standing < session.old.limit }
    requires back { M.BackWantsMemory → ⊥ }
    ensures same { Stands session.old session.old.standing session.new }
    ensures due { IfOk result (λ due. due ≡ is_due (rules_by session.old.program terms.now) (place_by session.old left.now.items kept) number) }
{
    if number < kept.along.next {
        Ok(true)
    } else if is_in_poll(session.machine().place()) {
        let blocked = is_blocked(session)?;
        let waiting = waiting(session, terms)?;
        Ok(blocked && waiting.is_none())
    } else {
        Ok(false)
    }
}

/// How far the order is along the recording where the event of this number comes.
fn along_at(recorded: &[Recorded], along: Along, number: usize, spare: u32) -> Along
    requires { number < length recorded.now }
    ensures { result ≡ along_at recorded.now along number spare }
{
    if number < along.next {
        Along {
            next: along.next,
            polls: along.polls,
            steps: along.steps,
            spare,
        }
    } else {
        behind(recorded, number, spare)
    }
}

/// An event of a source comes, that of this number: what is left of the source is what is behind it.
fn come(recorded: &[Recorded], left: &mut Vec<Left>, source: usize, number: usize, event: Event)
    requires { number < length recorded.now }
    ensures { left.new.items ≡ come recorded.now left.old.items source number event }
{
    if source < left.len() {
        left[source] = next_of(event, &recorded[number + 1..], number + 1);
    }
}

/// A recorded event comes past those before it.
fn coming(
    recorded: &[Recorded],
    kept: Kept,
    source: usize,
    number: usize,
    past: Option<Passed>,
    event: Option<Event>,
) -> Option<Choice>
    requires { number < length recorded.now }
    ensures { option_map choice_of result ≡ come_by recorded.now kept source number (option_map passed_of past) event }
{
    match (past, event) {
        (Some(past), Some(event)) => {
            let mut left = past.left;
            come(recorded, &mut left, source, number, event);
            Some(Choice {
                event,
                left,
                kept: Kept {
                    due: kept.due,
                    owed: kept.owed,
                    along: along_at(recorded, kept.along, number, past.spare),
                },
            })
        }
        _ => None,
    }
}

/// The event of this number of a source comes at its place, past those before it. Nothing changes.
fn come_in_place<M: Machine>(
    session: &mut Session<M>,
    terms: &Terms,
    left: &Vec<Left>,
    kept: Kept,
    source: usize,
    number: usize,
) -> Result<Option<Choice>, AllocError>
    requires room { length session.old.standing < session.old.limit }
    requires back { M.BackWantsMemory → ⊥ }
    ensures same { Stands session.old session.old.standing session.new }
    ensures choice { IfOk result (λ choice. option_map choice_of choice
        ≡ come_in_place (rules_by session.old.program terms.now) (place_by session.old left.now.items kept) source number) }
{
    if terms.recorded.len() <= number {
        return Ok(None);
    }
    let past = past(session, terms, left, kept, number)?;
    let clock = session.machine().numbers().clock;
    let event = comes(session, &terms.recorded, kept, number)?;
    Ok(coming(
        &terms.recorded,
        kept,
        source,
        number,
        past,
        timed(terms.clock, clock, event),
    ))
}

/// The next event of a source comes at its place, or as soon after it as it may, past those before it. Nothing changes.
fn in_place<M: Machine>(
    session: &mut Session<M>,
    terms: &Terms,
    left: &Vec<Left>,
    kept: Kept,
    source: usize,
) -> Result<Option<Choice>, AllocError>
    requires room { length session.old.standing < session.old.limit }
    requires back { M.BackWantsMemory → ⊥ }
    ensures same { Stands session.old session.old.standing session.new }
    ensures choice { IfOk result (λ choice. option_map choice_of choice
        ≡ in_place (rules_by session.old.program terms.now) (place_by session.old left.now.items kept) source) }
{
    match left.get(source).copied() {
        Some(Left::Ahead(number)) => {
            if is_due(session, terms, left, kept, number)? {
                come_in_place(session, terms, left, kept, source, number)
            } else {
                Ok(None)
            }
        }
        _ => Ok(None),
    }
}

fn free_of<M: Machine>(machine: &M, kept: Kept, event: Option<Event>) -> Option<Event>
    ensures { result ≡ free_of (after (M.program machine.now) (M.standing machine.now)) kept event }
{
    match event {
        None => None,
        Some(event) => {
            if is_free(machine, kept, event) {
                Some(event)
            } else {
                None
            }
        }
    }
}

/// An event of a source comes, and no other one is passed.
fn alone(
    recorded: &[Recorded],
    left: &Vec<Left>,
    kept: Kept,
    source: usize,
    number: usize,
    event: Option<Event>,
) -> Result<Option<Choice>, AllocError>
    requires { number < length recorded.now }
    ensures { IfOk result (λ choice. option_map choice_of choice ≡ elsewhere_by recorded.now left.now.items kept source number event) }
{
    match event {
        None => Ok(None),
        Some(event) => {
            let mut left = left.clone()?;
            come(recorded, &mut left, source, number, event);
            Ok(Some(Choice { event, left, kept }))
        }
    }
}

/// The event of this number of a source comes at another place, if so many more may. Nothing changes.
fn elsewhere_with<M: Machine>(
    session: &mut Session<M>,
    terms: &Terms,
    left: &Vec<Left>,
    kept: Option<Kept>,
    source: usize,
    number: usize,
) -> Result<Option<Choice>, AllocError>
    requires room { length session.old.standing < session.old.limit }
    requires back { M.BackWantsMemory → ⊥ }
    ensures same { Stands session.old session.old.standing session.new }
    ensures choice { IfOk result (λ choice. option_map choice_of choice
        ≡ elsewhere_with (rules_by session.old.program terms.now) (state_in session.old) left.now.items source number kept) }
{
    let Some(kept) = kept else {
        return Ok(None);
    };
    if terms.recorded.len() <= number {
        return Ok(None);
    }
    let event = comes(session, &terms.recorded, kept, number)?;
    let machine = session.machine();
    let event = free_of(machine, kept, event);
    let event = timed(terms.clock, machine.numbers().clock, event);
    alone(&terms.recorded, left, kept, source, number, event)
}

/// What is kept where one more comes at another place, if it may.
fn with_less(kept: Kept) -> Option<Kept>
    ensures { result ≡ option_map (with_spare kept) (spent kept.along.spare) }
{
    match spent(kept.along.spare) {
        None => None,
        Some(spare) => Some(with_spare(kept, spare)),
    }
}

/// The next event of a source comes at another place. Nothing changes.
fn elsewhere<M: Machine>(
    session: &mut Session<M>,
    terms: &Terms,
    left: &Vec<Left>,
    kept: Kept,
    source: usize,
) -> Result<Option<Choice>, AllocError>
    requires room { length session.old.standing < session.old.limit }
    requires back { M.BackWantsMemory → ⊥ }
    ensures same { Stands session.old session.old.standing session.new }
    ensures choice { IfOk result (λ choice. option_map choice_of choice
        ≡ elsewhere (rules_by session.old.program terms.now) (place_by session.old left.now.items kept) source) }
{
    match left.get(source).copied() {
        Some(Left::Ahead(number)) => elsewhere_with(
            session,
            terms,
            left,
            with_less(kept),
            source,
            number,
        ),
        Some(Left::Held(number)) => elsewhere_with(
            session,
            terms,
            left,
            Some(kept),
            source,
            number,
        ),
        _ => Ok(None),
    }
}

/// By its number: the loop goes on, a source's next event comes at its place, or at another one. Nothing changes.
pub fn choose_recorded<M: Machine>(
    session: &mut Session<M>,
    terms: &Terms,
    left: &Vec<Left>,
    kept: Kept,
    number: usize,
) -> Result<Option<Choice>, AllocError>
    requires room { length session.old.standing < session.old.limit }
    requires back { M.BackWantsMemory → ⊥ }
    ensures same { Stands session.old session.old.standing session.new }
    ensures choice { IfOk result (λ choice. option_map choice_of choice
        ≡ recorded_at (rules_by session.old.program terms.now) (place_by session.old left.now.items kept) number) }
{
    let count = left.len();
    if number == 0 {
        go_on(session, terms, left, kept)
    } else if number <= count {
        in_place(session, terms, left, kept, number - 1)
    } else {
        elsewhere(session, terms, left, kept, number - 1 - count)
    }
}

//! A session that goes on by what is offered, and back.
ghost use Rattle.std.specs.Prelude.{◌≡◌, ◌∷◌, ◌++◌, ◌<◌, ◌≤◌, ◌+◌, ◌-◌, [], OnOk, reverse, length, IfOk, IfSome, None, true, vec_len, vec_capacity};
ghost use Rattle.uv_model.specs.After.{after, STEPS};
ghost use Rattle.uv_key.specs.Codes.{number_code};
ghost use Rattle.uv_asking.specs.Asked.{asked_in};
ghost use Rattle.uv_asking.specs.declared.asking.Question.TheVariants.{Stuck};
ghost use Rattle.std.specs.Prelude.{slice_get};
ghost use Rattle.uv_find.specs.Holding.{asks_late, is_at_will, are_all_at_will, are_at_will};
ghost use Rattle.uv_find.specs.Kept.{kept_after};
ghost use Rattle.uv_find.specs.Mates.{are_run_alike, is_covered, is_covered_by};
ghost use Rattle.uv_find.specs.Ranks.{runner};
ghost use Rattle.uv_script.specs.Program.{worker_count};
ghost use Rattle.uv_find.specs.Orders.{asked_late, is_blocked, led, move_count};
ghost use Rattle.uv_find.specs.Questions.{none_leads, line_answers, place_answers, step_answers};
ghost use Rattle.uv_find.specs.Spots.{Searched, IsSearched, IsStanding, is_loop_first, is_take_first, searched, rules_of, first_spot, kind_code, event_code, each_code, left_code, along_code, told_due, kept_code, next_spot, spot_code, left_before, IsDeep};
ghost use Rattle.uv_find.specs.Steps.{Takes as TakesOne};

use crate::at_once::loop_number;
use crate::beginning::first_left;
use crate::choices::{Moved, is_idle, lessen, make_move, make_offer};
use crate::holding::is_loop_apart;
use crate::kept::{Along, Kept, kept_after, none_kept, owes};
use crate::left::Left;
use crate::mates::{are_run_alike, later_rank};
use crate::questions::{has_ended, is_uncalled, line_answers};
use crate::steps::{is_blocked, take_back};
use crate::terms::{Terms, move_count, terms_of};
use std::alloc::{AllocError, Global};
use std::marker::Model;
use std::mem;
use uv_asking::{Asking, Question};
use uv_ids::{Event, Seen, Var};
use uv_key::{push_number, put_number};
use uv_model::{Machine, Outcome, STEPS};
use uv_search::{Maze, Went};
use uv_session::Session;
use uv_slots::names_change_places;
use uv_state_key::push_key;
use uv_work::WorkResult;

/// What was left before a move.
#[derive(Drop)]
pub enum Was {
    /// This of the offer of this number, and of the others as much as behind it.
    One(usize, Left),
    /// All of this.
    All(Vec<Left>),
}

/// What stood before a move that was made.
#[derive(Drop)]
pub struct Made {
    was: Was,
    kept: Kept,
}

/// What was left before a move is left again.
fn put_back(left: &mut Vec<Left>, was: Was)
    ensures { left.new.items ≡ left_before was left.old.items }
{
    match was {
        Was::One(number, one) => {
            if number < left.len() {
                left[number] = one;
            }
        }
        Was::All(all) => *left = all,
    }
}

/// Whether an offer may be taken as often as one likes.
fn is_at_will(left: Option<Left>) -> bool
    ensures { result ≡ is_at_will left }
{
    match left {
        Some(Left::AtWill) => true,
        _ => false,
    }
}

/// Whether each of these may.
fn are_all_at_will(left: &[Left]) -> bool
    ensures { result ≡ are_all_at_will left.now }
{
    left.iter().all(|one| is_at_will(Some(*one)))
}

/// Whether each of the first offers may.
fn are_at_will(count: usize, left: &[Left]) -> bool
    ensures { result ≡ are_at_will count left.now }
{
    count <= left.len() && are_all_at_will(&left[..count])
}

/// The orders of what may come: a session that goes on by one choice after another, and exactly back.
#[derive(Drop)]
pub struct Orders<M: Machine> {
    session: Session<M>,
    terms: Terms,
    left: Vec<Left>,
    kept: Kept,
    made: Vec<Made>,
    results: Vec<WorkResult>,
}

impl<M: Machine> Model for Orders<M> {
    ghost Value = { Searched };

    ghost view = { λ a. searched a.session a.terms a.left.items a.kept a.made.items };

    ghost invariant = { λ a. IsSearched M.BackWantsMemory a.session a.terms a.made.items };
}

impl<M: Machine> Orders<M> {
    /// The orders of what is offered to a machine that has taken no step. Taking a step of it back may want no memory.
    pub fn new(alloc: Global, machine: M, asking: &Asking) -> Result<Orders<M>, AllocError>
        requires begun { M.standing machine ≡ [] }
        requires back { M.BackWantsMemory → ⊥ }
        ensures rules { IfOk result (λ orders. orders.rules ≡ rules_of (M.program machine) (asked_in asking.now)) }
        ensures spot { IfOk result (λ orders. orders.spot ≡ first_spot orders.rules) }
        ensures before { IfOk result (λ orders. orders.before ≡ []) }
    {
        let terms = terms_of(alloc, machine.script(), asking)?;
        let left = first_left(alloc, terms.differ, &terms.offers, &terms.recorded)?;
        let kept = none_kept(&terms.recorded, terms.differ);
        Ok(Orders {
            session: Session::new(alloc, machine, STEPS),
            terms,
            left,
            kept,
            made: Vec::new(alloc),
            results: Vec::new(alloc),
        })
    }

    /// The steps that stand.
    pub fn steps(&self) -> &[Event]
        ensures { result.now ≡ self.now.spot.steps }
    {
        self.session.steps()
    }

    /// Takes an offer, if the loop accepts it and the bounds hold then. After an error all is as before.
    fn take_offer(&mut self, number: usize) -> Result<Option<Outcome>, AllocError>
        requires room { length self.old.spot.steps < STEPS }
        requires offers { self.old.rules.differ ≡ None }
        ensures { TakesOne self.old number result self.new }
    {
        self.made.reserve(1)?;
        match make_offer(
            &mut self.session,
            &self.terms,
            &self.left,
            self.kept,
            number,
            &mut self.results,
        )? {
            None => Ok(None),
            Some(taken) => {
                let was = lessen(&mut self.left, number);
                self.made.push_reserved(Made {
                    was: Was::One(number, was),
                    kept: self.kept,
                });
                self.kept = kept_after(
                    self.session.machine(),
                    &self.terms,
                    self.kept,
                    taken.event,
                    taken.outcome.seen,
                );
                Ok(Some(taken.outcome))
            }
        }
    }

    /// Makes a move along the recording, if the loop accepts it and the bounds hold then. After an error all is as before.
    #[inline(never)]
    fn take_recorded(&mut self, number: usize) -> Result<Option<Outcome>, AllocError>
        requires room { length self.old.spot.steps < STEPS }
        requires along { self.old.rules.differ ≡ None → ⊥ }
        ensures { TakesOne self.old number result self.new }
    {
        self.made.reserve(1)?;
        match make_move(
            &mut self.session,
            &self.terms,
            &self.left,
            self.kept,
            number,
            &mut self.results,
        )? {
            None => Ok(None),
            Some(moved) => {
                let Moved { choice, outcome } = moved;
                let left = mem::replace(&mut self.left, choice.left);
                self.made.push_reserved(Made {
                    was: Was::All(left),
                    kept: self.kept,
                });
                self.kept = kept_after(
                    self.session.machine(),
                    &self.terms,
                    choice.kept,
                    choice.event,
                    outcome.seen,
                );
                Ok(Some(outcome))
            }
        }
    }

    /// Makes a move, if the loop accepts it and the bounds hold then. After an error all is as before.
    pub(crate) fn take(&mut self, number: usize) -> Result<Option<Outcome>, AllocError>
        requires room { length self.old.spot.steps < STEPS }
        ensures { TakesOne self.old number result self.new }
    {
        match self.terms.differ {
            None => self.take_offer(number),
            Some(_) => self.take_recorded(number),
        }
    }

    /// Whether the move of this number surely leads nowhere, so that it needn't be tried.
    #[inline(always)]
    #[tactic(auto, using(crate::proofs::Refusing::idle_leads_nowhere))]
    fn refuses(&self, number: usize) -> bool
        ensures { result ≡ true → led self.now.rules self.now.spot.place number ≡ None }
    {
        match self.terms.differ {
            None => is_idle(&self.session, &self.terms, &self.left, number),
            Some(_) => false,
        }
    }

    /// Takes the last move back.
    pub(crate) fn untake(&mut self)
        requires { 0 < length self.old.before }
        ensures rules { self.new.rules ≡ self.old.rules }
        ensures before { self.old.before ≡ self.new.spot ∷ self.new.before }
    {
        if let Some(made) = self.made.pop() {
            take_back(&mut self.session);
            put_back(&mut self.left, made.was);
            self.kept = made.kept;
        }
    }

    /// Whether the loop is blocked. Nothing changes.
    fn blocks(&mut self) -> Result<bool, AllocError>
        requires room { length self.old.spot.steps < STEPS }
        ensures same { self.new ≡ self.old }
        ensures blocked { IfOk result (λ blocked. blocked ≡ is_blocked self.old.rules.program self.old.spot.place.state) }
    {
        is_blocked(&mut self.session)
    }

    /// How many moves there are.
    pub(crate) fn move_count(&self) -> usize
        ensures count { result ≡ move_count self.now.rules self.now.spot.place }
        ensures spot { IsStanding self.now.rules self.now.spot }
    {
        move_count(&self.terms, &self.left)
    }

    /// Whether none of the moves leads on. Nothing changes.
    fn takes_none(&mut self) -> Result<bool, AllocError>
        requires room { length self.old.spot.steps < STEPS }
        ensures same { self.new ≡ self.old }
        ensures none { IfOk result (λ none. none ≡ none_leads self.old.rules self.old.spot.place
            (move_count self.old.rules self.old.spot.place)) }
    {
        let count = self.move_count();
        'offers: for number in 0..count {
            match self.take(number)? {
                None => {}
                Some(_) => {
                    self.untake();
                    return Ok(false);
                }
            }
        }
        Ok(true)
    }

    /// Whether the loop is stuck: blocked, with no move that leads on. Nothing changes.
    fn is_stuck(&mut self) -> Result<bool, AllocError>
        requires room { length self.old.spot.steps < STEPS }
        ensures same { self.new ≡ self.old }
        ensures stuck { IfOk result (λ stuck. stuck ≡ place_answers self.old.rules self.old.spot.place Stuck) }
    {
        if self.blocks()? {
            self.takes_none()
        } else {
            Ok(false)
        }
    }

    /// Whether the loop's step is apart from each other move.
    fn is_loop_first(&self) -> bool
        ensures { result ≡ is_loop_first self.now.rules self.now.spot.place }
    {
        match self.terms.hold {
            None => false,
            Some(ticks) => {
                let number = loop_number(self.terms.at_once);
                is_loop_apart(self.session.machine(), ticks)
                    && is_at_will(self.left.get(number).copied())
                    && !owes(self.kept)
            }
        }
    }

    /// Whether a take is, which the first move is where it comes at once.
    fn is_take_first(&self) -> bool
        ensures { result ≡ is_take_first self.now.rules self.now.spot.place }
    {
        self.terms.at_once && self.are_first_at_will() && !owes(self.kept)
    }

    /// Whether the take, the loop's step and the finishes may be taken as often as one likes.
    fn are_first_at_will(&self) -> bool
        ensures { result ≡ are_at_will (worker_count self.now.rules.program + 2) self.now.spot.place.left }
    {
        are_at_will(
            self.session.machine().script().workers() as usize + 2,
            &self.left,
        )
    }

    /// Whether the workers of this rank and of the one before run requests that are alike.
    fn runs_alike(&self, rank: u16) -> bool
        requires { 0 < rank }
        ensures { let s = self.now.spot.place.state
            in result ≡ are_run_alike self.now.rules s (runner s (rank - 1)) (runner s rank) }
    {
        are_run_alike(self.session.machine(), &self.terms, rank)
    }

    /// Whether a request of this rank is run, and one like it of the rank before.
    fn is_covered_by(&self, rank: Option<u16>) -> bool
        requires { IfSome rank (λ rank. 0 < rank) }
        ensures { result ≡ is_covered_by self.now.rules self.now.spot.place rank }
    {
        match rank {
            None => false,
            Some(rank) => self.are_first_at_will() && self.runs_alike(rank),
        }
    }

    /// Whether the move of this number finishes a request of which one like it, of the rank before, is run too.
    fn is_covered_here(&self, number: usize) -> bool
        ensures { result ≡ is_covered self.now.rules self.now.spot.place number }
    {
        if self.terms.mates.is_empty() {
            return false;
        }
        let workers = self.session.machine().script().workers();
        self.is_covered_by(later_rank(workers, number))
    }

    /// What is kept of a timer's due time.
    fn due(&self) -> u64
        ensures { result ≡ self.now.spot.place.kept.due }
    {
        self.kept.due
    }

    /// How many steps stand.
    pub(crate) fn step_count(&self) -> usize
        ensures { result ≡ length self.now.spot.steps }
    {
        self.session.steps().len()
    }

    /// Asks whether this timer is called so many ms late, where it was asked how late one is.
    #[tactic(auto, using(crate::proofs::Later::asking_later))]
    pub fn ask_late(&mut self, name: Var, ms: u64)
        requires late { asks_late self.old.rules.question ≡ true }
        ensures rules { self.new.rules ≡ asked_late self.old.rules name ms }
        ensures spot { self.new.spot ≡ self.old.spot }
        ensures before { self.new.before ≡ self.old.before }
    {
        self.terms.question = Question::Late(name, ms);
    }

    /// How late the timer is that the last step called: how many ms it was due before.
    pub(crate) fn lateness(&self) -> u64 {
        let made = self.made.len();
        if made == 0 {
            return 0;
        }
        self.session
            .machine()
            .numbers()
            .clock
            .saturating_sub(self.made[made - 1].kept.due)
    }

    /// Whether what stands here answers the question. Nothing changes.
    pub(crate) fn place_answers(&mut self) -> Result<bool, AllocError>
        requires room { length self.old.spot.steps < STEPS }
        ensures same { self.new ≡ self.old }
        ensures answers { IfOk result (λ answers. answers ≡ place_answers self.old.rules self.old.spot.place self.old.rules.question) }
    {
        match self.terms.question {
            Question::Never(name) => Ok(
                has_ended(self.session.machine()) && is_uncalled(self.session.machine(), name),
            ),
            Question::Stuck => self.is_stuck(),
            _ => Ok(false),
        }
    }

    /// Whether a step's line answers the question.
    fn line_answers(&self, due: u64, line: Option<Seen>) -> bool
        ensures { result ≡ line_answers self.now.rules.program self.now.rules.question due self.now.spot.place.state line }
    {
        line_answers(self.session.machine(), self.terms.question, due, line)
    }

    /// Whether the last step, with this line, answers the question. Nothing changes.
    fn step_answers(&mut self, due: u64, line: Option<Seen>) -> Result<bool, AllocError>
        requires room { length self.old.spot.steps < STEPS }
        ensures same { self.new ≡ self.old }
        ensures answers { IfOk result (λ answers. answers ≡ step_answers self.old.rules due self.old.spot.place line) }
    {
        if self.line_answers(due, line) {
            Ok(true)
        } else {
            self.place_answers()
        }
    }
}

/// Which kind of what is left it is, and how often an offer may be taken, as a number.
fn kind_code(left: Left) -> u64
    ensures { result ≡ kind_code left }
{
    match left {
        Left::AtWill => 0,
        Left::Over => 1,
        Left::Ahead(_) => 2,
        Left::Held(_) => 3,
        Left::Times(times) => u64::from(times) + 4,
    }
}

/// Puts the number of a recorded event.
fn put_event(out: &mut Vec<u8>, left: Left)
    requires { vec_len out.old + 10 ≤ vec_capacity out.old }
    ensures { out.new.items ≡ out.old.items ++ event_code left }
{
    match left {
        Left::Ahead(number) => put_number(out, number as u64),
        Left::Held(number) => put_number(out, number as u64),
        _ => {}
    }
}

fn push_one(out: &mut Vec<u8>, left: Left) -> Result<(), AllocError>
    ensures { OnOk result (out.new.items ≡ out.old.items ++ (number_code (kind_code left) ++ event_code left)) }
{
    out.reserve(20)?;
    put_number(out, kind_code(left));
    put_event(out, left);
    Ok(())
}

fn push_each(out: &mut Vec<u8>, left: &[Left]) -> Result<(), AllocError>
    ensures { OnOk result (out.new.items ≡ out.old.items ++ each_code left.now) }
{
    'offers: for one in left {
        push_one(out, *one)?;
    }
    Ok(())
}

/// Appends what is left of each offer or source.
fn push_left(out: &mut Vec<u8>, left: &[Left]) -> Result<(), AllocError>
    ensures { OnOk result (out.new.items ≡ out.old.items ++ left_code left.now) }
{
    push_number(out, left.len() as u64)?;
    push_each(out, left)
}

/// Puts how far the order is along the recording.
fn put_along(out: &mut Vec<u8>, along: Along)
    requires { vec_len out.old + 40 ≤ vec_capacity out.old }
    ensures { out.new.items ≡ out.old.items ++ along_code along }
{
    put_number(out, along.next as u64);
    put_number(out, u64::from(along.polls));
    put_number(out, u64::from(along.steps));
    put_number(out, u64::from(along.spare));
}

/// How long ago a timer was due, and how long it isn't yet, where a search forgets and asks of it. Else what is kept of its due time.
fn told_due(forget: Option<u64>, question: Question, clock: u64, due: u64) -> (u64, u64)
    ensures { result ≡ told_due forget question clock due }
{
    match (forget, question) {
        (Some(_), Question::Late(_, _)) => (clock.saturating_sub(due), due.saturating_sub(clock)),
        _ => (due, 0),
    }
}

/// Appends what is kept.
fn push_kept(out: &mut Vec<u8>, due: (u64, u64), owed: u64, along: Along) -> Result<(), AllocError>
    ensures { OnOk result (out.new.items ≡ out.old.items ++ kept_code due owed along) }
{
    out.reserve(70)?;
    put_number(out, due.0);
    put_number(out, due.1);
    put_number(out, owed);
    put_along(out, along);
    Ok(())
}

impl<M: Machine> Maze for Orders<M> {
    ghost use Rattle.std.specs.Prelude.{length};
    ghost use Rattle.uv_find.specs.Orders as orders;
    ghost use Rattle.uv_find.specs.Spots as spots;

    ghost Rules = { orders.Rules };

    ghost Place = { spots.Spot };

    ghost rules = { λ s. s.rules };

    ghost place = { λ s. s.spot };

    ghost before = { λ s. s.before };

    ghost moves = { λ r s. orders.move_count r s.place };

    ghost next = { spots.next_spot };

    ghost key = { spots.spot_code };

    ghost IsPlace = { spots.IsStanding };

    ghost IsReached = { spots.IsSpot };

    ghost IsDeep = { λ _ s. spots.IsDeep s };

    ghost apart = { spots.apart };

    ghost covered = { spots.covered };

    ghost IsTold = { spots.IsTold };

    ghost HasRoom = { spots.HasRoom };

    fn moves(&self) -> usize {
        self.move_count()
    }

    fn is_apart(&self, number: usize) -> bool {
        if number == loop_number(self.terms.at_once) {
            self.is_loop_first()
        } else {
            number == 0 && self.is_take_first()
        }
    }

    fn is_covered(&self, number: usize) -> bool {
        self.is_covered_here(number)
    }

    fn go(&mut self, number: usize) -> Result<Went, AllocError> {
        if self.step_count() >= STEPS - 1 {
            return Ok(Went::TooDeep);
        }
        if self.refuses(number) {
            return Ok(Went::Refused);
        }
        let due = self.due();
        match self.take(number)? {
            None => Ok(Went::Refused),
            Some(outcome) => match self.step_answers(due, outcome.seen) {
                Ok(true) => Ok(Went::Answered),
                Ok(false) => Ok(Went::Moved),
                Err(fault) => {
                    self.untake();
                    Err(fault)
                }
            },
        }
    }

    fn back(&mut self) {
        self.untake();
    }

    fn key(&self, out: &mut Vec<u8>) -> Result<(), AllocError> {
        let machine = self.session.machine();
        push_key(out, machine, self.terms.forget)?;
        push_left(out, &self.left)?;
        let clock = machine.numbers().clock;
        let due = told_due(self.terms.forget, self.terms.question, clock, self.kept.due);
        push_kept(out, due, self.kept.owed, self.kept.along)
    }

    fn laws() {
        names_change_places();
    }
}

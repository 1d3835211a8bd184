//! What the lines behind `begin` have said so far.
ghost use Rattle.std.specs.Prelude.{◌≡◌, ◌<◌, ◌+◌, ◌-◌, ◌^◌, length, OnOk, option_map};
ghost use Rattle.std.specs.List.{list_any, list_all};
ghost use Rattle.uv_asking.specs.declared.asking.Offered.{Offered};
ghost use Rattle.uv_asking.specs.declared.asking.Offer.TheVariants.{Wait};
ghost use Rattle.uv_script.specs.Lines.{lines_of};
ghost use Rattle.uv_asking.specs.Asked.{asked_in};
ghost use Rattle.uv_inquiry.specs.Drafts.{unsaid, with_part, finished};
ghost use Rattle.uv_inquiry.specs.Tests.{same_step, same_offer, has_offer, same_calls, has_time, has_bound, is_new, ReadsLine, ReadsLines, ReadsAsking};

use std::alloc::{AllocError, Global};
use std::marker::Model;
use uv_asking::{Asking, Most, Offer, Offered, Part, Question, Recorded, Said, Takes, read_part};
use uv_ids::{Event, Fault, Var};
use uv_script::{Lines, Names, line_count};

/// The most lines `may` (own).
const MOST_OFFERS: usize = 256;

/// How many states are kept where no line says it (own).
const DEFAULT_STATES: u32 = 10_000_000;

/// What was said so far.
#[derive(Drop)]
pub(crate) struct Draft {
    offers: Vec<Offered>,
    differ: Option<u32>,
    recorded: Vec<Recorded>,
    takes: Vec<Takes>,
    clock: Option<u64>,
    most: Vec<Most>,
    states: Option<u32>,
    full: bool,
    question: Option<Question>,
    greatest: bool,
}

impl Model for Draft {
    ghost use Rattle.uv_inquiry.specs.Drafts as parts;

    ghost Value = { parts.Draft };

    ghost view = { λ d. record {
      offers = d.offers.items;
      differ = d.differ;
      recorded = d.recorded.items;
      takes = d.takes.items;
      clock = d.clock;
      most = d.most.items;
      states = d.states;
      full = d.full;
      question = d.question;
      greatest = d.greatest;
    } };
}

/// Whether one step is the other.
fn same_step(one: Event, other: Event) -> bool
    ensures { result ≡ same_step one other }
{
    one == other
}

/// Whether one offer is the other.
fn same_offer(one: Offer, other: Offer) -> bool
    ensures { result ≡ same_offer one other }
{
    match (one, other) {
        (Offer::Step(one), Offer::Step(other)) => same_step(one, other),
        (Offer::SendDuring(one, during), Offer::SendDuring(other, while_run)) => one.0 == other.0
            && during.0 == while_run.0,
        (Offer::Take, Offer::Take) => true,
        (Offer::Wait, Offer::Wait) => true,
        (Offer::WaitFor(one), Offer::WaitFor(other)) => one == other,
        _ => false,
    }
}

fn has_offer(offers: &[Offered], offer: Offer) -> bool
    ensures { result ≡ has_offer offer offers.now }
{
    offers
        .iter()
        .any(|offered| same_offer(offered.offer, offer))
}

/// Whether that is `may wait`.
fn is_wait(offered: Offered) -> bool
    ensures { result ≡ same_offer offered.offer Wait }
{
    same_offer(offered.offer, Offer::Wait)
}

/// Whether each of these is.
fn are_waits(offers: &[Offered]) -> bool
    ensures { result ≡ list_all (λ (p : Offered). same_offer p.offer Wait) offers.now }
{
    offers.iter().all(|offered| is_wait(*offered))
}

/// Whether the time of one call is that of the other, too.
fn same_calls(one: Takes, other: Takes) -> bool
    ensures { result ≡ same_calls one other }
{
    one.name.0 == other.name.0 && one.call == other.call
}

fn has_time(takes: &[Takes], new: Takes) -> bool
    ensures { result ≡ has_time new takes.now }
{
    takes.iter().any(|said| same_calls(*said, new))
}

fn has_bound(most: &[Most], name: Var) -> bool
    ensures { result ≡ has_bound name.0 most.now }
{
    most.iter().any(|bound| bound.name.0 == name.0)
}

impl Draft {
    /// Nothing was said.
    fn new(alloc: Global) -> Draft
        ensures { result ≡ unsaid }
    {
        Draft {
            offers: Vec::new(alloc),
            differ: None,
            recorded: Vec::new(alloc),
            takes: Vec::new(alloc),
            clock: None,
            most: Vec::new(alloc),
            states: None,
            full: false,
            question: None,
            greatest: false,
        }
    }

    /// Whether that is said for the first time, and there is room for it.
    fn is_new(&self, part: Part) -> bool
        ensures { result ≡ is_new self.now part }
    {
        match part {
            Part::Offers(offered) => {
                self.offers.len() < MOST_OFFERS
                    && !has_offer(&self.offers, offered.offer)
                    && (self.differ.is_none() || is_wait(offered))
            }
            Part::Differ(_) => self.differ.is_none() && are_waits(&self.offers),
            Part::Recorded(_) => self.differ.is_some(),
            Part::Takes(takes) => !has_time(&self.takes, takes),
            Part::Clock(_) => self.clock.is_none(),
            Part::Calls(most) => !has_bound(&self.most, most.name),
            Part::States(_) => self.states.is_none(),
            Part::Full => !self.full,
            Part::Finds(_) => self.question.is_none(),
            Part::Latest(_) => self.question.is_none(),
        }
    }

    /// Adds what one more line says.
    fn add(&mut self, part: Part) -> Result<(), AllocError>
        ensures { OnOk result (self.new ≡ with_part self.old part) }
    {
        match part {
            Part::Offers(offered) => self.offers.push(offered)?,
            Part::Differ(moved) => self.differ = Some(moved),
            Part::Recorded(recorded) => self.recorded.push(recorded)?,
            Part::Takes(takes) => self.takes.push(takes)?,
            Part::Clock(ms) => self.clock = Some(ms),
            Part::Calls(most) => self.most.push(most)?,
            Part::States(states) => self.states = Some(states),
            Part::Full => self.full = true,
            Part::Finds(question) => self.question = Some(question),
            Part::Latest(name) => {
                self.question = Some(Question::Late(name, 0));
                self.greatest = true;
            }
        }
        Ok(())
    }

    /// Reads one more line, of this number.
    fn read_line(&mut self, names: &Names, number: usize, line: &[u8]) -> Result<(), Fault>
        ensures { ReadsLine names.now self.old line.now number result self.new }
    {
        match read_part(names, line) {
            Said::Nothing => Ok(()),
            Said::One(part) => {
                if !self.is_new(part) {
                    return Err(Fault::Script { line: number });
                }
                Ok(self.add(part)?)
            }
            Said::Bad => Err(Fault::Script { line: number }),
        }
    }

    /// What is asked, if a question was said.
    fn finish(self) -> Option<Asking>
        ensures { option_map asked_in result ≡ finished self }
    {
        let question = self.question?;
        Some(Asking {
            offers: self.offers,
            differ: self.differ,
            recorded: self.recorded,
            takes: self.takes,
            clock: self.clock,
            most: self.most,
            states: self.states.unwrap_or(DEFAULT_STATES),
            full: self.full,
            question,
            greatest: self.greatest,
        })
    }
}

/// Reads the lines of a text, where so many lines stand before it.
fn read_lines(alloc: Global, names: &Names, text: &[u8], before: usize) -> Result<Draft, Fault>
    requires few { before + length text.now < 2 ^ 64 - 1 }
    ensures { ReadsLines names.now text.now before result }
{
    let mut draft = Draft::new(alloc);
    let mut number = before;
    for line in Lines::of(text) {
        number += 1;
        draft.read_line(names, number, line)?;
    }
    Ok(draft)
}

/// What a text behind `begin` asks, where so many lines stand before it, `begin` among them.
pub(crate) fn read_asking(
    alloc: Global,
    names: &Names,
    text: &[u8],
    before: usize,
) -> Result<Asking, Fault>
    requires few { before + length text.now < 2 ^ 64 - 1 }
    ensures { ReadsAsking names.now text.now before result }
{
    let draft = read_lines(alloc, names, text, before)?;
    match draft.finish() {
        Some(asking) => Ok(asking),
        None => Err(Fault::Script {
            line: before + line_count(text) + 1,
        }),
    }
}

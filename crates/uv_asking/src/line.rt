//! The forms of the lines behind `begin`. Each function reads the fields of its form from the first one on.
ghost use Rattle.std.specs.Prelude.{◌≡◌, ℕ, List, None};
ghost use Rattle.uv_script.specs.Lines.{fields_of};
ghost use Rattle.uv_asking.specs.declared.part.Said.{Said};
ghost use Rattle.uv_asking.specs.Grammar as is;
ghost use Rattle.uv_asking.specs.Grammar.{Says};
ghost use Rattle.uv_asking.specs.Tests.{reads, reads_one, said_of};

use crate::asking::{Most, Offer, Offered, Recorded, Takes};
use crate::field::{came_next, count, end, name, name_but, nth, number, offered, other_name, word};
use crate::part::{Part, Said};
use crate::question::{calls, questions};
use crate::words::MOST_MS;
use uv_script::{Fields, Names, is_line, is_skipped};

/// Reads a line, without its line feed, where these names are declared.
#[tactic(auto, using(crate::proofs::Agreement::reading))]
pub fn read_part(names: &Names, line: &[u8]) -> Said
    ensures rule { Says names.now line.now result }
    ensures test { result ≡ said_of names.now line.now }
{
    if !is_line(line) {
        return Said::Bad;
    }
    if is_skipped(line) {
        return Said::Nothing;
    }
    match part(names, line) {
        Some(part) => Said::One(part),
        None => Said::Bad,
    }
}

fn part(names: &Names, line: &[u8]) -> Option<Part>
    ensures { result ≡ reads_one names.now None is.forms (fields_of line.now) }
{
    offers(names, line)
        .or(bounds(names, line))
        .or(questions(names, line))
        .or(calls(names, line))
}

// ---- what may come

fn offers(names: &Names, line: &[u8]) -> Option<Part>
    ensures { result ≡ reads_one names.now None is.offers (fields_of line.now) }
{
    may(names, Fields::of(line))
        .or(may_during(names, Fields::of(line)))
        .or(may_wait(Fields::of(line)))
        .or(may_differ(Fields::of(line)))
        .or(recorded(names, Fields::of(line)))
}

fn may(names: &Names, mut fields: Fields<'_>) -> Option<Part>
    ensures { result ≡ reads names.now is.may fields.entry }
{
    word(b"may", &mut fields)?;
    let offer = offered(names, &mut fields)?;
    let times = count(1, &mut fields)?;
    end(fields)?;
    Some(Part::Offers(Offered {
        offer,
        times: Some(times),
    }))
}

fn may_during(names: &Names, mut fields: Fields<'_>) -> Option<Part>
    ensures { result ≡ reads names.now is.may_during fields.entry }
{
    word(b"may", &mut fields)?;
    word(b"send", &mut fields)?;
    let handle = name(names, &mut fields)?;
    let times = Some(count(1, &mut fields)?);
    word(b"during", &mut fields)?;
    let job = other_name(names, handle, &mut fields)?;
    end(fields)?;
    let offer = Offer::SendDuring(handle, job);
    Some(Part::Offers(Offered { offer, times }))
}

fn may_wait(mut fields: Fields<'_>) -> Option<Part>
    ensures { (names : List (List ℕ)) → result ≡ reads names is.may_wait fields.entry }
{
    word(b"may", &mut fields)?;
    word(b"wait", &mut fields)?;
    end(fields)?;
    Some(Part::Offers(Offered {
        offer: Offer::Wait,
        times: None,
    }))
}

fn may_differ(mut fields: Fields<'_>) -> Option<Part>
    ensures { (names : List (List ℕ)) → result ≡ reads names is.may_differ fields.entry }
{
    word(b"may", &mut fields)?;
    word(b"differ", &mut fields)?;
    let moved = count(0, &mut fields)?;
    end(fields)?;
    Some(Part::Differ(moved))
}

fn recorded(names: &Names, mut fields: Fields<'_>) -> Option<Part>
    ensures { result ≡ reads names.now is.recorded fields.entry }
{
    word(b"recorded", &mut fields)?;
    let polls = count(0, &mut fields)?;
    let steps = count(0, &mut fields)?;
    let (event, waits) = came_next(names, &mut fields)?;
    end(fields)?;
    Some(Part::Recorded(Recorded {
        event,
        waits,
        polls,
        steps,
    }))
}

// ---- how long callbacks take, and how far the search goes

fn bounds(names: &Names, line: &[u8]) -> Option<Part>
    ensures { result ≡ reads_one names.now None is.bounds (fields_of line.now) }
{
    takes(names, Fields::of(line))
        .or(takes_once(names, Fields::of(line)))
        .or(most_clock(Fields::of(line)))
        .or(most_states(Fields::of(line)))
        .or(most_calls(names, Fields::of(line)))
        .or(full(Fields::of(line)))
}

fn takes(names: &Names, mut fields: Fields<'_>) -> Option<Part>
    ensures { result ≡ reads names.now is.takes fields.entry }
{
    word(b"takes", &mut fields)?;
    let name = name(names, &mut fields)?;
    let ms = number(0, MOST_MS, &mut fields)?;
    end(fields)?;
    let call = None;
    Some(Part::Takes(Takes { name, call, ms }))
}

fn takes_once(names: &Names, mut fields: Fields<'_>) -> Option<Part>
    ensures { result ≡ reads names.now is.takes_once fields.entry }
{
    word(b"takes", &mut fields)?;
    let name = name(names, &mut fields)?;
    let call = Some(nth(&mut fields)?);
    let ms = number(0, MOST_MS, &mut fields)?;
    end(fields)?;
    Some(Part::Takes(Takes { name, call, ms }))
}

fn most_clock(mut fields: Fields<'_>) -> Option<Part>
    ensures { (names : List (List ℕ)) → result ≡ reads names is.most_clock fields.entry }
{
    word(b"most", &mut fields)?;
    word(b"clock", &mut fields)?;
    let ms = number(0, MOST_MS, &mut fields)?;
    end(fields)?;
    Some(Part::Clock(ms))
}

fn most_states(mut fields: Fields<'_>) -> Option<Part>
    ensures { (names : List (List ℕ)) → result ≡ reads names is.most_states fields.entry }
{
    word(b"most", &mut fields)?;
    word(b"states", &mut fields)?;
    let states = count(1, &mut fields)?;
    end(fields)?;
    Some(Part::States(states))
}

fn most_calls(names: &Names, mut fields: Fields<'_>) -> Option<Part>
    ensures { result ≡ reads names.now is.most_calls fields.entry }
{
    word(b"most", &mut fields)?;
    let name = name_but(names, b"clock", b"states", &mut fields)?;
    let calls = count(0, &mut fields)?;
    end(fields)?;
    Some(Part::Calls(Most { name, calls }))
}

fn full(mut fields: Fields<'_>) -> Option<Part>
    ensures { (names : List (List ℕ)) → result ≡ reads names is.full fields.entry }
{
    word(b"full", &mut fields)?;
    end(fields)?;
    Some(Part::Full)
}

/// Every line is read in some way, and in one alone.
#[tactic(auto, using(crate::proofs::Agreement::reading))]
pub fn every_line_says()
    ensures some { (names : List (List ℕ)) (line : List ℕ) → Says names line (said_of names line) }
    ensures one { (names : List (List ℕ)) (line : List ℕ) (a b : Said) → Says names line a → Says names line b → a ≡ b }
{}

//! What fields of a line are: numbers of a range, names, and words that mean something.
ghost use Rattle.std.specs.Prelude.{◌≡◌, ◌≤◌, IfSome};
ghost use Rattle.uv_script.specs.Reading.{place_of};
ghost use Rattle.uv_asking.specs.Tests.{number_in, call_in, which_named, name_but_of, other_of, offer_of, came_by, came_of};

use crate::asking::{Offer, Which};
use uv_ids::{Event, Var, is};
use uv_script::{Names, number};

/// The most that a count says.
pub(crate) const MOST_COUNT: u64 = u32::MAX as u64;

/// The highest number of a worker.
const MOST_WORKER: u64 = u16::MAX as u64;

/// The most ms that a line names.
pub(crate) const MOST_MS: u64 = 4_611_686_018_427_387_904;

/// The number that a field is, if it is of this range.
pub(crate) fn number_in(low: u64, high: u64, field: &[u8]) -> Option<u64>
    ensures value { result ≡ number_in low high field.now }
    ensures last { IfSome result (λ n. n ≤ high) }
{
    let n = number(field)?;
    if low <= n && n <= high { Some(n) } else { None }
}

/// The count that a field is, from this one on.
pub(crate) fn count_from(low: u64, field: &[u8]) -> Option<u32>
    ensures { result ≡ number_in low 4294967295 field.now }
{
    let n = number_in(low, MOST_COUNT, field)?;
    Some(n as u32)
}

/// The number of a worker that a field is.
pub(crate) fn worker(field: &[u8]) -> Option<u16>
    ensures { result ≡ number_in 0 65535 field.now }
{
    let n = number_in(0, MOST_WORKER, field)?;
    Some(n as u16)
}

/// The number of a call that a field is: `@K`.
pub(crate) fn call_in(field: &[u8]) -> Option<u32>
    ensures { result ≡ call_in field.now }
{
    match field {
        [b'@', number @ ..] => count_from(1, number),
        _ => None,
    }
}

/// The callbacks that a word means.
pub(crate) fn which(word: &[u8]) -> Option<Which>
    ensures { result ≡ which_named word.now }
{
    if is(word, b"call") {
        Some(Which::Any)
    } else if is(word, b"on") {
        Some(Which::Handle)
    } else if is(word, b"after") {
        Some(Which::After)
    } else if is(word, b"closed") {
        Some(Which::Close)
    } else {
        None
    }
}

/// The name that a field is, where it is neither of two words.
pub(crate) fn name_but_of(names: &Names, this: &[u8], that: &[u8], field: &[u8]) -> Option<Var>
    ensures { result ≡ name_but_of names.now this.now that.now field.now }
{
    if is(field, this) || is(field, that) {
        return None;
    }
    names.number(field)
}

/// The name that a field is, where it isn't this one.
pub(crate) fn other_of(names: &Names, first: Var, field: &[u8]) -> Option<Var>
    ensures { result ≡ other_of names.now first field.now }
{
    let name = names.number(field)?;
    if first.0 == name.0 { None } else { Some(name) }
}

/// The offer that two fields are.
pub(crate) fn offer(names: &Names, what: &[u8], argument: &[u8]) -> Option<Offer>
    ensures { result ≡ offer_of names.now what.now argument.now }
{
    if is(what, b"send") {
        let name = names.number(argument)?;
        Some(Offer::Step(Event::Send(name)))
    } else if is(what, b"cancel") {
        let name = names.number(argument)?;
        Some(Offer::Step(Event::Cancel(name)))
    } else if is(what, b"io") {
        let name = names.number(argument)?;
        Some(Offer::Step(Event::Io(name)))
    } else if is(what, b"tick") {
        let ms = number_in(1, MOST_MS, argument)?;
        Some(Offer::Step(Event::Tick(ms)))
    } else if is(what, b"wait") {
        let ms = number_in(1, MOST_MS, argument)?;
        Some(Offer::WaitFor(ms))
    } else {
        None
    }
}

/// The event of an offer that came, and whether it is a wait.
fn step_in(offer: Option<Offer>) -> Option<(Event, bool)>
    ensures { result ≡ came_by offer }
{
    match offer {
        Some(Offer::Step(event)) => Some((event, false)),
        Some(Offer::WaitFor(ms)) => Some((Event::Tick(ms), true)),
        _ => None,
    }
}

/// The event that came, and whether it is a wait.
pub(crate) fn came(names: &Names, what: &[u8], argument: &[u8]) -> Option<(Event, bool)>
    ensures { result ≡ came_of names.now what.now argument.now }
{
    if is(what, b"take") {
        let worker = worker(argument)?;
        Some((Event::Take(worker), false))
    } else if is(what, b"finish") {
        let worker = worker(argument)?;
        Some((Event::Finish(worker), false))
    } else {
        step_in(offer(names, what, argument))
    }
}

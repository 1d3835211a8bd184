//! Where a search of orders begins.
ghost use Rattle.std.specs.Prelude.{◌≡◌, IfOk};
ghost use Rattle.uv_find.specs.Orders.{at_will, first_offer, first_offers, every_offer, times_left, times_of, first_left, is_wait, may_wait};

use crate::left::Left;
use crate::sources::sources;
use std::alloc::{AllocError, Global};
use uv_asking::{Offer, Offered, Recorded};
use uv_ids::Event;

/// An offer that may be taken as often as one likes.
fn at_will(offer: Offer) -> Offered
    ensures { result ≡ at_will offer }
{
    Offered { offer, times: None }
}

fn is_wait(offer: Offer) -> bool
    ensures { result ≡ is_wait offer }
{
    match offer {
        Offer::Wait => true,
        _ => false,
    }
}

/// Whether the clock may go on where the loop waits.
pub(crate) fn may_wait(offers: &[Offered]) -> bool
    ensures { result ≡ may_wait offers.now }
{
    offers.iter().any(|offered| is_wait(offered.offer))
}

/// The loop's step, or a take where that comes at once.
fn first_offer(at_once: bool) -> Offer
    ensures { result ≡ first_offer at_once }
{
    if at_once {
        Offer::Take
    } else {
        Offer::Step(Event::Loop)
    }
}

/// The offers that the others stand behind: the loop's step and a take, or that first where it comes at once.
fn first_offers(alloc: Global, at_once: bool) -> Result<Vec<Offered>, AllocError>
    ensures { IfOk result (λ offers. offers.items ≡ first_offers at_once) }
{
    let mut offers = Vec::new(alloc);
    offers.push(at_will(first_offer(at_once)))?;
    offers.push(at_will(first_offer(!at_once)))?;
    Ok(offers)
}

/// Every offer of a script with so many workers, with those that are asked for.
pub(crate) fn every_offer(
    alloc: Global,
    at_once: bool,
    workers: u16,
    asked: &[Offered],
) -> Result<Vec<Offered>, AllocError>
    ensures { IfOk result (λ offers. offers.items ≡ every_offer at_once workers asked.now) }
{
    let mut offers = first_offers(alloc, at_once)?;
    'workers: for worker in 0..workers {
        offers.push(at_will(Offer::Step(Event::Finish(worker))))?;
    }
    offers.extend_from_slice(asked)?;
    Ok(offers)
}

fn times_left(times: Option<u32>) -> Left
    ensures { result ≡ times_left times }
{
    match times {
        None => Left::AtWill,
        Some(times) => Left::Times(times),
    }
}

/// How often each offer may be taken.
fn times_of(alloc: Global, offers: &[Offered]) -> Result<Vec<Left>, AllocError>
    ensures { IfOk result (λ times. times.items ≡ times_of offers.now) }
{
    offers
        .iter()
        .map(|offered| times_left(offered.times))
        .collect(alloc)
}

/// What is left where a search begins.
pub(crate) fn first_left(
    alloc: Global,
    differ: Option<u32>,
    offers: &[Offered],
    recorded: &[Recorded],
) -> Result<Vec<Left>, AllocError>
    ensures { IfOk result (λ left. left.items ≡ first_left differ offers.now recorded.now) }
{
    match differ {
        None => times_of(alloc, offers),
        Some(_) => sources(alloc, recorded),
    }
}

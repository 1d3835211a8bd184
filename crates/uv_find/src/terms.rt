//! What stays the same in a search, beside its script.
ghost use Rattle.std.specs.Prelude.{IfOk, ◌≡◌, length};
ghost use Rattle.uv_asking.specs.Asked.{asked_in};
ghost use Rattle.uv_find.specs.Orders.{move_count_by};
ghost use Rattle.uv_find.specs.Spots.{rules_by, rules_of};

use crate::at_once::{is_of_pool, may_take_at_once};
use crate::beginning::{every_offer, may_wait};
use crate::forgetting::forget_of;
use crate::holding::hold_of;
use crate::left::Left;
use crate::mates::mates_in;
use std::alloc::{AllocError, Global};
use uv_asking::{Asking, Most, Offered, Question, Recorded, Takes};
use uv_script::Script;

/// What may come, how long callbacks take, how far it is searched, and what is asked.
#[derive(Drop)]
pub struct Terms {
    pub offers: Vec<Offered>,
    /// In place of what is offered, what came in a recording: at most so many of it at another place.
    pub differ: Option<u32>,
    pub recorded: Vec<Recorded>,
    /// And beside it the clock goes on where the loop waits.
    pub waits: bool,
    pub takes: Vec<Takes>,
    pub clock: Option<u64>,
    pub most: Vec<Most>,
    pub question: Question,
    /// Where places are told apart only by what decides what comes after them: how far calls are counted.
    pub forget: Option<u64>,
    /// Where moves are held back: whether a time may go by at any step.
    pub hold: Option<bool>,
    /// Whether a worker takes a request at once, since what else may come can't tell when it does.
    pub at_once: bool,
    /// Of each name, whether it is like the next one.
    pub mates: Vec<bool>,
}

/// The terms of what is asked of a script.
pub(crate) fn terms_of(alloc: Global, script: &Script, asking: &Asking) -> Result<Terms, AllocError>
    ensures { IfOk result (λ terms. rules_by script.now terms ≡ rules_of script.now (asked_in asking.now)) }
{
    let of_pool = is_of_pool(script, asking);
    let at_once = may_take_at_once(script, of_pool);
    let offers = every_offer(alloc, at_once, script.workers(), &asking.offers)?;
    let mut recorded = Vec::new(alloc);
    recorded.extend_from_slice(&asking.recorded)?;
    let mut takes = Vec::new(alloc);
    takes.extend_from_slice(&asking.takes)?;
    let mut most = Vec::new(alloc);
    most.extend_from_slice(&asking.most)?;
    let mates = mates_in(alloc, script, asking, of_pool)?;
    Ok(Terms {
        offers,
        differ: asking.differ,
        recorded,
        waits: may_wait(&asking.offers),
        takes,
        clock: asking.clock,
        most,
        question: asking.question,
        forget: forget_of(script, asking),
        hold: hold_of(asking),
        at_once,
        mates,
    })
}

/// How many moves there are.
pub(crate) fn move_count(terms: &Terms, left: &Vec<Left>) -> usize
    ensures { result ≡ move_count_by terms.now.differ (length terms.now.offers.items) (length left.now.items) }
{
    match terms.differ {
        None => terms.offers.len(),
        Some(_) => 1 + left.len() + left.len(),
    }
}

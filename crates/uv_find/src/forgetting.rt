//! Where a search needs to know no more of a state than is told of it.
ghost use Rattle.std.specs.Prelude.{◌≡◌, length};
ghost use Rattle.uv_script.specs.Program.{IsWhole, callbacks_of};
ghost use Rattle.uv_names.specs.Counts.{call_end, lines_end, callbacks_end, script_end};
ghost use Rattle.uv_asking.specs.Asked.{asked_in};
ghost use Rattle.uv_find.specs.Forgetting.{is_small_op};
ghost use Rattle.uv_find.specs.Forgetting.{is_small_offer, are_small_offers, is_aside, are_aside, are_small_takes, asks_no_more, may_forget};
ghost use Rattle.uv_find.specs.Forgetting.{most_end, takes_end, question_end, calls_end, forget_of};

use crate::ops::{OpTest, each_op};
use uv_asking::{Asking, Most, Offer, Offered, Question, Takes};
use uv_ids::{Callback, Event, Var};
use uv_script::{CallbackLine, Op, Script};

/// So many ms are a long time: twelve days.
pub(crate) const LONG: u64 = 1_073_741_824;

/// An order has fewer steps than these, where a search forgets.
const LONGEST: u32 = 4_294_967_294;

/// Up to which number calls are counted where a search forgets; none where it keeps each state whole.
pub(crate) fn forget_of(script: &Script, asking: &Asking) -> Option<u64>
    ensures { result ≡ forget_of script.now (asked_in asking.now) }
{
    if may_forget(script, asking) {
        Some(calls_end(script, asking))
    } else {
        None
    }
}

/// Whether a search needs to know no more of a state than is told of it. Then the states of a script that repeats may come round again.
/// Each op of a script that was read names a declared name, so that isn't tested.
pub fn may_forget(script: &Script, asking: &Asking) -> bool
    ensures { result ≡ may_forget script.now (asked_in asking.now) }
{
    asks_no_more(script, asking, script.names().len())
}

/// Whether nothing that is asked goes by more of a state than is told of it, and no number is large.
fn asks_no_more(script: &Script, asking: &Asking, names: usize) -> bool
    requires whole { IsWhole script.now }
    requires names { names ≡ length script.now.names }
    ensures { result ≡ asks_no_more script.now (asked_in asking.now) }
{
    !asking.full
        && asking.clock.is_none()
        && asking.differ.is_none()
        && script.arena_size().last_generation > LONGEST
        && each_op(script, names, OpTest::IsShort)
        && are_small_offers(&asking.offers)
        && are_aside(&asking.offers)
        && are_small_takes(&asking.takes)
}

/// Whether the times of an op are short.
pub(crate) fn is_small_op(op: Op) -> bool
    ensures { result ≡ is_small_op op }
{
    match op {
        Op::Start(_, timeout, repeat) => timeout < LONG && repeat < LONG,
        Op::SetRepeat(_, repeat) => repeat < LONG,
        _ => true,
    }
}

fn is_small_offer(offer: Offer) -> bool
    ensures { result ≡ is_small_offer offer }
{
    match offer {
        Offer::Step(Event::Tick(ms)) => ms < LONG,
        Offer::WaitFor(ms) => ms < LONG,
        _ => true,
    }
}

fn are_small_offers(offers: &[Offered]) -> bool
    ensures { result ≡ are_small_offers offers.now }
{
    offers.iter().all(|offered| is_small_offer(offered.offer))
}

/// Whether an offer is bound neither to the request that a worker runs, nor to a worker by its number.
fn is_aside(offer: Offer) -> bool
    ensures { result ≡ is_aside offer }
{
    match offer {
        Offer::SendDuring(_, _) => false,
        Offer::Step(Event::Take(_)) => false,
        Offer::Step(Event::Finish(_)) => false,
        _ => true,
    }
}

fn are_aside(offers: &[Offered]) -> bool
    ensures { result ≡ are_aside offers.now }
{
    offers.iter().all(|offered| is_aside(offered.offer))
}

fn are_small_takes(takes: &[Takes]) -> bool
    ensures { result ≡ are_small_takes takes.now }
{
    takes.iter().all(|takes| takes.ms < LONG)
}

/// Which calls are told from later ones: none from this number on.
fn calls_end(script: &Script, asking: &Asking) -> u64
    ensures { result ≡ calls_end script.now (asked_in asking.now) }
{
    let script = script_end(script, script.names().len());
    let bounds = most_end(&asking.most);
    let times = takes_end(&asking.takes);
    let question = question_end(asking.question);
    1.max(script.max(bounds.max(times.max(question))))
}

#[tactic(auto, using(crate::proofs::Scans::scanning))]
fn script_end(script: &Script, names: usize) -> u64
    requires whole { IsWhole script.now }
    requires names { names ≡ length script.now.names }
    ensures { result ≡ script_end script.now }
{
    let mut end = 0;
    'names: for name in 0..names {
        end = callbacks_end(script, Var(name as u32)).max(end);
    }
    end
}

fn callbacks_end(script: &Script, name: Var) -> u64
    ensures { result ≡ callbacks_end (callbacks_of script.now name) }
{
    let handle = lines_end(script.lines_in(Callback::Handle, name));
    let after = lines_end(script.lines_in(Callback::After, name));
    let close = lines_end(script.lines_in(Callback::Close, name));
    handle.max(after.max(close))
}

fn lines_end(lines: &[CallbackLine]) -> u64
    ensures { result ≡ lines_end lines.now }
{
    let mut end = 0;
    'lines: for line in lines {
        end = call_end(line.call).max(end);
    }
    end
}

fn call_end(call: Option<u32>) -> u64
    ensures { result ≡ call_end call }
{
    match call {
        None => 0,
        Some(call) => u64::from(call) + 1,
    }
}

fn most_end(most: &[Most]) -> u64
    ensures { result ≡ most_end most.now }
{
    let mut end = 0;
    'bounds: for bound in most {
        end = (u64::from(bound.calls) + 1).max(end);
    }
    end
}

fn takes_end(takes: &[Takes]) -> u64
    ensures { result ≡ takes_end takes.now }
{
    let mut end = 0;
    'times: for time in takes {
        end = call_end(time.call).max(end);
    }
    end
}

fn question_end(question: Question) -> u64
    ensures { result ≡ question_end question }
{
    match question {
        Question::Call(_, _, call) => call_end(call),
        _ => 0,
    }
}

//! What a session answers to one command, as text.
#![tactic(auto, using(uv_script::proofs::Writing::writing))]

ghost use Rattle.std.specs.Prelude.{◌≡◌, ◌<◌, ◌++◌, [], length, IfOk, OnOk, codes};
ghost use Rattle.uv_script.specs.Writes.{Writes};
ghost use Rattle.uv_engine.specs.Reply.{reply, reply_text, reply_after, may_follow, break_text, at_text, back_text, back_after, forward_text, forward_after, add_text, add_after, last_break, break_back_text, break_back_after};

use std::alloc::AllocError;
use uv_ids::{Event, Fault};
use uv_model::Machine;
use uv_script::push_number;
use uv_session::{Break, Session};
use uv_text::push_appended;

pub(crate) fn push_refused(text: &mut Vec<u8>, why: &str) -> Result<(), AllocError>
    ensures { Writes result text.old.items (codes "refused " ++ why.now ++ codes "\n") text.new.items }
{
    text.extend_from_slice(b"refused ")?;
    text.extend_from_slice(why.as_bytes())?;
    text.extend_from_slice(b"\n")
}

fn push_break(text: &mut Vec<u8>, length: usize) -> Result<(), AllocError>
    ensures { Writes result text.old.items (break_text length) text.new.items }
{
    text.extend_from_slice(b"break ")?;
    push_at(text, length)
}

fn push_at(text: &mut Vec<u8>, length: usize) -> Result<(), AllocError>
    ensures { Writes result text.old.items (at_text length) text.new.items }
{
    text.extend_from_slice(b"at ")?;
    push_number(text, length as u64)?;
    text.extend_from_slice(b"\n")
}

/// One step, and what it prints. Says whether one more may follow.
#[inline(always)]
#[tactic(auto, using(crate::proofs::Replies::replies, uv_script::proofs::Writing::writing))]
pub(crate) fn tell<M: Machine>(
    session: &mut Session<M>,
    text: &mut Vec<u8>,
    event: Event,
) -> Result<bool, AllocError>
    ensures on { IfOk result (λ on. on ≡ may_follow (reply session.old event)) }
    ensures session { OnOk result (session.new ≡ reply_after session.old (reply session.old event)) }
    ensures text { Writes result text.old.items (reply_text session.old.program (reply session.old event)) text.new.items }
{
    match session.do_event(event) {
        Ok(outcome) => {
            push_appended(text, session.machine().script(), &outcome.seen)?;
            if session.stops(outcome.seen) {
                push_break(text, session.steps().len())?;
                return Ok(false);
            }
            Ok(true)
        }
        Err(Fault::Refused(why)) => {
            push_refused(text, why.word())?;
            Ok(false)
        }
        Err(Fault::StepsFull) => {
            push_refused(text, "steps")?;
            Ok(false)
        }
        Err(_) => Err(AllocError),
    }
}

/// Takes steps back.
#[tactic(auto, using(crate::proofs::Replies::backs, uv_script::proofs::Writing::writing))]
pub(crate) fn go_back<M: Machine>(
    session: &mut Session<M>,
    text: &mut Vec<u8>,
    n: u32,
) -> Result<(), AllocError>
    ensures text { Writes result text.old.items (back_text n session.old) text.new.items }
    ensures session { OnOk result (session.new ≡ back_after n session.old) }
{
    match session.back(n as usize) {
        Ok(()) => push_at(text, session.steps().len()),
        Err(Fault::Refused(why)) => push_refused(text, why.word()),
        Err(_) => Err(AllocError),
    }
}

/// Runs steps again that were taken back.
#[tactic(auto, using(crate::proofs::Replies::forwards, uv_script::proofs::Writing::writing))]
pub(crate) fn go_forward<M: Machine>(
    session: &mut Session<M>,
    text: &mut Vec<u8>,
    n: u32,
) -> Result<(), AllocError>
    ensures text { Writes result text.old.items (forward_text n session.old) text.new.items }
    ensures session { OnOk result (session.new ≡ forward_after n session.old) }
{
    match session.forward(n as usize) {
        Ok(()) => push_at(text, session.steps().len()),
        Err(Fault::Refused(why)) => push_refused(text, why.word()),
        Err(_) => Err(AllocError),
    }
}

/// Has runs stop at one break more.
#[tactic(auto, using(crate::proofs::Replies::adds, uv_script::proofs::Writing::writing))]
pub(crate) fn add_break<M: Machine>(
    session: &mut Session<M>,
    text: &mut Vec<u8>,
    at: Break,
) -> Result<(), AllocError>
    ensures text { Writes result text.old.items (add_text session.old) text.new.items }
    ensures session { OnOk result (session.new ≡ add_after at session.old) }
{
    match session.add_break(at) {
        Ok(()) => text.extend_from_slice(b"break ok\n"),
        Err(Fault::Limit) => push_refused(text, "limit"),
        Err(_) => Err(AllocError),
    }
}

/// Has runs stop nowhere.
pub(crate) fn clear_breaks<M: Machine>(
    session: &mut Session<M>,
    text: &mut Vec<u8>,
) -> Result<(), AllocError>
    ensures text { Writes result text.old.items (codes "break ok\n") text.new.items }
    ensures session { session.new ≡ record session.old { breaks = [] } }
{
    session.clear_breaks();
    text.extend_from_slice(b"break ok\n")
}

/// Goes back to the last step that matches a break, except the present one.
#[tactic(auto, using(crate::proofs::Replies::breaks_back, uv_script::proofs::Writing::writing))]
pub(crate) fn back_to_break<M: Machine>(
    session: &mut Session<M>,
    text: &mut Vec<u8>,
) -> Result<(), AllocError>
    ensures text { Writes result text.old.items (break_back_text (last_break session.old)) text.new.items }
    ensures session { OnOk result (session.new ≡ break_back_after session.old (last_break session.old)) }
{
    match session.back_to_break() {
        Ok(length) => push_break(text, length),
        Err(Fault::Refused(why)) => push_refused(text, why.word()),
        Err(_) => Err(AllocError),
    }
}

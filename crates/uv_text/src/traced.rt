//! The text of a trace, a step at a time.
#![tactic(auto, using(uv_script::proofs::Writing::writing))]

ghost use Rattle.std.specs.Prelude.{◌≡◌, ◌<◌, ◌++◌, length};
ghost use Rattle.uv_script.specs.Writes.{Writes};
ghost use Rattle.uv_text.specs.Trace.{trace_part, walk_part, appended_text};

use crate::parts::Parts;
use crate::trace::{push_lent, push_seen};
use std::alloc::AllocError;
use uv_ids::Seen;
use uv_model::Machine;
use uv_script::{Script, push_number};
use uv_session::Session;

/// The trace of a session in parts: what each of its standing steps appended.
#[derive(Drop)]
pub struct TraceParts<'a, M: Machine> {
    pub session: &'a Session<M>,
}

impl<'a, M: Machine> Parts for TraceParts<'a, M> {
    ghost use Rattle.std.specs.Prelude.{length};
    ghost use Rattle.uv_text.specs.Trace.{trace_part};

    ghost parts = { λ trace. length trace.session.now.standing };

    ghost part = { λ trace. trace_part trace.session.now.program trace.session.now.standing };

    fn part_count(&self) -> usize {
        self.session.steps().len()
    }

    fn push_part(&self, text: &mut Vec<u8>, number: usize) -> Result<(), AllocError> {
        push_trace_part(text, self.session.machine(), number)
    }
}

/// What a standing step appended, the first being 0.
#[tactic(auto, using(uv_script::proofs::Writing::writing), unfolding(crate::specs::Trace::trace_part))]
fn push_trace_part<M: Machine>(
    text: &mut Vec<u8>,
    machine: &M,
    number: usize,
) -> Result<(), AllocError>
    requires { number < length (M.standing machine.now) }
    ensures { Writes result text.old.items (trace_part (M.program machine.now) (M.standing machine.now) number) text.new.items }
{
    let steps = machine.len();
    prove!(number < steps);
    match machine.seen(number + 1) {
        Some(seen) => push_seen(text, machine.script(), seen),
        None => Ok(()),
    }
}

/// The same with the number of its step in front of each line.
#[derive(Drop)]
pub struct WalkParts<'a, M: Machine> {
    pub session: &'a Session<M>,
}

impl<'a, M: Machine> Parts for WalkParts<'a, M> {
    ghost use Rattle.std.specs.Prelude.{length};
    ghost use Rattle.uv_text.specs.Trace.{walk_part};

    ghost parts = { λ walk. length walk.session.now.standing };

    ghost part = { λ walk. walk_part walk.session.now.program walk.session.now.standing };

    fn part_count(&self) -> usize {
        self.session.steps().len()
    }

    fn push_part(&self, text: &mut Vec<u8>, number: usize) -> Result<(), AllocError> {
        push_walk_part(text, self.session.machine(), number)
    }
}

/// What a standing step appended, the first being 0, behind the number of that step, the first being 1.
#[tactic(auto, using(uv_script::proofs::Writing::writing), unfolding(crate::specs::Trace::walk_part))]
fn push_walk_part<M: Machine>(
    text: &mut Vec<u8>,
    machine: &M,
    number: usize,
) -> Result<(), AllocError>
    requires { number < length (M.standing machine.now) }
    ensures { Writes result text.old.items (walk_part (M.program machine.now) (M.standing machine.now) number) text.new.items }
{
    let steps = machine.len();
    prove!(number < steps);
    match machine.seen(number + 1) {
        Some(seen) => {
            push_number(text, (number + 1) as u64)?;
            text.extend_from_slice(b" ")?;
            push_seen(text, machine.script(), seen)
        }
        None => Ok(()),
    }
}

/// Puts what a step appended behind a text, with a line feed: a line, or nothing.
#[inline(always)]
pub fn push_appended(
    text: &mut Vec<u8>,
    script: &Script,
    seen: &Option<Seen>,
) -> Result<(), AllocError>
    ensures { Writes result text.old.items (appended_text script.now seen.now) text.new.items }
{
    match seen {
        Some(seen) => push_lent(text, script, seen),
        None => Ok(()),
    }
}

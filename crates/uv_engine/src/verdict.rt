//! The verdict on a recording.
#![tactic(auto, using(uv_script::proofs::Writing::writing))]

ghost use Rattle.std.specs.Prelude.{◌≡◌, ◌++◌, IfErr, codes};
ghost use Rattle.uv_script.specs.Writes.{Writes};
ghost use Rattle.uv_engine.specs.Rerun.{IsTellingFault};
ghost use Rattle.uv_engine.specs.Devices.{WriterCounts};
ghost use Rattle.uv_engine.specs.Verdict.{verdict_text, refused_at, answer_of, Tells};

use crate::sink::{Sink, write_out};
use std::alloc::{AllocError, Global};
use uv_ids::{Fault, Why};
use uv_script::push_number;

/// What the rerun of a recording comes to.
#[derive(Clone, Copy)]
pub enum Verdict {
    /// The rerun's callbacks are those that are recorded.
    Same,
    /// The first place where they are not, from 1.
    Differs(usize),
    /// This step, from 1, is refused.
    Refused(usize, Why),
    /// This step, from 1, is one more than there may be.
    Full(usize),
}

fn push_refused(text: &mut Vec<u8>, at: usize, why: &str) -> Result<(), AllocError>
    ensures { Writes result text.old.items (refused_at at why.now) text.new.items }
{
    text.extend_from_slice(b"refused at ")?;
    push_number(text, at as u64)?;
    text.extend_from_slice(b" ")?;
    text.extend_from_slice(why.as_bytes())?;
    text.extend_from_slice(b"\n")
}

impl Verdict {
    /// Puts the verdict's line behind a text.
    fn push_text(self, text: &mut Vec<u8>) -> Result<(), AllocError>
        ensures { Writes result text.old.items (verdict_text self) text.new.items }
    {
        match self {
            Verdict::Same => text.extend_from_slice(b"same\n"),
            Verdict::Differs(at) => {
                text.extend_from_slice(b"differs at ")?;
                push_number(text, at as u64)?;
                text.extend_from_slice(b"\n")
            }
            Verdict::Refused(at, why) => push_refused(text, at, why.word()),
            Verdict::Full(at) => push_refused(text, at, "steps"),
        }
    }

    /// The verdict as the answer of `replay`.
    fn answer(self) -> Result<(), Fault>
        ensures { result ≡ answer_of self }
    {
        match self {
            Verdict::Same => Ok(()),
            Verdict::Differs(at) => Err(Fault::Differs { at }),
            Verdict::Refused(_, why) => Err(Fault::Refused(why)),
            Verdict::Full(_) => Err(Fault::StepsFull),
        }
    }

    /// Writes the verdict's line, and answers it.
    pub(crate) fn tell<W: Sink>(self, alloc: Global, writer: &mut W) -> Result<(), Fault>
        ensures text { W.Tells → Tells self result (W.written writer.old) (W.written writer.new) }
        ensures err { IfErr result IsTellingFault }
        ensures writer { WriterCounts result (W.failures writer.old) (W.failures writer.new) }
    {
        let mut text = Vec::new(alloc);
        self.push_text(&mut text)?;
        write_out(writer, &mut text)?;
        self.answer()
    }
}

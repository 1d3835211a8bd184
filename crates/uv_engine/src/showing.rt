//! The texts of a session, written a part at a time.
ghost use Rattle.std.specs.Prelude.{◌≡◌, ◌<◌, IfErr, OnOk, length};
ghost use Rattle.uv_text.specs.Parts.{in_parts};
ghost use Rattle.uv_text.specs.State.{state_text};
ghost use Rattle.uv_text.specs.Image.{image_text};
ghost use Rattle.uv_text.specs.Recording.{recording_text};
ghost use Rattle.uv_engine.specs.Devices.{WriterCounts};
ghost use Rattle.uv_engine.specs.Gather.{Gathers, GathersOne, IsWriteFault};
ghost use Rattle.uv_engine.specs.Out.{PrintsImage};
ghost use Rattle.uv_engine.specs.Reply.{trace_text, walk_text};

use crate::answer::spill;
use crate::conversation::Conversation;
use crate::reply::push_refused;
use crate::sink::Sink;
use uv_ids::Fault;
use uv_model::{Layout, Machine};
use uv_text::{LayoutParts, Parts, RecordingParts, StateParts, TraceParts, WalkParts};

/// Gathers a text, and writes what is gathered as soon as there is much of it.
fn show_parts<P: Parts, W: Sink>(parts: &P, writer: &mut W, text: &mut Vec<u8>) -> Result<(), Fault>
    ensures text { W.Tells → Gathers result (W.written writer.old) text.old.items (in_parts (P.part parts.now) (P.parts parts.now))
        (W.written writer.new) text.new.items }
    // No part stays gathered behind 8 KiB.
    ensures few { OnOk result (length text.old.items < 8192 → length text.new.items < 8192) }
    ensures err { IfErr result IsWriteFault }
    ensures writer { WriterCounts result (W.failures writer.old) (W.failures writer.new) }
{
    for number in 0..parts.part_count() {
        parts.push_part(text, number)?;
        spill(writer, text)?;
    }
    Ok(())
}

impl<M: Machine> Conversation<M> {
    /// The lines of the standing steps.
    pub(crate) fn show_trace<W: Sink>(&mut self, writer: &mut W) -> Result<(), Fault>
        ensures text { W.Tells → Gathers result (W.written writer.old) self.old.text.items (trace_text self.old.session)
            (W.written writer.new) self.new.text.items }
        ensures few { OnOk result (length self.old.text.items < 8192 → length self.new.text.items < 8192) }
        ensures session { self.new.session ≡ self.old.session }
        ensures err { IfErr result IsWriteFault }
        ensures writer { WriterCounts result (W.failures writer.old) (W.failures writer.new) }
    {
        self.session.is_documented();
        let parts = TraceParts {
            session: &self.session,
        };
        show_parts(&parts, writer, &mut self.text)
    }

    /// The same lines, each with its step in front.
    pub(crate) fn show_walk<W: Sink>(&mut self, writer: &mut W) -> Result<(), Fault>
        ensures text { W.Tells → Gathers result (W.written writer.old) self.old.text.items (walk_text self.old.session)
            (W.written writer.new) self.new.text.items }
        ensures few { OnOk result (length self.old.text.items < 8192 → length self.new.text.items < 8192) }
        ensures session { self.new.session ≡ self.old.session }
        ensures err { IfErr result IsWriteFault }
        ensures writer { WriterCounts result (W.failures writer.old) (W.failures writer.new) }
    {
        let parts = WalkParts {
            session: &self.session,
        };
        show_parts(&parts, writer, &mut self.text)
    }

    /// The state.
    pub(crate) fn show_state<W: Sink>(&mut self, writer: &mut W) -> Result<(), Fault>
        ensures text { W.Tells → Gathers result (W.written writer.old) self.old.text.items (state_text self.old.session)
            (W.written writer.new) self.new.text.items }
        ensures few { OnOk result (length self.old.text.items < 8192 → length self.new.text.items < 8192) }
        ensures session { self.new.session ≡ self.old.session }
        ensures err { IfErr result IsWriteFault }
        ensures writer { WriterCounts result (W.failures writer.old) (W.failures writer.new) }
    {
        let parts = StateParts {
            session: &self.session,
        };
        show_parts(&parts, writer, &mut self.text)
    }

    /// The recording.
    pub(crate) fn show_recording<W: Sink>(&mut self, writer: &mut W) -> Result<(), Fault>
        ensures text { W.Tells → Gathers result (W.written writer.old) self.old.text.items
            (recording_text self.old.session.program self.old.session.standing) (W.written writer.new) self.new.text.items }
        ensures few { OnOk result (length self.old.text.items < 8192 → length self.new.text.items < 8192) }
        ensures session { self.new.session ≡ self.old.session }
        ensures err { IfErr result IsWriteFault }
        ensures writer { WriterCounts result (W.failures writer.old) (W.failures writer.new) }
    {
        let parts = RecordingParts {
            session: &self.session,
        };
        show_parts(&parts, writer, &mut self.text)
    }

    /// The state, and how the memory lies that stands for it, of a machine that has one.
    pub(crate) fn show_image<W: Sink>(&mut self, writer: &mut W) -> Result<(), Fault>
        ensures text { W.Tells → GathersOne (PrintsImage self.old.session) result (W.written writer.old) self.old.text.items
            (W.written writer.new) self.new.text.items }
        ensures session { self.new.session ≡ self.old.session }
        ensures err { IfErr result IsWriteFault }
        ensures writer { WriterCounts result (W.failures writer.old) (W.failures writer.new) }
    {
        match self.session.machine().layout() {
            Ok(Some(layout)) => self.show_layout(writer, &layout),
            Ok(None) => Ok(push_refused(&mut self.text, "image")?),
            Err(_) => Err(Fault::Memory),
        }
    }

    /// The state, and how the memory lies.
    fn show_layout<W: Sink>(&mut self, writer: &mut W, layout: &Layout) -> Result<(), Fault>
        ensures text { W.Tells → Gathers result (W.written writer.old) self.old.text.items (image_text self.old.session layout.now)
            (W.written writer.new) self.new.text.items }
        ensures few { OnOk result (length self.old.text.items < 8192 → length self.new.text.items < 8192) }
        ensures session { self.new.session ≡ self.old.session }
        ensures err { IfErr result IsWriteFault }
        ensures writer { WriterCounts result (W.failures writer.old) (W.failures writer.new) }
    {
        self.show_state(writer)?;
        show_parts(&LayoutParts { layout }, writer, &mut self.text)
    }
}

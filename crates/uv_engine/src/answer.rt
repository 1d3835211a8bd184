//! The answers to commands.
ghost use Rattle.std.specs.Prelude.{◌≡◌, ◌<◌, [], OnOk, IfErr, length};
ghost use Rattle.uv_ids.specs.declared.fault.Fault.TheVariants.{Write};
ghost use Rattle.uv_engine.specs.Devices.{WriterCounts};
ghost use Rattle.uv_engine.specs.Gather.{Gathers, GathersOne, IsWriteFault};
ghost use Rattle.uv_engine.specs.Reply.{loop_text, loop_after};
ghost use Rattle.uv_engine.specs.Out.{Prints, command_after, PrintsFor, done_after, IsAnswer, asked_after};

use crate::conversation::Conversation;
use crate::reply::{add_break, back_to_break, clear_breaks, go_back, go_forward, tell};
use crate::sink::{Sink, write_out};
use uv_ids::{Event, Fault};
use uv_model::Machine;
use uv_text::{Asked, Command, asked_in, push_named};

/// How much text is gathered before it is written, in bytes.
const FULL: usize = 8192;

/// Writes the gathered text if there is much of it: then less than 8 KiB are left.
pub(crate) fn spill<W: Sink>(writer: &mut W, text: &mut Vec<u8>) -> Result<(), Fault>
    ensures text { W.Tells → Gathers result (W.written writer.old) text.old.items [] (W.written writer.new) text.new.items }
    ensures few { OnOk result (length text.new.items < 8192) }
    ensures err { IfErr result (λ fault. fault ≡ Write) }
    ensures writer { WriterCounts result (W.failures writer.old) (W.failures writer.new) }
{
    if text.len() < FULL {
        return Ok(());
    }
    write_out(writer, text)
}

impl<M: Machine> Conversation<M> {
    /// Steps of the loop, up to the first that matches a break or is refused.
    fn run_loop<W: Sink>(&mut self, writer: &mut W, n: u32) -> Result<(), Fault>
        ensures text { W.Tells → Gathers result (W.written writer.old) self.old.text.items (loop_text n self.old.session)
            (W.written writer.new) self.new.text.items }
        ensures session { OnOk result (self.new.session ≡ loop_after n self.old.session) }
        ensures err { IfErr result IsWriteFault }
        ensures writer { WriterCounts result (W.failures writer.old) (W.failures writer.new) }
    {
        for _ in 0..n {
            if !tell(&mut self.session, &mut self.text, Event::Loop)? {
                return Ok(());
            }
            spill(writer, &mut self.text)?;
        }
        Ok(())
    }

    /// Does a command, save `quit`.
    fn perform<W: Sink>(&mut self, writer: &mut W, command: Command) -> Result<(), Fault>
        ensures text { W.Tells → GathersOne (Prints command self.old.session) result (W.written writer.old) self.old.text.items
            (W.written writer.new) self.new.text.items }
        ensures session { OnOk result (self.new.session ≡ command_after command self.old.session) }
        ensures err { IfErr result IsWriteFault }
        ensures writer { WriterCounts result (W.failures writer.old) (W.failures writer.new) }
    {
        match command {
            Command::Loop(n) => self.run_loop(writer, n),
            Command::Trace => self.show_trace(writer),
            Command::Walk => self.show_walk(writer),
            Command::Step(event) => {
                tell(&mut self.session, &mut self.text, event)?;
                Ok(())
            }
            Command::Back(n) => Ok(go_back(&mut self.session, &mut self.text, n)?),
            Command::Forward(n) => Ok(go_forward(&mut self.session, &mut self.text, n)?),
            Command::AddBreak(at) => Ok(add_break(&mut self.session, &mut self.text, at)?),
            Command::ClearBreaks => Ok(clear_breaks(&mut self.session, &mut self.text)?),
            Command::BackToBreak => Ok(back_to_break(&mut self.session, &mut self.text)?),
            Command::State => self.show_state(writer),
            Command::StateOf(name) => Ok(push_named(&mut self.text, &self.session, name)?),
            Command::Image => self.show_image(writer),
            Command::Record => self.show_recording(writer),
            Command::Quit => Ok(()),
        }
    }

    /// Does what a line asks for, save `quit`. A step that the script hasn't is a bad command.
    pub(crate) fn answer<W: Sink>(&mut self, writer: &mut W, asked: Asked) -> Result<(), Fault>
        ensures text { W.Tells → GathersOne (IsAnswer asked self.old.session) result (W.written writer.old) self.old.text.items
            (W.written writer.new) self.new.text.items }
        ensures session { OnOk result (self.new.session ≡ asked_after asked self.old.session) }
        ensures err { IfErr result IsWriteFault }
        ensures writer { WriterCounts result (W.failures writer.old) (W.failures writer.new) }
    {
        let asked = asked_in(self.session.machine().script(), asked);
        self.do_asked(writer, asked)
    }

    /// Does what is asked, save `quit`.
    fn do_asked<W: Sink>(&mut self, writer: &mut W, asked: Asked) -> Result<(), Fault>
        ensures text { W.Tells → GathersOne (PrintsFor asked self.old.session) result (W.written writer.old) self.old.text.items
            (W.written writer.new) self.new.text.items }
        ensures session { OnOk result (self.new.session ≡ done_after asked self.old.session) }
        ensures err { IfErr result IsWriteFault }
        ensures writer { WriterCounts result (W.failures writer.old) (W.failures writer.new) }
    {
        match asked {
            Asked::Nothing => Ok(()),
            Asked::Do(command) => self.perform(writer, command),
            Asked::Bad => {
                self.text.extend_from_slice(b"bad command\n")?;
                Ok(())
            }
        }
    }
}

//! The conversation.
ghost use Rattle.std.specs.Prelude.{◌≡◌, ℕ, List, ◌++◌, ◌<◌, ◌≤◌, ◌^◌, ◌==◌, [], length, Ok, IfOk, IfErr, OnOk, OnSome, ◌≢◌, true, false};
ghost use Rattle.std.specs.List.{list_any};
ghost use Rattle.uv_ids.specs.declared.fault.Fault.TheVariants.{Write};
ghost use Rattle.uv_script.specs.Lines.{lines_of};
ghost use Rattle.uv_engine.specs.Devices.{ReaderCounts, IsTooLong, WriterCounts, OnAnswer, TakesWithin};
ghost use Rattle.uv_engine.specs.Input.{left, EndIsSeen, size, StopsNear};
ghost use Rattle.uv_engine.specs.Taking.{SpendsBudget, SpendsGiven, IsReadFault};
ghost use Rattle.uv_engine.specs.Gather.{Gathers};
ghost use Rattle.uv_engine.specs.Out.{Converses, HasAnswer, HasOneAnswer, IsDeviceFault, IsConversationFault};
ghost use Rattle.uv_engine.specs.Talk.{TakesAsked, TalksOn, Finishes};

use crate::answer::spill;
use crate::input::{Input, Taken};
use crate::script::read_script;
use crate::sink::{Sink, write_out};
use crate::source::{LIMIT, Source};
use std::alloc::Global;
use uv_ids::Fault;
use uv_model::{Machine, STEPS};
use uv_script::{Names, one_reading};
use uv_session::Session;
use uv_text::{Asked, Command, every_line_asks, read_command};

/// How a conversation ended.
#[derive(Clone, Copy)]
pub enum Ended {
    /// At the command `quit`.
    Quit,
    /// At the end of the input.
    Input,
}

/// A conversation at work.
#[derive(Drop)]
pub(crate) struct Conversation<M: Machine> {
    pub(crate) session: Session<M>,
    /// What was gathered and not yet written.
    pub(crate) text: Vec<u8>,
}

/// Writes the gathered text where the next line has to be waited for.
fn write_if_waiting<W: Sink>(input: &Input, writer: &mut W, text: &mut Vec<u8>) -> Result<(), Fault>
    ensures text { W.Tells → Gathers result (W.written writer.old) text.old.items [] (W.written writer.new) text.new.items }
    ensures waiting { OnOk result (list_any (λ b. b == 10) input.now.ahead ≡ false → text.new.items ≡ []) }
    ensures err { IfErr result (λ fault. fault ≡ Write) }
    ensures writer { WriterCounts result (W.failures writer.old) (W.failures writer.new) }
{
    if input.has_line() {
        return Ok(());
    }
    write_out(writer, text)
}

fn is_quit(asked: Asked) -> bool
    ensures quit { result ≡ true → asked ≡ Asked.Do Command.Quit }
    ensures other { result ≡ false → asked ≢ Asked.Do Command.Quit }
{
    matches!(asked, Asked::Do(Command::Quit))
}

/// What the next line asks for; none at the end of the input. Of a line that is too long nothing is kept: it is a bad command.
fn next_asked<R: Source>(
    names: &Names,
    input: &mut Input,
    reader: &mut R,
) -> Result<Option<Asked>, Fault>
    requires end { R.Tells → EndIsSeen input.old (R.remaining reader.old) }
    ensures line { IfOk result (λ asked. R.Tells → TakesAsked names.now (left input.old (R.remaining reader.old)) asked (left input.new
        (R.remaining reader.new))) }
    ensures size { IfOk result (λ asked. OnSome asked (size input.new < size input.old)) }
    ensures end { OnOk result (R.Tells → EndIsSeen input.new (R.remaining reader.new)) }
    ensures budget { OnOk result (R.Tells → SpendsBudget input.old (R.remaining reader.old) input.new (R.remaining reader.new)) }
    ensures given { OnOk result (SpendsGiven input.old (R.given reader.old) input.new (R.given reader.new)) }
    ensures err { IfErr result IsReadFault }
    ensures reader { ReaderCounts result (IsTooLong R.Tells input.old.budget (R.remaining reader.old) (R.given reader.old)
        (R.given reader.new)) (R.failures reader.old) (R.failures reader.new) }
{
    match input.next_line(reader)? {
        Taken::Line(line) => {
            let asked = read_command(names, line.text.as_slice());
            input.reuse(line);
            Ok(Some(asked))
        }
        Taken::Long => {
            input.skip_line(reader)?;
            Ok(Some(Asked::Bad))
        }
        Taken::End => Ok(None),
    }
}

impl<M: Machine> Conversation<M> {
    /// Answers the lines of an input, one after another, up to `quit` or the end of the input. The answers to the lines that
    /// were read are written before more is read, and before there is much of them.
    fn talk<R: Source, W: Sink>(
        &mut self,
        input: &mut Input,
        reader: &mut R,
        writer: &mut W,
    ) -> Result<Ended, Fault>
        requires end { R.Tells → EndIsSeen input.old (R.remaining reader.old) }
        requires nothing { self.old.text.items ≡ [] }
        ensures text { R.Tells → W.Tells → TalksOn (lines_of (left input.old (R.remaining reader.old))) self.old.session result
            (W.written writer.old) (W.written writer.new) }
        ensures err { IfErr result IsDeviceFault }
        ensures limit { result ≡ Ok Ended.Input → R.Tells → length (R.remaining reader.old) ≤ input.old.budget }
        ensures within { OnOk result (R.Tells → TakesWithin input.old.budget (R.remaining reader.old) (R.remaining reader.new)) }
        ensures reader { ReaderCounts result (IsTooLong R.Tells input.old.budget (R.remaining reader.old) (R.given reader.old)
            (R.given reader.new)) (R.failures reader.old) (R.failures reader.new) }
        ensures writer { WriterCounts result (W.failures writer.old) (W.failures writer.new) }
    {
        every_line_asks();
        'lines: loop {
            write_if_waiting(input, writer, &mut self.text)?;
            let names = self.session.machine().script().names();
            let Some(asked) = next_asked(names, input, reader)? else {
                return self.finish(writer, Ended::Input);
            };
            if is_quit(asked) {
                return self.finish(writer, Ended::Quit);
            }
            self.answer(writer, asked)?;
            spill(writer, &mut self.text)?;
        }
    }

    /// Writes what was gathered, at the end.
    fn finish<W: Sink>(&mut self, writer: &mut W, ended: Ended) -> Result<Ended, Fault>
        ensures text { W.Tells → Finishes result ended (W.written writer.old) self.old.text.items (W.written writer.new) }
        ensures ended { IfOk result (λ end. end ≡ ended) }
        ensures err { IfErr result (λ fault. fault ≡ Write) }
        ensures writer { WriterCounts result (W.failures writer.old) (W.failures writer.new) }
    {
        write_out(writer, &mut self.text)?;
        Ok(ended)
    }
}

/// Every input has an answer, a text and an end. The end is one alone, and the text is one alone except what the commands
/// `image` print: so the input settles all else that `converse` writes. It does nothing, and is called for its clauses.
#[tactic(auto, using(crate::proofs::OneAnswer::answers))]
pub fn one_answer()
    ensures some { (input : List ℕ) → HasAnswer input }
    ensures one { (input : List ℕ) → HasOneAnswer input }
{}

/// Reads a script up to the line `begin`, and then answers the commands that follow it, a line at a time. The answers to the
/// lines that were read are written before more is read. So many bytes are read, and no more.
///
/// `Script` names the first line outside the grammar of scripts, and nothing is written then. `Read` comes where the reader
/// fails, and else only where the input is longer than the limit: such an input is never read to its end. `Write` comes
/// where the writer fails or takes no byte, and only there. What follows `quit` may have been read.
pub fn converse_within<M: Machine, R: Source, W: Sink>(
    alloc: Global,
    limit: u64,
    reader: &mut R,
    writer: &mut W,
) -> Result<Ended, Fault>
    ensures text { R.Tells → W.Tells → Converses (R.remaining reader.old) result (W.written writer.old) (W.written writer.new) }
    // However long a line of the script is, no more of it was read than its first 257 bytes, and 4,096 bytes behind them.
    ensures stops { IfErr result (λ fault. R.Tells → StopsNear fault (R.remaining reader.old) (R.remaining reader.new)) }
    ensures limit { result ≡ Ok Ended.Input → R.Tells → length (R.remaining reader.old) ≤ limit }
    ensures within { OnAnswer result (R.Tells → TakesWithin limit (R.remaining reader.old) (R.remaining reader.new)) }
    ensures err { IfErr result IsConversationFault }
    ensures reader { ReaderCounts result (IsTooLong R.Tells limit (R.remaining reader.old) (R.given reader.old)
        (R.given reader.new)) (R.failures reader.old) (R.failures reader.new) }
    ensures writer { WriterCounts result (W.failures writer.old) (W.failures writer.new) }
{
    one_reading();
    every_line_asks();
    let mut input = Input::new(alloc, limit);
    let script = read_script(alloc, &mut input, reader)?;
    let machine = M::begin(alloc, script)?;
    let mut conversation = Conversation {
        session: Session::new(alloc, machine, STEPS),
        text: Vec::new(alloc),
    };
    conversation.talk(&mut input, reader, writer)
}

/// Converses as `converse_within` does, over 2^30 bytes at the most.
pub fn converse<M: Machine, R: Source, W: Sink>(
    alloc: Global,
    reader: &mut R,
    writer: &mut W,
) -> Result<Ended, Fault>
    ensures text { R.Tells → W.Tells → Converses (R.remaining reader.old) result (W.written writer.old) (W.written writer.new) }
    // However long a line of the script is, no more of it was read than its first 257 bytes, and 4,096 bytes behind them.
    ensures stops { IfErr result (λ fault. R.Tells → StopsNear fault (R.remaining reader.old) (R.remaining reader.new)) }
    ensures limit { result ≡ Ok Ended.Input → R.Tells → length (R.remaining reader.old) ≤ 2 ^ 30 }
    ensures within { OnAnswer result (R.Tells → TakesWithin (2 ^ 30) (R.remaining reader.old) (R.remaining reader.new)) }
    ensures err { IfErr result IsConversationFault }
    ensures reader { ReaderCounts result (IsTooLong R.Tells (2 ^ 30) (R.remaining reader.old) (R.given reader.old)
        (R.given reader.new)) (R.failures reader.old) (R.failures reader.new) }
    ensures writer { WriterCounts result (W.failures writer.old) (W.failures writer.new) }
{
    converse_within::<M, R, W>(alloc, LIMIT, reader, writer)
}

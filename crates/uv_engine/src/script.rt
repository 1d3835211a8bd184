//! The script in front of a conversation.
ghost use Rattle.std.specs.Prelude.{◌≡◌, ◌≢◌, ◌++◌, [], ◌∷◌, IfOk, IfErr, OnOk, true, false, codes, length, ◌+◌, ◌<◌, ◌≤◌};
ghost use Rattle.uv_script.specs.Lines.{lines_of};
ghost use Rattle.uv_script.specs.Writes.{Writes};
ghost use Rattle.uv_engine.specs.Recordings.{unread_in};
ghost use Rattle.uv_engine.specs.Devices.{ReaderCounts, IsTooLong, OnAnswer};
ghost use Rattle.uv_engine.specs.Input.{left, EndIsSeen, size, ReadsNear, StopsNear};
ghost use Rattle.uv_engine.specs.Taking.{SpendsBudget, SpendsGiven, IsReadFault};
ghost use Rattle.uv_engine.specs.Start.{ReadsScript, ReadsFront, ParsesFront, NoScript, IsStartFault, with_line};

use crate::input::{Input, Line, Taken};
use crate::source::Source;
use crate::version::Version;
use std::alloc::{AllocError, Global};
use uv_ids::Fault;
use uv_script::{Script, line_count};

/// What ends the front of an input.
#[derive(Clone, Copy, Drop)]
pub(crate) enum FrontEnd {
    /// The line `begin`.
    Begin,
    /// The end of the input.
    Input,
    /// A line of more than 256 bytes, of which no more than 257 were taken.
    Long,
}

/// The lines of an input in front of its line `begin`, or of one that is too long, or all of them.
#[derive(Drop)]
pub(crate) struct Front {
    pub(crate) text: Vec<u8>,
    pub(crate) end: FrontEnd,
}

/// Reads the script: the lines before the line `begin`.
pub fn read_script<R: Source>(
    alloc: Global,
    input: &mut Input,
    reader: &mut R,
) -> Result<Script, Fault>
    requires end { R.Tells → EndIsSeen input.old (R.remaining reader.old) }
    ensures script { R.Tells → ReadsScript (left input.old (R.remaining reader.old)) result (left input.new (R.remaining reader.new)) }
    ensures stops { IfErr result (λ fault. R.Tells → StopsNear fault (left input.old (R.remaining reader.old)) (R.remaining reader.new)) }
    ensures end { OnOk result (R.Tells → EndIsSeen input.new (R.remaining reader.new)) }
    ensures budget { OnAnswer result (R.Tells → SpendsBudget input.old (R.remaining reader.old) input.new (R.remaining reader.new)) }
    ensures given { OnOk result (SpendsGiven input.old (R.given reader.old) input.new (R.given reader.new)) }
    ensures err { IfErr result IsStartFault }
    ensures reader { ReaderCounts result (IsTooLong R.Tells input.old.budget (R.remaining reader.old) (R.given reader.old)
        (R.given reader.new)) (R.failures reader.old) (R.failures reader.new) }
{
    let front = read_front(alloc, input, reader)?;
    parse_front(alloc, Version::V3, &front)
}

/// Reads the text in front of the line `begin`, and that line. Behind a line that is too long nothing is read.
pub(crate) fn read_front<R: Source>(
    alloc: Global,
    input: &mut Input,
    reader: &mut R,
) -> Result<Front, Fault>
    requires end { R.Tells → EndIsSeen input.old (R.remaining reader.old) }
    ensures front { IfOk result (λ front. R.Tells → ReadsFront (left input.old (R.remaining reader.old)) front.text.items front.end
        (left input.new (R.remaining reader.new))) }
    ensures near { OnOk result (R.Tells → ReadsNear (left input.old (R.remaining reader.old)) (R.remaining reader.new)) }
    ensures size { OnOk result (size input.new ≤ size input.old) }
    ensures end { OnOk result (R.Tells → EndIsSeen input.new (R.remaining reader.new)) }
    ensures budget { OnOk result (R.Tells → SpendsBudget input.old (R.remaining reader.old) input.new (R.remaining reader.new)) }
    ensures given { OnOk result (SpendsGiven input.old (R.given reader.old) input.new (R.given reader.new)) }
    ensures err { IfErr result IsReadFault }
    ensures reader { ReaderCounts result (IsTooLong R.Tells input.old.budget (R.remaining reader.old) (R.given reader.old)
        (R.given reader.new)) (R.failures reader.old) (R.failures reader.new) }
{
    let mut text = Vec::new(alloc);
    let end = gather_front(&mut text, input, reader)?;
    Ok(Front { text, end })
}

/// Gathers the lines in front of the line `begin`, and says what ends them.
fn gather_front<R: Source>(
    text: &mut Vec<u8>,
    input: &mut Input,
    reader: &mut R,
) -> Result<FrontEnd, Fault>
    requires end { R.Tells → EndIsSeen input.old (R.remaining reader.old) }
    requires nothing { text.old.items ≡ [] }
    ensures front { IfOk result (λ end. R.Tells → ReadsFront (left input.old (R.remaining reader.old)) text.new.items end
        (left input.new (R.remaining reader.new))) }
    ensures near { OnOk result (R.Tells → ReadsNear (left input.old (R.remaining reader.old)) (R.remaining reader.new)) }
    ensures size { OnOk result (size input.new ≤ size input.old) }
    ensures end { OnOk result (R.Tells → EndIsSeen input.new (R.remaining reader.new)) }
    ensures budget { OnOk result (R.Tells → SpendsBudget input.old (R.remaining reader.old) input.new (R.remaining reader.new)) }
    ensures given { OnOk result (SpendsGiven input.old (R.given reader.old) input.new (R.given reader.new)) }
    ensures err { IfErr result IsReadFault }
    ensures reader { ReaderCounts result (IsTooLong R.Tells input.old.budget (R.remaining reader.old) (R.given reader.old)
        (R.given reader.new)) (R.failures reader.old) (R.failures reader.new) }
{
    'lines: loop {
        let line = match input.next_line(reader)? {
            Taken::Line(line) => line,
            Taken::Long => return Ok(FrontEnd::Long),
            Taken::End => return Ok(FrontEnd::Input),
        };
        if is_begin(&line) {
            return Ok(FrontEnd::Begin);
        }
        push_line(text, &line)?;
        input.reuse(line);
    }
}

/// The script of a text in front of `begin`, as recordings of this version have it.
pub(crate) fn parse_front(alloc: Global, version: Version, front: &Front) -> Result<Script, Fault>
    ensures { ParsesFront (unread_in version) front.now.text.items front.now.end result }
{
    match front.end {
        FrontEnd::Begin => version.parse(alloc, front.text.as_slice()),
        FrontEnd::Input => Err(without_begin(alloc, version, front.text.as_slice())),
        FrontEnd::Long => Err(without_begin(alloc, version, front.text.as_slice())),
    }
}

fn is_begin(line: &Line) -> bool
    ensures begin { result ≡ true → line.now.text.items ≡ codes "begin" }
    ensures other { result ≡ false → line.now.text.items ≢ codes "begin" }
{
    line.text.as_slice() == b"begin".as_slice()
}

/// Puts a line at the end of a text, as it was read.
#[tactic(auto, using(uv_script::proofs::Writing::writing))]
fn push_line(text: &mut Vec<u8>, line: &Line) -> Result<(), AllocError>
    ensures { Writes result text.old.items (with_line line.now.text.items line.now.fed) text.new.items }
{
    text.extend_from_slice(line.text.as_slice())?;
    if line.fed {
        text.push(b'\n')?;
    }
    Ok(())
}

/// What is wrong with lines that go on to no line `begin`: their first bad one, or the line after the last one.
pub(crate) fn without_begin(alloc: Global, version: Version, text: &[u8]) -> Fault
    ensures { NoScript (unread_in version) text.now result }
{
    match version.parse(alloc, text) {
        Ok(_) => {}
        Err(fault) => return fault,
    }
    after_last_line(text)
}

fn after_last_line(text: &[u8]) -> Fault
    ensures { result ≡ Fault.Script (length (lines_of text.now) + 1) }
{
    Fault::Script {
        line: line_count(text) + 1,
    }
}

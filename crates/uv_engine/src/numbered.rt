//! The lines of a recording, with their numbers.
ghost use Rattle.std.specs.Prelude.{◌≡◌, ◌<◌, ◌≤◌, ◌+◌, ◌-◌, ◌^◌, [], List, ℕ, length, IfOk, IfErr, IfSome, IfNone, OnOk, OnSome};
ghost use Rattle.uv_ids.specs.declared.event.Event.{Event};
ghost use Rattle.uv_script.specs.Lines.{lines_of};
ghost use Rattle.uv_script.specs.Program.{Program};
ghost use Rattle.uv_engine.specs.Devices.{ReaderCounts, IsTooLong, OnAnswer};
ghost use Rattle.uv_engine.specs.Input.{left, EndIsSeen, size};
ghost use Rattle.uv_engine.specs.Recordings.{unread_in, Start, InScript, InSteps, Whole};
ghost use Rattle.uv_engine.specs.Rerun.{CanCount, ReadsPart, IsReadingFault};
ghost use Rattle.uv_engine.specs.Start.{FindsSkipped, IsFirstBad};
ghost use Rattle.uv_engine.specs.Taking.{TakesOne, RefusesLong, SpendsBudget, SpendsGiven};

use crate::input::{Input, Line, Taken};
use crate::script::{parse_front, read_front};
use crate::source::Source;
use crate::version::Version;
use std::alloc::Global;
use uv_ids::Fault;
use uv_script::{Lines, Script, is_skipped, line_count};

/// An input, and how many lines were taken of it.
#[derive(Drop)]
pub(crate) struct Numbered {
    pub(crate) input: Input,
    pub(crate) taken: usize,
}

impl Numbered {
    /// The next line; none at the end of the input. One that is too long is refused as its 257th byte was taken.
    pub(crate) fn next_line<R: Source>(&mut self, reader: &mut R) -> Result<Option<Line>, Fault>
        requires end { R.Tells → EndIsSeen self.old.input (R.remaining reader.old) }
        requires few { CanCount self.old.taken self.old.input }
        ensures line { IfOk result (λ line. R.Tells → TakesOne (left self.old.input (R.remaining reader.old)) line
            (left self.new.input (R.remaining reader.new))) }
        ensures long { IfErr result (λ fault. R.Tells → RefusesLong fault self.old.taken (left self.old.input (R.remaining reader.old))
            (left self.new.input (R.remaining reader.new))) }
        ensures taken { IfOk result (λ line. OnSome line (self.new.taken ≡ self.old.taken + 1)) }
        ensures none { IfOk result (λ line. IfNone line (self.new.taken ≡ self.old.taken)) }
        ensures size { IfOk result (λ line. OnSome line (size self.new.input < size self.old.input)) }
        ensures end { OnOk result (R.Tells → EndIsSeen self.new.input (R.remaining reader.new)) }
        ensures budget { OnAnswer result (R.Tells → SpendsBudget self.old.input (R.remaining reader.old) self.new.input (R.remaining reader.new)) }
        ensures given { OnOk result (SpendsGiven self.old.input (R.given reader.old) self.new.input (R.given reader.new)) }
        ensures err { IfErr result IsReadingFault }
        ensures reader { ReaderCounts result (IsTooLong R.Tells self.old.input.budget (R.remaining reader.old) (R.given reader.old)
            (R.given reader.new)) (R.failures reader.old) (R.failures reader.new) }
    {
        match self.input.next_line(reader)? {
            Taken::Line(line) => {
                self.taken += 1;
                Ok(Some(line))
            }
            Taken::Long => Err(self.missing()),
            Taken::End => Ok(None),
        }
    }

    /// The last line that was taken is bad.
    pub(crate) fn bad(&self) -> Fault
        ensures { result ≡ Fault.Script self.now.taken }
    {
        Fault::Script { line: self.taken }
    }

    /// The line behind the last one is missing, or has too many bytes.
    pub(crate) fn missing(&self) -> Fault
        requires { self.now.taken < 2 ^ 64 - 1 }
        ensures { result ≡ Fault.Script (self.now.taken + 1) }
    {
        Fault::Script {
            line: self.taken + 1,
        }
    }

    /// Reads the first line, which names the format.
    pub(crate) fn read_version<R: Source>(&mut self, reader: &mut R) -> Result<Version, Fault>
        requires end { R.Tells → EndIsSeen self.old.input (R.remaining reader.old) }
        requires few { CanCount self.old.taken self.old.input }
        ensures read { R.Tells → ReadsPart (λ version. InScript (unread_in version)) Start self.old.taken
            (left self.old.input (R.remaining reader.old)) result self.new.taken (left self.new.input (R.remaining reader.new)) }
        ensures few { OnOk result (self.new.taken + size self.new.input ≤ self.old.taken + size self.old.input) }
        ensures end { OnOk result (R.Tells → EndIsSeen self.new.input (R.remaining reader.new)) }
        ensures budget { OnAnswer result (R.Tells → SpendsBudget self.old.input (R.remaining reader.old) self.new.input (R.remaining reader.new)) }
        ensures given { OnOk result (SpendsGiven self.old.input (R.given reader.old) self.new.input (R.given reader.new)) }
        ensures err { IfErr result IsReadingFault }
        ensures reader { ReaderCounts result (IsTooLong R.Tells self.old.input.budget (R.remaining reader.old) (R.given reader.old)
            (R.given reader.new)) (R.failures reader.old) (R.failures reader.new) }
    {
        let Some(line) = self.next_line(reader)? else {
            return Err(self.missing());
        };
        match Version::of_line(line.text.as_slice()) {
            Some(version) => Ok(version),
            None => Err(self.bad()),
        }
    }

    /// Reads the script, in which each line says something, and the line `begin`.
    pub(crate) fn read_script<R: Source>(
        &mut self,
        alloc: Global,
        version: Version,
        reader: &mut R,
    ) -> Result<Script, Fault>
        requires end { R.Tells → EndIsSeen self.old.input (R.remaining reader.old) }
        requires few { self.old.taken + size self.old.input < 2 ^ 62 }
        ensures read { R.Tells → ReadsPart (λ (script : Program). InSteps script []) (InScript (unread_in version)) self.old.taken
            (left self.old.input (R.remaining reader.old)) result self.new.taken (left self.new.input (R.remaining reader.new)) }
        ensures few { OnOk result (CanCount self.new.taken self.new.input) }
        ensures end { OnOk result (R.Tells → EndIsSeen self.new.input (R.remaining reader.new)) }
        ensures budget { OnAnswer result (R.Tells → SpendsBudget self.old.input (R.remaining reader.old) self.new.input (R.remaining reader.new)) }
        ensures given { OnOk result (SpendsGiven self.old.input (R.given reader.old) self.new.input (R.given reader.new)) }
        ensures err { IfErr result IsReadingFault }
        ensures reader { ReaderCounts result (IsTooLong R.Tells self.old.input.budget (R.remaining reader.old) (R.given reader.old)
            (R.given reader.new)) (R.failures reader.old) (R.failures reader.new) }
    {
        let front = read_front(alloc, &mut self.input, reader)?;
        let lines = line_count(front.text.as_slice());
        let skipped = first_skipped(front.text.as_slice());
        match parse_front(alloc, version, &front) {
            Ok(script) => {
                if let Some(line) = skipped {
                    return Err(Fault::Script {
                        line: self.taken + line,
                    });
                }
                self.taken += lines + 1;
                Ok(script)
            }
            Err(Fault::Script { line }) => Err(Fault::Script {
                line: self.taken + first_bad(line, skipped),
            }),
            Err(fault) => Err(fault),
        }
    }

    /// Wants no line more.
    pub(crate) fn expect_end<R: Source>(&mut self, reader: &mut R) -> Result<(), Fault>
        requires end { R.Tells → EndIsSeen self.old.input (R.remaining reader.old) }
        requires few { CanCount self.old.taken self.old.input }
        ensures read { R.Tells → (p : Program) → (es : List Event) → (called : List (List ℕ)) → ReadsPart (λ _. Whole p es called)
            (Whole p es called) self.old.taken (left self.old.input (R.remaining reader.old))
            result self.new.taken [] }
        ensures budget { OnAnswer result (R.Tells → SpendsBudget self.old.input (R.remaining reader.old) self.new.input (R.remaining reader.new)) }
        ensures given { OnOk result (SpendsGiven self.old.input (R.given reader.old) self.new.input (R.given reader.new)) }
        ensures err { IfErr result IsReadingFault }
        ensures reader { ReaderCounts result (IsTooLong R.Tells self.old.input.budget (R.remaining reader.old) (R.given reader.old)
            (R.given reader.new)) (R.failures reader.old) (R.failures reader.new) }
    {
        let Some(_) = self.next_line(reader)? else {
            return Ok(());
        };
        Err(self.bad())
    }
}

/// The first line of a text that is empty or a comment, from 1.
fn first_skipped(text: &[u8]) -> Option<usize>
    ensures found { FindsSkipped (lines_of text.now) result }
    ensures few { IfSome result (λ number. number ≤ length text.now) }
{
    let mut number = 0;
    for line in Lines::of(text) {
        number += 1;
        if is_skipped(line) {
            return Some(number);
        }
    }
    None
}

/// The first one of a line outside the grammar of scripts and of one that says nothing.
fn first_bad(line: usize, skipped: Option<usize>) -> usize
    ensures { IsFirstBad line skipped result }
{
    match skipped {
        Some(skipped) if skipped <= line => skipped,
        _ => line,
    }
}

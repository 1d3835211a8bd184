//! Reading a script's text.
ghost use Rattle.std.specs.Prelude.{◌≡◌, ℕ, List};
ghost use Rattle.uv_script.specs.Grammar.{IsScript, Parses, ParsesFrom, blank, order_said, io_said};
ghost use Rattle.uv_script.specs.Laws.{HasReading, HasOneScript, HasNoBadLine, HasOneBadLine, IsReadBack, IsReadWithoutIo};
ghost use Rattle.uv_script.specs.Program.{Program};
ghost use Rattle.uv_script.specs.Reading.{ReadsLine};

use crate::lines::{Lines, is_line, is_skipped};
use crate::script::Script;
use crate::settings::Settings;
use crate::statement::statement_in;
use std::alloc::Global;
use uv_ids::Fault;

/// A text has one script or one first bad line, and never both, so what `Script::parse` answers is settled by the text
/// unless memory runs out.
pub fn one_reading()
    ensures some { (text : List ℕ) → HasReading text }
    ensures script { (text : List ℕ) → HasOneScript text }
    ensures apart { (text : List ℕ) → HasNoBadLine text }
    ensures bad_line { (text : List ℕ) → HasOneBadLine text }
{}

/// The text of a script is read back as this very script, unless memory runs out.
pub fn text_read_back()
    ensures { (text : List ℕ) (p : Program) → IsScript text p → IsReadBack p }
{}

/// A text whose script says neither `io` nor `timers heap` has the same script for `Script::parse_without_io`.
pub fn read_without_io()
    ensures { (text : List ℕ) (p : Program) → IsScript text p → IsReadWithoutIo text p }
{}

impl Script {
    /// The script of a text, which ends where the text does.
    ///
    /// A text outside the grammar is refused with its first bad line, counted from 1.
    pub fn parse(alloc: Global, text: &[u8]) -> Result<Script, Fault>
        ensures { Parses text.now result }
    {
        let none_said = Settings {
            slots: false,
            workers: false,
            order: false,
            io: false,
            timers: false,
        };
        Script::parse_from(alloc, none_said, text)
    }

    /// The script of a text that takes no line `io` and no `timers heap`, since it is of a time when there were none, so that
    /// it makes no handle of I/O. Else as `parse`.
    pub fn parse_without_io(alloc: Global, text: &[u8]) -> Result<Script, Fault>
        ensures { ParsesFrom io_said text.now result }
    {
        let io_said = Settings {
            slots: false,
            workers: false,
            order: false,
            io: true,
            timers: true,
        };
        Script::parse_from(alloc, io_said, text)
    }

    /// The script of a text that takes no line `order` either, since it is of a time when there was none. Else as
    /// `parse_without_io`.
    pub fn parse_without_order(alloc: Global, text: &[u8]) -> Result<Script, Fault>
        ensures { ParsesFrom order_said text.now result }
    {
        let order_said = Settings {
            slots: false,
            workers: false,
            order: true,
            io: true,
            timers: true,
        };
        Script::parse_from(alloc, order_said, text)
    }

    /// The script of a text, where these settings count as said before its first line.
    fn parse_from(alloc: Global, said: Settings, text: &[u8]) -> Result<Script, Fault>
        ensures { ParsesFrom (record { program = blank; said = said }) text.now result }
    {
        let mut script = Script::blank(alloc);
        let mut settings = said;
        let mut number = 0;
        for line in Lines::of(text) {
            number += 1;
            script.read_line(alloc, &mut settings, number, line)?;
        }
        Ok(script)
    }

    /// Reads one more line, where these settings were said.
    #[tactic(auto, unfolding(crate::specs::Reading::after_line))]
    fn read_line(
        &mut self,
        alloc: Global,
        settings: &mut Settings,
        number: usize,
        line: &[u8],
    ) -> Result<(), Fault>
        ensures { ReadsLine (record { program = self.old; said = settings.old }) line.now number result
            (record { program = self.new; said = settings.new }) }
    {
        if !is_line(line) {
            return Err(Fault::Script { line: number });
        }
        if is_skipped(line) {
            return Ok(());
        }
        let Some(statement) = statement_in(self.names(), line) else {
            return Err(Fault::Script { line: number });
        };
        if !settings.is_new(&statement)
            || !self.has_room(&statement)
            || !self.may_make(&statement)
        {
            return Err(Fault::Script { line: number });
        }
        *settings = settings.with(&statement);
        Ok(self.add(alloc, statement)?)
    }
}

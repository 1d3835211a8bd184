//! Lines of the trace, in two words each.
ghost use Rattle.std.specs.Prelude.{◌≡◌, Some, None, IfOk, IfErr};
ghost use Rattle.uv_ids.specs.declared.seen.Seen.TheVariants as seen;
ghost use Rattle.uv_stands.specs.PackedLines.{said, is_wide, Says};

use std::marker::Model;
use uv_ids::{Code, Id, Mode, Phase, Seen, Var};

/// What a step appended to the trace: a line that fits in two words, or where a wider one stands in a row of its own.
#[derive(Clone, Copy)]
pub enum Line {
    /// The step appended nothing.
    Nothing,
    Run(Mode),
    Section(Phase),
    /// The poll began, and its timeout in ms.
    Poll(u64),
    PollForever,
    Call(Var, Id),
    Io(Var, Id),
    Closed(Var, Id),
    End(bool),
    Take(u16, Var, Id),
    Finish(u16, Var, Id),
    Send(Var, Code),
    Tick(u64),
    /// The place among the wide ones.
    Wide(usize),
}

// A line takes two words for each step.
const _: () = prove!(std::mem::size_of::<Line>() <= 16);

impl Line {
    /// This in two words, or the line that is wider.
    pub fn narrow(line: Option<Seen>) -> Result<Line, Seen>
        ensures ok { IfOk result (Says line) }
        ensures err { IfErr result (λ wide. line ≡ Some wide) }
    {
        Ok(match line {
            None => Line::Nothing,
            Some(Seen::Run(mode)) => Line::Run(mode),
            Some(Seen::Section(section)) => Line::Section(section),
            Some(Seen::Poll(Some(ms))) => Line::Poll(ms),
            Some(Seen::Poll(None)) => Line::PollForever,
            Some(Seen::Call(name, id)) => Line::Call(name, id),
            Some(Seen::Io(name, id)) => Line::Io(name, id),
            Some(Seen::Closed(name, id)) => Line::Closed(name, id),
            Some(Seen::End(alive)) => Line::End(alive),
            Some(Seen::Take(worker, name, id)) => Line::Take(worker, name, id),
            Some(Seen::Finish(worker, name, id)) => Line::Finish(worker, name, id),
            Some(Seen::Send(name, code)) => Line::Send(name, code),
            Some(Seen::Tick(ms)) => Line::Tick(ms),
            Some(wide) => return Err(wide),
        })
    }

    /// Whether it is wider, and stands in a row of its own.
    pub fn is_wide(self) -> bool
        ensures { result ≡ is_wide self }
    {
        matches!(self, Line::Wide(_))
    }

    /// What it says, where these are the wide ones.
    pub fn said(self, wides: &[Seen]) -> Option<Seen>
        ensures { result ≡ said wides.now self }
    {
        match self {
            Line::Nothing => None,
            Line::Run(mode) => Some(Seen::Run(mode)),
            Line::Section(section) => Some(Seen::Section(section)),
            Line::Poll(ms) => Some(Seen::Poll(Some(ms))),
            Line::PollForever => Some(Seen::Poll(None)),
            Line::Call(name, id) => Some(Seen::Call(name, id)),
            Line::Io(name, id) => Some(Seen::Io(name, id)),
            Line::Closed(name, id) => Some(Seen::Closed(name, id)),
            Line::End(alive) => Some(Seen::End(alive)),
            Line::Take(worker, name, id) => Some(Seen::Take(worker, name, id)),
            Line::Finish(worker, name, id) => Some(Seen::Finish(worker, name, id)),
            Line::Send(name, code) => Some(Seen::Send(name, code)),
            Line::Tick(ms) => Some(Seen::Tick(ms)),
            Line::Wide(at) => wides.get(at).copied(),
        }
    }
}

/// A line that a step appended, if it did, and that fits in two words. Callers see the line.
#[derive(Drop)]
pub struct PackedLine {
    line: Line,
}

impl Model for PackedLine {
    ghost use Rattle.std.specs.Prelude.{◌≡◌, Option, [], false};
    ghost use Rattle.uv_ids.specs.declared.seen.Seen.{Seen};
    ghost use Rattle.uv_stands.specs.PackedLines.{said, is_wide};

    ghost Value = { Option Seen };

    ghost view = { λ p. said [] p.line };

    ghost invariant = { λ p. is_wide p.line ≡ false };
}

impl PackedLine {
    /// The step appended nothing.
    #[inline(always)]
    pub fn nothing() -> PackedLine
        ensures { result ≡ None }
    {
        PackedLine {
            line: Line::Nothing,
        }
    }

    /// A section began.
    #[inline(always)]
    pub fn section(section: Phase) -> PackedLine
        ensures { result ≡ Some (seen.Section section) }
    {
        PackedLine {
            line: Line::Section(section),
        }
    }

    /// The poll began, with its timeout in ms; none is infinite.
    #[inline(always)]
    pub fn poll(timeout: Option<u64>) -> PackedLine
        ensures { result ≡ Some (seen.Poll timeout) }
    {
        let line = match timeout {
            None => Line::PollForever,
            Some(ms) => Line::Poll(ms),
        };
        PackedLine { line }
    }

    /// The callback of a handle began.
    #[inline(always)]
    pub fn call(name: Var, id: Id) -> PackedLine
        ensures { result ≡ Some (seen.Call name id) }
    {
        PackedLine {
            line: Line::Call(name, id),
        }
    }

    /// The close callback of a handle began.
    #[inline(always)]
    pub fn closed(name: Var, id: Id) -> PackedLine
        ensures { result ≡ Some (seen.Closed name id) }
    {
        PackedLine {
            line: Line::Closed(name, id),
        }
    }

    /// The run ended; the loop was alive or not.
    #[inline(always)]
    pub fn end(alive: bool) -> PackedLine
        ensures { result ≡ Some (seen.End alive) }
    {
        PackedLine {
            line: Line::End(alive),
        }
    }

    /// What it says, in two words.
    #[inline(always)]
    pub fn line(&self) -> Line
        ensures { Says self.now result }
    {
        self.line
    }

    /// What it says.
    #[inline(always)]
    pub fn seen(&self) -> Option<Seen>
        ensures { result ≡ self.now }
    {
        self.line.said(&[])
    }
}

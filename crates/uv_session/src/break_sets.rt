//! The breaks of a session, with what they match as sets: so a line costs no more where there are many.
ghost use Rattle.std.specs.Prelude.{◌≡◌, ℕ, ◌==◌, ◌||◌, ◌++◌, ◌∷◌, List, [], OnOk, OnErr, length, slice_index_or, false};
ghost use Rattle.std.specs.List.{list_any};
ghost use Rattle.uv_ids.specs.declared.code.Code.{Code};
ghost use Rattle.uv_ids.specs.declared.id.Id.{Id};
ghost use Rattle.uv_ids.specs.declared.id.Var.{Var};
ghost use Rattle.uv_ids.specs.declared.phase.Phase.{Phase};
ghost use Rattle.uv_ids.specs.declared.seen.Site.{Site};
ghost use Rattle.uv_session.specs.declared.breaks.Break.{Break};
ghost use Rattle.uv_session.specs.Breaks.{matches, stops, same_code, same_phase};
ghost use Rattle.uv_session.specs.Sets.{AreSets, is_of_name, is_of_code};

use crate::breaks::{Break, is_phase, same_code};
use std::alloc::{AllocError, Global};
use uv_ids::{Answer, Code, Phase, Seen, Var};

/// The names, codes and sections that some breaks are of.
#[derive(Drop)]
struct Sets {
    /// Whether a break is of calls of the name with this number.
    names: Vec<bool>,
    /// Each code once.
    codes: Vec<Code>,
    /// Each section once.
    sections: Vec<Phase>,
    polls: bool,
}

/// The breaks, in the order in which they were added, and their sets.
#[derive(Drop)]
pub(crate) struct Breaks {
    listed: Vec<Break>,
    sets: Sets,
    ghost are_sets: { AreSets listed.items sets.names.items sets.codes.items sets.sections.items sets.polls },
}

/// Puts the flag of a number.
fn put_flag(flags: &mut Vec<bool>, number: u32) -> Result<(), AllocError>
    ensures ok { OnOk result ((n : ℕ) → slice_index_or flags.new.items n false ≡ (slice_index_or flags.old.items n false || (n == number))) }
    ensures err { OnErr result (flags.new.items ≡ flags.old.items) }
{
    let number = number as usize;
    if flags.len() <= number {
        flags.resize(number + 1, false)?;
    }
    flags[number] = true;
    Ok(())
}

/// Whether a code is one of these.
fn has_code(codes: &[Code], code: Code) -> bool
    ensures { result ≡ list_any (same_code code) codes.now }
{
    codes.iter().any(|at| same_code(code, *at))
}

/// Puts a code with these, if it isn't one of them.
fn put_code(codes: &mut Vec<Code>, code: Code) -> Result<(), AllocError>
    ensures ok { OnOk result ((c : Code) → list_any (same_code c) codes.new.items ≡ (list_any (same_code c) codes.old.items || same_code c code)) }
    ensures err { OnErr result (codes.new.items ≡ codes.old.items) }
{
    if !has_code(codes.as_slice(), code) {
        codes.push(code)?;
    }
    Ok(())
}

/// Whether a section is one of these.
fn has_section(sections: &[Phase], section: Phase) -> bool
    ensures { result ≡ list_any (same_phase section) sections.now }
{
    sections.iter().any(|at| is_phase(section, *at))
}

/// Puts a section with these, if it isn't one of them.
fn put_section(sections: &mut Vec<Phase>, section: Phase) -> Result<(), AllocError>
    ensures ok { OnOk result ((x : Phase) → list_any (same_phase x) sections.new.items
        ≡ (list_any (same_phase x) sections.old.items || same_phase x section)) }
    ensures err { OnErr result (sections.new.items ≡ sections.old.items) }
{
    if !has_section(sections.as_slice(), section) {
        sections.push(section)?;
    }
    Ok(())
}

impl Sets {
    /// Puts what a break is of. Want of memory leaves them as before.
    fn put(&mut self, at: Break) -> Result<(), AllocError>
        ensures ok { OnOk result ((breaks : List Break)
            → AreSets breaks self.old.names.items self.old.codes.items self.old.sections.items self.old.polls
            → AreSets (breaks ++ at ∷ []) self.new.names.items self.new.codes.items self.new.sections.items self.new.polls) }
        ensures err { OnErr result ((self.new.names.items ≡ self.old.names.items) × (self.new.codes.items ≡ self.old.codes.items)
            × (self.new.sections.items ≡ self.old.sections.items) × (self.new.polls ≡ self.old.polls)) }
    {
        match at {
            Break::Call(name) => put_flag(&mut self.names, name.0),
            Break::Code(code) => put_code(&mut self.codes, code),
            Break::Section(section) => put_section(&mut self.sections, section),
            Break::Poll => {
                self.polls = true;
                Ok(())
            }
        }
    }
}

impl Breaks {
    /// None.
    pub(crate) fn new(alloc: Global) -> Breaks
        ensures { result.listed.items ≡ [] }
    {
        Breaks {
            listed: Vec::new(alloc),
            sets: Sets {
                names: Vec::new(alloc),
                codes: Vec::new(alloc),
                sections: Vec::new(alloc),
                polls: false,
            },
        }
    }

    pub(crate) fn len(&self) -> usize
        ensures { result ≡ length self.now.listed.items }
    {
        self.listed.len()
    }

    pub(crate) fn is_empty(&self) -> bool
        ensures { result ≡ (length self.now.listed.items == 0) }
    {
        self.listed.is_empty()
    }

    /// Adds one. Want of memory leaves them as before.
    pub(crate) fn add(&mut self, at: Break) -> Result<(), AllocError>
        ensures ok { OnOk result (self.new.listed.items ≡ self.old.listed.items ++ at ∷ []) }
        ensures err { OnErr result (self.new.listed.items ≡ self.old.listed.items) }
    {
        self.listed.reserve(1)?;
        self.sets.put(at)?;
        self.listed.push_reserved(at);
        Ok(())
    }

    /// Whether a step matches one of them. Where there is none, the line isn't looked at.
    #[inline(always)]
    #[tactic(auto, using(crate::proofs::Matching::none_stop))]
    pub(crate) fn stop(&self, seen: Option<Seen>) -> bool
        ensures { result ≡ stops self.now.listed.items seen }
    {
        if self.is_empty() {
            return false;
        }
        match seen {
            None => false,
            Some(line) => self.match_line(line),
        }
    }

    /// Whether a line matches one of them.
    fn match_line(&self, line: Seen) -> bool
        ensures { result ≡ list_any (λ at. matches at line) self.now.listed.items }
    {
        match line {
            Seen::Op(_, answer) => self.match_answer(answer),
            Seen::Run(_) => false,
            Seen::Section(begun) => has_section(self.sets.sections.as_slice(), begun),
            Seen::Poll(_) => self.sets.polls,
            Seen::Call(name, _) => self.match_name(name.0),
            Seen::Io(name, _) => self.match_name(name.0),
            Seen::After(digest, name, _) => self.match_after(digest, name),
            Seen::Closed(name, _) => self.match_name(name.0),
            Seen::End(_) => false,
            Seen::Take(_, _, _) => false,
            Seen::Finish(_, _, _) => false,
            Seen::Cancel(_, answer) => self.match_answer(answer),
            Seen::Send(_, code) => self.match_code(code),
            Seen::Tick(_) => false,
        }
    }

    /// Whether one is of calls of the name with this number.
    fn match_name(&self, name: u32) -> bool
        ensures { result ≡ list_any (is_of_name name) self.now.listed.items }
    {
        self.sets.names.get(name as usize).copied().unwrap_or(false)
    }

    /// Whether one is of this code.
    fn match_code(&self, code: Code) -> bool
        ensures { result ≡ list_any (is_of_code code) self.now.listed.items }
    {
        has_code(self.sets.codes.as_slice(), code)
    }

    /// Whether one is of an after callback: of its name, or of the code that it says.
    fn match_after(&self, digest: Option<[u8; 32]>, name: Var) -> bool
        ensures { (id : Id) → result ≡ list_any (λ at. matches at (Seen.After digest name id)) self.now.listed.items }
    {
        let is_of_name = self.match_name(name.0);
        match digest {
            Some(_) => is_of_name || self.match_code(Code::Ok),
            None => is_of_name || self.match_code(Code::Ecanceled),
        }
    }

    /// Whether one is of what an op answers, or a cancel from outside.
    fn match_answer(&self, answer: Answer) -> bool
        ensures op { (site : Site) → result ≡ list_any (λ at. matches at (Seen.Op site answer)) self.now.listed.items }
        ensures cancel { (name : Var) → result ≡ list_any (λ at. matches at (Seen.Cancel name answer)) self.now.listed.items }
    {
        match answer {
            Answer::Code(code) => self.match_code(code),
            Answer::Id(_) => false,
            Answer::Cancelled(_) => self.match_code(Code::Ok),
            Answer::Number(_) => false,
            Answer::Flag(_) => false,
            Answer::Timeout(_) => false,
        }
    }
}

//! The lines of a reader.
ghost use Rattle.std.specs.Prelude.{◌≡◌, ◌<◌, ◌≤◌, ◌+◌, ◌==◌, [], All, IfOk, IfErr, IfNone, IfSome, OnOk, length, drop, true, false};
ghost use Rattle.std.specs.List.{list_any};
ghost use Rattle.uv_script.specs.Lines.{IsCut};
ghost use Rattle.uv_engine.specs.Devices.{ReaderCounts, IsTooLong};
ghost use Rattle.uv_engine.specs.Input.{Buffered, pending, left, EndIsSeen, size, turns_left, TakesRest};
ghost use Rattle.uv_engine.specs.Taking.{TakesAhead, EndsBehind, TakesNext, Shrinks, SkipsAhead, SameReader, SpendsBudget, SpendsGiven, IsReadFault};

use crate::source::Source;
use std::alloc::{AllocError, Global};
use std::marker::Model;
use std::mem;
use uv_ids::Fault;

/// The longest line in bytes.
const LONGEST: usize = 256;

/// How many bytes are asked for at once.
const ROOM: usize = 4096;

/// What was read of an input and not yet taken: however long a line is, no more than 256 bytes of it are kept, and no more than
/// 4,096 bytes were read that follow them.
#[derive(Drop)]
pub struct Input {
    alloc: Global,
    /// The beginning of a line whose end was not yet seen.
    part: Vec<u8>,
    /// The bytes that were read last, of which those from `at` on follow it.
    ahead: Vec<u8>,
    at: usize,
    /// Room for a line, with nothing in it.
    room: Vec<u8>,
    ended: bool,
    /// How many bytes more may be read.
    budget: usize,
}

impl Model for Input {
    ghost use Rattle.std.specs.Prelude.{◌≡◌, ◌≤◌, [], drop, length};
    ghost use Rattle.uv_engine.specs.Input.{Buffered, NoFeed};

    ghost Value = { Buffered };

    ghost view = { λ a. record { part = a.part.items; ahead = drop a.at a.ahead.items; ended = a.ended; budget = a.budget } };

    ghost invariant = { λ a. NoFeed a.part.items × (a.at ≤ length a.ahead.items) × (a.room.items ≡ [])
        × (length a.part.items ≤ 256) × (length a.ahead.items ≤ 4096) };
}

/// A line without its line feed, and whether it had one.
#[derive(Drop)]
pub struct Line {
    pub text: Vec<u8>,
    pub fed: bool,
}

/// What was taken of an input.
#[derive(Drop)]
pub enum Taken {
    /// A line of at most 256 bytes.
    Line(Line),
    /// The first 257 bytes of a line that is longer. They are not kept, and its rest isn't taken.
    Long,
    /// Nothing is left.
    End,
}

/// What was taken of the bytes that were read.
#[derive(Drop)]
enum Ahead {
    /// A line that ends in them.
    Line(Vec<u8>),
    /// The first 257 bytes of a line that is longer.
    Long,
    /// All of them, which are a part of the next line.
    Part,
}

/// What stands before the first line feed, and what stands behind it.
fn cut(text: &[u8]) -> Option<(&[u8], &[u8])>
    ensures some { IfSome result (λ parts. IsCut 10 text.now parts.0.now parts.1.now) }
    ensures none { IfNone result (All (λ b. (b == 10) ≡ false) text.now) }
{
    match text.iter().position(|b| *b == b'\n') {
        Some(end) => Some((&text[..end], &text[end + 1..])),
        None => None,
    }
}

impl Input {
    /// Nothing was read yet. So many bytes may be read, and no more.
    pub fn new(alloc: Global, limit: u64) -> Input
        ensures empty { pending result ≡ [] }
        ensures open { result.ended ≡ false }
        ensures budget { result.budget ≡ limit }
    {
        Input {
            alloc,
            part: Vec::new(alloc),
            ahead: Vec::new(alloc),
            at: 0,
            room: Vec::new(alloc),
            ended: false,
            budget: limit as usize,
        }
    }

    /// Whether the end of the next line was read already.
    pub fn has_line(&self) -> bool
        ensures { result ≡ list_any (λ b. b == 10) self.now.ahead }
    {
        self.ahead[self.at..].contains(&b'\n')
    }

    fn take_part(&mut self) -> Vec<u8>
        ensures line { result.items ≡ self.old.part }
        ensures rest { self.new ≡ record self.old { part = [] } }
    {
        let room = mem::replace(&mut self.room, Vec::new(self.alloc));
        mem::replace(&mut self.part, room)
    }

    /// Keeps the room of a line that is done with for one that comes.
    pub fn reuse(&mut self, line: Line)
        ensures { self.new ≡ self.old }
    {
        let mut room = line.text;
        room.clear();
        self.room = room;
    }

    /// The next line, if its line feed was read, or its first 257 bytes.
    fn take_ahead(&mut self) -> Result<Ahead, AllocError>
        ensures line { IfOk result (λ taken. TakesAhead self.old taken self.new) }
        ensures behind { IfOk result (λ taken. EndsBehind taken self.new) }
        ensures near { OnOk result (length self.new.ahead ≤ 4096) }
        ensures reader { OnOk result (SameReader self.old self.new) }
    {
        match cut(&self.ahead[self.at..]) {
            Some((line, _)) => {
                if self.part.len() + line.len() > LONGEST {
                    self.drop_long();
                    return Ok(Ahead::Long);
                }
                self.part.extend_from_slice(line)?;
                self.at += line.len() + 1;
                Ok(Ahead::Line(self.take_part()))
            }
            None => {
                if self.part.len() + (self.ahead.len() - self.at) > LONGEST {
                    self.drop_long();
                    return Ok(Ahead::Long);
                }
                self.part.extend_from_slice(&self.ahead[self.at..])?;
                self.at = self.ahead.len();
                Ok(Ahead::Part)
            }
        }
    }

    /// Takes the first 257 bytes, and keeps none of them.
    fn drop_long(&mut self)
        requires { 256 < length (pending self.old) }
        ensures rest { pending self.new ≡ drop 257 (pending self.old) }
        ensures part { self.new.part ≡ [] }
        ensures near { length self.new.ahead ≤ 4096 }
        ensures reader { SameReader self.old self.new }
    {
        self.at += LONGEST + 1 - self.part.len();
        self.part.clear();
    }

    /// Reads some bytes more. `Read` where the reader fails, or gives more bytes than may be read.
    fn read_ahead<R: Source>(&mut self, reader: &mut R) -> Result<(), Fault>
        requires open { self.old.ended ≡ false }
        requires none { self.old.ahead ≡ [] }
        ensures bytes { OnOk result (R.Tells → left self.old (R.remaining reader.old) ≡ left self.new (R.remaining reader.new)) }
        ensures end { OnOk result (R.Tells → EndIsSeen self.new (R.remaining reader.new)) }
        ensures part { OnOk result (self.new.part ≡ self.old.part) }
        ensures turns { OnOk result (turns_left self.new < turns_left self.old) }
        ensures size { OnOk result (size self.new ≡ size self.old) }
        ensures budget { OnOk result (R.Tells → SpendsBudget self.old (R.remaining reader.old) self.new (R.remaining reader.new)) }
        ensures given { OnOk result (SpendsGiven self.old (R.given reader.old) self.new (R.given reader.new)) }
        ensures err { IfErr result IsReadFault }
        ensures reader { ReaderCounts result (IsTooLong R.Tells self.old.budget (R.remaining reader.old) (R.given reader.old)
            (R.given reader.new)) (R.failures reader.old) (R.failures reader.new) }
    {
        let mut room = [0; ROOM];
        match reader.read(&mut room) {
            Err(_) => Err(Fault::Read),
            Ok(0) => {
                self.ended = true;
                Ok(())
            }
            Ok(n) => {
                if n > self.budget {
                    return Err(Fault::Read);
                }
                self.ahead.clear();
                self.at = 0;
                self.ahead.extend_from_slice(&room[..n])?;
                self.budget -= n;
                Ok(())
            }
        }
    }

    /// The next line, or the first 257 bytes of one that is longer.
    pub fn next_line<R: Source>(&mut self, reader: &mut R) -> Result<Taken, Fault>
        requires end { R.Tells → EndIsSeen self.old (R.remaining reader.old) }
        ensures line { IfOk result (λ taken. R.Tells → TakesNext (left self.old (R.remaining reader.old)) taken (left self.new
            (R.remaining reader.new))) }
        ensures size { IfOk result (λ taken. Shrinks taken self.old self.new) }
        ensures behind { OnOk result (self.new.part ≡ []) }
        ensures near { OnOk result (length self.new.ahead ≤ 4096) }
        ensures end { OnOk result (R.Tells → EndIsSeen self.new (R.remaining reader.new)) }
        ensures ended { OnOk result (self.old.ended ≡ true → self.new.ended ≡ true) }
        ensures budget { OnOk result (R.Tells → SpendsBudget self.old (R.remaining reader.old) self.new (R.remaining reader.new)) }
        ensures given { OnOk result (SpendsGiven self.old (R.given reader.old) self.new (R.given reader.new)) }
        ensures err { IfErr result IsReadFault }
        ensures reader { ReaderCounts result (IsTooLong R.Tells self.old.budget (R.remaining reader.old) (R.given reader.old)
            (R.given reader.new)) (R.failures reader.old) (R.failures reader.new) }
    {
        'reads: loop {
            match self.take_ahead()? {
                Ahead::Line(text) => return Ok(Taken::Line(Line { text, fed: true })),
                Ahead::Long => return Ok(Taken::Long),
                Ahead::Part => {}
            }
            if self.ended {
                return Ok(self.take_last());
            }
            self.read_ahead(reader)?;
        }
    }

    /// The last line, which has no line feed, if there is one.
    fn take_last(&mut self) -> Taken
        requires { self.old.ahead ≡ [] }
        ensures line { TakesNext (pending self.old) result (pending self.new) }
        ensures size { Shrinks result self.old self.new }
        ensures behind { self.new.part ≡ [] }
        ensures ahead { self.new.ahead ≡ [] }
        ensures reader { SameReader self.old self.new }
    {
        if self.part.is_empty() {
            return Taken::End;
        }
        let text = self.take_part();
        Taken::Line(Line { text, fed: false })
    }

    /// Passes over what was read of a line, and says whether its line feed was.
    fn skip_ahead(&mut self) -> bool
        ensures line { SkipsAhead self.old result self.new }
        ensures part { self.new.part ≡ self.old.part }
        ensures reader { SameReader self.old self.new }
    {
        match cut(&self.ahead[self.at..]) {
            Some((line, _)) => {
                self.at += line.len() + 1;
                true
            }
            None => {
                self.at = self.ahead.len();
                false
            }
        }
    }

    /// Passes over the rest of a line, and says whether a line feed ends it. Nothing of it is kept.
    pub fn skip_line<R: Source>(&mut self, reader: &mut R) -> Result<bool, Fault>
        requires end { R.Tells → EndIsSeen self.old (R.remaining reader.old) }
        requires behind { self.old.part ≡ [] }
        ensures line { IfOk result (λ fed. R.Tells → TakesRest (left self.old (R.remaining reader.old)) fed (left self.new
            (R.remaining reader.new))) }
        ensures size { OnOk result (size self.new ≤ size self.old) }
        ensures end { OnOk result (R.Tells → EndIsSeen self.new (R.remaining reader.new)) }
        ensures budget { OnOk result (R.Tells → SpendsBudget self.old (R.remaining reader.old) self.new (R.remaining reader.new)) }
        ensures given { OnOk result (SpendsGiven self.old (R.given reader.old) self.new (R.given reader.new)) }
        ensures err { IfErr result IsReadFault }
        ensures reader { ReaderCounts result (IsTooLong R.Tells self.old.budget (R.remaining reader.old) (R.given reader.old)
            (R.given reader.new)) (R.failures reader.old) (R.failures reader.new) }
    {
        'reads: loop {
            if self.skip_ahead() {
                return Ok(true);
            }
            if self.ended {
                return Ok(false);
            }
            self.read_ahead(reader)?;
        }
    }
}

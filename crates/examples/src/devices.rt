//! Conversations over a reader and a writer that fail in mid-stream.

use std::alloc::Global;
use std::io;
use std::io::{Read, Write};
use uv_engine::{Ended, Reader, Writer, converse, converse_within};
use uv_ids::Fault;
use uv_loop::ArenaLoop;
use uv_model::Machine;

/// The most reads, writes or flushes of a conversation here.
const MOST: u32 = 1000;

/// A reader that gives a line at a time, and fails at the read after so many.
#[derive(Drop)]
struct Lines<'a> {
    rest: &'a [u8],
    reads_left: u32,
}

impl Read for Lines<'_> {
    fn read(&mut self, room: &mut [u8]) -> io::Result<usize> {
        if self.reads_left == 0 {
            return Err(io::ErrorKind::Other.into());
        }
        self.reads_left -= 1;
        let end = match self.rest.iter().position(|byte| *byte == b'\n') {
            Some(feed) => feed + 1,
            None => self.rest.len(),
        };
        let n = end.min(room.len());
        room[..n].copy_from_slice(&self.rest[..n]);
        self.rest = &self.rest[n..];
        Ok(n)
    }
}

/// A reader that gives empty lines without end.
#[derive(Drop)]
struct EmptyLines;

impl Read for EmptyLines {
    fn read(&mut self, room: &mut [u8]) -> io::Result<usize> {
        room.fill(b'\n');
        Ok(room.len())
    }
}

/// A writer that takes a few bytes at a time, notes each flush, and fails at the write after so many or at the flush after so many.
#[derive(Drop)]
struct Page {
    text: Vec<u8>,
    flush: &'static [u8],
    writes_left: u32,
    flushes_left: u32,
}

impl Write for Page {
    fn write(&mut self, bytes: &[u8]) -> io::Result<usize> {
        if self.writes_left == 0 {
            return Err(io::ErrorKind::Other.into());
        }
        self.writes_left -= 1;
        let n = bytes.len().min(7);
        self.text.extend_from_slice(&bytes[..n])?;
        Ok(n)
    }

    fn flush(&mut self) -> io::Result<()> {
        if self.flushes_left == 0 {
            return Err(io::ErrorKind::Other.into());
        }
        self.flushes_left -= 1;
        self.text.extend_from_slice(self.flush)?;
        Ok(())
    }
}

/// A writer that takes all that it is given, and notes the most that it was given at once.
#[derive(Drop)]
struct Widest {
    most: usize,
}

impl Write for Widest {
    fn write(&mut self, bytes: &[u8]) -> io::Result<usize> {
        self.most = self.most.max(bytes.len());
        Ok(bytes.len())
    }

    fn flush(&mut self) -> io::Result<()> {
        Ok(())
    }
}

/// What a conversation asks of its devices.
#[derive(Clone, Copy, PartialEq, Eq)]
enum Call {
    Read,
    Write,
    Flush,
}

/// A call that fails, after so many that don't.
#[derive(Clone, Copy)]
struct Failing {
    call: Call,
    after: u32,
}

impl Failing {
    /// How many of these calls are answered.
    fn left(self, call: Call) -> u32 {
        if self.call == call { self.after } else { MOST }
    }

    /// What a conversation answers then.
    fn fault(self) -> Fault {
        if self.call == Call::Read {
            Fault::Read
        } else {
            Fault::Write
        }
    }
}

fn read_lines(input: &[u8], failing: Failing) -> Lines<'_> {
    Lines {
        rest: input,
        reads_left: failing.left(Call::Read),
    }
}

fn blank_page(alloc: Global, flush: &'static [u8], failing: Failing) -> Page {
    Page {
        text: Vec::new(alloc),
        flush,
        writes_left: failing.left(Call::Write),
        flushes_left: failing.left(Call::Flush),
    }
}

/// What a conversation answers.
pub fn answer_of<M: Machine, I: Read + Drop, O: Write + Drop>(
    alloc: Global,
    input: I,
    output: O,
) -> Result<Ended, Fault> {
    let mut reader = Reader::new(input);
    let mut writer = Writer::new(output);
    converse::<M, _, _>(alloc, &mut reader, &mut writer)
}

/// What a conversation answers of which so many bytes may be read.
fn answer_within<I: Read + Drop, O: Write + Drop>(
    alloc: Global,
    limit: u64,
    input: I,
    output: O,
) -> Result<Ended, Fault> {
    let mut reader = Reader::new(input);
    let mut writer = Writer::new(output);
    converse_within::<ArenaLoop, _, _>(alloc, limit, &mut reader, &mut writer)
}

/// What became of a conversation with a device that fails.
#[derive(Clone, Copy)]
enum Became {
    /// It failed as that device did, with a beginning of the output written.
    Broken,
    /// It went through, with all of the output written.
    Whole,
    Wrong,
}

fn converse_with(alloc: Global, input: &[u8], wanted: &[u8], failing: Failing) -> Became {
    let mut page = blank_page(alloc, b"", failing);
    let answer = answer_of::<ArenaLoop, _, _>(alloc, read_lines(input, failing), &mut page);
    let is_whole = page.text.len() == wanted.len();
    if !wanted.starts_with(&page.text) {
        return Became::Wrong;
    }
    match answer {
        Ok(_) if is_whole => Became::Whole,
        Err(fault) if fault == failing.fault() => Became::Broken,
        _ => Became::Wrong,
    }
}

/// Whether the conversation ends early where this call fails the first time, the second, and so on up to the last time, and
/// goes through where it fails past that.
fn each_fails(alloc: Global, input: &[u8], wanted: &[u8], call: Call) -> bool {
    for after in 0..MOST {
        match converse_with(alloc, input, wanted, Failing { call, after }) {
            Became::Broken => {}
            Became::Whole => return after > 0,
            Became::Wrong => return false,
        }
    }
    false
}

/// Whether a conversation fails as it must where one of its reads, writes or flushes fails.
pub fn fails_early(alloc: Global, input: &[u8], wanted: &[u8]) -> bool {
    each_fails(alloc, input, wanted, Call::Read)
        && each_fails(alloc, input, wanted, Call::Write)
        && each_fails(alloc, input, wanted, Call::Flush)
}

const NEVER: Failing = Failing {
    call: Call::Read,
    after: MOST,
};

const LINES: &[u8] = b"var t\nmain init t timer\nbegin\nloop\nloop\ntick 3\nnone\ntrace\nback 2";

/// The answers to the lines, each with a bar where it is flushed.
const ANSWERS: &[u8] = b"init t timer = 0.0\n|refused ended\n|out tick 3\n|bad command\n|\
    init t timer = 0.0\nout tick 3\n|at 0\n|";

/// Whether each line is answered before the next one is read.
pub fn answers_line_by_line(alloc: Global) -> bool {
    let mut page = blank_page(alloc, b"|", NEVER);
    let answer = answer_of::<ArenaLoop, _, _>(alloc, read_lines(LINES, NEVER), &mut page);
    answer.is_ok() && page.text.as_slice() == ANSWERS
}

/// Whether of lines without end as many are read as may be, and nothing is written.
pub fn stops_at_its_limit(alloc: Global) -> bool {
    let mut page = blank_page(alloc, b"|", NEVER);
    let answer = answer_within(alloc, 4096, EmptyLines, &mut page);
    answer.err() == Some(Fault::Read) && page.text.is_empty()
}

/// A script of one timer, and 400 states of it: 320 bytes each.
fn many_states(alloc: Global) -> Result<Vec<u8>, Fault> {
    let mut input = Vec::new(alloc);
    input.extend_from_slice(b"var t\nmain init t timer\nbegin\nloop\n")?;
    for _ in 0..400 {
        input.extend_from_slice(b"state\n")?;
    }
    Ok(input)
}

/// Whether no write is given more than 8 KiB and one more answer, though more was asked for in one read.
pub fn writes_are_short(alloc: Global) -> Result<bool, Fault> {
    let input = many_states(alloc)?;
    let mut widest = Widest { most: 0 };
    let answer = answer_of::<ArenaLoop, _, _>(alloc, input.as_slice(), &mut widest);
    Ok(answer.is_ok() && widest.most > 8192 && widest.most < 9000)
}

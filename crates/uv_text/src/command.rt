//! The commands of a conversation.
ghost use Rattle.std.specs.Prelude.{◌≡◌, ◌≢◌, ℕ, List, AllPairs};
ghost use Rattle.uv_text.specs.declared.command.Asked.{Asked};
ghost use Rattle.uv_text.specs.Commands.{Asks, MOST, LAST_WORKER, has_step, asked_in};
ghost use Rattle.uv_text.specs.Reading.{asked_of, command_of, command_alone, command_by, command_with, command_with_two, clears, step_by, loops, goes_back, goes_forward};

use crate::breaks::read_break;
use uv_ids::{Event, Var, is};
use uv_model::STEPS;
use uv_script::{Fields, Names, Script, is_line, is_skipped, number};
use uv_session::Break;

/// What a line of a conversation asks for.
#[derive(Clone, Copy)]
pub enum Command {
    /// `loop [n]`: so many steps of the loop, 1 to 2^24.
    Loop(u32),
    /// One step from outside: `take K`, `finish K`, `cancel NAME`, `send NAME`, `io NAME`, `tick MS`.
    Step(Event),
    /// `back n`: takes so many steps back, 0 to 2^24.
    Back(u32),
    /// `forward n`: runs so many steps again that were taken back, 0 to 2^24.
    Forward(u32),
    /// `break call NAME`, `break code CODE`, `break section WORD`: runs stop there from now on.
    AddBreak(Break),
    /// `break clear`: runs stop nowhere.
    ClearBreaks,
    /// `rback`: goes back to the last step that matches a break.
    BackToBreak,
    /// `trace`: shows the lines of the standing steps.
    Trace,
    /// `walk`: shows the same lines, each with its step in front.
    Walk,
    /// `state`: shows the state.
    State,
    /// `state NAME`: shows what one name is bound to.
    StateOf(Var),
    /// `image`: shows the state, and how the memory lies that stands for it.
    Image,
    /// `record`: shows the recording of the standing steps.
    Record,
    /// `quit`: ends the conversation.
    Quit,
}

/// How a line of a conversation is read.
#[derive(Clone, Copy)]
pub enum Asked {
    /// An empty line, or a comment.
    Nothing,
    Do(Command),
    /// Anything else.
    Bad,
}

/// The most steps that one command names (own): as many as there may be.
const MOST: u64 = STEPS as u64;

/// The largest number that a worker is named by in a command; whether there is such a worker, the loop says.
const LAST_WORKER: u64 = u16::MAX as u64;

/// Reads a line, without its line feed, where these names are declared.
#[tactic(auto, using(crate::proofs::Commands::reading))]
pub fn read_command(names: &Names, line: &[u8]) -> Asked
    ensures rule { Asks names.now line.now result }
    ensures test { result ≡ asked_of names.now line.now }
{
    read(names, line)
}

fn read(names: &Names, line: &[u8]) -> Asked
    ensures { result ≡ asked_of names.now line.now }
{
    if !is_line(line) {
        return Asked::Bad;
    }
    if is_skipped(line) {
        return Asked::Nothing;
    }
    match read_fields(names, Fields::of(line)) {
        Some(command) => Asked::Do(command),
        None => Asked::Bad,
    }
}

fn read_fields(names: &Names, mut fields: Fields) -> Option<Command>
    ensures { result ≡ command_of names.now fields.entry }
{
    let word = fields.next()?;
    let Some(second) = fields.next() else {
        return alone(word);
    };
    let Some(third) = fields.next() else {
        return with_argument(names, word, second);
    };
    match fields.next() {
        None => with_two(names, word, second, third),
        Some(_) => None,
    }
}

fn alone(word: &[u8]) -> Option<Command>
    ensures { result ≡ command_alone word.now }
{
    if is(word, b"loop") {
        Some(Command::Loop(1))
    } else if is(word, b"rback") {
        Some(Command::BackToBreak)
    } else if is(word, b"trace") {
        Some(Command::Trace)
    } else if is(word, b"walk") {
        Some(Command::Walk)
    } else if is(word, b"state") {
        Some(Command::State)
    } else if is(word, b"image") {
        Some(Command::Image)
    } else if is(word, b"record") {
        Some(Command::Record)
    } else if is(word, b"quit") {
        Some(Command::Quit)
    } else {
        None
    }
}

fn with_argument(names: &Names, word: &[u8], argument: &[u8]) -> Option<Command>
    ensures { result ≡ command_with names.now word.now argument.now }
{
    if is(word, b"cancel") {
        let name = names.number(argument)?;
        Some(Command::Step(Event::Cancel(name)))
    } else if is(word, b"send") {
        let name = names.number(argument)?;
        Some(Command::Step(Event::Send(name)))
    } else if is(word, b"io") {
        let name = names.number(argument)?;
        Some(Command::Step(Event::Io(name)))
    } else if is(word, b"state") {
        let name = names.number(argument)?;
        Some(Command::StateOf(name))
    } else if is(word, b"break") {
        clears(argument)
    } else {
        with_number(word, number(argument))
    }
}

fn clears(argument: &[u8]) -> Option<Command>
    ensures { result ≡ clears argument.now }
{
    if is(argument, b"clear") {
        Some(Command::ClearBreaks)
    } else {
        None
    }
}

fn with_two(names: &Names, word: &[u8], what: &[u8], argument: &[u8]) -> Option<Command>
    ensures { result ≡ command_with_two names.now word.now what.now argument.now }
{
    if !is(word, b"break") {
        return None;
    }
    let at = read_break(names, what, argument)?;
    Some(Command::AddBreak(at))
}

fn with_number(word: &[u8], number: Option<u64>) -> Option<Command>
    ensures { result ≡ command_by word.now number }
{
    let n = number?;
    if is(word, b"loop") {
        loops(n)
    } else if is(word, b"back") {
        goes_back(n)
    } else if is(word, b"forward") {
        goes_forward(n)
    } else {
        let event = step_with(word, n)?;
        Some(Command::Step(event))
    }
}

/// A step from outside with a number: a worker's, or the clock's.
fn step_with(word: &[u8], n: u64) -> Option<Event>
    ensures { result ≡ step_by word.now n }
{
    if is(word, b"tick") {
        return Some(Event::Tick(n));
    }
    if n > LAST_WORKER {
        return None;
    }
    if is(word, b"take") {
        Some(Event::Take(n as u16))
    } else if is(word, b"finish") {
        Some(Event::Finish(n as u16))
    } else {
        None
    }
}

fn loops(n: u64) -> Option<Command>
    ensures { result ≡ loops n }
{
    (1 <= n && n <= MOST).then(|| Command::Loop(n as u32))
}

fn goes_back(n: u64) -> Option<Command>
    ensures { result ≡ goes_back n }
{
    (n <= MOST).then(|| Command::Back(n as u32))
}

fn goes_forward(n: u64) -> Option<Command>
    ensures { result ≡ goes_forward n }
{
    (n <= MOST).then(|| Command::Forward(n as u32))
}

/// Whether a script has such steps: those of I/O it has only with a line `io`.
pub fn has_step(script: &Script, event: Event) -> bool
    ensures { result ≡ has_step script.now event }
{
    match event {
        Event::Io(_) => script.has_io(),
        Event::Loop => true,
        Event::Take(_) => true,
        Event::Finish(_) => true,
        Event::Cancel(_) => true,
        Event::Send(_) => true,
        Event::Tick(_) => true,
    }
}

/// How a line is read in a conversation on a script: a step that it hasn't is a bad command.
pub fn asked_in(script: &Script, asked: Asked) -> Asked
    ensures { result ≡ asked_in script.now asked }
{
    match asked {
        Asked::Do(Command::Step(event)) => {
            if has_step(script, event) {
                asked
            } else {
                Asked::Bad
            }
        }
        _ => asked,
    }
}

/// Every line asks for something, and for one thing alone where no name is declared twice.
#[tactic(auto, using(crate::proofs::Commands::reading))]
pub fn every_line_asks()
    ensures some { (names : List (List ℕ)) (line : List ℕ) → Asks names line (asked_of names line) }
    ensures one { (names : List (List ℕ)) (line : List ℕ) (a b : Asked) → AllPairs (λ x y. x ≢ y) names → Asks names line a → Asks names line b
        → a ≡ b }
{}

//! Where a run is to stop, and where it stopped.
ghost use Rattle.std.specs.Prelude.{◌≡◌};
ghost use Rattle.uv_session.specs.Breaks.{is_code, answers_code, matches, stop_of, same_code, same_phase};

use uv_ids::{Answer, Code, Fault, Phase, Seen, Var, Why};

/// Where a run is to stop (own). A step matches by the line that it appended.
#[derive(Clone, Copy, PartialEq, Eq)]
pub enum Break {
    /// A callback of this name: that of its handle, that of its request, or that of its close.
    Call(Var),
    /// A line that answers this code: to an op of the script, to a step from outside, or to an after callback.
    Code(Code),
    /// The beginning of this section.
    Section(Phase),
    /// The beginning of a poll.
    Poll,
}

/// Why no further step was done.
#[derive(Clone, Copy, PartialEq, Eq)]
pub enum Stop {
    /// All of them are done, and the last one matches no break.
    All,
    /// The last step matches a break; so many steps stand.
    Break(usize),
    /// The next one is refused.
    Refused(Why),
}

impl Break {
    /// Whether a line matches.
    pub fn matches(self, line: Seen) -> bool
        ensures { result ≡ matches self line }
    {
        match (self, line) {
            (Break::Call(name), Seen::Call(called, _)) => called.0 == name.0,
            (Break::Call(name), Seen::Io(called, _)) => called.0 == name.0,
            (Break::Call(name), Seen::After(_, called, _)) => called.0 == name.0,
            (Break::Call(name), Seen::Closed(called, _)) => called.0 == name.0,
            (Break::Code(code), line) => answers_code(line, code),
            (Break::Section(word), Seen::Section(begun)) => is_phase(begun, word),
            (Break::Poll, Seen::Poll(_)) => true,
            _ => false,
        }
    }
}

/// Whether a line answers this code.
fn answers_code(line: Seen, code: Code) -> bool
    ensures { result ≡ answers_code code line }
{
    match line {
        Seen::Op(_, answer) => is_code(answer, code),
        Seen::After(Some(_), _, _) => same_code(Code::Ok, code),
        Seen::After(None, _, _) => same_code(Code::Ecanceled, code),
        Seen::Cancel(_, answer) => is_code(answer, code),
        Seen::Send(_, answered) => same_code(answered, code),
        _ => false,
    }
}

/// Whether an answer is printed as this code.
fn is_code(answer: Answer, code: Code) -> bool
    ensures { result ≡ is_code code answer }
{
    match answer {
        Answer::Code(answered) => same_code(answered, code),
        Answer::Cancelled(_) => same_code(Code::Ok, code),
        _ => false,
    }
}

/// Whether one code is the other.
pub(crate) fn same_code(one: Code, other: Code) -> bool
    ensures { result ≡ same_code one other }
{
    one == other
}

/// Whether one section is the other.
pub(crate) fn is_phase(one: Phase, other: Phase) -> bool
    ensures { result ≡ same_phase one other }
{
    one == other
}

/// How a run ends whose next step isn't taken: a refusal is an answer of the run, anything else its fault.
pub fn stop_of(fault: Fault) -> Result<Stop, Fault>
    ensures { result ≡ stop_of fault }
{
    match fault {
        Fault::Refused(why) => Ok(Stop::Refused(why)),
        fault => Err(fault),
    }
}

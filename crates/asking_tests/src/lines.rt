//! Lines whose words are also names.

use std::test::Fail;
use uv_asking::{Offer, Part, Question, Recorded, Said, Takes, Which, read_part};
use uv_ids::{Code, Event, Phase, Var};
use uv_script::{Names, Script};

/// What a line says.
#[derive(Clone, Copy)]
enum Says {
    Offers(Event, u32),
    SendsDuring(u32, u32, u32),
    Differ(u32),
    Recorded(u32, u32, Event),
    RecordedWait(u32, u32, u64),
    Waits(u64, u32),
    Takes(u32, Option<u32>, u64),
    Asks(Question),
    Clock(u64),
    States(u32),
    Calls(u32, u32),
    Full,
    Bad,
}

/// The names `call`, `before`, `clock`, `states`, `of`, `stuck`, `x` and `full`, from 0.
const NAMES: &[u8] =
    b"var call\nvar before\nvar clock\nvar states\nvar of\nvar stuck\nvar x\nvar full\n";

const LINES: [(&[u8], Says); 53] = [
    (
        b"find call x",
        Says::Asks(Question::Call(Which::Any, Var(6), None)),
    ),
    (
        b"find call x 3",
        Says::Asks(Question::Call(Which::Any, Var(6), Some(3))),
    ),
    (b"find call x 0", Says::Bad),
    (
        b"find call before",
        Says::Asks(Question::Call(Which::Any, Var(1), None)),
    ),
    (
        b"find call before x",
        Says::Asks(Question::Before(Var(0), Var(6))),
    ),
    (b"find call before 2", Says::Bad),
    (b"find late before 2", Says::Bad),
    (
        b"find before before x",
        Says::Asks(Question::Before(Var(1), Var(6))),
    ),
    (b"find before before before", Says::Bad),
    (b"find late x 0", Says::Asks(Question::Late(Var(6), 0))),
    (b"find never before", Says::Asks(Question::Never(Var(1)))),
    (b"find stuck", Says::Asks(Question::Stuck)),
    (
        b"find code ok of of",
        Says::Asks(Question::Code(Code::Ok, Some(Var(4)))),
    ),
    (
        b"find code EFULL",
        Says::Asks(Question::Code(Code::Efull, None)),
    ),
    (b"find section poll", Says::Asks(Question::Poll)),
    (
        b"find section timers",
        Says::Asks(Question::Section(Phase::Timers)),
    ),
    (b"most clock 5", Says::Clock(5)),
    (b"most states 5", Says::States(5)),
    (b"most states 0", Says::Bad),
    (b"most call 0", Says::Calls(0, 0)),
    (b"full", Says::Full),
    (b"full full", Says::Bad),
    (b"most full 2", Says::Calls(7, 2)),
    (b"may wait 1", Says::Bad),
    (b"may wait 40 2", Says::Waits(40, 2)),
    (b"may wait 0 1", Says::Bad),
    (b"may io x 2", Says::Offers(Event::Io(Var(6)), 2)),
    (b"may io x", Says::Bad),
    (b"may io y 1", Says::Bad),
    (b"may send x 2 during of", Says::SendsDuring(6, 4, 2)),
    (b"may send x 2 during x", Says::Bad),
    (b"may io x 2 during of", Says::Bad),
    (b"may send x 2 while of", Says::Bad),
    (b"may send x 2 during", Says::Bad),
    (b"may differ 2", Says::Differ(2)),
    (b"may differ x", Says::Bad),
    (
        b"recorded 1 3 send x",
        Says::Recorded(1, 3, Event::Send(Var(6))),
    ),
    (
        b"recorded 0 0 finish 1",
        Says::Recorded(0, 0, Event::Finish(1)),
    ),
    (b"recorded 1 0 wait 40", Says::RecordedWait(1, 0, 40)),
    (b"recorded 0 0 take 65536", Says::Bad),
    (b"recorded 0 0 loop", Says::Bad),
    (b"recorded 0 send x", Says::Bad),
    (b"takes x 0", Says::Takes(6, None, 0)),
    (b"takes x @2 40", Says::Takes(6, Some(2), 40)),
    (b"takes x @0 40", Says::Bad),
    (b"takes x 2 40", Says::Bad),
    (b"takes x", Says::Bad),
    (
        b"find on x",
        Says::Asks(Question::Call(Which::Handle, Var(6), None)),
    ),
    (
        b"find after x 2",
        Says::Asks(Question::Call(Which::After, Var(6), Some(2))),
    ),
    (
        b"find closed x",
        Says::Asks(Question::Call(Which::Close, Var(6), None)),
    ),
    (
        b"find x after call",
        Says::Asks(Question::Behind(Var(6), Var(0))),
    ),
    (b"find x after x", Says::Bad),
    (b"find call after 2", Says::Bad),
];

fn is_said(names: &Names, line: &[u8], says: Says) -> bool {
    match (read_part(names, line), says) {
        (Said::One(Part::Finds(found)), Says::Asks(question)) => found == question,
        (Said::One(Part::Offers(found)), Says::Offers(event, times)) => {
            found.offer == Offer::Step(event) && found.times == Some(times)
        }
        (Said::One(Part::Offers(found)), Says::SendsDuring(name, job, times)) => {
            found.offer == Offer::SendDuring(Var(name), Var(job)) && found.times == Some(times)
        }
        (Said::One(Part::Differ(found)), Says::Differ(moved)) => found == moved,
        (Said::One(Part::Recorded(found)), Says::Recorded(polls, steps, event)) => {
            found
                == Recorded {
                    event,
                    waits: false,
                    polls,
                    steps,
                }
        }
        (Said::One(Part::Recorded(found)), Says::RecordedWait(polls, steps, ms)) => {
            found
                == Recorded {
                    event: Event::Tick(ms),
                    waits: true,
                    polls,
                    steps,
                }
        }
        (Said::One(Part::Offers(found)), Says::Waits(ms, times)) => {
            found.offer == Offer::WaitFor(ms) && found.times == Some(times)
        }
        (Said::One(Part::Takes(found)), Says::Takes(name, call, ms)) => {
            found
                == Takes {
                    name: Var(name),
                    call,
                    ms,
                }
        }
        (Said::One(Part::Clock(found)), Says::Clock(ms)) => found == ms,
        (Said::One(Part::States(found)), Says::States(states)) => found == states,
        (Said::One(Part::Calls(found)), Says::Calls(name, calls)) => {
            found.name.0 == name && found.calls == calls
        }
        (Said::One(Part::Full), Says::Full) => true,
        (Said::Bad, Says::Bad) => true,
        _ => false,
    }
}

#[test]
fn a_line_says_one_thing_also_where_its_words_are_names(rt: HostRuntime) -> Result<(), Fail> {
    let script = Script::parse(rt.alloc(), NAMES)?;
    for (line, says) in LINES {
        assert!(rt; is_said(script.names(), line, says));
    }
    Ok(())
}

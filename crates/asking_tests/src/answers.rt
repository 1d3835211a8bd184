//! The texts of answers.

use std::alloc::Global;
use std::test::Fail;
use uv_ids::{Event, Fault, Var};
use uv_inquiry::{
    Inquiry, found_text, never_text, no_end_text, out_of_memory_text, too_deep_text, unsettled_text,
};

/// An answer, and its text.
#[derive(Clone, Copy)]
enum Answer {
    Found(&'static [Event], u64),
    Never(u64),
    Unsettled(u64),
    TooDeep,
    OutOfMemory(u64),
}

const BOUNDED: &[u8] =
    b"var a\nvar b\nbegin\nmost b 1\nmost clock 60\nmost states 9\nmost a 3\nfind stuck\n";

const DIFFERING: &[u8] = b"var a\nbegin\nmay differ 2\nfind stuck\n";

const BOTH: &[u8] = b"var a\nbegin\nmay differ 0\nmost a 1\nmost clock 60\nfind stuck\n";

const NAMED: &[u8] = b"var a\nbegin\nmost a 2\nfind stuck\n";

const FREE: &[u8] = b"workers 1\nvar s\nbegin\nfind stuck\n";

const STEPS: &[Event] = &[
    Event::Loop,
    Event::Take(0),
    Event::Finish(0),
    Event::Tick(10),
    Event::Cancel(Var(0)),
    Event::Send(Var(0)),
];

const TEXTS: [(&[u8], Answer, &[u8]); 10] = [
    (
        FREE,
        Answer::Found(STEPS, 58),
        b"found in 6 steps, 58 states\norder 1.45\nworkers 1\nslots 1024 4294967295\nvar s\nbegin\n\
          loop\ntake 0\nfinish 0\ntick 10\ncancel s\nsend s\n",
    ),
    (
        FREE,
        Answer::Found(&[Event::Loop], 1),
        b"found in 1 step, 1 state\norder 1.45\nworkers 1\nslots 1024 4294967295\nvar s\nbegin\nloop\n",
    ),
    (
        BOUNDED,
        Answer::Never(13_588),
        b"never within clock 60, 1 call of b, 3 calls of a: 13588 states, every order\n",
    ),
    (
        NAMED,
        Answer::Never(1),
        b"never within 2 calls of a: 1 state, every order\n",
    ),
    (FREE, Answer::Never(2), b"never: 2 states, every order\n"),
    (
        DIFFERING,
        Answer::Never(7),
        b"never within 2 moved: 7 states, every order\n",
    ),
    (
        BOTH,
        Answer::Never(7),
        b"never within 0 moved, clock 60, 1 call of a: 7 states, every order\n",
    ),
    (
        FREE,
        Answer::Unsettled(1000),
        b"not settled within 1000 states\n",
    ),
    (
        FREE,
        Answer::TooDeep,
        b"not settled within 16777216 steps\n",
    ),
    (
        FREE,
        Answer::OutOfMemory(1),
        b"not settled within 1 state: out of memory\n",
    ),
];

const NO_END: &[u8] = b"no bound is given, and the script repeats: there may be no end of states\n";

fn text_of(alloc: Global, inquiry: &Inquiry, answer: Answer) -> Result<Vec<u8>, Fault> {
    match answer {
        Answer::Found(steps, states) => found_text(alloc, &inquiry.script, steps, states),
        Answer::Never(states) => never_text(alloc, inquiry, states),
        Answer::Unsettled(states) => unsettled_text(alloc, states),
        Answer::TooDeep => too_deep_text(alloc),
        Answer::OutOfMemory(states) => out_of_memory_text(alloc, states),
    }
}

fn has_text(alloc: Global, input: &[u8], answer: Answer, wanted: &[u8]) -> Result<bool, Fault> {
    let inquiry = Inquiry::parse(alloc, input)?;
    let text = text_of(alloc, &inquiry, answer)?;
    Ok(text.as_slice() == wanted)
}

#[test]
fn the_texts_of_answers(rt: HostRuntime) -> Result<(), Fail> {
    for (input, answer, wanted) in TEXTS {
        assert!(rt; has_text(rt.alloc(), input, answer, wanted)?);
    }
    assert!(rt; no_end_text().as_bytes() == NO_END);
    Ok(())
}

//! Calls of the program over a reader and writers in memory.
use crate::calls::{CALLS, Call, call_at};
use std::alloc::Global;
use std::collections::VecDeque;
use std::sync::Wait;
use std::test::Fail;
use std::thread::Threads;
use uv_cli::run;
use uv_engine::{Reader, Writer};
use uv_loop::ArenaLoop;

/// Whether a text is this one.
fn is(text: VecDeque<u8>, other: &[u8]) -> bool {
    if text.len() != other.len() {
        return false;
    }
    for (byte, wanted) in text.into_iter().zip(other) {
        if byte != *wanted {
            return false;
        }
    }
    true
}

/// Whether a call ends as it must.
fn ends_so<H: Threads + Wait + Sync>(rt: &H, alloc: Global, call: Call) -> bool {
    let mut output = VecDeque::new(alloc);
    let mut errors = VecDeque::new(alloc);
    let status = run::<ArenaLoop, _, _, _, _>(
        rt,
        alloc,
        call.words,
        &mut Reader::new(call.input),
        &mut Writer::new(&mut output),
        &mut errors,
    );
    status == call.status && is(output, call.output) && is(errors, call.errors)
}

#[test]
fn each_call_ends_with_its_status_and_its_texts(rt: HostRuntime) -> Result<(), Fail> {
    for place in 0..CALLS {
        assert!(&rt; ends_so(&rt, rt.alloc(), call_at(place)), "call {place}");
    }
    Ok(())
}

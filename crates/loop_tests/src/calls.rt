//! Calls of the program, and what each must come to, derived from the rules by hand.

/// A call: the program's words, its own name first, and its input; and then its exit status, what it writes, and its errors.
#[derive(Clone, Copy)]
pub struct Call {
    pub words: &'static [&'static str],
    pub input: &'static [u8],
    pub status: u8,
    pub output: &'static [u8],
    pub errors: &'static [u8],
}

/// How many calls there are.
pub const CALLS: u32 = 18;

/// A call of these words that is no command line, whatever the input has.
fn bad(words: &'static [&'static str]) -> Call {
    Call {
        words,
        input: b"main alive\nbegin\nloop\n",
        status: 2,
        output: b"",
        errors: b"uvt: bad command line\n",
    }
}

/// A call that ends well.
fn good(words: &'static [&'static str], input: &'static [u8], output: &'static [u8]) -> Call {
    Call {
        words,
        input,
        status: 0,
        output,
        errors: b"",
    }
}

/// A call of an input that is no script or no recording: nothing is written.
fn no_input(words: &'static [&'static str], input: &'static [u8], errors: &'static [u8]) -> Call {
    Call {
        words,
        input,
        status: 2,
        output: b"",
        errors,
    }
}

/// The replay of a recording whose steps are refused, or whose callbacks are others.
fn other(input: &'static [u8], output: &'static [u8], errors: &'static [u8]) -> Call {
    Call {
        words: &["uvt", "replay"],
        input,
        status: 3,
        output,
        errors,
    }
}

const DEBUG: &[&str] = &["uvt", "debug"];

const REPLAY: &[&str] = &["uvt", "replay"];

const LIVE: &[&str] = &["uvt", "live"];

/// The call at a place of the list.
pub fn call_at(place: u32) -> Call {
    match place {
        0 => bad(&["uvt"]),
        1 => bad(&["uvt", "debug", "replay"]),
        2 => bad(&["uvt", "live", "--workers", "0"]),
        3 => good(
            DEBUG,
            b"main alive\nbegin\nloop 2\n",
            b"alive = 0\nrefused ended\n",
        ),
        4 => no_input(
            DEBUG,
            b"var a\nmain start b 1 0\nbegin\n",
            b"uvt: bad script line 2\n",
        ),
        5 => no_input(DEBUG, b"main alive\n", b"uvt: bad script line 2\n"),
        6 => no_input(
            DEBUG,
            b"order 1.44\norder 1.45\nbegin\n",
            b"uvt: bad script line 2\n",
        ),
        7 => no_input(DEBUG, b"slots 0\nbegin\n", b"uvt: bad script line 1\n"),
        8 => live_call(),
        _ => recorded(place),
    }
}

/// A live run that can't go on: nobody sends to its handle.
fn live_call() -> Call {
    Call {
        words: LIVE,
        input: b"var a\nmain init a async\nmain run default\n",
        status: 4,
        output: b"",
        errors: b"uvt: stalled\n",
    }
}

/// Calls with recordings.
fn recorded(place: u32) -> Call {
    match place {
        9 => good(LIVE, b"main alive\n", OF_ALIVE),
        10 => good(
            &["uvt", "live", "--workers=2"],
            b"workers 3\nmain alive\n",
            OF_ALIVE_BY_TWO,
        ),
        11 => no_input(LIVE, b"main run\n", b"uvt: bad script line 1\n"),
        12 => no_input(REPLAY, b"", b"uvt: bad script line 1\n"),
        13 => no_input(
            REPLAY,
            b"uvt 1\nbegin\ncalls\n",
            b"uvt: bad script line 4\n",
        ),
        14 => other(
            b"uvt 1\nbegin\ntake 0\ncalls\nend\n",
            b"refused at 1 nowork\n",
            b"uvt: refused nowork\n",
        ),
        15 => good(REPLAY, OF_A_CLOSE, b"same\n"),
        16 => other(OF_ANOTHER_CLOSE, b"differs at 1\n", b"uvt: differs at 1\n"),
        _ => good(REPLAY, b"uvt 2\nbegin\ncalls\nend\n", b"same\n"),
    }
}

const OF_ALIVE: &[u8] =
    b"uvt 2\norder 1.45\nworkers 4\nslots 1024 4294967295\nmain alive\nbegin\nloop\ncalls\nend\n";

const OF_ALIVE_BY_TWO: &[u8] =
    b"uvt 2\norder 1.45\nworkers 2\nslots 1024 4294967295\nmain alive\nbegin\nloop\ncalls\nend\n";

/// Three ops, the line `pending` and those of seven sections and a poll, and then the close callback.
const OF_A_CLOSE: &[u8] =
    b"uvt 1\nvar a\nmain init a idle\nmain close a\nmain run nowait\nbegin\nloop\nloop\nloop\nloop\nloop\n\
loop\nloop\nloop\nloop\nloop\nloop\nloop\ncalls\nclosed a 0.0\nend\n";

const OF_ANOTHER_CLOSE: &[u8] =
    b"uvt 1\nvar a\nmain init a idle\nmain close a\nmain run nowait\nbegin\nloop\nloop\nloop\nloop\nloop\n\
loop\nloop\nloop\nloop\nloop\nloop\nloop\ncalls\nclosed a 0.1\nend\n";

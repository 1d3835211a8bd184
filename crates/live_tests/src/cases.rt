//! Scripts of live runs, and what each must come to.

use crate::gates::Moment;
use crate::given::{AGAIN, FIRST, SECOND, THIRD};
use uv_ids::{Code, Event, Fault, Seen, Var};
use uv_model::STEPS;

/// A live run: its script, what is held of its threads, how many steps it may take, how often it runs, and what it answers.
pub struct Case {
    pub name: &'static str,
    pub text: &'static [u8],
    pub holds: &'static [(Moment, Moment)],
    pub limit: usize,
    pub times: u32,
    /// Whether all facts hold of it, or its fault.
    pub answer: Result<bool, Fault>,
    pub facts: &'static [Fact],
}

/// What holds of a run.
pub enum Fact {
    /// The lines of this kind are these, in this order.
    Are(Kind, &'static [Seen]),
    /// The first lines of this kind are these, in this order.
    Begin(Kind, &'static [Seen]),
    /// There are so many lines of this kind, at the least and at the most.
    Count(Kind, usize, usize),
    /// This step stands at this place, from 0, of so many.
    Step(usize, usize, Event),
}

/// Lines of the trace.
pub enum Kind {
    /// Callbacks.
    Call,
    Take,
    Finish,
    Send,
    /// Sends to a handle that closes, or is closed.
    LateSend,
    /// After callbacks and sends.
    AfterOrSend,
    Tick,
}

/// SHA-256 of `abc`, and of the empty text (FIPS 180-4).
const OF_ABC: [u8; 32] = [
    0xba, 0x78, 0x16, 0xbf, 0x8f, 0x01, 0xcf, 0xea, 0x41, 0x41, 0x40, 0xde, 0x5d, 0xae, 0x22, 0x23,
    0xb0, 0x03, 0x61, 0xa3, 0x96, 0x17, 0x7a, 0x9c, 0xb4, 0x10, 0xff, 0x61, 0xf2, 0x00, 0x15, 0xad,
];

const OF_NOTHING: [u8; 32] = [
    0xe3, 0xb0, 0xc4, 0x42, 0x98, 0xfc, 0x1c, 0x14, 0x9a, 0xfb, 0xf4, 0xc8, 0x99, 0x6f, 0xb9, 0x24,
    0x27, 0xae, 0x41, 0xe4, 0x64, 0x9b, 0x93, 0x4c, 0xa4, 0x95, 0x99, 0x1b, 0x78, 0x52, 0xb8, 0x55,
];

const TWO_JOBS: &[u8] =
    b"workers 2\nvar p\nvar q\nmain queue p 1 abc\nmain queue q 1\nmain run default\n";

/// Forty jobs, a timer of 10 ms, and an async handle that two threads send to.
const FORTY_JOBS: &[u8] =
    b"workers 4\nvar a\nvar t\nmain init a async\nmain init t timer\nmain start t 10 0\n\
    var j0\nmain queue j0 1\nvar j1\nmain queue j1 1\nvar j2\nmain queue j2 1\nvar j3\nmain queue j3 1\n\
    var j4\nmain queue j4 1\nvar j5\nmain queue j5 1\nvar j6\nmain queue j6 1\nvar j7\nmain queue j7 1\n\
    var j8\nmain queue j8 1\nvar j9\nmain queue j9 1\nvar j10\nmain queue j10 1\nvar j11\nmain queue j11 1\n\
    var j12\nmain queue j12 1\nvar j13\nmain queue j13 1\nvar j14\nmain queue j14 1\nvar j15\nmain queue j15 1\n\
    var j16\nmain queue j16 1\nvar j17\nmain queue j17 1\nvar j18\nmain queue j18 1\nvar j19\nmain queue j19 1\n\
    var j20\nmain queue j20 1\nvar j21\nmain queue j21 1\nvar j22\nmain queue j22 1\nvar j23\nmain queue j23 1\n\
    var j24\nmain queue j24 1\nvar j25\nmain queue j25 1\nvar j26\nmain queue j26 1\nvar j27\nmain queue j27 1\n\
    var j28\nmain queue j28 1\nvar j29\nmain queue j29 1\nvar j30\nmain queue j30 1\nvar j31\nmain queue j31 1\n\
    var j32\nmain queue j32 1\nvar j33\nmain queue j33 1\nvar j34\nmain queue j34 1\nvar j35\nmain queue j35 1\n\
    var j36\nmain queue j36 1\nvar j37\nmain queue j37 1\nvar j38\nmain queue j38 1\nvar j39\nmain queue j39 1\n\
    main run default\non a close a\nthread 0 send a\nthread 63 send a\n";

const P: Seen = Seen::After(Some(OF_ABC), Var(0), FIRST);

const Q: Seen = Seen::After(Some(OF_NOTHING), Var(1), SECOND);

const CALL: Seen = Seen::Call(Var(0), FIRST);

const CLOSED: Seen = Seen::Closed(Var(0), FIRST);

const SECOND_CALL: Seen = Seen::Call(Var(1), SECOND);

static CASES: [Case; 14] = [
    Case {
        name: "a_timer_is_due_when_the_clock_has_jumped",
        text: b"var t\nmain init t timer\nmain start t 10 0\nmain run default\n",
        holds: &[],
        limit: STEPS,
        times: 1,
        answer: Ok(true),
        facts: &[
            Fact::Are(Kind::Tick, &[Seen::Tick(10)]),
            Fact::Are(Kind::Call, &[CALL]),
            Fact::Step(8, 17, Event::Tick(10)),
        ],
    },
    Case {
        name: "the_clock_goes_on_to_each_deadline",
        text: b"var s\nvar t\nmain init s timer\nmain init t timer\nmain start s 10 0\nmain start t 25 0\nmain run default\n",
        holds: &[],
        limit: STEPS,
        times: 1,
        answer: Ok(true),
        facts: &[
            Fact::Are(Kind::Tick, &[Seen::Tick(10), Seen::Tick(15)]),
            Fact::Are(Kind::Call, &[CALL, SECOND_CALL]),
        ],
    },
    Case {
        name: "a_job_that_is_held_past_the_end_is_taken_over",
        text: b"workers 1\nvar w\nmain queue w 1\nmain run nowait\n",
        holds: &[(Moment::Begun(FIRST), Moment::Second)],
        limit: STEPS,
        times: 1,
        answer: Ok(true),
        facts: &[
            Fact::Are(Kind::Call, &[]),
            // Behind two ops, eight sections, a poll, the run's end, and the take.
            Fact::Step(13, 14, Event::Finish(0)),
        ],
    },
    Case {
        name: "a_send_is_absorbed_while_another_sender_is_held",
        text: b"workers 1\nvar a\nvar i\nvar w\nmain init a async\nmain init i idle\nmain start i\nmain run default\n\
            on a @1 stop i\non a @1 queue w 1\non a @2 close a\nthread 0 send a\nthread 1 send a\n",
        // The job tells that the first send was absorbed.
        holds: &[(Moment::Sending(1), Moment::Begun(THIRD))],
        limit: 4_000_000,
        times: 1,
        answer: Ok(true),
        facts: &[Fact::Count(Kind::Send, 2, 2), Fact::Count(Kind::Take, 1, 1)],
    },
    Case {
        name: "two_workers_do_two_jobs",
        text: TWO_JOBS,
        holds: &[],
        limit: STEPS,
        times: 1,
        answer: Ok(true),
        facts: &[
            Fact::Count(Kind::Take, 2, 2),
            Fact::Count(Kind::Finish, 2, 2),
            Fact::Count(Kind::Call, 2, 2),
        ],
    },
    Case {
        name: "a_job_that_is_held_calls_back_last",
        text: TWO_JOBS,
        holds: &[(Moment::Begun(FIRST), Moment::Ended(SECOND))],
        limit: STEPS,
        times: 1,
        answer: Ok(true),
        facts: &[Fact::Are(Kind::Call, &[Q, P])],
    },
    Case {
        name: "the_other_one_calls_back_last_if_it_is_held",
        text: TWO_JOBS,
        holds: &[(Moment::Begun(SECOND), Moment::Ended(FIRST))],
        limit: STEPS,
        times: 1,
        answer: Ok(true),
        facts: &[Fact::Are(Kind::Call, &[P, Q])],
    },
    Case {
        name: "two_senders_wait_for_one_another",
        text: b"workers 1\nvar a\nmain init a async\nmain run default\non a close a\nthread 0 send a\nthread 1 send a\n",
        holds: &[
            (Moment::Sending(0), Moment::Sending(1)),
            (Moment::Sending(1), Moment::Sending(0)),
        ],
        limit: STEPS,
        times: 1,
        answer: Ok(true),
        facts: &[Fact::Are(Kind::Call, &[CALL, CLOSED])],
    },
    Case {
        name: "the_gate_is_asked_before_the_first_send",
        text: b"workers 1\nvar a\nvar w\nmain init a async\nmain queue w 1\nmain run default\n\
            after w @1 queue w 1\non a close a\nthread 0 send a\n",
        // The first job is held until the sender is there, and the sender until the second job has begun.
        holds: &[
            (Moment::Begun(SECOND), Moment::Sending(0)),
            (Moment::Sending(0), Moment::Begun(AGAIN)),
        ],
        limit: STEPS,
        times: 1,
        answer: Ok(true),
        facts: &[Fact::Begin(Kind::AfterOrSend, &[Q])],
    },
    Case {
        name: "four_workers_do_forty_jobs",
        text: FORTY_JOBS,
        holds: &[],
        limit: STEPS,
        times: 1,
        answer: Ok(true),
        facts: &[
            Fact::Count(Kind::Take, 40, 40),
            Fact::Count(Kind::Finish, 40, 40),
            Fact::Count(Kind::Send, 1, 2),
            Fact::Are(Kind::Tick, &[Seen::Tick(10)]),
        ],
    },
    Case {
        name: "a_run_that_nobody_wakes_is_stalled",
        text: b"workers 2\nvar a\nvar w\nmain init a async\nmain queue w 1\nmain queue w 1\nmain run default\n",
        holds: &[],
        limit: STEPS,
        times: 1,
        answer: Err(Fault::Stalled),
        facts: &[],
    },
    Case {
        name: "a_run_of_too_many_steps_is_ended",
        text: b"var i\nmain init i idle\nmain start i\nmain run default\n",
        holds: &[],
        limit: 1000,
        times: 1,
        answer: Err(Fault::StepsFull),
        facts: &[],
    },
    Case {
        name: "a_send_to_a_handle_that_closes_calls_nobody",
        text: b"var a\nvar t\nmain init a async\nmain close a\nmain init t timer\nmain start t 50 0\nmain run default\nthread 0 send a\n",
        holds: &[],
        limit: STEPS,
        times: 100,
        answer: Ok(true),
        facts: &[
            Fact::Are(Kind::Call, &[CLOSED, SECOND_CALL]),
            Fact::Count(Kind::Send, 1, 1),
            Fact::Count(Kind::LateSend, 1, 1),
        ],
    },
    Case {
        name: "two_sends_of_a_thread_are_one_or_too_late",
        text: b"workers 1\nvar a\nmain init a async\nmain run default\non a close a\nthread 0 send a\nthread 0 send a\n",
        holds: &[],
        limit: STEPS,
        times: 100,
        answer: Ok(true),
        facts: &[
            Fact::Are(Kind::Call, &[CALL, CLOSED]),
            Fact::Are(Kind::Send, &[Seen::Send(Var(0), Code::Ok)]),
        ],
    },
];

/// The runs: behind a function, since a proof writes them out where it meets them.
pub fn cases() -> &'static [Case] {
    &CASES
}

//! The scripts that are walked, and the events of the walks.

use uv_ids::{Event, Var};

const SENDS: &[u8] = b"var a\nmain init a async\nmain run default\non a @2 close a\n";

const CLOSINGS: &[u8] =
    b"var a\nvar b\nvar c\nmain init a timer\nmain init b timer\nmain close a\nmain run default\nmain stop a\n\
closed a close b\nclosed a init c timer\n";

const RETIRED: &[u8] =
    b"slots 1 1\nvar a\nmain init a idle\nmain close a\nmain run nowait\nmain init a idle\nmain close a\n\
main run nowait\nmain init a idle\n";

const IDLES: &[u8] = b"var i\nmain init i idle\nmain start i\nmain run default\non i @3 stop i\n";

const WORK: &[u8] =
    b"workers 2\nvar p\nvar q\nmain queue p 1 abc\nmain queue q 1\nmain run default\n";

const TIMERS: &[u8] =
    b"var t\nvar u\nmain init t timer\nmain start t 5 2\nmain init u timer\nmain start u 3 0\nmain run default\non t @2 stop t\n";

/// Watchers that aren't called on their own account, and a loop that is stopped and run again.
const OTHERS: &[u8] =
    b"var p\nvar c\nvar t\nvar a\nmain init p prepare\nmain init c check\nmain init t timer\nmain init a async\nmain start p\n\
main start c\nmain start t 2 3\nmain unref a\nmain run default\nmain run once\nmain run default\non p @1 unref p\non p @2 ref p\n\
on c @1 stop c\non c @1 start c\non c @2 updatetime\non c @3 stoploop\non t @1 repeat t 1\non t @2 again t\non t @4 close t\n\
closed t close p\nclosed p close c\nclosed c close a\n";

/// A script that never ends: `a` is an async handle and a request in turn, in fewer and fewer slots; the callbacks of others stop, close and
/// start one another.
pub(crate) const MIXED: &[u8] =
    b"slots 5 6\nworkers 2\nvar a\nvar t\nvar i\nvar u\nmain init a async\nmain init t timer\nmain start t 2 3\nmain init i idle\n\
main start i\nmain init u timer\nmain start u 4 0\nmain run default\non a close a\nclosed a queue a 1 x\nafter a init a async\n\
on i @5 stop i\non i @9 stop i\non t again u\non t start u 3 0\non t @2 stop t\non t @6 close t\non u start i\non u start t 1 2\n\
closed t init t timer\nclosed t start t 0 2\n";

/// The 64 marks that are drawn from.
const DRAWN: &[u8] = b"................................................sstttt0011aabbc<";

/// How many scripts there are.
pub(crate) const SCRIPTS: usize = 7;

/// The text of a script.
pub(crate) fn text_of(script: usize) -> &'static [u8] {
    match script {
        0 => SENDS,
        1 => CLOSINGS,
        2 => RETIRED,
        3 => IDLES,
        4 => WORK,
        5 => TIMERS,
        _ => OTHERS,
    }
}

/// The events of a script, a mark each.
pub(crate) fn marks_of(script: usize) -> &'static [u8] {
    match script {
        0 => b"........sssss...........s.............",
        1 => b"...............................",
        2 => b".............................",
        3 => b".........................................",
        4 => b"..110a............b...c.........",
        5 => b"..........t...........t............t.................",
        _ =>
            b"............t........t........t........t........t........t........t........t........t........t........t........",
    }
}

/// The event of a mark.
pub(crate) fn event_of(mark: u8) -> Event {
    match mark {
        b's' => Event::Send(Var(0)),
        b'c' => Event::Cancel(Var(0)),
        b't' => Event::Tick(3),
        b'0' => Event::Take(0),
        b'1' => Event::Take(1),
        b'a' => Event::Finish(0),
        b'b' => Event::Finish(1),
        _ => Event::Loop,
    }
}

/// The number after this one in a series that only looks random.
pub(crate) fn drawn_after(number: u32) -> u32 {
    number.wrapping_mul(1_103_515_245).wrapping_add(12_345)
}

/// The mark for a number of the series.
pub(crate) fn mark_of(number: u32) -> u8 {
    match DRAWN.get((number >> 16) as usize % 64) {
        Some(mark) => *mark,
        None => b'.',
    }
}

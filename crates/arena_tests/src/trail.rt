//! What no clause says: that there is memory for a record, whatever its change.

use std::process::Abort;
use std::test::Fail;
use uv_arena::{ChainPlace, RemoveUndo};
use uv_handle::{DelistUndo, RecordUndo, WalkUndo};
use uv_ids::{Kind, Var};
use uv_memory::{Form, Large, LastStep, Medium, Naming, Trail};
use uv_records::{HandleRecord, WatcherKind};
use uv_requests::CollectWorkUndo;
use uv_timer::TimerUndo;
use uv_work::{Request, Task};

const PLACE: ChainPlace = ChainPlace {
    list: 3,
    before: None,
    slot: 7,
    after: Some(9),
};

/// A handle was called.
fn called(last: &mut LastStep<u64>, place: u64) {
    last.note_walked(
        place,
        WalkUndo {
            kind: WatcherKind::Idle,
            woken: None,
        },
    );
}

/// A handle got another record, which was this.
fn edited(last: &mut LastStep<u64>, place: u64) {
    last.note_medium(
        place,
        Medium::Edited(RecordUndo {
            slot: 7,
            active: 4,
            old: HandleRecord::new(Var(5), Kind::Check),
        }),
    );
}

/// A request was freed.
fn ended(last: &mut LastStep<u64>, place: u64) {
    let collected = CollectWorkUndo {
        unlinked: PLACE,
        count: 6,
        removed: RemoveUndo {
            slot: 7,
            retired: true,
        },
    };
    if let Some(task) = Task::new(1, b"abc") {
        let request = Request::new(Var(1), task);
        last.note_large(place, Large::Ended(collected, request));
    }
}

/// A record more is there.
fn push<R: Abort>(rt: &R, trail: &mut Trail<u64>, last: &mut LastStep<u64>) {
    last.rename(Naming::Unbound(Var(2)));
    trail.reserve(1).expect(rt, "there is memory");
    trail.push_at(last.place(), last);
}

/// The last record is that of this place, and named as all are.
fn pops(trail: &mut Trail<u64>, last: &mut LastStep<u64>, place: u64) -> bool {
    trail.pop_at(last) == Some(place) && matches!(last.naming(), Naming::Unbound(Var(2)))
}

/// Whether the last four records are those of these places.
fn pops_four(trail: &mut Trail<u64>, last: &mut LastStep<u64>) -> bool {
    pops(trail, last, 4) && pops(trail, last, 3) && pops(trail, last, 2) && pops(trail, last, 1)
}

/// A timer that wasn't set got another record.
fn reset(last: &mut LastStep<u64>, place: u64) {
    last.note_timer(
        place,
        TimerUndo {
            removed: None,
            delisted: DelistUndo {
                unlinked: None,
                changed: RecordUndo {
                    slot: 7,
                    active: 4,
                    old: HandleRecord::new(Var(5), Kind::Timer),
                },
            },
            set: None,
        },
    );
}

#[test]
fn records_take_their_smallest_form(rt: HostRuntime) {
    let mut last = LastStep::new(0);
    called(&mut last, 1);
    assert!(rt; matches!(last.kept().form, Form::Small(_)));
    reset(&mut last, 2);
    assert!(rt; matches!(last.kept().form, Form::Medium(_)));
}

#[test]
fn records_lie_in_rows(rt: HostRuntime) {
    let mut trail = Trail::new(rt.alloc());
    let mut last = LastStep::new(0);
    assert!(rt; trail.pop_at(&mut last).is_none());
    called(&mut last, 1);
    push(&rt, &mut trail, &mut last);
    edited(&mut last, 2);
    push(&rt, &mut trail, &mut last);
    ended(&mut last, 3);
    push(&rt, &mut trail, &mut last);
    called(&mut last, 4);
    push(&rt, &mut trail, &mut last);
    assert!(rt; trail.len() == 4 && pops_four(&mut trail, &mut last) && trail.len() == 0);
}

//! Of what stands on lists, which the slots hold.
ghost use Rattle.std.specs.Prelude.{◌≡◌};
ghost use Rattle.uv_state_key.specs.Holding.{one_more, and_active, and_handle, and_request, and_content, no_holds};

use uv_ids::{Id, Kind};
use uv_records::HandleRecord;
use uv_work::{Content, Request};

/// How many slots hold something.
#[derive(Clone, Copy)]
pub(crate) enum Few {
    None,
    /// That of this id alone.
    One(Id),
    Many,
}

/// Whether a slot holds what may stand on a list, or how many do. A list is empty where none does.
#[derive(Clone, Copy)]
pub(crate) struct Holds {
    /// An active idle handle.
    pub idle: Few,
    /// An active prepare handle.
    pub prepare: Few,
    /// An active check handle.
    pub check: Few,
    /// An active async handle.
    pub wakes: Few,
    /// A timer that isn't active.
    pub rests: bool,
    /// A handle that closes.
    pub closing: Few,
    /// A request that waits, or that a worker runs.
    pub opened: bool,
    /// A request that is finished or cancelled.
    pub ended: Few,
}

/// None of the first slots, of which there are none, holds anything.
pub(crate) fn no_holds() -> Holds
    ensures { result ≡ no_holds }
{
    Holds {
        idle: Few::None,
        prepare: Few::None,
        check: Few::None,
        wakes: Few::None,
        rests: false,
        closing: Few::None,
        opened: false,
        ended: Few::None,
    }
}

/// One more slot holds it.
#[inline(always)]
fn add_one(few: &mut Few, id: Id)
    ensures { few.new ≡ one_more few.old id }
{
    *few = match *few {
        Few::None => Few::One(id),
        Few::One(_) => Few::Many,
        Few::Many => Few::Many,
    };
}

/// With an active handle of this kind.
#[inline(always)]
fn add_active(holds: &mut Holds, id: Id, kind: Kind)
    ensures { holds.new ≡ and_active holds.old id kind }
{
    match kind {
        Kind::Timer => {}
        Kind::Idle => add_one(&mut holds.idle, id),
        Kind::Prepare => add_one(&mut holds.prepare, id),
        Kind::Check => add_one(&mut holds.check, id),
        Kind::Async => add_one(&mut holds.wakes, id),
        Kind::Io => {}
    }
}

#[inline(always)]
fn add_handle(holds: &mut Holds, id: Id, handle: HandleRecord)
    ensures { holds.new ≡ and_handle holds.old id handle }
{
    if handle.closing {
        add_one(&mut holds.closing, id);
    }
    if handle.active {
        add_active(holds, id, handle.kind);
    } else if handle.is_timer() {
        holds.rests = true;
    }
}

#[inline(always)]
fn add_request(holds: &mut Holds, id: Id, request: Request)
    ensures { holds.new ≡ and_request holds.old id request }
{
    if request.is_open() {
        holds.opened = true;
    } else {
        add_one(&mut holds.ended, id);
    }
}

/// With the slot of an id, which holds this.
#[inline(always)]
pub(crate) fn add_content(holds: &mut Holds, id: Id, content: Option<Content>)
    ensures { holds.new ≡ and_content holds.old id content }
{
    match content {
        None => {}
        Some(Content::Handle(handle)) => add_handle(holds, id, handle),
        Some(Content::Request(request)) => add_request(holds, id, request),
    }
}

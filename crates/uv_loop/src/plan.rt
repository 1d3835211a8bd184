//! An event from outside, and what is to be done where nothing refuses it.
ghost use Rattle.std.specs.Prelude.{◌≡◌, IfSome, IfNone};
ghost use Rattle.uv_ids.specs.declared.event.Event.TheVariants.{Loop};
ghost use Rattle.uv_loop.specs.Acting.{outside_event};

use uv_ids::{Event, Id, Var};
use uv_model::Run;
use uv_work::Request;

/// An event from outside: all but the loop's own.
#[derive(Clone, Copy)]
pub(crate) enum Outside {
    Take(u16),
    Finish(u16),
    Cancel(Var),
    Send(Var),
    Io(Var),
    Tick(u64),
}

/// What is to be done, with all that was found where it was asked whether something refuses it.
#[derive(Clone, Copy)]
pub(crate) enum Plan {
    /// The worker takes this request.
    Take(u16, Id, Request),
    /// The worker finishes this request.
    Finish(u16, Id, Request),
    Cancel(Var),
    Send(Var),
    /// In this run the handle of I/O of this name is called.
    Io(Run, Var, Id),
    Tick(u64),
}

/// The event, if it is one from outside.
pub(crate) fn outside_of(event: Event) -> Option<Outside>
    ensures own { IfNone result (event ≡ Loop) }
    ensures outside { IfSome result (λ outside. event ≡ outside_event outside) }
{
    match event {
        Event::Loop => None,
        Event::Take(worker) => Some(Outside::Take(worker)),
        Event::Finish(worker) => Some(Outside::Finish(worker)),
        Event::Cancel(name) => Some(Outside::Cancel(name)),
        Event::Send(name) => Some(Outside::Send(name)),
        Event::Io(name) => Some(Outside::Io(name)),
        Event::Tick(ms) => Some(Outside::Tick(ms)),
    }
}

//! Requests call back, and closing handles end: their slots are freed.
ghost use Rattle.std.specs.Prelude.{◌≡◌, Some, None, IfSome, IfNone};
ghost use Rattle.uv_script.specs.Program.{arena_size};
ghost use Rattle.uv_model.specs.State.{front, front_request};
ghost use Rattle.uv_model.specs.Next.{collect_request, close_front};
ghost use Rattle.uv_memory.specs.Image.{held};
ghost use Rattle.uv_stands.specs.Doing.{OfEach, Returns, Goes};
ghost use Rattle.uv_stands.specs.Ready.{IsReady};

use crate::calling::begin_body;
use uv_ids::{Callback, Seen};
use uv_memory::Memory;
use uv_model::Run;
use uv_script::Script;
use uv_stands::{PackedLine, PackedPlace};

/// Calls back the front of the requests that are done, whose slot is freed. None, and nothing changed, where there is none.
pub(crate) fn collect_request(
    memory: &mut Memory<PackedPlace>,
    script: &Script,
    run: Run,
) -> Option<Seen>
    requires ready { IsReady (held memory.old) }
    requires last { (held memory.old).image.arena.last ≡ (arena_size script.now).last_generation }
    ensures returns { IfSome result (λ _. Returns memory.new.step_record (held memory.old) (held memory.new)) }
    ensures goes { IfSome result (λ line. Goes (λ s. collect_request script.now s run)
        (held memory.old).image (held memory.new).image (Some line)) }
    ensures same { IfNone result (held memory.new ≡ held memory.old) }
    ensures none { IfNone result (OfEach (held memory.old).image (λ s. front_request s s.done.yet ≡ None)) }
    ensures pieces { memory.new.slots.room ≡ memory.old.slots.room }
{
    match memory.end_request() {
        None => None,
        Some((id, request)) => {
            let name = request.name;
            begin_body(memory, script, run, Callback::After, name);
            Some(Seen::After(request.digest(), name, id))
        }
    }
}

/// Calls the close callback of the front of the closing handles, whose slot is freed. None, and nothing changed, where there is none.
pub(crate) fn close_front(
    memory: &mut Memory<PackedPlace>,
    script: &Script,
    run: Run,
) -> Option<PackedLine>
    requires ready { IsReady (held memory.old) }
    requires last { (held memory.old).image.arena.last ≡ (arena_size script.now).last_generation }
    ensures returns { IfSome result (λ _. Returns memory.new.step_record (held memory.old) (held memory.new)) }
    ensures goes { IfSome result (λ line. Goes (λ s. close_front script.now s run)
        (held memory.old).image (held memory.new).image line) }
    ensures same { IfNone result (held memory.new ≡ held memory.old) }
    ensures none { IfNone result (OfEach (held memory.old).image (λ s. front s s.closing.yet ≡ None)) }
    ensures pieces { memory.new.slots.room ≡ memory.old.slots.room }
{
    match memory.end_handle() {
        None => None,
        Some((id, handle)) => {
            let name = handle.name;
            begin_body(memory, script, run, Callback::Close, name);
            Some(PackedLine::closed(name, id))
        }
    }
}

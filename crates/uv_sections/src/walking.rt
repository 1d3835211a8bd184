//! Sections of watchers call the front of those that they have yet to run.
ghost use Rattle.std.specs.Prelude.{◌≡◌, ◌≢◌, Option, Some, None, IfSome, IfNone};
ghost use Rattle.uv_records.specs.declared.lists.WatcherKind.TheVariants.{Async as async};
ghost use Rattle.uv_model.specs.State.{front, watched};
ghost use Rattle.uv_model.specs.Next.{walk, walk_async};
ghost use Rattle.uv_memory.specs.Image.{held};
ghost use Rattle.uv_memory.specs.Undo.{Recorded};
ghost use Rattle.uv_stands.specs.Doing.{OfEach, Returns, Goes};
ghost use Rattle.uv_stands.specs.Ready.{IsReady};
ghost use Rattle.uv_sections.specs.Moved.{NamedMoved};

use crate::calling::begin_body;
use crate::standing::stand_in;
use uv_ids::{Callback, Id, Var};
use uv_memory::Memory;
use uv_model::{Run, Stage};
use uv_records::WatcherKind;
use uv_script::Script;
use uv_stands::{PackedLine, PackedPlace};

/// Moves the front of those that are yet to run to the end of its list: its name, and whether a callback of it was pending, which then
/// isn't any more. None, and nothing changed, where there is none.
fn move_on(memory: &mut Memory<PackedPlace>, kind: WatcherKind) -> Option<(Id, Var, bool)>
    ensures recorded { IfSome result (λ _. Recorded memory.new.step_record (held memory.old) (held memory.new)) }
    ensures moved { IfSome result (λ r. OfEach (held memory.old).image
        (λ s. NamedMoved kind (held memory.new).image s r.0 r.1 r.2)) }
    ensures same { IfNone result (held memory.new ≡ held memory.old) }
    ensures none { IfNone result (OfEach (held memory.old).image (λ s. front s (watched s kind).yet ≡ None)) }
    ensures pieces { memory.new.slots.room ≡ memory.old.slots.room }
{
    match memory.walk(kind) {
        None => None,
        Some((id, handle, pending)) => Some((id, handle.name, pending)),
    }
}

/// Calls the front of the idle, prepare or check handles that are yet to run. None, and nothing changed, where there is none.
#[inline(always)]
pub(crate) fn walk(
    memory: &mut Memory<PackedPlace>,
    script: &Script,
    run: &Run,
    kind: WatcherKind,
) -> Option<PackedLine>
    requires ready { IsReady (held memory.old) }
    requires other { kind ≢ async }
    ensures returns { IfSome result (λ _. Returns memory.new.step_record (held memory.old) (held memory.new)) }
    ensures goes { IfSome result (λ line. Goes (λ s. walk script.now s run.now kind)
        (held memory.old).image (held memory.new).image line) }
    ensures same { IfNone result (held memory.new ≡ held memory.old) }
    ensures none { IfNone result (OfEach (held memory.old).image (λ s. front s (watched s kind).yet ≡ None)) }
    ensures pieces { memory.new.slots.room ≡ memory.old.slots.room }
{
    match move_on(memory, kind) {
        None => None,
        Some((id, name, _)) => {
            begin_body(memory, script, *run, Callback::Handle, name);
            Some(PackedLine::call(name, id))
        }
    }
}

/// Calls the front of the async handles that are yet to run, if it was sent to, or passes it by. None, and nothing changed, where there
/// is none.
pub(crate) fn walk_async(
    memory: &mut Memory<PackedPlace>,
    script: &Script,
    run: &Run,
) -> Option<PackedLine>
    requires ready { IsReady (held memory.old) }
    ensures returns { IfSome result (λ _. Returns memory.new.step_record (held memory.old) (held memory.new)) }
    ensures goes { IfSome result (λ line. Goes (λ s. walk_async script.now s run.now)
        (held memory.old).image (held memory.new).image line) }
    ensures same { IfNone result (held memory.new ≡ held memory.old) }
    ensures none { IfNone result (OfEach (held memory.old).image (λ s. front s s.watchers.async.yet ≡ None)) }
    ensures pieces { memory.new.slots.room ≡ memory.old.slots.room }
{
    match move_on(memory, WatcherKind::Async) {
        None => None,
        Some((id, name, pending)) => {
            if pending {
                begin_body(memory, script, *run, Callback::Handle, name);
                Some(PackedLine::call(name, id))
            } else {
                stand_in(memory, *run, Stage::Walking(WatcherKind::Async));
                Some(PackedLine::nothing())
            }
        }
    }
}

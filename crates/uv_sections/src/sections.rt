//! What a section does next: it calls its front, or is over.
ghost use Rattle.std.specs.Prelude.{◌≡◌, ◌≢◌, ◌<◌, ◌^◌, Some, []};
ghost use Rattle.uv_records.specs.declared.lists.ListName.TheVariants.{AsyncYet};
ghost use Rattle.uv_records.specs.declared.lists.WatcherKind.TheVariants.{Async as async};
ghost use Rattle.uv_arena.specs.Image.{members};
ghost use Rattle.uv_script.specs.Program.{arena_size};
ghost use Rattle.uv_model.specs.Next.{collect_request, close_front, after_walk, walk, walk_async, in_walk};
ghost use Rattle.uv_memory.specs.Image.{held};
ghost use Rattle.uv_stands.specs.Doing.{Returns, Goes};
ghost use Rattle.uv_stands.specs.Ready.{IsReady};
ghost use Rattle.uv_sections.specs.Behind.{IsClearAfter};

use crate::beginning::{begin_closing, begin_walk};
use crate::freeing::{close_front, collect_request};
use crate::iterating::turn;
use crate::polling::begin_poll;
use crate::walking::{walk, walk_async};
use uv_ids::Seen;
use uv_memory::Memory;
use uv_model::{Run, Turn};
use uv_records::WatcherKind;
use uv_script::Script;
use uv_stands::{PackedLine, PackedPlace};

/// Goes on in the done section: the front of the requests that are done calls back, or the async handles begin.
pub fn in_done(memory: &mut Memory<PackedPlace>, script: &Script, run: Run) -> Option<Seen>
    requires ready { IsReady (held memory.old) }
    requires last { (held memory.old).image.arena.last ≡ (arena_size script.now).last_generation }
    requires empty { members (held memory.old).image.arena AsyncYet ≡ [] }
    ensures returns { Returns memory.new.step_record (held memory.old) (held memory.new) }
    ensures goes { Goes (λ s. collect_request script.now s run)
        (held memory.old).image (held memory.new).image result }
    ensures pieces { memory.new.slots.room ≡ memory.old.slots.room }
{
    match collect_request(memory, script, run) {
        Some(called) => Some(called),
        None => begin_walk(memory, run, WatcherKind::Async).seen(),
    }
}

/// Goes on in the closing section: the close callback of the front of the closing handles is called, or the section is over.
pub fn in_closing(memory: &mut Memory<PackedPlace>, script: &Script, run: Run) -> PackedLine
    requires ready { IsReady (held memory.old) }
    requires last { (held memory.old).image.arena.last ≡ (arena_size script.now).last_generation }
    requires line { run.line < 2 ^ 63 }
    ensures returns { Returns memory.new.step_record (held memory.old) (held memory.new) }
    ensures goes { Goes (λ s. close_front script.now s run)
        (held memory.old).image (held memory.new).image result }
    ensures pieces { memory.new.slots.room ≡ memory.old.slots.room }
{
    match close_front(memory, script, run) {
        Some(called) => called,
        None => turn(memory, script, run, Turn::BehindClosing),
    }
}

/// Goes on behind the section of a kind.
fn after_walk(memory: &mut Memory<PackedPlace>, run: &Run, kind: WatcherKind) -> PackedLine
    requires ready { IsReady (held memory.old) }
    requires empty { IsClearAfter kind (held memory.old).image.arena }
    ensures returns { Returns memory.new.step_record (held memory.old) (held memory.new) }
    ensures goes { Goes (λ s. after_walk s run.now kind) (held memory.old).image (held memory.new).image result }
    ensures pieces { memory.new.slots.room ≡ memory.old.slots.room }
{
    match kind {
        WatcherKind::Idle => begin_walk(memory, *run, WatcherKind::Prepare),
        WatcherKind::Prepare => begin_poll(memory, *run),
        WatcherKind::Check => begin_closing(memory, *run),
        WatcherKind::Async => begin_walk(memory, *run, WatcherKind::Check),
    }
}

/// Goes on in the section of the idle, prepare or check handles: the front of those that are yet to run is called, or the next part begins.
#[inline(always)]
fn in_plain(
    memory: &mut Memory<PackedPlace>,
    script: &Script,
    run: &Run,
    kind: WatcherKind,
) -> PackedLine
    requires ready { IsReady (held memory.old) }
    requires other { kind ≢ async }
    requires empty { IsClearAfter kind (held memory.old).image.arena }
    ensures returns { Returns memory.new.step_record (held memory.old) (held memory.new) }
    ensures goes { Goes (λ s. walk script.now s run.now kind)
        (held memory.old).image (held memory.new).image result }
    ensures pieces { memory.new.slots.room ≡ memory.old.slots.room }
{
    match walk(memory, script, run, kind) {
        Some(called) => called,
        None => after_walk(memory, run, kind),
    }
}

/// Goes on in the async section: the front of the async handles that are yet to run is called or passed by, or the check handles
/// begin.
fn in_async(memory: &mut Memory<PackedPlace>, script: &Script, run: &Run) -> PackedLine
    requires ready { IsReady (held memory.old) }
    requires empty { IsClearAfter async (held memory.old).image.arena }
    ensures returns { Returns memory.new.step_record (held memory.old) (held memory.new) }
    ensures goes { Goes (λ s. walk_async script.now s run.now)
        (held memory.old).image (held memory.new).image result }
    ensures pieces { memory.new.slots.room ≡ memory.old.slots.room }
{
    match walk_async(memory, script, run) {
        Some(passed) => passed,
        None => after_walk(memory, run, WatcherKind::Async),
    }
}

/// Goes on in the section of a kind: the front of its handles that are yet to run is called or passed by, or the next part begins.
pub fn in_walk(
    memory: &mut Memory<PackedPlace>,
    script: &Script,
    run: &Run,
    kind: WatcherKind,
) -> PackedLine
    requires ready { IsReady (held memory.old) }
    requires empty { IsClearAfter kind (held memory.old).image.arena }
    ensures returns { Returns memory.new.step_record (held memory.old) (held memory.new) }
    ensures goes { Goes (λ s. in_walk script.now s run.now kind)
        (held memory.old).image (held memory.new).image result }
    ensures pieces { memory.new.slots.room ≡ memory.old.slots.room }
{
    match kind {
        WatcherKind::Idle => in_plain(memory, script, run, kind),
        WatcherKind::Prepare => in_plain(memory, script, run, kind),
        WatcherKind::Check => in_plain(memory, script, run, kind),
        WatcherKind::Async => in_async(memory, script, run),
    }
}

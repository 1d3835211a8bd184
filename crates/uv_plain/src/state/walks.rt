//! The watchers of each kind, and the sections that call them.
ghost use Rattle.std.specs.Prelude.{◌≡◌, ◌<◌, ◌^◌, IfOk, OnOk, OnErr, length};
ghost use Rattle.uv_records.specs.Walks.{with_first, all_yet};
ghost use Rattle.uv_model.specs.State.{watched, with_watched};
ghost use Rattle.uv_model.specs.Ops.{watcher_started};
ghost use Rattle.uv_model.specs.Bounds.{CanStep};
ghost use Rattle.uv_model.specs.Next.{Moves, begin_walk, begin_closing, after_walk, front_moved, walk, walk_async, in_walk, close_front};
ghost use Rattle.uv_model.specs.Steps.{Steps};

use crate::state::LoopState;
use std::alloc::AllocError;
use uv_ids::{Callback, Fault, Id, Phase, Seen};
use uv_model::{Outcome, Place, Run, Stage, Turn};
use uv_records::{HandleRecord, WatcherKind};
use uv_script::Script;

impl LoopState {
    /// Puts a handle at the front of its list. Without memory nothing changes.
    #[tactic(auto, using(uv_model::proofs::Walks::same_those))]
    fn list_watcher(&mut self, kind: WatcherKind, id: Id) -> Result<(), AllocError>
        ensures ok { OnOk result (self.new ≡ with_watched self.old kind (with_first (watched self.old kind) id)) }
        ensures err { OnErr result (self.new ≡ self.old) }
    {
        self.watchers.of_mut(kind).push_front(id)
    }

    /// Starts a watcher: it is active, and at the front of its list. Without memory nothing changes.
    pub(super) fn start_watching(
        &mut self,
        kind: WatcherKind,
        id: Id,
        handle: HandleRecord,
    ) -> Result<(), AllocError>
        ensures ok { OnOk result (self.new ≡ watcher_started self.old kind id handle) }
        ensures err { OnErr result (self.new ≡ self.old) }
    {
        self.list_watcher(kind, id)?;
        self.set_handle(id, handle.activated());
        Ok(())
    }

    /// Has the whole list yet to run.
    fn make_all_yet(&mut self, kind: WatcherKind)
        ensures { self.new ≡ with_watched self.old kind (all_yet (watched self.old kind)) }
    {
        self.watchers.of_mut(kind).begin_walk();
    }

    /// Moves the front of those yet to run to the end of the list. Without memory nothing changes.
    #[tactic(auto, using(uv_model::proofs::Walks::same_those))]
    fn move_on(&mut self, kind: WatcherKind, front: Id) -> Result<(), AllocError>
        requires { 0 < length (watched self.old kind).yet }
        ensures ok { OnOk result (self.new ≡ front_moved self.old kind front) }
        ensures err { OnErr result (self.new ≡ self.old) }
    {
        self.watchers.of_mut(kind).move_on(front)
    }

    /// Begins a section of watchers.
    pub(super) fn begin_walk(&mut self, run: Run, kind: WatcherKind) -> Outcome
        ensures { begin_walk self.old run kind ≡ Moves self.new result.seen }
    {
        self.make_all_yet(kind);
        self.begin(run, Stage::Walking(kind), kind.phase())
    }

    /// Begins the closing section.
    fn begin_closing(&mut self, run: Run) -> Outcome
        ensures { begin_closing self.old run ≡ Moves self.new result.seen }
    {
        self.closing.begin_walk();
        self.begin(run, Stage::Closing, Phase::Closing)
    }

    /// Leaves a section of watchers.
    fn after_walk(&mut self, run: Run, kind: WatcherKind) -> Outcome
        requires { self.old.time < 2 ^ 63 }
        ensures { after_walk self.old run kind ≡ Moves self.new result.seen }
    {
        match kind {
            WatcherKind::Idle => self.begin_walk(run, WatcherKind::Prepare),
            WatcherKind::Prepare => self.begin_poll(run),
            WatcherKind::Check => self.begin_closing(run),
            WatcherKind::Async => self.begin_walk(run, WatcherKind::Check),
        }
    }

    /// Calls the front of those yet to run, or leaves the section. Without memory nothing changes.
    #[tactic(auto, using(uv_model::proofs::Walks::walks))]
    fn walk(&mut self, script: &Script, run: Run, kind: WatcherKind) -> Result<Outcome, AllocError>
        requires { CanStep self.old }
        ensures ok { IfOk result (λ outcome. walk script.now self.old run kind ≡ Moves self.new outcome.seen) }
        ensures err { OnErr result (self.new ≡ self.old) }
    {
        let Some((id, handle)) = self.front(self.watchers.of(kind).yet()) else {
            return Ok(self.after_walk(run, kind));
        };
        self.move_on(kind, id)?;
        Ok(self.call(script, run, id, handle.name))
    }

    /// Calls the front of those yet to run, if it was sent to, or leaves the section. Without memory nothing changes.
    #[tactic(auto, using(uv_model::proofs::Walks::walks))]
    fn walk_async(&mut self, script: &Script, run: Run) -> Result<Outcome, AllocError>
        requires { CanStep self.old }
        ensures ok { IfOk result (λ outcome. walk_async script.now self.old run ≡ Moves self.new outcome.seen) }
        ensures err { OnErr result (self.new ≡ self.old) }
    {
        let Some((id, handle)) = self.front(self.watchers.of(WatcherKind::Async).yet()) else {
            return Ok(self.after_walk(run, WatcherKind::Async));
        };
        self.move_on(WatcherKind::Async, id)?;
        if handle.pending {
            self.set_handle(id, handle.woken());
            return Ok(self.call(script, run, id, handle.name));
        }
        self.place = Place::Running(Run {
            stage: Stage::Walking(WatcherKind::Async),
            body: None,
            ..run
        });
        Ok(Outcome { seen: None })
    }

    /// Goes on in a section of watchers.
    pub(super) fn in_walk(
        &mut self,
        script: &Script,
        run: Run,
        kind: WatcherKind,
    ) -> Result<Outcome, Fault>
        requires { CanStep self.old }
        ensures { Steps (in_walk script.now self.old run kind) self.old result self.new }
    {
        let outcome = match kind {
            WatcherKind::Async => self.walk_async(script, run),
            WatcherKind::Idle => self.walk(script, run, kind),
            WatcherKind::Prepare => self.walk(script, run, kind),
            WatcherKind::Check => self.walk(script, run, kind),
        };
        Ok(outcome?)
    }

    /// Frees the slot of the front of the closing handles and calls it, or leaves the section. Without memory nothing changes.
    #[tactic(auto, using(uv_model::proofs::Walks::walks))]
    fn close_front(&mut self, script: &Script, run: Run) -> Result<Outcome, AllocError>
        requires able { CanStep self.old }
        requires line { run.line < 2 ^ 63 }
        ensures ok { IfOk result (λ outcome. close_front script.now self.old run ≡ Moves self.new outcome.seen) }
        ensures err { OnErr result (self.new ≡ self.old) }
    {
        let Some((id, handle)) = self.front(self.closing.yet()) else {
            return Ok(self.turn(script.order(), run, Turn::BehindClosing));
        };
        self.arena.release(id, script.arena_size().last_generation)?;
        self.closing.take_front();
        let name = handle.name;
        Ok(self.calls(script, run, Callback::Close, name, Seen::Closed(name, id)))
    }

    /// Goes on in the closing section.
    pub(super) fn in_closing(&mut self, script: &Script, run: Run) -> Result<Outcome, Fault>
        requires able { CanStep self.old }
        requires line { run.line < 2 ^ 63 }
        ensures { Steps (close_front script.now self.old run) self.old result self.new }
    {
        Ok(self.close_front(script, run)?)
    }
}

//! Callbacks of I/O, which come when the environment says so.
ghost use Rattle.std.specs.Prelude.{◌≡◌, slice_get, Some};
ghost use Rattle.uv_ids.specs.declared.phase.Phase.TheVariants as phase;
ghost use Rattle.uv_records.specs.declared.lists.WatcherKind.TheVariants as watcher;
ghost use Rattle.uv_model.specs.declared.place.Stage.TheVariants.{Walking};
ghost use Rattle.uv_model.specs.State.{live_handle, named};
ghost use Rattle.uv_model.specs.Bounds.{CanStep, AreBelow};
ghost use Rattle.uv_model.specs.Next.{Moves, begins, is_woken, begin_done, leave_polled, takes_io, io_run, io_handle, stage_polled, time_polled, call_io, io};
ghost use Rattle.uv_model.specs.Steps.{Falls};
ghost use Rattle.uv_model.specs.After.{refusal_of};

use crate::state::LoopState;
use crate::state::phases::seen;
use uv_ids::{Callback, Id, Phase, Seen, Var, Why};
use uv_model::{Outcome, Place, Run, Stage};
use uv_records::WatcherKind;
use uv_script::Script;

impl LoopState {
    /// Goes on behind a poll that a callback of I/O left.
    pub(super) fn leave_polled(&mut self, run: Run, woken: bool) -> Outcome
        ensures { leave_polled self.old run woken ≡ Moves self.new result.seen }
    {
        if woken {
            self.begin_done(run)
        } else {
            self.begin(run, Stage::DoneUnwoken, Phase::Done)
        }
    }

    /// Begins the async section of an iteration whose poll nobody woke: no handle is yet to run.
    pub(super) fn begin_async(&mut self, run: Run) -> Outcome
        ensures { begins self.old run (Walking watcher.Async) phase.Async ≡ Moves self.new result.seen }
    {
        self.begin(run, Stage::Walking(WatcherKind::Async), Phase::Async)
    }

    /// Whether a callback of I/O may begin there.
    fn takes_io(&self, run: Run) -> bool
        ensures { result ≡ takes_io self.now run.stage run.body }
    {
        match (run.body, run.stage) {
            (Some(_), _) => false,
            (None, Stage::Pending) => true,
            (None, Stage::Poll(_)) => true,
            (None, Stage::Polled(_)) => true,
            (None, Stage::Done) => true,
            (None, Stage::DoneUnwoken) => true,
            (None, Stage::Walking(WatcherKind::Async)) => {
                !self.watchers.of(WatcherKind::Async).any_yet()
            }
            (None, Stage::Walking(WatcherKind::Idle)) => false,
            (None, Stage::Walking(WatcherKind::Prepare)) => false,
            (None, Stage::Walking(WatcherKind::Check)) => false,
            (None, Stage::Entry) => false,
            (None, Stage::Closing) => false,
            (None, Stage::Timers(_, _)) => false,
        }
    }

    /// The run under way, where a callback of I/O may begin.
    fn io_run(&self, script: &Script) -> Option<Run>
        ensures { result ≡ io_run script.now self.now self.now.place }
    {
        match self.place {
            Place::Main(_) => None,
            Place::Running(run) => (script.has_io() && self.takes_io(run)).then_some(run),
        }
    }

    /// The handle of I/O of a name, if it is live and active.
    fn io_handle(&self, name: Var) -> Option<Id>
        ensures { result ≡ io_handle (live_handle self.now name) }
    {
        let (id, handle) = self.live_handle(name).ok()?;
        (handle.is_io() && handle.active).then_some(id)
    }

    /// Leaves the poll, if the run is in it: the time is refreshed, and it is kept whether the poll was woken.
    fn polled(&mut self, run: Run) -> Run
        ensures state { self.new ≡ record self.old { time = time_polled self.old run.stage } }
        ensures run { result ≡ record run { stage = stage_polled self.old run.stage } }
    {
        match run.stage {
            Stage::Poll(_) => {
                let stage = Stage::Polled(self.is_woken());
                self.refresh();
                Run { stage, ..run }
            }
            _ => run,
        }
    }

    /// Has a handle of I/O called.
    pub(super) fn io(&mut self, script: &Script, name: Var) -> Result<Outcome, Why>
        requires { CanStep self.old }
        ensures { Falls (io script.now self.old name) self.old result self.new }
    {
        if name.0 as usize >= self.names.len() {
            return Err(Why::Range);
        }
        let (Some(run), Some(id)) = (self.io_run(script), self.io_handle(name)) else {
            return Err(Why::Blocked);
        };
        let run = self.polled(run);
        Ok(self.calls(script, run, Callback::Handle, name, Seen::Io(name, id)))
    }

    /// There has to be such a name, and its handle has to wait for I/O where its callback may begin.
    pub(super) fn io_refusal(&self, script: &Script, name: Var) -> Option<Why>
        ensures { result ≡ refusal_of (io script.now self.now name) }
    {
        if name.0 as usize >= self.names.len() {
            return Some(Why::Range);
        }
        match (self.io_run(script), self.io_handle(name)) {
            (Some(_), Some(_)) => None,
            _ => Some(Why::Blocked),
        }
    }
}

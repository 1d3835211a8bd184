//! The phases of a run, and one step.
ghost use Rattle.std.specs.Prelude.{◌≡◌, ◌<◌, ◌+◌, ◌^◌, IfOk, IfSome, OnErr, length, slice_get, drop, None, Some};
ghost use Rattle.uv_script.specs.Program.{lines_in, order_of};
ghost use Rattle.uv_model.specs.State.{named};
ghost use Rattle.uv_model.specs.declared.place.Timing.TheVariants.{Collecting};
ghost use Rattle.uv_model.specs.Bounds.{CanStep, AreBelow};
ghost use Rattle.uv_model.specs.Handing.{job_run};
ghost use Rattle.uv_ids.specs.declared.event.Event.TheVariants.{Finish};
ghost use Rattle.uv_model.specs.Next.{Moves, begins, ends, goes, goes_by, turns, begin_poll, poll, calls, call, fire, first_due, collect, call_due, timers, stage_step, body_step, main_step, sent_to, tick, next};
ghost use Rattle.uv_model.specs.Steps.{Steps, Falls};

use crate::state::LoopState;
use std::alloc::AllocError;
use uv_ids::{Callback, Event, Fault, Id, Mode, Order, Phase, Seen, Site, Var, Why};
use uv_model::{Body, Outcome, Place, Run, Stage, TimersOf, Timing, Turn, Way, body_from, way};
use uv_records::{HandleRecord, Named, WatcherKind};
use uv_script::{MainOp, Script};
use uv_work::WorkResult;

/// A step that appended a line.
pub(super) fn seen(seen: Seen) -> Outcome
    ensures { result.seen ≡ Some seen }
{
    Outcome { seen: Some(seen) }
}

impl LoopState {
    /// Goes to a section of the run under way.
    pub(super) fn begin(&mut self, run: Run, stage: Stage, phase: Phase) -> Outcome
        ensures { begins self.old run stage phase ≡ Moves self.new result.seen }
    {
        self.place = Place::Running(Run {
            stage,
            body: None,
            ..run
        });
        seen(Seen::Section(phase))
    }

    /// Whether the loop goes on.
    fn goes(&self) -> bool
        ensures { result ≡ goes self.now }
    {
        self.is_alive() && !self.stop_flag
    }

    /// Ends the run, and clears the stop flag.
    fn end(&mut self, run: Run) -> Outcome
        requires { run.line < 2 ^ 63 }
        ensures { ends self.old run ≡ Moves self.new result.seen }
    {
        let alive = self.is_alive();
        self.place = Place::Main(run.line + 1);
        self.stop_flag = false;
        seen(Seen::End(alive))
    }

    /// Begins timers, with the time and the idling as the order says.
    fn begin_timers(&mut self, order: Order, run: Run, part: TimersOf) -> Outcome
        ensures { goes_by order self.old run (Way.ToTimers part) ≡ Moves self.new result.seen }
    {
        match (order, part) {
            (Order::V145, TimersOf::Entry) => {}
            (Order::V144, TimersOf::Entry) => {
                self.refresh();
                self.idled = false;
            }
            (_, TimersOf::Iteration) => self.refresh(),
        }
        self.begin(run, Stage::Timers(part, Timing::Collecting), Phase::Timers)
    }

    /// Begins the pending section. In the order of 1.45 it keeps whether an idle handle is active.
    fn begin_pending(&mut self, order: Order, run: Run) -> Outcome
        ensures { goes_by order self.old run Way.ToPending ≡ Moves self.new result.seen }
    {
        if matches!(order, Order::V145) {
            self.idled = self.watchers.of(WatcherKind::Idle).any_listed();
        }
        self.begin(run, Stage::Pending, Phase::Pending)
    }

    /// Goes on so.
    fn go_by(&mut self, order: Order, run: Run, way: Way) -> Outcome
        requires { run.line < 2 ^ 63 }
        ensures { goes_by order self.old run way ≡ Moves self.new result.seen }
    {
        match way {
            Way::ToTimers(part) => self.begin_timers(order, run, part),
            Way::ToPending => self.begin_pending(order, run),
            Way::ToEnd => self.end(run),
        }
    }

    /// Goes on from a turn.
    pub(super) fn turn(&mut self, order: Order, run: Run, turn: Turn) -> Outcome
        requires { run.line < 2 ^ 63 }
        ensures { turns order self.old run turn ≡ Moves self.new result.seen }
    {
        let way = way(order, run.mode, self.goes(), turn);
        self.go_by(order, run, way)
    }

    /// Begins the poll.
    pub(super) fn begin_poll(&mut self, run: Run) -> Outcome
        requires { self.old.time < 2 ^ 63 }
        ensures { begin_poll self.old run ≡ Moves self.new result.seen }
    {
        let timeout = self.poll_timeout(run.mode);
        let deadline = self.deadline_of(timeout);
        self.place = Place::Running(Run {
            stage: Stage::Poll(deadline),
            body: None,
            ..run
        });
        seen(Seen::Poll(timeout))
    }

    /// Leaves the poll, if it may be left.
    fn poll(&mut self, run: Run, deadline: Option<u64>) -> Result<Outcome, Why>
        ensures { Falls (poll self.old run deadline) self.old result self.new }
    {
        if !self.may_leave(deadline) {
            return Err(Why::Blocked);
        }
        self.refresh();
        Ok(self.begin_done(run))
    }

    /// Begins a callback, with its line: one call more of its name.
    #[tactic(auto, using(uv_model::proofs::Calls::count_below))]
    pub(super) fn calls(
        &mut self,
        script: &Script,
        run: Run,
        kind: Callback,
        name: Var,
        line: Seen,
    ) -> Outcome
        requires { AreBelow (2 ^ 31) (named self.old name).calls }
        ensures { calls script.now self.old run kind name line ≡ Moves self.new result.seen }
    {
        let named = self.named(name);
        let calls = named.calls.counted(kind);
        self.set_named(name, Named { calls, ..named });
        let body = body_from(script, kind, name, calls.of(kind), 0);
        self.place = Place::Running(Run { body, ..run });
        seen(line)
    }

    /// Begins the callback of a handle.
    pub(super) fn call(&mut self, script: &Script, run: Run, id: Id, name: Var) -> Outcome
        requires { AreBelow (2 ^ 31) (named self.old name).calls }
        ensures { call script.now self.old run id name ≡ Moves self.new result.seen }
    {
        self.calls(script, run, Callback::Handle, name, Seen::Call(name, id))
    }

    /// Calls the front of the ready list, or leaves the section. A timer that repeats is started again first. Without memory
    /// nothing changes.
    #[tactic(auto, using(crate::proofs::Fires::fires))]
    fn fire(&mut self, script: &Script, run: Run, part: TimersOf) -> Result<Outcome, AllocError>
        requires able { CanStep self.old }
        requires line { run.line < 2 ^ 63 }
        ensures ok { IfOk result (λ outcome. fire script.now self.old run part ≡ Moves self.new outcome.seen) }
        ensures err { OnErr result (self.new ≡ self.old) }
    {
        let Some((id, handle)) = self.front(&self.ready) else {
            return Ok(self.turn(script.order(), run, Turn::Behind(part)));
        };
        if handle.repeat != 0 {
            self.start_stopped(id, handle, handle.repeat, handle.repeat)?;
        }
        self.ready.remove(0);
        let stage = Stage::Timers(part, Timing::Firing);
        Ok(self.call(script, Run { stage, ..run }, id, handle.name))
    }

    /// The first timer, if it is due.
    fn first_due(&self) -> Option<(Id, HandleRecord)>
        ensures due { result ≡ first_due self.now self.now.timers }
        ensures some { IfSome result (λ t. 0 < length self.now.timers) }
    {
        let (due, id) = self.timers.first_key_value()?;
        if due.at > self.time {
            return None;
        }
        let handle = self.handle(*id)?;
        Some((*id, handle))
    }

    /// Collects the first timer if it is due. Without memory nothing changes.
    fn collect(&mut self, script: &Script, run: Run, part: TimersOf) -> Result<Outcome, AllocError>
        requires able { CanStep self.old }
        requires line { run.line < 2 ^ 63 }
        ensures ok { IfOk result (λ outcome. collect script.now self.old run part ≡ Moves self.new outcome.seen) }
        ensures err { OnErr result (self.new ≡ self.old) }
    {
        let Some((id, handle)) = self.first_due() else {
            return self.fire(script, run, part);
        };
        self.ready.push(id)?;
        self.timers.pop_first();
        self.set_handle(id, handle.stopped());
        self.place = Place::Running(Run {
            stage: Stage::Timers(part, Timing::Collecting),
            body: None,
            ..run
        });
        Ok(Outcome { seen: None })
    }

    /// Calls the first timer if it is due, straight from the heap, or leaves the section. A timer that repeats is started again first.
    /// Without memory nothing changes.
    #[tactic(auto, using(crate::proofs::Fires::fires))]
    fn call_due(&mut self, script: &Script, run: Run, part: TimersOf) -> Result<Outcome, AllocError>
        requires able { CanStep self.old }
        requires line { run.line < 2 ^ 63 }
        ensures ok { IfOk result (λ outcome. call_due script.now self.old run part ≡ Moves self.new outcome.seen) }
        ensures err { OnErr result (self.new ≡ self.old) }
    {
        let Some((id, handle)) = self.first_due() else {
            return Ok(self.turn(script.order(), run, Turn::Behind(part)));
        };
        self.restart_timer(id, handle)?;
        let stage = Stage::Timers(part, Timing::Collecting);
        Ok(self.call(script, Run { stage, ..run }, id, handle.name))
    }

    /// What is done first in a timers section, where due timers are called straight from the heap, or else collected.
    fn next_due(&mut self, script: &Script, run: Run, part: TimersOf) -> Result<Outcome, AllocError>
        requires able { CanStep self.old }
        requires line { run.line < 2 ^ 63 }
        ensures ok { IfOk result (λ outcome. timers script.now self.old run part Collecting ≡ Moves self.new outcome.seen) }
        ensures err { OnErr result (self.new ≡ self.old) }
    {
        if script.timers_from_heap() {
            self.call_due(script, run, part)
        } else {
            self.collect(script, run, part)
        }
    }

    /// Goes on in a timers section.
    fn in_timers(
        &mut self,
        script: &Script,
        run: Run,
        part: TimersOf,
        timing: Timing,
    ) -> Result<Outcome, Fault>
        requires able { CanStep self.old }
        requires line { run.line < 2 ^ 63 }
        ensures { Steps (timers script.now self.old run part timing) self.old result self.new }
    {
        let outcome = match timing {
            Timing::Collecting => self.next_due(script, run, part),
            Timing::Firing => self.fire(script, run, part),
        };
        Ok(outcome?)
    }

    /// What the run does next where no body is under way.
    fn at_stage(&mut self, script: &Script, run: Run) -> Result<Outcome, Fault>
        requires able { CanStep self.old }
        requires line { run.line < 2 ^ 63 }
        ensures { Steps (stage_step script.now self.old run run.stage) self.old result self.new }
    {
        match run.stage {
            Stage::Entry => Ok(self.turn(script.order(), run, Turn::AtEntry)),
            Stage::Pending => Ok(self.begin_walk(run, WatcherKind::Idle)),
            Stage::Walking(kind) => self.in_walk(script, run, kind),
            Stage::Poll(deadline) => self.poll(run, deadline).map_err(Fault::Refused),
            Stage::Polled(woken) => Ok(self.leave_polled(run, woken)),
            Stage::Done => self.in_done(script, run),
            Stage::DoneUnwoken => Ok(self.begin_async(run)),
            Stage::Closing => self.in_closing(script, run),
            Stage::Timers(part, timing) => self.in_timers(script, run, part, timing),
        }
    }

    /// The next op of the body under way.
    fn in_body(&mut self, script: &Script, run: Run, body: Body) -> Result<Outcome, Fault>
        requires able { CanStep self.old }
        requires line { run.line < 2 ^ 63 }
        ensures { Steps (body_step script.now self.old run body (slice_get (lines_in script.now body.callback body.name) body.next))
            self.old result self.new }
    {
        let lines = script.lines_in(body.callback, body.name);
        let Some(line) = lines.get(body.next).copied() else {
            self.place = Place::Running(Run { body: None, ..run });
            return Ok(Outcome { seen: None });
        };
        let Ok(answer) = self.do_op(line.op) else {
            return Err(Fault::Memory);
        };
        let rest = body_from(script, body.callback, body.name, body.call, body.next + 1);
        self.place = Place::Running(Run { body: rest, ..run });
        let site = Site::In(body.callback, body.name, body.next);
        Ok(seen(Seen::Op(site, answer)))
    }

    /// The next line of the main program.
    fn in_main(&mut self, script: &Script, line: usize) -> Result<Outcome, Fault>
        requires able { CanStep self.old }
        requires line { line < 2 ^ 63 }
        ensures { Steps (main_step (order_of script.now) self.old line (slice_get script.now.main line)) self.old result self.new }
    {
        match script.main_op(line) {
            None => Err(Fault::Refused(Why::Ended)),
            Some(MainOp::Run(mode)) => Ok(self.begin_run(script.order(), mode, line)),
            Some(MainOp::Op(op)) => {
                let Ok(answer) = self.do_op(op) else {
                    return Err(Fault::Memory);
                };
                self.place = Place::Main(line + 1);
                Ok(seen(Seen::Op(Site::Main(line), answer)))
            }
        }
    }

    /// Begins a run (uv_run). In the order of 1.45 the time is refreshed first in default.
    fn begin_run(&mut self, order: Order, mode: Mode, line: usize) -> Outcome
        ensures { main_step order self.old line (Some (MainOp.Run mode)) ≡ Moves self.new result.seen }
    {
        if matches!((order, mode), (Order::V145, Mode::Default)) {
            self.refresh();
        }
        self.place = Place::Running(Run {
            mode,
            line,
            stage: Stage::Entry,
            body: None,
        });
        seen(Seen::Run(mode))
    }

    /// Sends to an async handle from outside.
    fn send_to(&mut self, name: Var) -> Result<Outcome, Why>
        ensures { Falls (sent_to self.old name) self.old result self.new }
    {
        if name.0 as usize >= self.names.len() {
            return Err(Why::Range);
        }
        let code = self.send(name);
        Ok(seen(Seen::Send(name, code)))
    }

    /// The clock goes on by so many ms, up to its limit.
    fn tick(&mut self, ms: u64) -> Result<Outcome, Why>
        ensures { Falls (tick self.old ms) self.old result self.new }
    {
        let clock = self.later(ms).ok_or(Why::Range)?;
        self.clock = clock;
        Ok(seen(Seen::Tick(ms)))
    }

    /// Does the step in which a worker finishes the request that it runs, of whose job this is the result. After an error the state is
    /// as before.
    #[tactic(auto, unfolding(uv_model::specs::Next::next))]
    pub fn finish_with(
        &mut self,
        script: &Script,
        worker: u16,
        work: WorkResult,
    ) -> Result<Outcome, Fault>
        requires { job_run self.old worker ≡ Some work.job }
        ensures { Steps (next script.now self.old (Finish worker)) self.old result self.new }
    {
        self.finish_done(worker, work)
    }

    /// Does one step. After an error the state is as before.
    #[tactic(auto, unfolding(uv_model::specs::Next::next))]
    pub fn step(&mut self, script: &Script, event: Event) -> Result<Outcome, Fault>
        requires { CanStep self.old }
        ensures { Steps (next script.now self.old event) self.old result self.new }
    {
        match event {
            Event::Take(worker) => self.take(worker).map_err(Fault::Refused),
            Event::Finish(worker) => self.finish(worker),
            Event::Cancel(name) => self.cancels(name),
            Event::Send(name) => self.send_to(name).map_err(Fault::Refused),
            Event::Io(name) => self.io(script, name).map_err(Fault::Refused),
            Event::Tick(ms) => self.tick(ms).map_err(Fault::Refused),
            Event::Loop => match self.place {
                Place::Main(line) => self.in_main(script, line),
                Place::Running(run) => match run.body {
                    None => self.at_stage(script, run),
                    Some(body) => self.in_body(script, run, body),
                },
            },
        }
    }
}

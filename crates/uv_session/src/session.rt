//! What stands, and what was taken back.
ghost use Rattle.std.specs.Prelude.{◌≡◌, ◌≤◌, ◌<◌, ◌-◌, [], IfOk, IfErr, OnOk, OnErr, IfSome, IfNone, length, ◌++◌, min, option_to_list};
ghost use Rattle.uv_ids.specs.declared.fault.Fault.TheVariants.{Memory};
ghost use Rattle.uv_model.specs.After.{STEPS, lines};
ghost use Rattle.uv_order.specs.Once.{Once};
ghost use Rattle.uv_order.specs.PoolEvents.{pool_events};
ghost use Rattle.uv_script.specs.Program.{worker_count};
ghost use Rattle.uv_work.specs.Pool.{IsLegal};
ghost use Rattle.uv_session.specs.Breaks.{stops};
ghost use Rattle.uv_session.specs.Moving.{moved_forward, MovesForward, AddsBreak, RunsTo, NoneFrom, IsLastBreak, GoesToBreak};
ghost use Rattle.uv_session.specs.Shown.{TakesEvent, TakesResult, MovesBack, IsDocumented, moved_back};

use crate::break_sets::Breaks;
use crate::breaks::{Break, Stop, stop_of};
use std::alloc::{AllocError, Global};
use std::marker::Model;
use uv_ids::{Event, Fault, Seen, Why};
use uv_model::{Machine, Outcome, STEPS};
use uv_work::WorkResult;

/// The most breaks that a session has (own).
pub const BREAKS: usize = 256;

/// A machine and the list of its steps, of which the first ones stand and the others were taken back.
#[derive(Drop)]
pub struct Session<M: Machine> {
    alloc: Global,
    machine: M,
    events: Vec<Event>,
    standing: usize,
    limit: usize,
    breaks: Breaks,
}

impl<M: Machine> Model for Session<M> {
    ghost use Rattle.std.specs.Prelude.{take, drop};
    ghost use Rattle.uv_session.specs.Shown.{Shown};
    ghost use Rattle.uv_session.specs.Held.{IsHeld};

    ghost Value = { Shown };

    ghost view = { λ a. record {
      program = M.program a.machine;
      limit = a.limit;
      standing = take a.standing a.events.items;
      taken_back = drop a.standing a.events.items;
      breaks = a.breaks.listed.items;
    } };

    ghost invariant = { λ a. IsHeld (M.program a.machine) (M.standing a.machine) a.events.items a.standing a.limit };
}

impl<M: Machine> Session<M> {
    /// A session of a machine that has taken no step. It takes as many steps as the limit says, 2^24 at most.
    #[tactic(auto, using(uv_model::proofs::Runs::accepting))]
    pub fn new(alloc: Global, machine: M, limit: usize) -> Session<M>
        requires begun { M.standing machine ≡ [] }
        ensures program { result.program ≡ M.program machine }
        ensures limit { result.limit ≡ min limit STEPS }
        ensures standing { result.standing ≡ [] }
        ensures taken_back { result.taken_back ≡ [] }
        ensures breaks { result.breaks ≡ [] }
    {
        Session {
            alloc,
            machine,
            events: Vec::new(alloc),
            standing: 0,
            limit: limit.min(STEPS),
            breaks: Breaks::new(alloc),
        }
    }

    /// Does one step. An accepted one discards what was taken back; after an error all is as before.
    #[inline(always)]
    #[tactic(auto, using(uv_model::proofs::Runs::accepting))]
    pub fn do_event(&mut self, event: Event) -> Result<Outcome, Fault>
        ensures { TakesEvent self.old event result self.new }
    {
        if self.standing >= self.limit {
            return Err(Fault::StepsFull);
        }
        if self.events.reserve(1).is_err() {
            return Err(Fault::Memory);
        }
        let outcome = self.machine.step(event)?;
        self.events.truncate(self.standing);
        self.events.push_reserved(event);
        self.standing += 1;
        Ok(outcome)
    }

    /// Does the step in which a worker finishes its job, of which this is the result. `Refused(NoWork)` where the worker runs another
    /// job. An accepted step discards what was taken back; after an error all is as before.
    #[tactic(auto, using(uv_model::proofs::Runs::accepting))]
    pub fn finish_with(&mut self, worker: u16, work: WorkResult) -> Result<Outcome, Fault>
        ensures { TakesResult self.old worker work.job result self.new }
    {
        let standing = self.standing;
        if standing >= self.limit {
            return Err(Fault::StepsFull);
        }
        if self.events.reserve(1).is_err() {
            return Err(Fault::Memory);
        }
        let outcome = self.machine.finish_with(worker, work)?;
        self.events.truncate(standing);
        self.events.push_reserved(Event::Finish(worker));
        self.standing = standing + 1;
        Ok(outcome)
    }

    /// Takes the last steps back. `Refused(Range)` where fewer stand, with nothing changed; want of memory may leave some of
    /// them taken back. It takes no memory of its own.
    pub fn back(&mut self, n: usize) -> Result<(), Fault>
        ensures moves { MovesBack self.old n result self.new }
        ensures memory { IfErr result (λ fault. fault ≡ Memory → M.BackWantsMemory) }
    {
        if n > self.standing {
            return Err(Fault::Refused(Why::Range));
        }
        for _ in 0..n {
            self.back_one()?;
        }
        Ok(())
    }

    /// Takes the last step back.
    fn back_one(&mut self) -> Result<(), Fault>
        requires { 0 < length self.old.standing }
        ensures ok { OnOk result (self.new ≡ moved_back 1 self.old) }
        ensures err { IfErr result (λ fault. (fault ≡ Memory) × (self.new ≡ self.old)) }
        ensures memory { OnErr result M.BackWantsMemory }
    {
        self.machine.back()?;
        self.standing -= 1;
        Ok(())
    }

    /// Runs the first steps that were taken back again, and doesn't stop at breaks. `Refused(Range)` where fewer were taken back,
    /// with nothing changed; want of memory may leave some of them run again.
    pub fn forward(&mut self, n: usize) -> Result<(), Fault>
        ensures { MovesForward self.old n result self.new }
    {
        if n > self.events.len() - self.standing {
            return Err(Fault::Refused(Why::Range));
        }
        for _ in 0..n {
            self.forward_one()?;
        }
        Ok(())
    }

    /// Runs the first step that was taken back again.
    #[tactic(auto, using(uv_model::proofs::Runs::accepting))]
    fn forward_one(&mut self) -> Result<(), Fault>
        requires { 0 < length self.old.taken_back }
        ensures ok { OnOk result (self.new ≡ moved_forward 1 self.old) }
        ensures err { IfErr result (λ fault. (fault ≡ Memory) × (self.new ≡ self.old)) }
    {
        self.machine.step(self.events[self.standing])?;
        self.standing += 1;
        Ok(())
    }

    /// Has runs stop at one break more, an equal one too. `Limit` with 256 of them; after an error all is as before.
    pub fn add_break(&mut self, at: Break) -> Result<(), Fault>
        ensures { AddsBreak self.old at result self.new }
    {
        if self.breaks.len() >= BREAKS {
            return Err(Fault::Limit);
        }
        Ok(self.breaks.add(at)?)
    }

    /// Has runs stop nowhere.
    pub fn clear_breaks(&mut self)
        ensures { self.new ≡ record self.old { breaks = [] } }
    {
        self.breaks = Breaks::new(self.alloc);
    }

    /// Repeats an event until so many are done, a step matches a break, or the event is refused. After an error the steps that
    /// were accepted stand.
    pub fn run_to_break(&mut self, event: Event, times: usize) -> Result<Stop, Fault>
        ensures { RunsTo event times self.old result self.new }
    {
        'steps: for _ in 0..times {
            match self.do_event(event) {
                Ok(outcome) => {
                    if self.breaks.stop(outcome.seen) {
                        return Ok(Stop::Break(self.standing));
                    }
                }
                Err(fault) => return stop_of(fault),
            }
        }
        Ok(Stop::All)
    }

    /// Whether a run stops at a step that appended this.
    pub fn stops(&self, seen: Option<Seen>) -> bool
        ensures { result ≡ stops self.now.breaks seen }
    {
        self.breaks.stop(seen)
    }

    /// Goes back to the last step that matches a break, except the present one, and answers how many steps stand then.
    /// `Refused(Range)` where none does, with nothing changed; want of memory may leave some of the steps taken back.
    pub fn back_to_break(&mut self) -> Result<usize, Fault>
        ensures moves { GoesToBreak self.old result self.new }
        ensures memory { IfErr result (λ fault. fault ≡ Memory → M.BackWantsMemory) }
    {
        match self.last_break() {
            Some(step) => {
                self.back(self.standing - step)?;
                Ok(step)
            }
            None => Err(Fault::Refused(Why::Range)),
        }
    }

    /// The last step that matches a break, except the present one.
    fn last_break(&self) -> Option<usize>
        ensures some { IfSome result (λ step. IsLastBreak self.now step) }
        ensures none { IfNone result (NoneFrom self.now 1) }
    {
        let mut step = self.machine.len();
        'back: while step > 1 {
            step -= 1;
            if self.breaks.stop(self.machine.seen(step)) {
                return Some(step);
            }
        }
        None
    }

    /// The lines of the standing steps. They are in the documented order of phases, and by them each handle closes once.
    #[tactic(auto, using(crate::proofs::Traces::traces))]
    pub fn trace(&self) -> Result<Vec<Seen>, Fault>
        ensures lines { IfOk result (λ trace. trace.items ≡ lines self.now.program self.now.standing) }
        ensures documented { IfOk result (λ trace. IsDocumented self.now trace.items) }
        ensures once { IfOk result (λ trace. Once self.now.program trace.items) }
        ensures pool { IfOk result (λ trace. IsLegal (worker_count self.now.program) (pool_events self.now.program trace.items)) }
        ensures err { IfErr result (λ fault. fault ≡ Memory) }
    {
        let mut trace = Vec::new(self.alloc);
        for step in 1..self.machine.len() + 1 {
            if push_some(&mut trace, self.machine.seen(step)).is_err() {
                return Err(Fault::Memory);
            }
        }
        Ok(trace)
    }

    /// The lines of the standing steps are in the documented order of phases, by them each handle closes once and each request calls
    /// back once, and the events of the thread pool that they say are possible one after another. It does nothing, and is called for
    /// its clauses.
    #[tactic(auto, using(crate::proofs::Traces::traces))]
    pub fn is_documented(&self)
        ensures documented { IsDocumented self.now (lines self.now.program self.now.standing) }
        ensures once { Once self.now.program (lines self.now.program self.now.standing) }
        ensures pool { IsLegal (worker_count self.now.program) (pool_events self.now.program (lines self.now.program self.now.standing)) }
    {}

    /// The steps that stand.
    pub fn steps(&self) -> &[Event]
        ensures { result.now ≡ self.now.standing }
    {
        &self.events[..self.standing]
    }

    /// The steps that were taken back, the next one to run again first.
    pub fn taken_back(&self) -> &[Event]
        ensures { result.now ≡ self.now.taken_back }
    {
        &self.events[self.standing..]
    }

    /// The machine, which has taken the standing steps.
    pub fn machine(&self) -> &M
        ensures steps { M.standing result.now ≡ self.now.standing }
        ensures program { M.program result.now ≡ self.now.program }
    {
        &self.machine
    }
}

/// Puts a line at the end, if there is one.
fn push_some(trace: &mut Vec<Seen>, seen: Option<Seen>) -> Result<(), AllocError>
    ensures { OnOk result (trace.new.items ≡ trace.old.items ++ option_to_list seen) }
{
    if let Some(seen) = seen {
        trace.push(seen)?;
    }
    Ok(())
}

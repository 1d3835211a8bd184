//! Why a step is to be refused. It is found before anything is changed, and before memory is asked for.
ghost use Rattle.std.specs.Prelude.{◌≡◌, ◌+◌, ◌≤◌, IfSome, IfNone, slice_get, None, Some};
ghost use Rattle.uv_ids.specs.declared.event.Event.TheVariants.{Finish};
ghost use Rattle.uv_script.specs.Program.{order_of};
ghost use Rattle.uv_model.specs.Next.{main_step, run_step, next_work, take, work_of, finish, cancels, sent_to, tick, next};
ghost use Rattle.uv_model.specs.After.{refusal_of};
ghost use Rattle.uv_model.specs.Handing.{job_run, RefusesResult};

use crate::state::LoopState;
use uv_ids::{Event, Var, Why};
use uv_model::{LATEST, Place, Run, Stage};
use uv_script::Script;
use uv_work::Job;

impl LoopState {
    /// What the clock shows so many ms later; none past its limit.
    pub(super) fn later(&self, ms: u64) -> Option<u64>
        ensures some { IfSome result (λ clock. (clock ≡ self.now.clock + ms) × (clock ≤ LATEST)) }
        ensures none { IfNone result (LATEST + 1 ≤ self.now.clock + ms) }
    {
        let clock = self.clock.checked_add(ms)?;
        (clock <= LATEST).then_some(clock)
    }

    /// The clock doesn't go past its limit.
    fn tick_refusal(&self, ms: u64) -> Option<Why>
        ensures { result ≡ refusal_of (tick self.now ms) }
    {
        match self.later(ms) {
            Some(_) => None,
            None => Some(Why::Range),
        }
    }

    /// The main program has an end.
    #[tactic(auto, using(uv_model::proofs::Refusals::main_moves))]
    fn main_refusal(&self, script: &Script, line: usize) -> Option<Why>
        ensures { result ≡ refusal_of (main_step (order_of script.now) self.now line (slice_get script.now.main line)) }
    {
        match script.main_op(line) {
            None => Some(Why::Ended),
            Some(_) => None,
        }
    }

    /// The poll isn't left before its deadline unless a request is done or an async handle was sent to.
    #[tactic(auto, using(uv_model::proofs::Refusals::run_moves))]
    fn run_refusal(&self, script: &Script, run: Run) -> Option<Why>
        ensures { result ≡ refusal_of (run_step script.now self.now run run.body) }
    {
        match (run.body, run.stage) {
            (None, Stage::Poll(deadline)) if !self.may_leave(deadline) => Some(Why::Blocked),
            _ => None,
        }
    }

    /// A worker has to be there and to run nothing, and a request has to wait.
    fn take_refusal(&self, worker: u16) -> Option<Why>
        ensures { result ≡ refusal_of (take self.now worker (next_work self.now (slice_get self.now.running worker))) }
    {
        self.next_work(worker).err()
    }

    /// A worker has to be there and to run a request.
    fn finish_refusal(&self, worker: u16) -> Option<Why>
        ensures { result ≡ refusal_of (finish self.now worker (work_of self.now (slice_get self.now.running worker))) }
    {
        self.work_of(worker).err()
    }

    /// Why a finish with the result of this job is to be refused, if it is: the worker has to be there and to run that very job.
    #[tactic(auto, unfolding(uv_model::specs::Next::next))]
    pub fn result_refusal(&self, script: &Script, worker: u16, job: Job) -> Option<Why>
        ensures some { IfSome result (λ why. RefusesResult script.now self.now worker job why) }
        ensures none { IfNone result (job_run self.now worker ≡ Some job) }
        ensures moves { IfNone result (refusal_of (next script.now self.now (Finish worker)) ≡ None) }
    {
        match self.finish_refusal(worker) {
            Some(why) => return Some(why),
            None => {}
        }
        match self.job_run(worker) {
            Some(own) if own.is(job) => None,
            _ => Some(Why::NoWork),
        }
    }

    /// There has to be such a name.
    fn name_refusal(&self, name: Var) -> Option<Why>
        ensures cancels { result ≡ refusal_of (cancels self.now name) }
        ensures sends { result ≡ refusal_of (sent_to self.now name) }
    {
        if (name.0 as usize) < self.names.len() {
            None
        } else {
            Some(Why::Range)
        }
    }

    /// Why the next step is to be refused, if it is.
    #[tactic(auto, unfolding(uv_model::specs::Next::next))]
    pub fn refusal(&self, script: &Script, event: Event) -> Option<Why>
        ensures { result ≡ refusal_of (next script.now self.now event) }
    {
        match event {
            Event::Take(worker) => self.take_refusal(worker),
            Event::Finish(worker) => self.finish_refusal(worker),
            Event::Cancel(name) | Event::Send(name) => self.name_refusal(name),
            Event::Io(name) => self.io_refusal(script, name),
            Event::Tick(ms) => self.tick_refusal(ms),
            Event::Loop => match self.place {
                Place::Main(line) => self.main_refusal(script, line),
                Place::Running(run) => self.run_refusal(script, run),
            },
        }
    }
}

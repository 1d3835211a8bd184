//! The plain loop: a machine of lists and an ordered map, which goes back by running the shorter list of steps anew.
ghost use Rattle.std.specs.Prelude.{◌≡◌, ◌<◌, ◌≤◌, IfOk, OnOk, OnErr, length, vec_len, vec_capacity};
ghost use Rattle.uv_model.specs.After.{after, state_of, STEPS};
ghost use Rattle.uv_model.specs.State.{fresh};
ghost use Rattle.uv_model.specs.Next.{next};
ghost use Rattle.uv_model.specs.Bounds.{CanStep};

use crate::state::LoopState;
use std::alloc::{AllocError, Global};
use std::marker::Model;
use std::mem;
use uv_ids::{Event, Fault, Id, Seen, Var};
use uv_model::{Layout, Machine, Numbers, Outcome, Place, STEPS};
use uv_records::{ListName, Named, Slot};
use uv_script::Script;
use uv_work::{Content, WorkResult};

/// A machine whose every step is the model's own.
#[derive(Drop)]
pub struct PlainLoop {
    alloc: Global,
    script: Script,
    steps: Vec<Event>,
    seen: Vec<Option<Seen>>,
    state: LoopState,
}

impl Model for PlainLoop {
    ghost use Rattle.uv_plain.specs.Trail.{Trail, IsAfter};

    ghost Value = { Trail };

    ghost view = { λ a. record { program = a.script; standing = a.steps.items } };

    ghost invariant = { λ a. IsAfter a.script a.steps.items a.seen.items a.state };
}

/// Does one step of a list; a refused one changes nothing.
fn follow(state: &mut LoopState, script: &Script, event: Event) -> Result<(), AllocError>
    requires { CanStep state.old }
    ensures { OnOk result (state.new ≡ state_of state.old (next script.now state.old event)) }
{
    match state.step(script, event) {
        Ok(_) | Err(Fault::Refused(_)) => Ok(()),
        Err(_) => Err(AllocError),
    }
}

/// Does a list of steps, from the beginning.
#[tactic(auto, using(uv_model::proofs::Runs::runs, uv_model::proofs::Bounded::after_able))]
fn follow_all(state: &mut LoopState, script: &Script, steps: &[Event]) -> Result<(), AllocError>
    requires begun { state.old ≡ fresh script.now }
    requires few { length steps.now ≤ STEPS }
    ensures { OnOk result (state.new ≡ after script.now steps.now) }
{
    for event in steps {
        follow(state, script, *event)?;
    }
    Ok(())
}

/// Makes a state the one after a list of steps, from the beginning. Without memory nothing changes.
fn replay(
    state: &mut LoopState,
    alloc: Global,
    script: &Script,
    steps: &[Event],
) -> Result<(), AllocError>
    requires { length steps.now ≤ STEPS }
    ensures ok { OnOk result (state.new ≡ after script.now steps.now) }
    ensures err { OnErr result (state.new ≡ state.old) }
{
    let mut earlier = LoopState::fresh(alloc, script)?;
    let followed = follow_all(&mut earlier, script, steps);
    if followed.is_ok() {
        mem::swap(state, &mut earlier);
    }
    drop(earlier);
    followed
}

/// Makes room for one more step and its line. Without memory nothing changes.
fn reserve_step(steps: &mut Vec<Event>, seen: &mut Vec<Option<Seen>>) -> Result<(), AllocError>
    ensures steps { steps.new.items ≡ steps.old.items }
    ensures seen { seen.new.items ≡ seen.old.items }
    ensures steps_room { OnOk result (vec_len steps.new < vec_capacity steps.new) }
    ensures seen_room { OnOk result (vec_len seen.new < vec_capacity seen.new) }
{
    steps.reserve(1)?;
    seen.reserve(1)
}

#[tactic(auto, using(uv_model::proofs::Runs::runs, uv_model::proofs::Bounded::after_able))]
impl Machine for PlainLoop {
    ghost program = { λ machine. machine.program };

    ghost standing = { λ machine. machine.standing };

    // Taking a step back runs the others anew.
    ghost BackWantsMemory = { Unit {0} };

    ghost MayHaveNoLayout = { Unit {0} };

    fn begin(alloc: Global, script: Script) -> Result<Self, Fault> {
        let Ok(state) = LoopState::fresh(alloc, &script) else {
            return Err(Fault::Memory);
        };
        Ok(PlainLoop {
            alloc,
            script,
            steps: Vec::new(alloc),
            seen: Vec::new(alloc),
            state,
        })
    }

    fn step(&mut self, event: Event) -> Result<Outcome, Fault> {
        if self.steps.len() >= STEPS {
            return Err(Fault::StepsFull);
        }
        match self.state.refusal(&self.script, event) {
            Some(why) => return Err(Fault::Refused(why)),
            None => {}
        }
        reserve_step(&mut self.steps, &mut self.seen)?;
        let outcome = self.state.step(&self.script, event)?;
        self.steps.push_reserved(event);
        self.seen.push_reserved(outcome.seen);
        Ok(outcome)
    }

    fn finish_with(&mut self, worker: u16, work: WorkResult) -> Result<Outcome, Fault> {
        if self.steps.len() >= STEPS {
            return Err(Fault::StepsFull);
        }
        let refusal = self.state.result_refusal(&self.script, worker, work.job());
        if let Some(why) = refusal {
            return Err(Fault::Refused(why));
        }
        reserve_step(&mut self.steps, &mut self.seen)?;
        let outcome = self.state.finish_with(&self.script, worker, work)?;
        self.steps.push_reserved(Event::Finish(worker));
        self.seen.push_reserved(outcome.seen);
        Ok(outcome)
    }

    fn back(&mut self) -> Result<bool, Fault> {
        if self.steps.is_empty() {
            return Ok(false);
        }
        let shorter = self.steps.len() - 1;
        replay(
            &mut self.state,
            self.alloc,
            &self.script,
            &self.steps[..shorter],
        )?;
        self.steps.truncate(shorter);
        self.seen.truncate(shorter);
        Ok(true)
    }

    fn len(&self) -> usize {
        self.steps.len()
    }

    #[tactic(auto, using(uv_model::proofs::Runs::runs, uv_model::proofs::Runs::seen_at))]
    fn seen(&self, step: usize) -> Option<Seen> {
        self.seen[step - 1]
    }

    fn script(&self) -> &Script {
        &self.script
    }

    fn place(&self) -> Place {
        self.state.place()
    }

    fn numbers(&self) -> Numbers {
        self.state.numbers()
    }

    fn named(&self, name: Var) -> Named {
        self.state.named(name)
    }

    fn used(&self) -> u32 {
        self.state.arena().used()
    }

    fn slot(&self, number: u32) -> Option<Slot<Content>> {
        self.state.arena().slot(number)
    }

    fn is_free(&self, number: u32) -> bool {
        self.state.arena().is_free(number)
    }

    fn held(&self, id: Id) -> Option<Content> {
        self.state.arena().held(id)
    }

    fn free(&self) -> Result<Vec<u32>, Fault> {
        let free = Vec::from_slice(self.alloc, self.state.arena().free())?;
        Ok(free)
    }

    fn unused(&self) -> u32 {
        self.state.arena().unused()
    }

    fn timers(&self) -> Result<Vec<Id>, Fault> {
        let ids = self.state.timer_ids(self.alloc)?;
        Ok(ids)
    }

    fn workers(&self) -> usize {
        self.state.workers()
    }

    fn run_by(&self, worker: usize) -> Option<Id> {
        self.state.run_by(worker)
    }

    fn worker_of(&self, id: Id) -> Option<usize> {
        self.state.worker_of(id)
    }

    fn members(&self, list: ListName) -> Result<Vec<Id>, Fault> {
        let ids = Vec::from_slice(self.alloc, self.state.members(list))?;
        Ok(ids)
    }

    fn layout(&self) -> Result<Option<Layout>, Fault> {
        Ok(None)
    }
}

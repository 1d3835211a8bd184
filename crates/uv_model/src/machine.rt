//! What every machine does.
ghost use Rattle.std.specs.Prelude.{◌≡◌, ◌≤◌, ◌-◌, IfOk, IfErr, OnErr, IfSome, IfNone, List, length, slice_get, Some, []};
ghost use Rattle.uv_ids.specs.declared.event.Event.{Event};
ghost use Rattle.uv_ids.specs.declared.fault.Fault.TheVariants.{Memory};
ghost use Rattle.uv_script.specs.Program.{Program};

use crate::layout::Layout;
use crate::numbers::Numbers;
use crate::place::Place;
use std::alloc::Global;
use uv_ids::{Event, Fault, Id, MOST_STEPS, Seen, Var};
use uv_records::{ListName, Named, Slot};
use uv_script::Script;
use uv_work::{Content, WorkResult};

/// The most steps that a machine takes (own).
pub const STEPS: usize = MOST_STEPS;

/// What an accepted step did.
#[derive(Clone, Copy, PartialEq, Eq)]
pub struct Outcome {
    /// The line that the step appended to the trace; a step appends one at most.
    pub seen: Option<Seen>,
}

/// A loop that goes on and back, seen as its script and its standing steps. Its state is the one after these steps.
pub trait Machine: Drop {
    ghost use Rattle.uv_model.specs.After.{Answers, GoesBack, after, seen_by, STEPS};
    ghost use Rattle.uv_model.specs.Handing.{AnswersResult};
    ghost use Rattle.uv_model.specs.State.{named};
    ghost use Rattle.uv_model.specs.Queries.{numbers, timer_ids, members, is_free, run_by, worker_of};
    ghost use Rattle.uv_model.specs.Layout.{LiesFor};
    ghost use Rattle.uv_records.specs.Slots.{held};

    ghost program: { Self → Program };

    ghost standing: { Self → List Event };

    /// Whether taking a step back may want memory.
    ghost BackWantsMemory: { Type 0 };

    /// Whether the machine may have no one memory that stands for its state.
    ghost MayHaveNoLayout: { Type 0 };

    /// The machine of a script that has taken no step.
    fn begin(alloc: Global, script: Script) -> Result<Self, Fault>
        ensures program { IfOk result (λ machine. program machine ≡ script) }
        ensures standing { IfOk result (λ machine. standing machine ≡ []) }
        ensures err { IfErr result (λ fault. fault ≡ Memory) };

    /// Takes one step. After an error the machine is as before.
    fn step(&mut self, event: Event) -> Result<Outcome, Fault>
        ensures program { program self.new ≡ program self.old }
        ensures answer { Answers STEPS (program self.old) (standing self.old) event result (standing self.new) };

    /// A worker finishes its job, of which this is the result (`Event::Finish`). No job is done here. `Refused(NoWork)` where the
    /// worker runs another job. After an error the machine is as before.
    fn finish_with(&mut self, worker: u16, work: WorkResult) -> Result<Outcome, Fault>
        ensures program { program self.new ≡ program self.old }
        ensures answer { AnswersResult STEPS (program self.old) (standing self.old) worker work.job result (standing self.new) };

    /// Takes the last step back; `false` where there is none. Want of memory leaves the machine as before.
    fn back(&mut self) -> Result<bool, Fault>
        ensures program { program self.new ≡ program self.old }
        ensures answer { GoesBack (standing self.old) result (standing self.new) }
        ensures memory { OnErr result BackWantsMemory };

    /// The number of standing steps.
    fn len(&self) -> usize
        ensures { result ≡ length (standing self.now) };

    /// What a standing step appended, the first being 1.
    fn seen(&self, step: usize) -> Option<Seen>
        requires { (1 ≤ step) × (step ≤ length (standing self.now)) }
        ensures { slice_get (seen_by (program self.now) (standing self.now)) (step - 1) ≡ Some result };

    fn script(&self) -> &Script
        ensures { result.now ≡ program self.now };

    // What can be asked of the state.

    /// Where the loop stands.
    fn place(&self) -> Place
        ensures { result ≡ (after (program self.now) (standing self.now)).place };

    /// The numbers and flags.
    fn numbers(&self) -> Numbers
        ensures { result ≡ numbers (after (program self.now) (standing self.now)) };

    /// What a name is bound to, and how often its callbacks were called.
    fn named(&self, name: Var) -> Named
        ensures { result ≡ named (after (program self.now) (standing self.now)) name };

    /// How many slots were ever used.
    fn used(&self) -> u32
        ensures { result ≡ length (after (program self.now) (standing self.now)).arena.slots };

    /// A slot that was used: its generation, and what it holds.
    fn slot(&self, number: u32) -> Option<Slot<Content>>
        ensures { result ≡ slice_get (after (program self.now) (standing self.now)).arena.slots number };

    /// Whether a slot is on the free list.
    fn is_free(&self, number: u32) -> bool
        ensures { result ≡ is_free (after (program self.now) (standing self.now)) number };

    /// What is held under an id.
    fn held(&self, id: Id) -> Option<Content>
        ensures { result ≡ held (after (program self.now) (standing self.now)).arena.slots id };

    /// The numbers of the free slots, front first.
    fn free(&self) -> Result<Vec<u32>, Fault>
        ensures free { IfOk result (λ free. free.items ≡ (after (program self.now) (standing self.now)).arena.free) }
        ensures err { IfErr result (λ fault. fault ≡ Memory) };

    /// How many slots were never used.
    fn unused(&self) -> u32
        ensures { result ≡ (after (program self.now) (standing self.now)).arena.unused };

    /// The active timers, in the order in which they are due.
    fn timers(&self) -> Result<Vec<Id>, Fault>
        ensures timers { IfOk result (λ ids. ids.items ≡ timer_ids (after (program self.now) (standing self.now))) }
        ensures err { IfErr result (λ fault. fault ≡ Memory) };

    /// How many workers the thread pool has.
    fn workers(&self) -> usize
        ensures { result ≡ length (after (program self.now) (standing self.now)).running };

    /// The request that a worker runs, the first worker being 0.
    fn run_by(&self, worker: usize) -> Option<Id>
        ensures { result ≡ run_by (after (program self.now) (standing self.now)) worker };

    /// The worker that runs a request.
    fn worker_of(&self, id: Id) -> Option<usize>
        ensures { result ≡ worker_of (after (program self.now) (standing self.now)) id };

    /// The members of a list, front first.
    fn members(&self, list: ListName) -> Result<Vec<Id>, Fault>
        ensures members { IfOk result (λ ids. ids.items ≡ members (after (program self.now) (standing self.now)) list) }
        ensures err { IfErr result (λ fault. fault ≡ Memory) };

    /// How the memory lies that stands for the state; none of a machine without one memory (own).
    fn layout(&self) -> Result<Option<Layout>, Fault>
        ensures layout { IfOk result (λ laid. IfSome laid (λ layout. LiesFor layout (after (program self.now) (standing self.now)))) }
        ensures none { IfOk result (λ laid. IfNone laid MayHaveNoLayout) }
        ensures err { IfErr result (λ fault. fault ≡ Memory) };
}

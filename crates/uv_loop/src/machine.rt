//! The loop over one memory is a machine.
ghost use Rattle.std.specs.Prelude.{◌≡◌, [], IfOk, IfErr, IfSome, IsOk, Some};
ghost use Rattle.uv_ids.specs.declared.fault.Fault.TheVariants.{Memory};
ghost use Rattle.uv_model.specs.After.{Answers, GoesBack, after, STEPS};
ghost use Rattle.uv_model.specs.Handing.{AnswersResult};
ghost use Rattle.uv_model.specs.Layout.{LiesFor};
ghost use Rattle.uv_model.specs.declared.layout.Layout as layout;
ghost use Rattle.uv_loop.specs.Laid.{ShowsAll};
ghost use Rattle.uv_loop.specs.Course.{Adds, Drops, first_image};

use crate::arena_loop::{ArenaLoop, fresh_memory};
use crate::laying::layout_of;
use crate::listing::{free_slots, listed_ids};
use crate::pooling::finish_work;
use crate::showing::{run_at, shown, shown_name, shown_slot, shown_worker};
use crate::steps::Steps;
use std::alloc::Global;
use uv_ids::{Event, Fault, Id, Seen, Var, Why};
use uv_model::{Layout, Machine, Numbers, Outcome, Place, STEPS};
use uv_records::{ListName, Named, Slot};
use uv_script::Script;
use uv_stands::timer_ids;
use uv_work::{Content, WorkResult};

impl Machine for ArenaLoop {
    ghost program = { λ machine. machine.program };

    ghost standing = { λ machine. machine.standing };

    ghost BackWantsMemory = { ⊥ };

    ghost MayHaveNoLayout = { ⊥ };

    fn begin(alloc: Global, script: Script) -> Result<Self, Fault>
        ensures program { IfOk result (λ begun. begun.program ≡ script) }
        ensures standing { IfOk result (λ begun. begun.standing ≡ []) }
        ensures walk { IfOk result (λ begun. begun.walk ≡ record { image = first_image script; records = [] }) }
        ensures err { IfErr result (λ fault. fault ≡ Memory) }
    {
        let Ok(memory) = fresh_memory(alloc, &script) else {
            return Err(Fault::Memory);
        };
        Ok(ArenaLoop {
            alloc,
            script,
            memory,
            steps: Steps::new(alloc),
        })
    }

    /// An accepted step adds its record, by which `back` takes it back. Its line is read from where it lies, where a caller asks for it.
    #[inline(always)]
    fn step(&mut self, event: Event) -> Result<Outcome, Fault>
        ensures program { self.new.program ≡ self.old.program }
        ensures answer { Answers STEPS self.old.program self.old.standing event result self.new.standing }
        ensures records { Adds result self.old self.new }
    {
        self.take(event)?;
        let seen = self.last_line();
        Ok(Outcome { seen })
    }

    /// An accepted finish adds its record as well.
    fn finish_with(&mut self, worker: u16, work: WorkResult) -> Result<Outcome, Fault>
        ensures program { self.new.program ≡ self.old.program }
        ensures answer { AnswersResult STEPS self.old.program self.old.standing worker work.job result self.new.standing }
        ensures records { Adds result self.old self.new }
    {
        if self.steps.len() >= STEPS {
            return Err(Fault::StepsFull);
        }
        let (id, request) = match self.memory.work_of(worker) {
            Err(why) => return Err(Fault::Refused(why)),
            Ok(asked) => asked,
        };
        if !request.job(id).is(work.job()) {
            return Err(Fault::Refused(Why::NoWork));
        }
        if self.steps.reserve().is_err() {
            return Err(Fault::Memory);
        }
        let line = finish_work(&mut self.memory, worker, id, request, work);
        let seen = Some(line);
        self.steps.push(seen, self.memory.step_record());
        Ok(Outcome { seen })
    }

    /// It takes no memory and can't fail.
    fn back(&mut self) -> Result<bool, Fault>
        ensures program { self.new.program ≡ self.old.program }
        ensures answer { GoesBack self.old.standing result self.new.standing }
        ensures ok { IsOk result }
        ensures drops { IfOk result (λ was. Drops was self.old self.new) }
    {
        if self.steps.is_empty() {
            return Ok(false);
        }
        let place = self.steps.pop(self.memory.step_record_mut());
        self.memory.unwind_at(place);
        Ok(true)
    }

    #[tactic(auto, using(uv_model::proofs::Runs::runs))]
    fn len(&self) -> usize {
        self.steps.len()
    }

    #[tactic(auto, using(uv_model::proofs::Runs::runs, uv_model::proofs::Runs::seen_at))]
    fn seen(&self, step: usize) -> Option<Seen> {
        self.steps.seen.at(step - 1)
    }

    fn script(&self) -> &Script {
        &self.script
    }

    fn place(&self) -> Place {
        self.memory.place().place()
    }

    fn numbers(&self) -> Numbers {
        let times = self.memory.times();
        Numbers {
            time: times.time,
            clock: self.memory.clock(),
            next_start: times.next_start,
            stop_flag: self.memory.stop_flag(),
            idled: self.memory.idled(),
        }
    }

    fn named(&self, name: Var) -> Named {
        shown_name(&self.memory, name)
    }

    fn used(&self) -> u32 {
        self.memory.slots().used()
    }

    fn slot(&self, number: u32) -> Option<Slot<Content>> {
        shown_slot(&self.memory, number)
    }

    fn is_free(&self, number: u32) -> bool {
        self.memory.slots().is_free(number)
    }

    fn held(&self, id: Id) -> Option<Content> {
        shown(&self.memory, id)
    }

    fn free(&self) -> Result<Vec<u32>, Fault> {
        let free = free_slots(self.memory.slots(), self.alloc)?;
        Ok(free)
    }

    fn unused(&self) -> u32 {
        let slots = self.memory.slots();
        slots.capacity() - slots.used()
    }

    fn timers(&self) -> Result<Vec<Id>, Fault> {
        let ids = timer_ids(&self.memory, self.alloc)?;
        Ok(ids)
    }

    fn workers(&self) -> usize {
        self.memory.requests().workers().len()
    }

    fn run_by(&self, worker: usize) -> Option<Id> {
        run_at(self.memory.requests().workers(), worker)
    }

    fn worker_of(&self, id: Id) -> Option<usize> {
        shown_worker(&self.memory, id)
    }

    fn members(&self, list: ListName) -> Result<Vec<Id>, Fault> {
        let ids = listed_ids(self.memory.slots(), list, self.alloc)?;
        Ok(ids)
    }

    /// There is one, which shows all that the memory has.
    fn layout(&self) -> Result<Option<Layout>, Fault>
        ensures layout { IfOk result (λ laid. IfSome laid (λ layout. LiesFor layout (after self.now.program self.now.standing))) }
        ensures shows { IfOk result (λ laid. (l : layout.Layout) × (laid ≡ Some l) × ShowsAll l self.now.walk.image) }
        ensures err { IfErr result (λ fault. fault ≡ Memory) }
    {
        self.stands();
        self.memory.is_fit();
        self.memory.is_sound();
        let Ok(layout) = layout_of(&self.memory, self.alloc) else {
            return Err(Fault::Memory);
        };
        Ok(Some(layout))
    }
}

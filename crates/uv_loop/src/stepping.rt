//! A step is taken: what refuses it, the room that it needs, and then what it does, with its line and its record. One of the loop whose
//! line fits in two words stands apart from any other one, and from one from outside: what most steps go through is compiled alone then,
//! and hands on no more than it has to.
ghost use Rattle.std.specs.Prelude.{◌≡◌, ◌<◌, ◌≤◌, OnOk, length, true, false};
ghost use Rattle.uv_ids.specs.declared.event.Event.TheVariants.{Loop};
ghost use Rattle.uv_memory.specs.Image.{held};
ghost use Rattle.uv_loop.specs.Course.{Adds, Takes};
ghost use Rattle.uv_loop.specs.Acting.{outside_event};
ghost use Rattle.uv_loop.specs.Staged.{is_staged};
ghost use Rattle.uv_loop.specs.Taken.{AreRoomier};

use crate::acting::act;
use crate::arena_loop::ArenaLoop;
use crate::looping::{stage_on, turn};
use crate::plan::{Outside, outside_of};
use crate::planning::{loop_refusal, plan_of};
use crate::staging::is_staged;
use crate::steps::Steps;
use std::alloc::AllocError;
use uv_ids::{Event, Fault};
use uv_memory::Memory;
use uv_model::STEPS;
use uv_stands::PackedPlace;

/// Makes room for one step more, and on the heap for the timer of each slot that is used.
#[inline(always)]
fn make_room(steps: &mut Steps, memory: &mut Memory<PackedPlace>) -> Result<(), AllocError>
    ensures same { AreRoomier steps.old steps.new (held memory.old) (held memory.new) }
    ensures pieces { memory.new.slots.room ≡ memory.old.slots.room }
    ensures steps { OnOk result (0 < steps.new.ready) }
    ensures heap { OnOk result (length (held memory.new).image.arena.memory.row.items ≤ (held memory.new).room) }
{
    steps.reserve()?;
    memory.reserve()
}

impl ArenaLoop {
    /// Takes a step, whose line lies in its row then.
    #[inline(always)]
    pub(crate) fn take(&mut self, event: Event) -> Result<(), Fault>
        ensures program { self.new.program ≡ self.old.program }
        ensures answer { Takes self.old.program self.old.standing event result self.new.standing }
        ensures records { Adds result self.old self.new }
    {
        match outside_of(event) {
            None => {
                if is_staged(self.memory.place()) {
                    self.go_on()
                } else {
                    self.go_on_wide()
                }
            }
            Some(outside) => self.meet(outside),
        }
    }

    /// The loop does its next step in a stage but the done section.
    #[inline(never)]
    pub(crate) fn go_on(&mut self) -> Result<(), Fault>
        requires staged { is_staged self.old.walk.image.place ≡ true }
        ensures program { self.new.program ≡ self.old.program }
        ensures answer { Takes self.old.program self.old.standing Loop result self.new.standing }
        ensures records { Adds result self.old self.new }
    {
        if self.steps.len() >= STEPS {
            return Err(Fault::StepsFull);
        }
        match loop_refusal(&self.memory, &self.script) {
            Some(why) => return Err(Fault::Refused(why)),
            None => {}
        }
        if make_room(&mut self.steps, &mut self.memory).is_err() {
            return Err(Fault::Memory);
        }
        self.memory.is_sound();
        let line = stage_on(&mut self.memory, &self.script);
        self.steps.push_packed(&line, self.memory.step_record());
        Ok(())
    }

    /// The loop does its next step in the main program, in a body or in the done section: its line may be a wide one.
    #[inline(never)]
    pub(crate) fn go_on_wide(&mut self) -> Result<(), Fault>
        requires other { is_staged self.old.walk.image.place ≡ false }
        ensures program { self.new.program ≡ self.old.program }
        ensures answer { Takes self.old.program self.old.standing Loop result self.new.standing }
        ensures records { Adds result self.old self.new }
    {
        if self.steps.len() >= STEPS {
            return Err(Fault::StepsFull);
        }
        match loop_refusal(&self.memory, &self.script) {
            Some(why) => return Err(Fault::Refused(why)),
            None => {}
        }
        if make_room(&mut self.steps, &mut self.memory).is_err() {
            return Err(Fault::Memory);
        }
        self.memory.is_sound();
        let Ok(seen) = turn(&mut self.memory, &self.script) else {
            return Err(Fault::Memory);
        };
        self.steps.push(seen, self.memory.step_record());
        Ok(())
    }

    /// A step from outside.
    #[inline(never)]
    pub(crate) fn meet(&mut self, outside: Outside) -> Result<(), Fault>
        ensures program { self.new.program ≡ self.old.program }
        ensures answer { Takes self.old.program self.old.standing (outside_event outside) result self.new.standing }
        ensures records { Adds result self.old self.new }
    {
        if self.steps.len() >= STEPS {
            return Err(Fault::StepsFull);
        }
        let plan = match plan_of(&self.memory, &self.script, outside) {
            Err(why) => return Err(Fault::Refused(why)),
            Ok(plan) => plan,
        };
        if make_room(&mut self.steps, &mut self.memory).is_err() {
            return Err(Fault::Memory);
        }
        self.memory.is_sound();
        let line = act(&mut self.memory, &self.script, plan);
        let seen = Some(line);
        self.steps.push(seen, self.memory.step_record());
        Ok(())
    }
}

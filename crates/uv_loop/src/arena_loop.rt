//! The loop over one memory.
ghost use Rattle.std.specs.Prelude.{◌≡◌, ◌<◌, ◌-◌, IfOk, Some, length, slice_get};
ghost use Rattle.uv_script.specs.Program.{arena_size};
ghost use Rattle.uv_model.specs.After.{after, seen_by};
ghost use Rattle.uv_memory.specs.Fit.{IsFit};
ghost use Rattle.uv_memory.specs.Image.{held};
ghost use Rattle.uv_memory.specs.Trail.{unwound};
ghost use Rattle.uv_stands.specs.Stands.{StandsFor};
ghost use Rattle.uv_loop.specs.Course.{first_image};

use crate::steps::Steps;
use std::alloc::{AllocError, Global};
use std::marker::Model;
use uv_ids::Seen;
use uv_memory::Memory;
use uv_model::Place;
use uv_script::Script;
use uv_stands::PackedPlace;

/// The memory in which a script begins.
pub(crate) fn fresh_memory(
    alloc: Global,
    script: &Script,
) -> Result<Memory<PackedPlace>, AllocError>
    ensures image { IfOk result (λ m. (held m).image ≡ first_image script.now) }
    ensures fit { IfOk result (λ m. IsFit (held m).image) }
{
    let size = script.arena_size();
    let names = script.names().len();
    Memory::new(
        alloc,
        PackedPlace::main(0),
        names,
        size.slots,
        size.last_generation,
        script.workers(),
    )
}

/// A loop over one memory, with a record for each of its steps that takes the step back.
#[derive(Drop)]
pub struct ArenaLoop {
    pub(crate) alloc: Global,
    pub(crate) script: Script,
    pub(crate) memory: Memory<PackedPlace>,
    pub(crate) steps: Steps,
}

impl Model for ArenaLoop {
    ghost use Rattle.uv_memory.specs.Image.{held};
    ghost use Rattle.uv_loop.specs.Course.{Course, IsCourse};
    ghost use Rattle.uv_loop.specs.Taken.{events_of};

    ghost Value = { Course };

    ghost view = { λ a. record {
      program = a.script;
      standing = events_of a.steps.seen.items;
      walk = record { image = (held a.memory).image; records = a.steps.trail.records };
      pieces = a.memory.slots.room;
    } };

    ghost invariant = { λ a. IsCourse a.script (events_of a.steps.seen.items) a.steps.seen.items a.steps.trail.records (held a.memory) };
}

impl ArenaLoop {
    /// What always holds: the memory stands for the state after the steps, a slot of it retires at the script's last generation, there
    /// is a record for each of the steps, and all of these, unwound, give back the very memory from before the first one. It costs
    /// nothing when it runs.
    pub fn stands(&self)
        ensures stands { StandsFor self.now.walk.image (after self.now.program self.now.standing) }
        ensures records { length self.now.walk.records ≡ length self.now.standing }
        ensures last { self.now.walk.image.arena.last ≡ (arena_size self.now.program).last_generation }
        ensures begins { unwound self.now.walk.records self.now.walk.image ≡ first_image self.now.program }
    {
        let _ = self.steps.len();
    }

    /// What the last step appended.
    #[inline(always)]
    pub(crate) fn last_line(&self) -> Option<Seen>
        requires { 0 < length self.now.standing }
        ensures { slice_get (seen_by self.now.program self.now.standing) (length self.now.standing - 1) ≡ Some result }
    {
        self.steps.seen.at(self.steps.len() - 1)
    }
}

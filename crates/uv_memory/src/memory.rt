//! The memory of a loop.
ghost use Rattle.std.specs.Prelude.{◌≡◌, ◌<◌, ◌≤◌, IfOk, OnOk, OnErr, length};
ghost use Rattle.uv_arena.specs.Image.{IsSound};
ghost use Rattle.uv_heap.specs.Array.{IsHeap, SlotsDiffer};
ghost use Rattle.uv_memory.specs.Image.{held, fresh};
ghost use Rattle.uv_memory.specs.Fit.{IsFit};

use crate::last::LastStep;
use std::alloc::{AllocError, Global};
use std::marker::Model;
use uv_arena::Slots;
use uv_handle::Handles;
use uv_heap::TimerHeap;
use uv_records::Named;
use uv_requests::{Requests, fresh_requests};
use uv_timer::Times;
use uv_work::Content;

/// All that the steps of a loop change, and what takes the last one back. `P` says where the loop stands.
#[derive(Drop)]
pub struct Memory<P: Copy> {
    pub(crate) place: P,
    pub(crate) names: Vec<Named>,
    pub(crate) slots: Slots<Content>,
    pub(crate) handles: Handles,
    pub(crate) requests: Requests,
    pub(crate) heap: TimerHeap,
    /// The loop's time, and the next start number.
    pub(crate) times: Times,
    /// The clock in ms.
    pub(crate) clock: u64,
    /// The run is to end before its next iteration (uv_stop).
    pub(crate) stop_flag: bool,
    /// An idle handle was active as the iteration began.
    pub(crate) idled: bool,
    /// The record of the last step that was done, which takes it back. It is no part of what a step changes.
    pub(crate) step_record: LastStep<P>,
}

impl<P: Copy> Model for Memory<P> {
    ghost use Rattle.uv_memory.specs.MemoryParts.{MemoryParts};
    ghost use Rattle.uv_memory.specs.Image.{image_of};
    ghost use Rattle.uv_memory.specs.Fit.{IsFit};

    ghost Value = { MemoryParts P };

    ghost use Rattle.uv_memory.specs.View.{kept};

    ghost view = { kept };

    ghost invariant = { λ m. IsFit (image_of (kept m)) };
}

impl<P: Copy> Memory<P> {
    /// The memory of a loop that was never run: it stands here, has so many names and workers, and room for so many slots, which
    /// are retired when they are freed at the last generation.
    pub fn new(
        alloc: Global,
        place: P,
        names: usize,
        slots: u32,
        last_generation: u32,
        workers: u16,
    ) -> Result<Memory<P>, AllocError>
        ensures image { IfOk result (λ m. (held m).image ≡ fresh place names slots last_generation workers) }
        ensures fit { IfOk result (λ m. IsFit (held m).image) }
        ensures pieces { IfOk result (λ m. m.slots.room ≡ 0) }
    {
        fresh_requests::<Content>();
        let names = vec![in alloc; Named::unbound(); names]?;
        let slots = Slots::new(alloc, slots, last_generation)?;
        let requests = Requests::new(alloc, workers)?;
        Ok(Memory {
            place,
            names,
            slots,
            handles: Handles::new(),
            requests,
            heap: TimerHeap::new(alloc),
            times: Times {
                time: 0,
                next_start: 0,
            },
            clock: 0,
            stop_flag: false,
            idled: false,
            step_record: LastStep::new(place),
        })
    }

    /// Makes room on the heap for the timer of each slot that is used. Room stays, so where no slot was used for the first time
    /// since, it is there.
    pub fn reserve(&mut self) -> Result<(), AllocError>
        ensures image { (held self.new).image ≡ (held self.old).image }
        ensures pieces { self.new.slots.room ≡ self.old.slots.room }
        ensures same { self.new.step_record ≡ self.old.step_record }
        ensures ok { OnOk result (length (held self.new).image.arena.memory.row.items ≤ (held self.new).room) }
        ensures kept { (held self.old).room ≤ (held self.new).room }
        ensures wanted { OnErr result ((held self.old).room < length (held self.old).image.arena.memory.row.items) }
    {
        let used = self.slots.used();
        if used == 0 {
            return Ok(());
        }
        match self.heap.reserve(used - 1) {
            Ok(()) => Ok(()),
            Err(_) => Err(AllocError),
        }
    }

    /// What always holds of the arena and of the heap. It costs nothing when it runs.
    pub fn is_sound(&self)
        ensures arena { IsSound (held self.now).image.arena }
        ensures heap { IsHeap (held self.now).image.heap }
        ensures places { SlotsDiffer (held self.now).image.heap }
    {
        self.slots.is_sound();
        self.heap.is_sound();
    }
}

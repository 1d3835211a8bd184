//! The parts of a memory, as its callers read them.
ghost use Rattle.std.specs.Prelude.{◌≡◌};
ghost use Rattle.std.specs.Borrow.{Lends, sem};
ghost use Rattle.uv_memory.specs.contracts.memory.Memory.{the_row};
ghost use Rattle.uv_memory.specs.contracts.last.LastStep as last;
ghost use Rattle.uv_memory.specs.Change as change;
ghost use Rattle.uv_memory.specs.Image.{held};
ghost use Rattle.uv_memory.specs.Fit.{IsFit};
ghost use Rattle.uv_memory.specs.Undo.{Recorded};
ghost use Rattle.uv_memory.specs.Does.{changed};

use crate::last::LastStep;
use crate::memory::Memory;
use uv_arena::Slots;
use uv_handle::Handles;
use uv_heap::TimerHeap;
use uv_records::Named;
use uv_requests::Requests;
use uv_timer::Times;
use uv_work::Content;

impl<P: Copy> Memory<P> {
    /// What always holds of handles and requests. It costs nothing when it runs.
    pub fn is_fit(&self)
        ensures { IsFit (held self.now).image }
    {
        let _ = &self.slots;
    }

    /// Where the loop stands.
    pub fn place(&self) -> P
        ensures { result ≡ self.now.place }
    {
        self.place
    }

    /// What each name is bound to.
    pub fn names(&self) -> &[Named]
        ensures { result.now ≡ self.now.names }
    {
        &self.names
    }

    /// The slots, their links, and the ends of the lists.
    pub fn slots(&self) -> &Slots<Content>
        ensures { result.now ≡ self.now.slots }
    {
        &self.slots
    }

    /// The count of the handles that are active and referenced.
    pub fn handles(&self) -> &Handles
        ensures { result.now ≡ self.now.handles }
    {
        &self.handles
    }

    /// What each worker runs, and how many requests are open.
    pub fn requests(&self) -> &Requests
        ensures { result.now ≡ self.now.requests }
    {
        &self.requests
    }

    /// The timers that are set, in the array of their heap.
    pub fn heap(&self) -> &TimerHeap
        ensures { result.now ≡ self.now.heap }
    {
        &self.heap
    }

    /// The loop's time, and the next start number.
    pub fn times(&self) -> &Times
        ensures { result.now ≡ self.now.times }
    {
        &self.times
    }

    /// The clock in ms.
    pub fn clock(&self) -> u64
        ensures { result ≡ self.now.clock }
    {
        self.clock
    }

    /// Whether the run is to end before its next iteration (uv_stop).
    pub fn stop_flag(&self) -> bool
        ensures { result ≡ self.now.stop_flag }
    {
        self.stop_flag
    }

    /// Whether an idle handle was active as the iteration began.
    pub fn idled(&self) -> bool
        ensures { result ≡ self.now.idled }
    {
        self.idled
    }

    /// What takes the last step back.
    pub fn step_record(&self) -> &LastStep<P>
        ensures { result.now ≡ self.now.step_record }
    {
        &self.step_record
    }

    /// What takes the last step back, to be set to that of the step before.
    pub fn step_record_mut(&mut self) -> &mut LastStep<P>
        ensures* back { sem 𝓛 (Lends (the_row P.row) (last.the_row P.row) self.entry result (λ w. record self.old { step_record = w })) }
        ensures value { result.now ≡ self.old.step_record }
    {
        &mut self.step_record
    }

    /// A step that changes nothing.
    pub fn pass(&mut self)
        ensures recorded { Recorded self.new.step_record (held self.old) (held self.new) }
        ensures passed { self.new ≡ record self.old { step_record = changed self.old.place change.Nothing } }
    {
        self.step_record.pass(self.place);
    }
}

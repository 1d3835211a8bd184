//! The timers: the ordered map of those that are active, and the ready list.
ghost use Rattle.std.specs.Prelude.{◌≡◌, ◌<◌, ◌+◌, ◌&&◌, ◌^◌, OnOk, OnErr, if◌then◌else◌};
ghost use Rattle.uv_records.specs.Handles.{is_timer};
ghost use Rattle.uv_model.specs.Timers.{without_timer, taken_off, stopped, started, restarted};
ghost use Rattle.uv_model.specs.Bounds.{StartsBefore};

use crate::ids::remove_id;
use crate::state::LoopState;
use std::alloc::AllocError;
use std::collections::BTreeMap;
use uv_ids::{Due, Id};
use uv_records::{HandleRecord, due_after};

/// Takes a timer off the order, if it is active.
fn remove_timer(timers: &mut BTreeMap<Due, Id>, handle: HandleRecord)
    ensures { timers.new.entries
        ≡ (if is_timer handle.kind && handle.active then without_timer timers.old.entries handle.due else timers.old.entries) }
{
    if handle.is_timer() && handle.active {
        timers.remove(&handle.due);
    }
}

impl LoopState {
    /// Takes a handle off the order of timers, and off each list.
    pub(super) fn take_off(&mut self, id: Id, handle: HandleRecord)
        ensures { self.new ≡ taken_off self.old id handle }
    {
        remove_timer(&mut self.timers, handle);
        remove_id(&mut self.ready, id);
        self.watchers.remove(id);
    }

    /// Stops a handle (uv_timer_stop and the like).
    pub(super) fn stop_handle(&mut self, id: Id, handle: HandleRecord)
        ensures { self.new ≡ stopped self.old id handle }
    {
        self.take_off(id, handle);
        self.set_handle(id, handle.stopped());
    }

    /// Starts a timer that is stopped. Without memory nothing changes.
    pub(super) fn start_stopped(
        &mut self,
        id: Id,
        handle: HandleRecord,
        timeout: u64,
        repeat: u64,
    ) -> Result<(), AllocError>
        requires { self.old.next_start < 2 ^ 63 }
        ensures ok { OnOk result (self.new ≡ started self.old id handle timeout repeat) }
        ensures err { OnErr result (self.new ≡ self.old) }
    {
        let due = due_after(self.time, self.next_start, timeout);
        self.timers.insert(due, id)?;
        self.next_start += 1;
        self.set_handle(id, handle.begun_at(due, repeat));
        Ok(())
    }

    /// Stops a timer and starts it again. Its new place in the order is taken first, since that may want memory; then nothing
    /// changes.
    #[tactic(auto, using(crate::proofs::Starts::started_again))]
    pub(super) fn start_timer(
        &mut self,
        id: Id,
        handle: HandleRecord,
        timeout: u64,
        repeat: u64,
    ) -> Result<(), AllocError>
        requires starts { self.old.next_start < 2 ^ 63 }
        requires drawn { StartsBefore self.old.next_start handle }
        ensures ok { OnOk result (self.new ≡ started (stopped self.old id handle) id handle timeout repeat) }
        ensures err { OnErr result (self.new ≡ self.old) }
    {
        let due = due_after(self.time, self.next_start, timeout);
        self.timers.insert(due, id)?;
        self.take_off(id, handle);
        self.next_start += 1;
        self.set_handle(id, handle.begun_at(due, repeat));
        Ok(())
    }

    /// Stops a timer, and starts it again with its repeat as timeout if it repeats (uv_timer_again). Without memory nothing
    /// changes.
    pub(super) fn restart_timer(&mut self, id: Id, handle: HandleRecord) -> Result<(), AllocError>
        requires starts { self.old.next_start < 2 ^ 63 }
        requires drawn { StartsBefore self.old.next_start handle }
        ensures ok { OnOk result (self.new ≡ restarted (stopped self.old id handle) id handle) }
        ensures err { OnErr result (self.new ≡ self.old) }
    {
        if handle.repeat == 0 {
            self.stop_handle(id, handle);
            return Ok(());
        }
        self.start_timer(id, handle, handle.repeat, handle.repeat)
    }
}

//! The calls of the book on what it holds, with their refusals.
ghost use Rattle.std.specs.Prelude.{◌≡◌, [], IfOk, OnOk, MatchBool, Some};

use crate::held::Held;
use crate::places::{Collected, Place};
use uv_ids::{Code, Fault, Id, MOST_STEPS, Why};
use uv_work::{Job, WorkResult};

impl Held {
    ghost use Rattle.uv_pool.specs.Contents.{result_in};
    ghost use Rattle.uv_pool.specs.Calls.{Reserves, Submits, TakesNext, Finishes, Cancels, CollectsNext};
    ghost use Rattle.uv_pool.specs.Results.{KeepsResults, SetsResult, HandsOut};
    ghost use Rattle.uv_pool.specs.Held.{contents_of, hold_of, rows_of, IsKept};

    /// Makes room for one more entry, where the log may have one.
    pub(crate) fn make_room(&mut self) -> Result<(), Fault>
        requires { IsKept self.old }
        ensures call { Reserves (hold_of self.old) result (hold_of self.new) }
        ensures rows { rows_of self.new ≡ rows_of self.old }
        ensures kept { IsKept self.new }
    {
        if self.log.len() >= MOST_STEPS {
            return Err(Fault::Limit);
        }
        Ok(self.reserve()?)
    }

    pub(crate) fn submit(&mut self, job: Job) -> Result<(), Fault>
        requires { IsKept self.old }
        ensures call { Submits (hold_of self.old) job result (hold_of self.new) }
        ensures kept { IsKept self.new }
    {
        match self.find(job.req) {
            Some(_) => return Err(Fault::Refused(Why::Range)),
            None => {}
        }
        self.make_room()?;
        self.queue(job);
        Ok(())
    }

    pub(crate) fn take_next(&mut self, k: u16) -> Result<Option<Job>, Fault>
        requires { IsKept self.old }
        ensures call { TakesNext (hold_of self.old) k result (hold_of self.new) }
        ensures kept { IsKept self.new }
    {
        match self.run_at(k) {
            None => return Err(Fault::Refused(Why::NoWorker)),
            Some(Some(_)) => return Err(Fault::Refused(Why::BusyWorker)),
            Some(None) => {}
        }
        if self.waiting.is_empty() {
            return Ok(None);
        }
        self.make_room()?;
        Ok(self.take(k))
    }

    /// Whether no job waits.
    pub(crate) fn is_idle(&self) -> bool
        ensures { MatchBool result ((contents_of self.now).waiting ≡ []) ((contents_of self.now).waiting ≡ [] → ⊥) }
    {
        self.waiting.is_empty()
    }

    pub(crate) fn finish_job(&mut self, k: u16, work: WorkResult) -> Result<(), Fault>
        requires { IsKept self.old }
        ensures call { Finishes (hold_of self.old) k work result (hold_of self.new) }
        ensures results { OnOk result (SetsResult (contents_of self.old) work.job.req (Some work) (contents_of self.new)) }
        ensures kept { IsKept self.new }
    {
        match self.run_at(k) {
            None => return Err(Fault::Refused(Why::NoWorker)),
            Some(None) => return Err(Fault::Refused(Why::IdleWorker)),
            Some(Some(job)) => {
                if !job.is(work.job()) {
                    return Err(Fault::Refused(Why::NoWork));
                }
            }
        }
        self.make_room()?;
        self.finish(k, work);
        Ok(())
    }

    pub(crate) fn cancel_request(&mut self, id: Id) -> Result<Code, Fault>
        requires { IsKept self.old }
        ensures call { Cancels (hold_of self.old) id result (hold_of self.new) }
        ensures results { KeepsResults (contents_of self.old) (contents_of self.new) }
        ensures kept { IsKept self.new }
    {
        let number = match self.find(id) {
            None => return Ok(Code::Estale),
            Some(Place::Running(_)) => return Ok(Code::Ebusy),
            Some(Place::Done(_)) => return Ok(Code::Ebusy),
            Some(Place::Waiting(number)) => number,
        };
        self.make_room()?;
        self.cancel(id, number);
        Ok(Code::Ok)
    }

    pub(crate) fn collect_next(&mut self) -> Result<Option<Collected>, Fault>
        requires { IsKept self.old }
        ensures call { CollectsNext (hold_of self.old) result (hold_of self.new) }
        ensures results { IfOk result (λ got. HandsOut (contents_of self.old) got (contents_of self.new)) }
        ensures kept { IsKept self.new }
    {
        if self.done.is_empty() {
            return Ok(None);
        }
        self.make_room()?;
        Ok(self.collect())
    }

    /// The result that was finished and not collected.
    pub(crate) fn result(&self, id: Id) -> Option<WorkResult>
        requires { IsKept self.now }
        ensures { result ≡ result_in self.now.done.items id }
    {
        match self.find(id) {
            Some(Place::Done(number)) => match self.done_at(number) {
                Some(member) => member.result,
                None => None,
            },
            _ => None,
        }
    }
}

//! Work requests: their ops, the steps of the thread pool, and the section that calls those that are done.
ghost use Rattle.std.specs.Prelude.{◌≡◌, ◌++◌, ◌∷◌, [], IfOk, Ok, OnOk, OnErr, Some, slice_get, slice_set};
ghost use Rattle.uv_records.specs.Slots.{next_free, taken};
ghost use Rattle.uv_work.specs.Digests.{digest_of};
ghost use Rattle.uv_work.specs.declared.outcome.Outcome.TheVariants.{Finished};
ghost use Rattle.uv_script.specs.declared.op.Op.TheVariants.{Queue};
ghost use Rattle.uv_work.specs.Tasks.{text_of};
ghost use Rattle.uv_work.specs.declared.content.Content.TheVariants as content;
ghost use Rattle.uv_work.specs.Requests.{queued};
ghost use Rattle.uv_model.specs.State.{live_request};
ghost use Rattle.uv_model.specs.Ops.{do_op, cancel, cancelled, ended};
ghost use Rattle.uv_model.specs.Bounds.{CanStep};
ghost use Rattle.uv_model.specs.Next.{Moves, begin_done, collect_request, next_work, work_of, take, finish, cancels};
ghost use Rattle.uv_model.specs.Handing.{job_run};
ghost use Rattle.uv_model.specs.Steps.{Steps, Falls};

use crate::ids::{has_id, remove_id};
use crate::state::LoopState;
use crate::state::phases::seen;
use std::alloc::AllocError;
use uv_ids::{Answer, Callback, Code, Fault, Id, Phase, Seen, Var, Why};
use uv_model::{Outcome, Run, Stage};
use uv_records::WatcherKind;
use uv_script::Script;
use uv_work::{Content, Job, Outcome as Ending, Request, Task, WorkResult};

/// What a worker makes of a request: it does its job.
fn finished(id: Id, task: Task) -> Ending
    ensures { result ≡ Finished (digest_of task.rounds (text_of task)) }
{
    let job = Job { req: id, task };
    Ending::Finished(WorkResult::compute(job).digest())
}

impl LoopState {
    /// Takes a slot for a new request, which waits for a worker. Without memory nothing changes.
    fn add_request(&mut self, name: Var, task: Task, id: Id) -> Result<(), AllocError>
        requires { next_free self.old.arena ≡ Some id }
        ensures ok { OnOk result (self.new ≡ record self.old {
          arena = taken id (content.Request (queued name task)) self.old.arena;
          waiting = self.old.waiting ++ id ∷ [];
        }) }
        ensures err { OnErr result (self.new ≡ self.old) }
    {
        self.waiting.reserve(1)?;
        let content = Content::Request(Request::new(name, task));
        self.arena.take(id, content)?;
        self.waiting.push_reserved(id);
        Ok(())
    }

    /// Makes a request, to which the name is bound (uv_queue_work).
    pub(super) fn queue(&mut self, name: Var, task: Task) -> Result<Answer, AllocError>
        ensures ok { IfOk result (λ answer. do_op self.old (Queue name task) ≡ record { state = self.new; answer = answer }) }
        ensures err { OnErr result (self.new ≡ self.old) }
    {
        if self.live(name).is_some() {
            return Ok(Answer::Code(Code::Ebound));
        }
        let Some(id) = self.arena.next_free() else {
            return Ok(Answer::Code(Code::Efull));
        };
        self.add_request(name, task, id)?;
        self.bind(name, id);
        Ok(Answer::Id(id))
    }

    /// Ends a request: its after callback is still to come. Without memory nothing changes.
    fn end_request(&mut self, id: Id, request: Request, ending: Ending) -> Result<(), AllocError>
        ensures ok { OnOk result (self.new ≡ ended self.old id request ending) }
        ensures err { OnErr result (self.new ≡ self.old) }
    {
        self.done.push_back(id)?;
        self.set_request(id, request.ended(ending));
        Ok(())
    }

    /// Cancels a request that waits. Without memory nothing changes.
    fn cancel_waiting(&mut self, id: Id, request: Request) -> Result<(), AllocError>
        ensures ok { OnOk result (self.new ≡ cancelled self.old id request) }
        ensures err { OnErr result (self.new ≡ self.old) }
    {
        self.end_request(id, request, Ending::Cancelled)?;
        remove_id(&mut self.waiting, id);
        Ok(())
    }

    /// Cancels a request, if it waits for a worker (uv_cancel). Without memory nothing changes.
    pub(super) fn cancel(&mut self, name: Var) -> Result<Answer, AllocError>
        ensures ok { IfOk result (λ answer. cancel self.old (live_request self.old name) ≡ record { state = self.new; answer = answer }) }
        ensures err { OnErr result (self.new ≡ self.old) }
    {
        let (id, request) = match self.live_request(name) {
            Ok(live) => live,
            Err(code) => return Ok(Answer::Code(code)),
        };
        if !has_id(&self.waiting, id) {
            return Ok(Answer::Code(Code::Ebusy));
        }
        self.cancel_waiting(id, request)?;
        Ok(Answer::Cancelled(id))
    }

    /// Cancels a request from outside. Without memory nothing changes.
    pub(super) fn cancels(&mut self, name: Var) -> Result<Outcome, Fault>
        ensures { Steps (cancels self.old name) self.old result self.new }
    {
        if name.0 as usize >= self.names.len() {
            return Err(Fault::Refused(Why::Range));
        }
        let answer = self.cancel(name)?;
        Ok(seen(Seen::Cancel(name, answer)))
    }

    /// What a worker may take: the request that waits longest.
    pub(super) fn next_work(&self, worker: u16) -> Result<(Id, Request), Why>
        ensures { result ≡ next_work self.now (slice_get self.now.running worker) }
    {
        match self.running.get(worker as usize) {
            None => Err(Why::NoWorker),
            Some(Some(_)) => Err(Why::BusyWorker),
            Some(None) => self.front_request(&self.waiting).ok_or(Why::NoWork),
        }
    }

    /// What a worker may finish: the request that it runs.
    pub(super) fn work_of(&self, worker: u16) -> Result<(Id, Request), Why>
        ensures { result ≡ work_of self.now (slice_get self.now.running worker) }
    {
        let id = match self.running.get(worker as usize) {
            None => return Err(Why::NoWorker),
            Some(None) => return Err(Why::IdleWorker),
            Some(Some(id)) => *id,
        };
        match self.request(id) {
            None => Err(Why::IdleWorker),
            Some(request) => Ok((id, request)),
        }
    }

    /// Sets what a worker runs.
    fn set_running(&mut self, worker: u16, run: Option<Id>)
        ensures { self.new ≡ record self.old { running = slice_set self.old.running worker run } }
    {
        if let Some(place) = self.running.get_mut(worker as usize) {
            *place = run;
        }
    }

    /// A worker takes the request that waits longest.
    #[tactic(auto, using(uv_model::proofs::Walks::walks))]
    pub(super) fn take(&mut self, worker: u16) -> Result<Outcome, Why>
        ensures { Falls (take self.old worker (next_work self.old (slice_get self.old.running worker))) self.old result self.new }
    {
        let (id, request) = self.next_work(worker)?;
        self.waiting.remove(0);
        self.set_running(worker, Some(id));
        Ok(seen(Seen::Take(worker, request.name, id)))
    }

    /// A worker's request ends with the digest of its job, and the worker runs nothing any more. Without memory nothing changes.
    fn end_work(
        &mut self,
        worker: u16,
        id: Id,
        request: Request,
        ending: Ending,
    ) -> Result<Outcome, Fault>
        requires { ending ≡ Finished (digest_of request.task.rounds (text_of request.task)) }
        ensures { Steps (finish self.old worker (Ok (id, request))) self.old result self.new }
    {
        if self.end_request(id, request, ending).is_err() {
            return Err(Fault::Memory);
        }
        self.set_running(worker, None);
        Ok(seen(Seen::Finish(worker, request.name, id)))
    }

    /// A worker finishes the request that it runs: does its job. Without memory nothing changes.
    pub(super) fn finish(&mut self, worker: u16) -> Result<Outcome, Fault>
        ensures { Steps (finish self.old worker (work_of self.old (slice_get self.old.running worker))) self.old result self.new }
    {
        let (id, request) = match self.work_of(worker) {
            Ok(work) => work,
            Err(why) => return Err(Fault::Refused(why)),
        };
        self.end_work(worker, id, request, finished(id, request.task))
    }

    /// A worker finishes the request that it runs, of whose job this is the result. Without memory nothing changes.
    pub(super) fn finish_done(&mut self, worker: u16, work: WorkResult) -> Result<Outcome, Fault>
        requires { job_run self.old worker ≡ Some work.job }
        ensures { Steps (finish self.old worker (work_of self.old (slice_get self.old.running worker))) self.old result self.new }
    {
        let (id, request) = match self.work_of(worker) {
            Ok(work) => work,
            Err(why) => return Err(Fault::Refused(why)),
        };
        self.end_work(worker, id, request, Ending::Finished(work.digest()))
    }

    /// The job that a worker runs, if it runs one.
    pub(super) fn job_run(&self, worker: u16) -> Option<Job>
        ensures { result ≡ job_run self.now worker }
    {
        let (id, request) = self.work_of(worker).ok()?;
        Some(request.job(id))
    }

    /// Begins the section of the requests that are done.
    pub(super) fn begin_done(&mut self, run: Run) -> Outcome
        ensures { begin_done self.old run ≡ Moves self.new result.seen }
    {
        self.done.begin_walk();
        self.begin(run, Stage::Done, Phase::Done)
    }

    /// Frees the slot of the front of the requests that are done and calls it, or leaves the section. Without memory nothing
    /// changes.
    #[tactic(auto, using(uv_model::proofs::Walks::walks))]
    fn collect_request(&mut self, script: &Script, run: Run) -> Result<Outcome, AllocError>
        requires { CanStep self.old }
        ensures ok { IfOk result (λ outcome. collect_request script.now self.old run ≡ Moves self.new outcome.seen) }
        ensures err { OnErr result (self.new ≡ self.old) }
    {
        let Some((id, request)) = self.front_request(self.done.yet()) else {
            return Ok(self.begin_walk(run, WatcherKind::Async));
        };
        self.arena.release(id, script.arena_size().last_generation)?;
        self.done.take_front();
        let line = Seen::After(request.digest(), request.name, id);
        Ok(self.calls(script, run, Callback::After, request.name, line))
    }

    /// Goes on in the section of the requests that are done.
    pub(super) fn in_done(&mut self, script: &Script, run: Run) -> Result<Outcome, Fault>
        requires { CanStep self.old }
        ensures { Steps (collect_request script.now self.old run) self.old result self.new }
    {
        Ok(self.collect_request(script, run)?)
    }
}

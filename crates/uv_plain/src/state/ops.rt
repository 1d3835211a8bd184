//! The ops.
ghost use Rattle.std.specs.Prelude.{◌≡◌, IfOk, OnOk, OnErr, Some};
ghost use Rattle.uv_records.specs.Handles.{inited};
ghost use Rattle.uv_records.specs.Refusals.{no_refusal};
ghost use Rattle.uv_records.specs.Slots.{next_free, taken};
ghost use Rattle.uv_work.specs.declared.content.Content.TheVariants as content;
ghost use Rattle.uv_model.specs.State.{live_handle};
ghost use Rattle.uv_model.specs.Ops.{do_op, on_handle, set_referenced, listed_last, closed, send};
ghost use Rattle.uv_model.specs.Bounds.{CanStep};

use crate::state::LoopState;
use std::alloc::AllocError;
use uv_ids::{Answer, Code, Id, Kind, Var};
use uv_records::{HandleRecord, WatcherKind};
use uv_script::Op;
use uv_work::Content;

impl LoopState {
    /// Does an op. Without memory nothing changes.
    pub(super) fn do_op(&mut self, op: Op) -> Result<Answer, AllocError>
        requires { CanStep self.old }
        ensures ok { IfOk result (λ answer. do_op self.old op ≡ record { state = self.new; answer = answer }) }
        ensures err { OnErr result (self.new ≡ self.old) }
    {
        match op {
            Op::Init(name, kind) => self.init(name, kind),
            Op::Queue(name, task) => self.queue(name, task),
            Op::Cancel(name) => self.cancel(name),
            Op::Start(name, timeout, repeat) => self.start(name, timeout, repeat),
            Op::StartWatcher(name) => self.start_watcher(name),
            Op::Stop(name) => Ok(self.stop(name)),
            Op::Again(name) => self.again(name),
            Op::SetRepeat(name, repeat) => Ok(self.set_repeat(name, repeat)),
            Op::DueIn(name) => Ok(self.due(name)),
            Op::Close(name) => self.close(name),
            Op::Ref(name) => Ok(self.set_referenced(name, true)),
            Op::Unref(name) => Ok(self.set_referenced(name, false)),
            Op::HasRef(name) => Ok(self.has_ref(name)),
            Op::IsActive(name) => Ok(self.is_active(name)),
            Op::IsClosing(name) => Ok(self.is_closing(name)),
            Op::Send(name) => Ok(Answer::Code(self.send(name))),
            Op::StopLoop => Ok(self.stop_loop()),
            Op::UpdateTime => Ok(self.update_time()),
            Op::Now => Ok(Answer::Number(self.time)),
            Op::IsAlive => Ok(Answer::Flag(self.is_alive())),
            Op::Timeout => Ok(Answer::Timeout(self.backend_timeout())),
            Op::CloseLoop => Ok(self.close_loop()),
        }
    }

    /// Takes a slot for a new handle, and lists it if it is an async one. Without memory nothing changes.
    #[tactic(auto, using(crate::proofs::Lists::popped))]
    fn add(&mut self, name: Var, kind: Kind, id: Id) -> Result<(), AllocError>
        requires { next_free self.old.arena ≡ Some id }
        ensures ok { OnOk result (
            self.new ≡ listed_last (record self.old { arena = taken id (content.Handle (inited name kind)) self.old.arena }) kind id
            ) }
        ensures err { OnErr result (self.new ≡ self.old) }
    {
        let content = Content::Handle(HandleRecord::new(name, kind));
        if !matches!(kind, Kind::Async) {
            return self.arena.take(id, content);
        }
        self.watchers.of_mut(WatcherKind::Async).push_back(id)?;
        match self.arena.take(id, content) {
            Ok(()) => Ok(()),
            Err(refused) => {
                self.watchers.of_mut(WatcherKind::Async).pop_back();
                Err(refused)
            }
        }
    }

    /// Makes a handle, to which the name is bound (uv_timer_init and the like).
    fn init(&mut self, name: Var, kind: Kind) -> Result<Answer, AllocError>
        ensures ok { IfOk result (λ answer. do_op self.old (Op.Init name kind) ≡ record { state = self.new; answer = answer }) }
        ensures err { OnErr result (self.new ≡ self.old) }
    {
        if self.live(name).is_some() {
            return Ok(Answer::Code(Code::Ebound));
        }
        let Some(id) = self.arena.next_free() else {
            return Ok(Answer::Code(Code::Efull));
        };
        self.add(name, kind, id)?;
        self.bind(name, id);
        Ok(Answer::Id(id))
    }

    /// Starts a timer; both times in ms (uv_timer_start).
    fn start(&mut self, name: Var, timeout: u64, repeat: u64) -> Result<Answer, AllocError>
        requires { CanStep self.old }
        ensures ok { IfOk result (λ answer. do_op self.old (Op.Start name timeout repeat) ≡ record { state = self.new; answer = answer }) }
        ensures err { OnErr result (self.new ≡ self.old) }
    {
        let (id, handle) = match self.live_handle(name) {
            Ok(live) => live,
            Err(code) => return Ok(Answer::Code(code)),
        };
        if let Some(code) = handle.start_timer_refusal() {
            return Ok(Answer::Code(code));
        }
        self.start_timer(id, handle, timeout, repeat)?;
        Ok(Answer::Code(Code::Ok))
    }

    /// Starts a watcher or a handle of I/O, if it isn't active (uv_idle_start and the like; uv_read_start).
    fn start_watcher(&mut self, name: Var) -> Result<Answer, AllocError>
        ensures ok { IfOk result (λ answer. do_op self.old (Op.StartWatcher name) ≡ record { state = self.new; answer = answer }) }
        ensures err { OnErr result (self.new ≡ self.old) }
    {
        let (id, handle) = match self.live_handle(name) {
            Ok(live) => live,
            Err(code) => return Ok(Answer::Code(code)),
        };
        if let Some(code) = handle.start_watcher_refusal() {
            return Ok(Answer::Code(code));
        }
        if handle.active {
            return Ok(Answer::Code(Code::Ok));
        }
        match WatcherKind::from_kind(handle.kind) {
            Some(kind) => self.start_watching(kind, id, handle)?,
            None => self.set_handle(id, handle.activated()),
        }
        Ok(Answer::Code(Code::Ok))
    }

    /// Stops a handle (uv_timer_stop and the like).
    fn stop(&mut self, name: Var) -> Answer
        ensures { do_op self.old (Op.Stop name) ≡ record { state = self.new; answer = result } }
    {
        let (id, handle) = match self.live_handle(name) {
            Ok(live) => live,
            Err(code) => return Answer::Code(code),
        };
        if let Some(code) = handle.stop_refusal() {
            return Answer::Code(code);
        }
        self.stop_handle(id, handle);
        Answer::Code(Code::Ok)
    }

    /// Stops a timer, and starts it again if it repeats (uv_timer_again).
    fn again(&mut self, name: Var) -> Result<Answer, AllocError>
        requires { CanStep self.old }
        ensures ok { IfOk result (λ answer. do_op self.old (Op.Again name) ≡ record { state = self.new; answer = answer }) }
        ensures err { OnErr result (self.new ≡ self.old) }
    {
        let (id, handle) = match self.live_handle(name) {
            Ok(live) => live,
            Err(code) => return Ok(Answer::Code(code)),
        };
        if let Some(code) = handle.again_refusal() {
            return Ok(Answer::Code(code));
        }
        self.restart_timer(id, handle)?;
        Ok(Answer::Code(Code::Ok))
    }

    /// Sets a timer's repeat in ms (uv_timer_set_repeat).
    fn set_repeat(&mut self, name: Var, repeat: u64) -> Answer
        ensures { do_op self.old (Op.SetRepeat name repeat) ≡ record { state = self.new; answer = result } }
    {
        let (id, handle) = match self.live_handle(name) {
            Ok(live) => live,
            Err(code) => return Answer::Code(code),
        };
        if let Some(code) = handle.timer_refusal() {
            return Answer::Code(code);
        }
        self.set_handle(id, handle.repeating(repeat));
        Answer::Code(Code::Ok)
    }

    /// In how many ms a timer is due (uv_timer_get_due_in).
    fn due(&self, name: Var) -> Answer
        ensures { do_op self.now (Op.DueIn name) ≡ record { state = self.now; answer = result } }
    {
        let handle = match self.live_handle(name) {
            Ok((_, handle)) => handle,
            Err(code) => return Answer::Code(code),
        };
        match handle.timer_refusal() {
            Some(code) => Answer::Code(code),
            None => Answer::Number(handle.due_in(self.time)),
        }
    }

    /// Closes a handle: stopped, and at the front of the closing list. Without memory nothing changes.
    fn close_handle(&mut self, id: Id, handle: HandleRecord) -> Result<(), AllocError>
        ensures ok { OnOk result (self.new ≡ closed self.old id handle) }
        ensures err { OnErr result (self.new ≡ self.old) }
    {
        self.closing.push_front(id)?;
        self.take_off(id, handle);
        self.set_handle(id, handle.closed());
        Ok(())
    }

    /// Closes a handle (uv_close).
    fn close(&mut self, name: Var) -> Result<Answer, AllocError>
        ensures ok { IfOk result (λ answer. do_op self.old (Op.Close name) ≡ record { state = self.new; answer = answer }) }
        ensures err { OnErr result (self.new ≡ self.old) }
    {
        let (id, handle) = match self.live_handle(name) {
            Ok(live) => live,
            Err(code) => return Ok(Answer::Code(code)),
        };
        if let Some(code) = handle.close_refusal() {
            return Ok(Answer::Code(code));
        }
        self.close_handle(id, handle)?;
        Ok(Answer::Code(Code::Ok))
    }

    /// References a handle, or doesn't (uv_ref, uv_unref).
    fn set_referenced(&mut self, name: Var, referenced: bool) -> Answer
        ensures { on_handle self.old (live_handle self.old name) no_refusal (set_referenced self.old referenced)
            ≡ record { state = self.new; answer = result } }
    {
        let (id, handle) = match self.live_handle(name) {
            Ok(live) => live,
            Err(code) => return Answer::Code(code),
        };
        self.set_handle(id, handle.referenced_as(referenced));
        Answer::Code(Code::Ok)
    }

    /// Whether a handle is referenced (uv_has_ref).
    fn has_ref(&self, name: Var) -> Answer
        ensures { do_op self.now (Op.HasRef name) ≡ record { state = self.now; answer = result } }
    {
        match self.live_handle(name) {
            Err(code) => Answer::Code(code),
            Ok((_, handle)) => Answer::Flag(handle.referenced),
        }
    }

    /// Whether a handle is active (uv_is_active).
    fn is_active(&self, name: Var) -> Answer
        ensures { do_op self.now (Op.IsActive name) ≡ record { state = self.now; answer = result } }
    {
        match self.live_handle(name) {
            Err(code) => Answer::Code(code),
            Ok((_, handle)) => Answer::Flag(handle.active),
        }
    }

    /// Whether a handle closes (uv_is_closing).
    fn is_closing(&self, name: Var) -> Answer
        ensures { do_op self.now (Op.IsClosing name) ≡ record { state = self.now; answer = result } }
    {
        match self.live_handle(name) {
            Err(code) => Answer::Code(code),
            Ok((_, handle)) => Answer::Flag(handle.closing),
        }
    }

    /// Has an async handle called (uv_async_send).
    pub(super) fn send(&mut self, name: Var) -> Code
        ensures { send self.old (live_handle self.old name) ≡ record { state = self.new; code = result } }
    {
        let (id, handle) = match self.live_handle(name) {
            Ok(live) => live,
            Err(code) => return code,
        };
        if let Some(code) = handle.send_refusal() {
            return code;
        }
        self.set_handle(id, handle.sent());
        Code::Ok
    }

    /// Has the run end before its next iteration (uv_stop).
    fn stop_loop(&mut self) -> Answer
        ensures { do_op self.old Op.StopLoop ≡ record { state = self.new; answer = result } }
    {
        self.stop_flag = true;
        Answer::Code(Code::Ok)
    }

    /// Sets the loop's time to the clock (uv_update_time).
    fn update_time(&mut self) -> Answer
        ensures { do_op self.old Op.UpdateTime ≡ record { state = self.new; answer = result } }
    {
        self.refresh();
        Answer::Code(Code::Ok)
    }

    /// Whether the loop could be closed (uv_loop_close).
    fn close_loop(&self) -> Answer
        ensures { do_op self.now Op.CloseLoop ≡ record { state = self.now; answer = result } }
    {
        if self.arena.is_in_use() {
            Answer::Code(Code::Ebusy)
        } else {
            Answer::Code(Code::Ok)
        }
    }
}

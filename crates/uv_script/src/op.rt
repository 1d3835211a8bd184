//! What a script's lines do.

ghost use Rattle.std.specs.Prelude.{◌≡◌, drop, OnOk, OnErr};
ghost use Rattle.uv_script.specs.Program.{no_callbacks, lines_of, makes_io, next_line, with_line};
ghost use Rattle.uv_script.specs.SameWork.{same_callbacks};

use crate::callback_lines::CallbackLines;
use std::alloc::{AllocError, Global};
use std::marker::Model;
use uv_ids::{Callback, Kind, Mode, Var};
use uv_work::Task;

/// An op, as it stands in the main program or in a callback.
#[derive(Clone, Copy)]
pub enum Op {
    /// `init NAME KIND`: takes a slot for a handle and binds the name to it (uv_timer_init and the like). The kind `io` stands
    /// behind the line `io` only (own).
    Init(Var, Kind),
    /// `start NAME TIMEOUT REPEAT`, both in ms: starts a timer (uv_timer_start).
    Start(Var, u64, u64),
    /// `start NAME`: starts an idle, prepare or check handle, or one of I/O (uv_idle_start, uv_read_start and the like).
    StartWatcher(Var),
    /// `stop NAME` (uv_timer_stop and the like).
    Stop(Var),
    /// `again NAME`: stops a timer, and starts it with its repeat as timeout if it repeats (uv_timer_again).
    Again(Var),
    /// `repeat NAME REPEAT`, in ms: sets a timer's repeat (uv_timer_set_repeat).
    SetRepeat(Var, u64),
    /// `due NAME`: in how many ms a timer is due (uv_timer_get_due_in).
    DueIn(Var),
    /// `ref NAME`: the handle keeps the loop alive while it is active (uv_ref).
    Ref(Var),
    /// `unref NAME`: it doesn't (uv_unref).
    Unref(Var),
    /// `hasref NAME` (uv_has_ref).
    HasRef(Var),
    /// `active NAME` (uv_is_active).
    IsActive(Var),
    /// `close NAME`: the handle is stopped, and its close callback comes in the closing section (uv_close).
    Close(Var),
    /// `closing NAME` (uv_is_closing).
    IsClosing(Var),
    /// `send NAME`: wakes the loop for an async handle (uv_async_send).
    Send(Var),
    /// `queue NAME ROUNDS [TEXT]`: takes a slot for a request, binds the name to it, and asks a worker to hash the text
    /// so many times (uv_queue_work).
    Queue(Var, Task),
    /// `cancel NAME`: the request is done without a worker, if none took it (uv_cancel).
    Cancel(Var),
    /// `closeloop`, which stands in the main program only (uv_loop_close).
    CloseLoop,
    /// `stoploop`: the run ends before its next iteration (uv_stop).
    StopLoop,
    /// `updatetime`: sets the loop's time to the clock (uv_update_time).
    UpdateTime,
    /// `now`: the loop's time in ms (uv_now).
    Now,
    /// `alive` (uv_loop_alive).
    IsAlive,
    /// `timeout`: how long a poll might wait, in ms (uv_backend_timeout).
    Timeout,
}

impl Op {
    /// Whether the op makes a handle of I/O.
    pub(crate) fn makes_io(self) -> bool
        ensures { result ≡ makes_io self }
    {
        matches!(self, Op::Init(_, Kind::Io))
    }
}

/// A line of the main program.
#[derive(Clone, Copy)]
pub enum MainOp {
    Op(Op),
    /// `run MODE` (uv_run), which stands in the main program only.
    Run(Mode),
}

/// The lines of a name's callbacks.
#[derive(Drop)]
pub struct Callbacks {
    handle: CallbackLines,
    after: CallbackLines,
    close: CallbackLines,
}

impl Model for Callbacks {
    ghost use Rattle.uv_script.specs.Program as parts;

    ghost Value = { parts.Callbacks };

    ghost view = { λ a. record { handle = a.handle; after = a.after; close = a.close } };
}

impl Callbacks {
    /// No line.
    pub(crate) fn new(alloc: Global) -> Callbacks
        ensures { result ≡ no_callbacks }
    {
        Callbacks {
            handle: CallbackLines::new(alloc),
            after: CallbackLines::new(alloc),
            close: CallbackLines::new(alloc),
        }
    }

    /// The lines of one of the callbacks, with their index.
    fn of(&self, kind: Callback) -> &CallbackLines
        ensures { result.now ≡ lines_of kind self.now }
    {
        match kind {
            Callback::Handle => &self.handle,
            Callback::After => &self.after,
            Callback::Close => &self.close,
        }
    }

    /// The lines of one of the callbacks.
    pub(crate) fn lines(&self, kind: Callback) -> &[CallbackLine]
        ensures { result.now ≡ lines_of kind self.now }
    {
        self.of(kind).as_slice()
    }

    /// The first line of one of the callbacks, from this one on, that is for a call.
    pub(crate) fn next_line(&self, kind: Callback, call: u32, from: usize) -> Option<usize>
        ensures { result ≡ next_line call from (drop from (lines_of kind self.now)) }
    {
        self.of(kind).next_line(call, from)
    }

    /// Adds a line to one of the callbacks. Without memory nothing changes.
    pub(crate) fn push(&mut self, kind: Callback, line: CallbackLine) -> Result<(), AllocError>
        ensures ok { OnOk result (self.new ≡ with_line kind self.old line) }
        ensures err { OnErr result (self.new ≡ self.old) }
    {
        match kind {
            Callback::Handle => self.handle.push(line)?,
            Callback::After => self.after.push(line)?,
            Callback::Close => self.close.push(line)?,
        }
        Ok(())
    }

    /// Each request asks for the least task.
    pub(crate) fn ask_same_work(&mut self)
        ensures { self.new ≡ same_callbacks self.old }
    {
        self.handle.ask_same_work();
        self.after.ask_same_work();
        self.close.ask_same_work();
    }
}

/// A line of a name's callback.
#[derive(Clone, Copy)]
pub struct CallbackLine {
    /// In which of the name's calls the op is done, from 1; none is in every call.
    pub call: Option<u32>,
    pub op: Op,
}

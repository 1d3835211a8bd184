//! The text of a script's parts.
#![tactic(auto, using(crate::proofs::Writing::writing))]

ghost use Rattle.std.specs.Prelude.{◌≡◌, ◌++◌, map, decimal, OnOk, OnErr, IfOk, IfErr};
ghost use Rattle.uv_ids.specs.declared.fault.Fault.TheVariants.{Memory};
ghost use Rattle.uv_script.specs.Grammar.{WasRead};
ghost use Rattle.uv_script.specs.Laws.{IsReadBack};
ghost use Rattle.uv_script.specs.Program.{arena_size, worker_count, order_of};
ghost use Rattle.uv_script.specs.declared.op.Op.TheVariants.{Start, Queue};
ghost use Rattle.uv_script.specs.Writes.{Writes};
ghost use Rattle.uv_script.specs.Text.{op_text, name_text, task_text, order_line, line_if, workers_line, slots_line, setting_lines, var_line, main_line, call_text, front_text, callback_line, name_lines, callback_lines, thread_line, lines_text, script_text};

use crate::names::Names;
use crate::op::{CallbackLine, MainOp, Op};
use crate::script::Script;
use itoa::Buffer;
use std::alloc::AllocError;
use uv_ids::{Callback, Fault, ThreadLine, Var};
use uv_work::Task;

/// Writes a number at the end of a text, in decimal digits.
#[tactic(auto, using(std::proofs::lemmas::Fmt::decimal_digit))]
pub fn push_number(text: &mut Vec<u8>, number: u64) -> Result<(), AllocError>
    ensures ok { OnOk result (text.new.items ≡ text.old.items ++ decimal number) }
    ensures err { OnErr result (text.new.items ≡ text.old.items) }
{
    if number < 10 {
        text.push(b'0' + number as u8)?;
        return Ok(());
    }
    let mut buffer = Buffer::new();
    text.extend_from_slice(buffer.format(number).as_bytes())
}

/// Writes the text of a task at the end of a text, behind a space; nothing where it is empty.
pub fn push_task_text(text: &mut Vec<u8>, of_task: &[u8]) -> Result<(), AllocError>
    ensures { Writes result text.old.items (task_text of_task.now) text.new.items }
{
    if of_task.is_empty() {
        return Ok(());
    }
    text.extend_from_slice(b" ")?;
    text.extend_from_slice(of_task)
}

impl Names {
    /// Writes a name at the end of a text.
    pub fn push_name(&self, text: &mut Vec<u8>, name: Var) -> Result<(), AllocError>
        ensures ok { OnOk result (text.new.items ≡ text.old.items ++ name_text self.now name) }
        ensures err { OnErr result (text.new.items ≡ text.old.items) }
    {
        match self.get(name) {
            Some(bytes) => text.extend_from_slice(bytes),
            None => Ok(()),
        }
    }

    /// Writes a word with the space behind it, and a name.
    fn push_named(&self, text: &mut Vec<u8>, word: &[u8], name: Var) -> Result<(), AllocError>
        ensures { Writes result text.old.items (word.now ++ name_text self.now name) text.new.items }
    {
        text.extend_from_slice(word)?;
        self.push_name(text, name)
    }

    /// Writes a timer's start.
    fn push_start(
        &self,
        text: &mut Vec<u8>,
        name: Var,
        timeout: u64,
        repeat: u64,
    ) -> Result<(), AllocError>
        ensures { Writes result text.old.items (op_text self.now (Start name timeout repeat)) text.new.items }
    {
        self.push_named(text, b"start ", name)?;
        text.extend_from_slice(b" ")?;
        push_number(text, timeout)?;
        text.extend_from_slice(b" ")?;
        push_number(text, repeat)
    }

    /// Writes the op that asks for work.
    fn push_queue(&self, text: &mut Vec<u8>, name: Var, task: Task) -> Result<(), AllocError>
        ensures { Writes result text.old.items (op_text self.now (Queue name task)) text.new.items }
    {
        self.push_named(text, b"queue ", name)?;
        text.extend_from_slice(b" ")?;
        push_number(text, task.rounds() as u64)?;
        push_task_text(text, task.text())
    }
}

impl Op {
    /// Writes the op at the end of a text, as a script has it.
    pub fn push_text(self, text: &mut Vec<u8>, names: &Names) -> Result<(), AllocError>
        ensures { Writes result text.old.items (op_text names.now self) text.new.items }
    {
        match self {
            Op::Init(name, kind) => {
                names.push_named(text, b"init ", name)?;
                text.extend_from_slice(b" ")?;
                text.extend_from_slice(kind.word().as_bytes())
            }
            Op::Start(name, timeout, repeat) => names.push_start(text, name, timeout, repeat),
            Op::SetRepeat(name, repeat) => {
                names.push_named(text, b"repeat ", name)?;
                text.extend_from_slice(b" ")?;
                push_number(text, repeat)
            }
            Op::StartWatcher(name) => names.push_named(text, b"start ", name),
            Op::Stop(name) => names.push_named(text, b"stop ", name),
            Op::Again(name) => names.push_named(text, b"again ", name),
            Op::DueIn(name) => names.push_named(text, b"due ", name),
            Op::Ref(name) => names.push_named(text, b"ref ", name),
            Op::Unref(name) => names.push_named(text, b"unref ", name),
            Op::HasRef(name) => names.push_named(text, b"hasref ", name),
            Op::IsActive(name) => names.push_named(text, b"active ", name),
            Op::Close(name) => names.push_named(text, b"close ", name),
            Op::IsClosing(name) => names.push_named(text, b"closing ", name),
            Op::Send(name) => names.push_named(text, b"send ", name),
            Op::Queue(name, task) => names.push_queue(text, name, task),
            Op::Cancel(name) => names.push_named(text, b"cancel ", name),
            Op::CloseLoop => text.extend_from_slice(b"closeloop"),
            Op::StopLoop => text.extend_from_slice(b"stoploop"),
            Op::UpdateTime => text.extend_from_slice(b"updatetime"),
            Op::Now => text.extend_from_slice(b"now"),
            Op::IsAlive => text.extend_from_slice(b"alive"),
            Op::Timeout => text.extend_from_slice(b"timeout"),
        }
    }
}

impl MainOp {
    /// Writes the line of the main program.
    fn push_line(self, text: &mut Vec<u8>, names: &Names) -> Result<(), AllocError>
        ensures { Writes result text.old.items (main_line names.now self) text.new.items }
    {
        match self {
            MainOp::Op(op) => {
                text.extend_from_slice(b"main ")?;
                op.push_text(text, names)
            }
            MainOp::Run(mode) => {
                text.extend_from_slice(b"main run ")?;
                text.extend_from_slice(mode.word().as_bytes())
            }
        }
    }
}

/// The word of a callback's lines, with the space behind it.
fn front(kind: Callback) -> &'static [u8]
    ensures { result.now ≡ front_text kind }
{
    match kind {
        Callback::Handle => b"on ",
        Callback::After => b"after ",
        Callback::Close => b"closed ",
    }
}

impl CallbackLine {
    /// Writes the op, behind the call that it is for.
    fn push_op(self, text: &mut Vec<u8>, names: &Names) -> Result<(), AllocError>
        ensures { Writes result text.old.items (call_text self.call (op_text names.now self.op)) text.new.items }
    {
        let Some(call) = self.call else {
            return self.op.push_text(text, names);
        };
        text.extend_from_slice(b"@")?;
        push_number(text, call as u64)?;
        text.extend_from_slice(b" ")?;
        self.op.push_text(text, names)
    }

    /// Writes the line of a name's callback.
    fn push_line(
        self,
        text: &mut Vec<u8>,
        names: &Names,
        kind: Callback,
        name: Var,
    ) -> Result<(), AllocError>
        ensures { Writes result text.old.items (callback_line names.now kind name self) text.new.items }
    {
        names.push_named(text, front(kind), name)?;
        text.extend_from_slice(b" ")?;
        self.push_op(text, names)
    }
}

/// Writes the lines of the main program.
fn push_main(text: &mut Vec<u8>, names: &Names, main: &[MainOp]) -> Result<(), AllocError>
    ensures { Writes result text.old.items (lines_text (map (main_line names.now) main.now)) text.new.items }
{
    for op in main {
        op.push_line(text, names)?;
        text.extend_from_slice(b"\n")?;
    }
    Ok(())
}

/// Writes the lines of a name's callback.
fn push_callback(
    text: &mut Vec<u8>,
    names: &Names,
    kind: Callback,
    name: Var,
    lines: &[CallbackLine],
) -> Result<(), AllocError>
    ensures { Writes result text.old.items (lines_text (map (callback_line names.now kind name) lines.now)) text.new.items }
{
    for line in lines {
        line.push_line(text, names, kind, name)?;
        text.extend_from_slice(b"\n")?;
    }
    Ok(())
}

/// Writes a line where it was said, and else nothing.
fn push_line_if(text: &mut Vec<u8>, said: bool, line: &[u8]) -> Result<(), AllocError>
    ensures { Writes result text.old.items (lines_text (line_if said line.now)) text.new.items }
{
    if said {
        text.extend_from_slice(line)?;
        text.extend_from_slice(b"\n")?;
    }
    Ok(())
}

/// Writes the line of a thread.
fn push_thread_line(text: &mut Vec<u8>, names: &Names, line: ThreadLine) -> Result<(), AllocError>
    ensures { Writes result text.old.items (thread_line names.now line) text.new.items }
{
    text.extend_from_slice(b"thread ")?;
    push_number(text, line.thread as u64)?;
    text.extend_from_slice(b" send ")?;
    names.push_name(text, line.name)
}

/// Writes the lines of all threads.
fn push_threads(text: &mut Vec<u8>, names: &Names, lines: &[ThreadLine]) -> Result<(), AllocError>
    ensures { Writes result text.old.items (lines_text (map (thread_line names.now) lines.now)) text.new.items }
{
    for line in lines {
        push_thread_line(text, names, *line)?;
        text.extend_from_slice(b"\n")?;
    }
    Ok(())
}

impl Names {
    /// Writes the declarations.
    fn push_declarations(&self, text: &mut Vec<u8>) -> Result<(), AllocError>
        ensures { Writes result text.old.items (lines_text (map var_line self.now)) text.new.items }
    {
        for number in 0..self.len() {
            self.push_named(text, b"var ", Var(number as u32))?;
            text.extend_from_slice(b"\n")?;
        }
        Ok(())
    }
}

impl Script {
    /// The script as a text, which says all settings: the line `order`, `io` and `timers heap` where they were said, the lines
    /// `workers` and `slots`, the names, the main program, for each name the lines of its callbacks, and last the lines of
    /// threads, as they came. Such a text is read back as this very script.
    pub fn text(&self) -> Result<Vec<u8>, Fault>
        ensures text { IfOk result (λ text. text.items ≡ script_text self.now) }
        ensures err { IfErr result (λ fault. fault ≡ Memory) }
        ensures read_back { IsReadBack self.now }
    {
        let mut text = Vec::new(self.allocator());
        self.push_lines(&mut text)?;
        Ok(text)
    }

    /// Writes the text of the script at the end of a text.
    pub fn push_lines(&self, text: &mut Vec<u8>) -> Result<(), AllocError>
        ensures text { Writes result text.old.items (script_text self.now) text.new.items }
        ensures read { WasRead self.now }
    {
        let main = self.main();
        self.push_settings(text)?;
        self.names().push_declarations(text)?;
        push_main(text, self.names(), main)?;
        self.push_callbacks(text)?;
        push_threads(text, self.names(), self.thread_lines())?;
        Ok(())
    }

    /// Writes the order of a run's phases.
    fn push_order(&self, text: &mut Vec<u8>) -> Result<(), AllocError>
        ensures { Writes result text.old.items (order_line (order_of self.now)) text.new.items }
    {
        text.extend_from_slice(b"order ")?;
        text.extend_from_slice(self.order().word().as_bytes())
    }

    /// Writes how many workers there are.
    fn push_workers(&self, text: &mut Vec<u8>) -> Result<(), AllocError>
        ensures { Writes result text.old.items (workers_line (worker_count self.now)) text.new.items }
    {
        text.extend_from_slice(b"workers ")?;
        push_number(text, self.workers() as u64)
    }

    /// Writes how large the arena is.
    fn push_slots(&self, text: &mut Vec<u8>) -> Result<(), AllocError>
        ensures { Writes result text.old.items (slots_line (arena_size self.now)) text.new.items }
    {
        let size = self.arena_size();
        text.extend_from_slice(b"slots ")?;
        push_number(text, size.slots as u64)?;
        text.extend_from_slice(b" ")?;
        push_number(text, size.last_generation as u64)
    }

    /// Writes the lines of all settings.
    fn push_settings(&self, text: &mut Vec<u8>) -> Result<(), AllocError>
        ensures { Writes result text.old.items (lines_text (setting_lines self.now)) text.new.items }
    {
        self.push_order(text)?;
        text.extend_from_slice(b"\n")?;
        push_line_if(text, self.has_io(), b"io")?;
        push_line_if(text, self.timers_from_heap(), b"timers heap")?;
        self.push_workers(text)?;
        text.extend_from_slice(b"\n")?;
        self.push_slots(text)?;
        text.extend_from_slice(b"\n")?;
        Ok(())
    }

    /// Writes the lines of all callbacks of a name.
    fn push_callbacks_of(&self, text: &mut Vec<u8>, name: Var) -> Result<(), AllocError>
        ensures { Writes result text.old.items (lines_text (name_lines self.now name)) text.new.items }
    {
        let names = self.names();
        let handle = self.lines_in(Callback::Handle, name);
        push_callback(text, names, Callback::Handle, name, handle)?;
        let after = self.lines_in(Callback::After, name);
        push_callback(text, names, Callback::After, name, after)?;
        let close = self.lines_in(Callback::Close, name);
        push_callback(text, names, Callback::Close, name, close)?;
        Ok(())
    }

    /// Writes the lines of all callbacks.
    fn push_callbacks(&self, text: &mut Vec<u8>) -> Result<(), AllocError>
        ensures { Writes result text.old.items (lines_text (callback_lines self.now 0 self.now.names)) text.new.items }
    {
        for number in 0..self.names().len() {
            self.push_callbacks_of(text, Var(number as u32))?;
        }
        Ok(())
    }
}

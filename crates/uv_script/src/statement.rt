//! What the lines of a script say, one at a time.
ghost use Rattle.std.specs.Prelude.{◌≡◌, Some, option_map};
ghost use Rattle.uv_script.specs.Grammar.{asks_io};
ghost use Rattle.uv_script.specs.Lines.{fields_of};
ghost use Rattle.uv_script.specs.Reading.{none_left, kind_of, mode_of, init_of, timer_start_of, start_of, repeat_of, text_by, queue_of, bare_op, named_op, name_alone, short_op_of, op_of, declaration_of, run_of, main_of, main_by, close_loop_of, call_of, marked, in_calls_of, in_call_of, callback_of, last_of, size_of, workers_of, orders_of, io_of, timers_of, sender_of, thread_of, setting_of, statement_of};
ghost use Rattle.uv_script.specs.Said.{said};
ghost use Rattle.uv_work.specs.TaskReading.{task_of};

use crate::limits::MOST_SLOTS;
use crate::lines::Fields;
use crate::names::Names;
use crate::op::{CallbackLine, MainOp, Op};
use crate::size::ArenaSize;
use crate::words::{is_name, number};
use uv_ids::{
    Callback, Kind, MOST_ROUNDS, MOST_SENDERS, MOST_WORKERS, Mode, Order, ThreadLine, Var, is,
};
use uv_work::Task;

/// What a line says.
#[derive(Drop)]
pub(crate) enum Statement<'a> {
    /// `var NAME`
    Declares(&'a [u8]),
    /// `main OP`
    InMain(MainOp),
    /// `on NAME [@k] OP`, `after NAME [@k] OP`, `closed NAME [@k] OP`
    InCallback(Callback, Var, CallbackLine),
    /// `slots n [g]`
    Sizes(ArenaSize),
    /// `workers n`
    HasWorkers(u16),
    /// `order VERSION`
    Orders(Order),
    /// `io`
    HasIo,
    /// `timers heap`
    FromHeap,
    /// `thread k send NAME`
    InThread(ThreadLine),
}

impl Statement<'_> {
    /// Whether its op makes a handle of I/O.
    pub(crate) fn asks_io(&self) -> bool
        ensures { result ≡ asks_io (said self.now) }
    {
        match self {
            Statement::Declares(_) => false,
            Statement::InMain(MainOp::Op(op)) => op.makes_io(),
            Statement::InMain(MainOp::Run(_)) => false,
            Statement::InCallback(_, _, line) => line.op.makes_io(),
            Statement::Sizes(_) => false,
            Statement::HasWorkers(_) => false,
            Statement::Orders(_) => false,
            Statement::HasIo => false,
            Statement::FromHeap => false,
            Statement::InThread(_) => false,
        }
    }
}

/// Nothing, where no field is left.
fn none_left(mut fields: Fields<'_>) -> Option<()>
    ensures { result ≡ none_left fields.entry }
{
    match fields.next() {
        Some(_) => None,
        None => Some(()),
    }
}

#[tactic(auto, unfolding(crate::specs::Reading::init_of))]
fn init(names: &Names, mut fields: Fields<'_>) -> Option<Op>
    ensures { result ≡ init_of names.now fields.entry }
{
    let name = names.number(fields.next()?)?;
    let kind = Kind::from_word(fields.next()?)?;
    none_left(fields)?;
    Some(Op::Init(name, kind))
}

/// A timer's start, from its timeout on.
#[tactic(auto, unfolding(crate::specs::Reading::timer_start_of))]
fn timer_start(name: Var, timeout: &[u8], mut fields: Fields<'_>) -> Option<Op>
    ensures { result ≡ timer_start_of name timeout.now fields.entry }
{
    let timeout = number(timeout)?;
    let repeat = number(fields.next()?)?;
    none_left(fields)?;
    Some(Op::Start(name, timeout, repeat))
}

/// A start, which is a timer's where more than the name is left, and else a watcher's.
#[tactic(auto, unfolding(crate::specs::Reading::start_of))]
fn start(names: &Names, mut fields: Fields<'_>) -> Option<Op>
    ensures { result ≡ start_of names.now fields.entry }
{
    let name = names.number(fields.next()?)?;
    match fields.next() {
        Some(timeout) => timer_start(name, timeout, fields),
        None => Some(Op::StartWatcher(name)),
    }
}

#[tactic(auto, unfolding(crate::specs::Reading::repeat_of))]
fn set_repeat(names: &Names, mut fields: Fields<'_>) -> Option<Op>
    ensures { result ≡ repeat_of names.now fields.entry }
{
    let name = names.number(fields.next()?)?;
    let repeat = number(fields.next()?)?;
    none_left(fields)?;
    Some(Op::SetRepeat(name, repeat))
}

/// The text of a task: the rest of the line, and no text where nothing is left.
fn task_text<'a>(rest: Option<&'a [u8]>) -> Option<&'a [u8]>
    ensures { option_map (λ text. text.now) result ≡ text_by (option_map (λ rest. rest.now) rest.entry) }
{
    match rest {
        Some([]) => None,
        Some(text) => Some(text),
        None => Some(&[]),
    }
}

#[tactic(auto, unfolding(crate::specs::Reading::queue_of))]
fn queue(names: &Names, mut fields: Fields<'_>) -> Option<Op>
    ensures { result ≡ queue_of names.now fields.entry }
{
    let name = names.number(fields.next()?)?;
    let rounds = number(fields.next()?)?;
    let text = task_text(fields.rest())?;
    let task = task(rounds, text)?;
    Some(Op::Queue(name, task))
}

/// A task of so many rounds, if there may be so many.
#[tactic(auto, using(uv_work::proofs::TaskLemmas::tasks))]
fn task(rounds: u64, text: &[u8]) -> Option<Task>
    ensures { result ≡ task_of rounds text.now }
{
    if rounds > MOST_ROUNDS as u64 {
        return None;
    }
    Task::new(rounds as u16, text)
}

/// The op of a word alone.
#[tactic(auto, unfolding(crate::specs::Reading::bare_op))]
fn bare_op(word: &[u8]) -> Option<Op>
    ensures { result ≡ bare_op word.now }
{
    if is(word, b"stoploop") {
        Some(Op::StopLoop)
    } else if is(word, b"updatetime") {
        Some(Op::UpdateTime)
    } else if is(word, b"now") {
        Some(Op::Now)
    } else if is(word, b"alive") {
        Some(Op::IsAlive)
    } else if is(word, b"timeout") {
        Some(Op::Timeout)
    } else {
        None
    }
}

/// The op of a word and a name; a start is read apart.
#[tactic(auto, unfolding(crate::specs::Reading::named_op))]
fn named_op(word: &[u8], name: Var) -> Option<Op>
    ensures { result ≡ named_op word.now name }
{
    if is(word, b"stop") {
        Some(Op::Stop(name))
    } else if is(word, b"again") {
        Some(Op::Again(name))
    } else if is(word, b"due") {
        Some(Op::DueIn(name))
    } else if is(word, b"ref") {
        Some(Op::Ref(name))
    } else if is(word, b"unref") {
        Some(Op::Unref(name))
    } else if is(word, b"hasref") {
        Some(Op::HasRef(name))
    } else if is(word, b"active") {
        Some(Op::IsActive(name))
    } else if is(word, b"close") {
        Some(Op::Close(name))
    } else if is(word, b"closing") {
        Some(Op::IsClosing(name))
    } else if is(word, b"send") {
        Some(Op::Send(name))
    } else if is(word, b"cancel") {
        Some(Op::Cancel(name))
    } else {
        None
    }
}

/// The number of a name, behind which nothing stands.
#[tactic(auto, unfolding(crate::specs::Reading::name_alone))]
fn name_alone(names: &Names, mut fields: Fields<'_>) -> Option<Var>
    ensures { result ≡ name_alone names.now fields.entry }
{
    let name = names.number(fields.next()?)?;
    none_left(fields)?;
    Some(name)
}

/// An op of one word, or of a word and a name.
#[tactic(auto, unfolding(crate::specs::Reading::short_op_of))]
fn short_op(names: &Names, word: &[u8], fields: Fields<'_>) -> Option<Op>
    ensures { result ≡ short_op_of names.now fields.entry word.now (bare_op word.now) }
{
    match bare_op(word) {
        Some(op) => {
            none_left(fields)?;
            Some(op)
        }
        None => {
            let name = name_alone(names, fields)?;
            named_op(word, name)
        }
    }
}

#[tactic(auto, unfolding(crate::specs::Reading::op_of))]
fn op_by_word(names: &Names, word: &[u8], fields: Fields<'_>) -> Option<Op>
    ensures { result ≡ op_of names.now word.now fields.entry }
{
    if is(word, b"init") {
        init(names, fields)
    } else if is(word, b"start") {
        start(names, fields)
    } else if is(word, b"repeat") {
        set_repeat(names, fields)
    } else if is(word, b"queue") {
        queue(names, fields)
    } else {
        short_op(names, word, fields)
    }
}

#[tactic(auto, unfolding(crate::specs::Reading::statement_of))]
pub(crate) fn statement_in<'a>(names: &Names, line: &'a [u8]) -> Option<Statement<'a>>
    ensures { option_map said result ≡ statement_of names.now (fields_of line.now) }
{
    let mut fields = Fields::of(line);
    let word = fields.next()?;
    if is(word, b"var") {
        declaration(names, fields)
    } else if is(word, b"main") {
        main_line(names, fields)
    } else if is(word, b"on") {
        callback(names, Callback::Handle, fields)
    } else if is(word, b"after") {
        callback(names, Callback::After, fields)
    } else if is(word, b"closed") {
        callback(names, Callback::Close, fields)
    } else {
        setting(names, word, fields)
    }
}

/// A line that says what the loop runs on: how large it is, which threads there are, its order, that it has handles of I/O,
/// and how its timers are called.
#[tactic(auto, unfolding(crate::specs::Reading::setting_of))]
fn setting<'a>(names: &Names, word: &[u8], fields: Fields<'a>) -> Option<Statement<'a>>
    ensures { option_map said result ≡ setting_of names.now word.now fields.entry }
{
    if is(word, b"slots") {
        size(fields)
    } else if is(word, b"workers") {
        workers(fields)
    } else if is(word, b"order") {
        orders(fields)
    } else if is(word, b"io") {
        io(fields)
    } else if is(word, b"timers") {
        timers(fields)
    } else if is(word, b"thread") {
        thread(names, fields)
    } else {
        None
    }
}

#[tactic(auto, unfolding(crate::specs::Reading::declaration_of))]
fn declaration<'a>(names: &Names, mut fields: Fields<'a>) -> Option<Statement<'a>>
    ensures { option_map said result ≡ declaration_of names.now fields.entry }
{
    let name = fields.next()?;
    none_left(fields)?;
    if is_name(name) && names.number(name).is_none() {
        Some(Statement::Declares(name))
    } else {
        None
    }
}

#[tactic(auto, unfolding(crate::specs::Reading::main_of))]
fn main_line<'a>(names: &Names, mut fields: Fields<'a>) -> Option<Statement<'a>>
    ensures { option_map said result ≡ main_of names.now fields.entry }
{
    let word = fields.next()?;
    main_by_word(names, word, fields)
}

#[tactic(auto, unfolding(crate::specs::Reading::main_by))]
fn main_by_word<'a>(names: &Names, word: &[u8], fields: Fields<'a>) -> Option<Statement<'a>>
    ensures { option_map said result ≡ main_by names.now word.now fields.entry }
{
    if is(word, b"run") {
        run(fields)
    } else if is(word, b"closeloop") {
        close_loop(fields)
    } else {
        let op = op_by_word(names, word, fields)?;
        Some(Statement::InMain(MainOp::Op(op)))
    }
}

#[tactic(auto, unfolding(crate::specs::Reading::run_of))]
fn run<'a>(mut fields: Fields<'a>) -> Option<Statement<'a>>
    ensures { option_map said result ≡ run_of fields.entry }
{
    let mode = Mode::from_word(fields.next()?)?;
    none_left(fields)?;
    Some(Statement::InMain(MainOp::Run(mode)))
}

#[tactic(auto, unfolding(crate::specs::Reading::close_loop_of))]
fn close_loop<'a>(fields: Fields<'a>) -> Option<Statement<'a>>
    ensures { option_map said result ≡ close_loop_of fields.entry }
{
    none_left(fields)?;
    Some(Statement::InMain(MainOp::Op(Op::CloseLoop)))
}

/// The number of a call behind `@`, from 1.
#[tactic(auto, unfolding(crate::specs::Reading::call_of))]
fn call(digits: &[u8]) -> Option<u32>
    ensures { result ≡ call_of digits.now }
{
    let call = number(digits)?;
    u32::try_from(call).ok().filter(|call| *call >= 1)
}

/// What stands behind `@`, in a field that begins with it.
fn marked(field: &[u8]) -> Option<&[u8]>
    ensures { option_map (λ digits. digits.now) result ≡ marked field.now }
{
    match field {
        [b'@', digits @ ..] => Some(digits),
        _ => None,
    }
}

/// A callback's line, from its op on.
#[tactic(auto, unfolding(crate::specs::Reading::in_calls_of))]
fn in_calls<'a>(
    names: &Names,
    kind: Callback,
    name: Var,
    call: Option<u32>,
    word: &[u8],
    fields: Fields<'a>,
) -> Option<Statement<'a>>
    ensures { option_map said result ≡ in_calls_of names.now kind name call word.now fields.entry }
{
    let op = op_by_word(names, word, fields)?;
    Some(Statement::InCallback(kind, name, CallbackLine { call, op }))
}

/// A callback's line for one call, from behind the `@` on.
#[tactic(auto, unfolding(crate::specs::Reading::in_call_of))]
fn in_call<'a>(
    names: &Names,
    kind: Callback,
    name: Var,
    digits: &[u8],
    mut fields: Fields<'a>,
) -> Option<Statement<'a>>
    ensures { option_map said result ≡ in_call_of names.now kind name digits.now fields.entry }
{
    let call = call(digits)?;
    let word = fields.next()?;
    in_calls(names, kind, name, Some(call), word, fields)
}

#[tactic(auto, unfolding(crate::specs::Reading::callback_of, crate::specs::Reading::calls_of))]
fn callback<'a>(names: &Names, kind: Callback, mut fields: Fields<'a>) -> Option<Statement<'a>>
    ensures { option_map said result ≡ callback_of names.now kind fields.entry }
{
    let name = names.number(fields.next()?)?;
    let word = fields.next()?;
    match marked(word) {
        Some(digits) => in_call(names, kind, name, digits, fields),
        None => in_calls(names, kind, name, None, word, fields),
    }
}

/// The last generation, which may be left out.
#[tactic(auto, unfolding(crate::specs::Reading::last_of))]
fn last_generation(mut fields: Fields<'_>) -> Option<u32>
    ensures { result ≡ last_of fields.entry }
{
    let Some(last) = fields.next() else {
        return Some(u32::MAX);
    };
    let last = number(last)?;
    none_left(fields)?;
    u32::try_from(last).ok()
}

#[tactic(auto, unfolding(crate::specs::Reading::size_of))]
fn size<'a>(mut fields: Fields<'a>) -> Option<Statement<'a>>
    ensures { option_map said result ≡ size_of fields.entry }
{
    let slots = number(fields.next()?)?;
    let last_generation = last_generation(fields)?;
    if 1 <= slots && slots <= MOST_SLOTS as u64 {
        Some(Statement::Sizes(ArenaSize {
            slots: slots as u32,
            last_generation,
        }))
    } else {
        None
    }
}

#[tactic(auto, unfolding(crate::specs::Reading::workers_of))]
fn workers<'a>(mut fields: Fields<'a>) -> Option<Statement<'a>>
    ensures { option_map said result ≡ workers_of fields.entry }
{
    let workers = number(fields.next()?)?;
    none_left(fields)?;
    if 1 <= workers && workers <= u64::from(MOST_WORKERS) {
        Some(Statement::HasWorkers(workers as u16))
    } else {
        None
    }
}

#[tactic(auto, unfolding(crate::specs::Reading::orders_of))]
fn orders<'a>(mut fields: Fields<'a>) -> Option<Statement<'a>>
    ensures { option_map said result ≡ orders_of fields.entry }
{
    let order = Order::from_word(fields.next()?)?;
    none_left(fields)?;
    Some(Statement::Orders(order))
}

#[tactic(auto, unfolding(crate::specs::Reading::io_of))]
fn io<'a>(fields: Fields<'a>) -> Option<Statement<'a>>
    ensures { option_map said result ≡ io_of fields.entry }
{
    none_left(fields)?;
    Some(Statement::HasIo)
}

#[tactic(auto, unfolding(crate::specs::Reading::timers_of))]
fn timers<'a>(mut fields: Fields<'a>) -> Option<Statement<'a>>
    ensures { option_map said result ≡ timers_of fields.entry }
{
    let word = fields.next()?;
    none_left(fields)?;
    if is(word, b"heap") {
        Some(Statement::FromHeap)
    } else {
        None
    }
}

/// A line of a thread, from the name that it sends on.
#[tactic(auto, unfolding(crate::specs::Reading::sender_of))]
fn sender<'a>(names: &Names, thread: u64, fields: Fields<'a>) -> Option<Statement<'a>>
    ensures { option_map said result ≡ sender_of names.now thread fields.entry }
{
    let name = name_alone(names, fields)?;
    if thread < MOST_SENDERS as u64 {
        Some(Statement::InThread(ThreadLine {
            thread: thread as u8,
            name,
        }))
    } else {
        None
    }
}

/// A line of a thread, which only sends.
#[tactic(auto, unfolding(crate::specs::Reading::thread_of))]
fn thread<'a>(names: &Names, mut fields: Fields<'a>) -> Option<Statement<'a>>
    ensures { option_map said result ≡ thread_of names.now fields.entry }
{
    let thread = number(fields.next()?)?;
    let word = fields.next()?;
    if is(word, b"send") {
        sender(names, thread, fields)
    } else {
        None
    }
}

//! A script's parts.
ghost use Rattle.std.specs.Prelude.{◌≡◌, drop, slice_get, length, OnOk, All};
ghost use Rattle.uv_script.specs.Grammar.{Declares, InMain, InCallback, InThread, Sizes, HasRoom, WasRead, with_statement, blank};
ghost use Rattle.uv_script.specs.Reading.{has_room, may_make, IsSound, IsSaid};
ghost use Rattle.uv_script.specs.Said.{said};
ghost use Rattle.uv_script.specs.SameWork.{same_work};
ghost use Rattle.uv_script.specs.Program.{lines_in, next_line, op_at, arena_size, worker_count, order_of, has_io, from_heap, with_workers, IsWorkerCount, IsThreadLine, IsWhole};

use crate::limits::{MOST_LINES, MOST_NAMES};
use crate::names::Names;
use crate::op::{CallbackLine, Callbacks, MainOp, Op};
use crate::same_work::{same_callbacks, same_main};
use crate::size::ArenaSize;
use crate::statement::Statement;
use std::alloc::{AllocError, Global};
use std::marker::Model;
use uv_ids::{Callback, Order, Site, ThreadLine, Var};

/// A script that was read.
#[derive(Drop)]
pub struct Script {
    names: Names,
    main: Vec<MainOp>,
    callbacks: Vec<Callbacks>,
    size: ArenaSize,
    workers: u16,
    order: Order,
    /// Whether handles of I/O may be made.
    io: bool,
    /// Whether due timers are called straight from their heap, and not collected first.
    heap: bool,
    threads: Vec<ThreadLine>,
    /// How many lines count: all but `order`, `io`, `timers heap`, `workers`, `slots`, empty ones and comments.
    lines: usize,
}

/// How many workers the thread pool has where no line says it, as in libuv.
const DEFAULT_WORKERS: u16 = 4;

/// The order of a run's phases where no line says it.
const DEFAULT_ORDER: Order = Order::V145;

impl Model for Script {
    ghost use Rattle.uv_script.specs.Program.{Program};
    ghost use Rattle.uv_script.specs.Grammar.{IsReadScript};

    ghost Value = { Program };

    ghost view = { λ script. record {
      names = script.names;
      main = script.main.items;
      callbacks = script.callbacks.items;
      size = script.size;
      workers = script.workers;
      order = script.order;
      io = script.io;
      heap = script.heap;
      threads = script.threads.items;
    } };

    ghost invariant = { λ script. IsReadScript script.lines (record {
      names = script.names;
      main = script.main.items;
      callbacks = script.callbacks.items;
      size = script.size;
      workers = script.workers;
      order = script.order;
      io = script.io;
      heap = script.heap;
      threads = script.threads.items;
    }) };
}

impl Script {
    /// The script of no line.
    pub(crate) fn blank(alloc: Global) -> Script
        ensures { result ≡ blank }
    {
        Script {
            names: Names::new(alloc),
            main: Vec::new(alloc),
            callbacks: Vec::new(alloc),
            size: ArenaSize::by_default(),
            workers: DEFAULT_WORKERS,
            order: DEFAULT_ORDER,
            io: false,
            heap: false,
            threads: Vec::new(alloc),
            lines: 0,
        }
    }

    /// Whether there is room for one more line, and for one more name.
    pub(crate) fn has_room(&self, statement: &Statement<'_>) -> bool
        ensures { result ≡ has_room self.now (said statement.now) }
    {
        match statement {
            Statement::Declares(_) => self.lines < MOST_LINES && self.names.len() < MOST_NAMES,
            Statement::InMain(_) => self.lines < MOST_LINES,
            Statement::InCallback(_, _, _) => self.lines < MOST_LINES,
            Statement::Sizes(_) => true,
            Statement::HasWorkers(_) => true,
            Statement::Orders(_) => true,
            Statement::HasIo => true,
            Statement::FromHeap => true,
            Statement::InThread(_) => self.lines < MOST_LINES,
        }
    }

    /// Whether a line that makes a handle of I/O stands behind the line `io`.
    pub(crate) fn may_make(&self, statement: &Statement<'_>) -> bool
        ensures { result ≡ may_make self.now (said statement.now) }
    {
        self.io || !statement.asks_io()
    }

    /// Adds what one more line says.
    pub(crate) fn add(&mut self, alloc: Global, statement: Statement<'_>) -> Result<(), AllocError>
        requires room { HasRoom self.old (said statement) }
        requires said { IsSaid self.old (said statement) }
        ensures { OnOk result (self.new ≡ with_statement self.old (said statement.entry)) }
    {
        match statement {
            Statement::Declares(name) => self.declare(alloc, name),
            Statement::InMain(op) => self.push_main(op),
            Statement::InCallback(kind, name, line) => self.push_callback(kind, name, line),
            Statement::Sizes(size) => {
                self.size = size;
                Ok(())
            }
            Statement::HasWorkers(workers) => {
                self.workers = workers;
                Ok(())
            }
            Statement::Orders(order) => {
                self.order = order;
                Ok(())
            }
            Statement::HasIo => {
                self.io = true;
                Ok(())
            }
            Statement::FromHeap => {
                self.heap = true;
                Ok(())
            }
            Statement::InThread(line) => self.push_thread(line),
        }
    }

    fn declare(&mut self, alloc: Global, name: &[u8]) -> Result<(), AllocError>
        requires room { HasRoom self.old (Declares name.now) }
        requires sound { IsSound self.old (Declares name.now) }
        requires said { IsSaid self.old (Declares name.now) }
        ensures { OnOk result (self.new ≡ with_statement self.old (Declares name.now)) }
    {
        self.callbacks.reserve(1)?;
        self.names.declare(alloc, name)?;
        self.callbacks.push_reserved(Callbacks::new(alloc));
        self.lines += 1;
        Ok(())
    }

    fn push_main(&mut self, op: MainOp) -> Result<(), AllocError>
        requires room { HasRoom self.old (InMain op) }
        requires said { IsSaid self.old (InMain op) }
        ensures { OnOk result (self.new ≡ with_statement self.old (InMain op)) }
    {
        self.main.push(op)?;
        self.lines += 1;
        Ok(())
    }

    fn push_callback(
        &mut self,
        kind: Callback,
        name: Var,
        line: CallbackLine,
    ) -> Result<(), AllocError>
        requires room { HasRoom self.old (InCallback kind name line) }
        requires sound { IsSound self.old (InCallback kind name line) }
        requires said { IsSaid self.old (InCallback kind name line) }
        ensures { OnOk result (self.new ≡ with_statement self.old (InCallback kind name line)) }
    {
        let callbacks = &mut self.callbacks[name.0 as usize];
        callbacks.push(kind, line)?;
        self.lines += 1;
        Ok(())
    }

    fn push_thread(&mut self, line: ThreadLine) -> Result<(), AllocError>
        requires room { HasRoom self.old (InThread line) }
        requires said { IsSaid self.old (InThread line) }
        ensures { OnOk result (self.new ≡ with_statement self.old (InThread line)) }
    {
        self.threads.push(line)?;
        self.lines += 1;
        Ok(())
    }

    /// Sets how many workers the thread pool has.
    pub fn set_workers(&mut self, workers: u16)
        requires within { IsWorkerCount workers }
        ensures { self.new ≡ with_workers workers self.old }
    {
        self.workers = workers;
    }

    /// The script in which each request asks for the same work: one round over the empty text. Its names, its settings and its
    /// other ops stay, and so do each line's place and the call that it is for.
    ///
    /// The work that a request asks for decides its digest and nothing else. So this script is for a search that asks no digest:
    /// there, states that differ in their work alone are one.
    pub fn with_same_work(mut self) -> Script
        ensures { result ≡ same_work self }
    {
        same_main(&mut self.main);
        same_callbacks(&mut self.callbacks);
        self
    }

    /// Where its memory comes from.
    pub(crate) fn allocator(&self) -> Global {
        *self.main.allocator()
    }

    /// The declared names.
    pub fn names(&self) -> &Names
        ensures names { result.now ≡ self.now.names }
        ensures whole { IsWhole self.now }
    {
        &self.names
    }

    /// How large the arena is: as the line `slots` says, else 1024 slots, and the largest generation.
    pub fn arena_size(&self) -> ArenaSize
        ensures { result ≡ arena_size self.now }
    {
        self.size
    }

    /// How many workers the thread pool has: as the line `workers` says, else 4.
    pub fn workers(&self) -> u16
        ensures count { result ≡ worker_count self.now }
        ensures within { IsWorkerCount result }
    {
        self.workers
    }

    /// The order of a run's phases: as the line `order` says, else that of libuv from 1.45 on.
    pub fn order(&self) -> Order
        ensures { result ≡ order_of self.now }
    {
        self.order
    }

    /// Whether the script may have handles of I/O: only where a line `io` says so.
    pub fn has_io(&self) -> bool
        ensures { result ≡ has_io self.now }
    {
        self.io
    }

    /// Whether due timers are called straight from their heap, and not collected first: only where a line `timers heap` says so.
    pub fn timers_from_heap(&self) -> bool
        ensures { result ≡ from_heap self.now }
    {
        self.heap
    }

    /// The lines of the senders' threads, as they came.
    pub fn thread_lines(&self) -> &[ThreadLine]
        ensures lines { result.now ≡ self.now.threads }
        ensures known { All (IsThreadLine (length self.now.names)) result.now }
    {
        &self.threads
    }

    /// The lines of the main program.
    pub(crate) fn main(&self) -> &[MainOp]
        ensures main { result.now ≡ self.now.main }
        ensures read { WasRead self.now }
    {
        &self.main
    }

    /// A line of the main program, from 0.
    pub fn main_op(&self, line: usize) -> Option<MainOp>
        ensures { result ≡ slice_get self.now.main line }
    {
        self.main.get(line).copied()
    }

    /// The op at a place of the script; a run of the main program is none.
    pub fn op_at(&self, site: Site) -> Option<Op>
        ensures { result ≡ op_at self.now site }
    {
        match site {
            Site::Main(line) => match self.main_op(line)? {
                MainOp::Op(op) => Some(op),
                MainOp::Run(_) => None,
            },
            Site::In(kind, name, line) => Some(self.lines_in(kind, name).get(line)?.op),
        }
    }

    /// The lines of a name's callback.
    pub fn lines_in(&self, kind: Callback, name: Var) -> &[CallbackLine]
        ensures { result.now ≡ lines_in self.now kind name }
    {
        match self.callbacks.get(name.0 as usize) {
            Some(callbacks) => callbacks.lines(kind),
            None => &[],
        }
    }

    /// The first line of a name's callback, from this one on, that is for a call of it.
    pub fn next_line(&self, kind: Callback, name: Var, call: u32, from: usize) -> Option<usize>
        ensures { result ≡ next_line call from (drop from (lines_in self.now kind name)) }
    {
        let callbacks = self.callbacks.get(name.0 as usize)?;
        callbacks.next_line(kind, call, from)
    }
}

//! What comes to the loop from outside the thread pool: the sends of the senders' threads.
ghost use Rattle.std.specs.Prelude.{◌≡◌, ◌<◌, ◌+◌, ◌-◌, ◌++◌, ◌∷◌, ◌⊎◌, ℕ, [], Some, true, false, cond, length, slice_index_or, slice_set, All, OnOk, IfOk, IfErr, vec_len};
ghost use Rattle.std.specs.List.{Contains, count_by, list_any};
ghost use Rattle.uv_ids.specs.declared.fault.Fault.TheVariants as fault;
ghost use Rattle.uv_wake.specs.Seats.{names_of, AllJoined};
ghost use Rattle.uv_live.specs.Course.{AreNamed};
ghost use Rattle.uv_live.specs.Faults.{IsLoopFault};
ghost use Rattle.uv_live.specs.Settling.{is_line};
ghost use Rattle.uv_live.specs.declared.absorbing.Absorbed.{Absorbed};
ghost use Rattle.uv_live.specs.Sending.{AreCarried, AreNoted, HasOwn, LinesCarried, is_by, names_by, names_in, threads_below};

use crate::absorbing::{Absorbed, CaughtUp, absorb_names};
use crate::follower::Follower;
use crate::sends::{FreshSeat, Tally, ToldSeat};
use std::alloc::{AllocError, Global};
use std::marker::Model;
use std::mem;
use std::thread::{Promise, PromisedHandle, Scope, Threads};
use uv_ids::{Fault, MOST_SENDERS, ThreadLine, Var};
use uv_pool::Gate;
use uv_wake::{Board, LoopSeat, SenderSeat};

/// A sender's thread that isn't joined.
type Sender<'a> = PromisedHandle<SenderSeat, Sends<'a>>;

/// What a sender's thread promises: the seat that it gives back is of this board, and with it just the thread's lines were sent, in their
/// order.
#[derive(Clone, Copy)]
pub(crate) struct Sends<'a> {
    board: &'a Board,
    thread: u8,
    lines: &'a [ThreadLine],
}

impl<'a> Promise<SenderSeat> for Sends<'a> {
    ghost kept_by = { λ p seat. (seat.board ≡ p.board.now.board) × (names_in seat.knows.tickets ≡ names_by p.thread p.lines.now) };
}

/// The board, the loop's seat at it, and the senders' threads that aren't joined.
#[derive(Drop)]
pub(crate) struct Outside<'a> {
    board: &'a Board,
    pub(crate) seat: LoopSeat,
    pub(crate) senders: Vec<Sender<'a>>,
    /// The names that some thread sends to, in their order.
    pub(crate) names: Vec<Var>,
    /// How many sends the senders' threads have noted.
    tally: &'a Tally,
    /// How every word was absorbed last; none where a thread was started or joined since.
    absorbed: Option<Absorbed>,
    /// Whether a seat was lost with a thread that couldn't be started.
    lost: bool,
    pub ghost seated: { seat.board ≡ board.now.board },
    pub ghost known: { All (λ v. v.0 < names_of board.now.board) names.items },
    pub ghost ours: { All (λ h. h.promise.board.now.board ≡ board.now.board) senders.items },
    pub ghost all: { lost ≡ false → seat.knows.splits ≡ seat.knows.joins + vec_len senders },
    pub ghost rests: { (a : Absorbed) → absorbed ≡ Some a → AreCarried seat.knows names.items },
}

/// Sends to a name, and notes that a send was made.
fn send_one(board: &Board, seat: &mut ToldSeat, tally: &Tally, name: Var)
    requires seat { seat.old.seat.board ≡ board.now.board }
    requires name { name.0 < names_of board.now.board }
    ensures board { seat.new.seat.board ≡ seat.old.seat.board }
    ensures sent { names_in seat.new.seat.knows.tickets ≡ names_in seat.old.seat.knows.tickets ++ name ∷ [] }
{
    let made = seat.send(board, name);
    tally.note(made);
}

/// What the thread of a sender does: it tells its gate, and then sends to these names, in their order.
fn send_all<G: Gate>(
    board: &Board,
    given: FreshSeat,
    tally: &Tally,
    gate: &mut G,
    thread: u8,
    names: Vec<Var>,
) -> SenderSeat
    requires seat { given.seat.board ≡ board.now.board }
    requires names { All (λ v. v.0 < names_of board.now.board) names.items }
    ensures board { result.board ≡ board.now.board }
    ensures sent { names_in result.knows.tickets ≡ names.items }
    ensures told { G.sends gate.old thread gate.new }
{
    let mut seat = given.told(gate, thread);
    'own: for n in 0..names.len() {
        send_one(board, &mut seat, tally, names[n]);
    }
    seat.into_seat()
}

/// For each sender number the names of its lines, in their order.
#[derive(Drop)]
struct OwnNames {
    lists: Vec<Vec<Var>>,
}

impl Model for OwnNames {
    ghost use Rattle.std.specs.Prelude.{List, map};
    ghost use Rattle.uv_ids.specs.declared.id.Var.{Var};

    ghost Value = { List (List Var) };

    ghost view = { λ own. map (λ names. names.items) own.lists.items };
}

impl OwnNames {
    /// No line.
    fn new(alloc: Global) -> Result<OwnNames, AllocError>
        ensures { IfOk result (HasOwn 0 []) }
    {
        let mut lists = Vec::new(alloc);
        'empty: for _ in 0..MOST_SENDERS {
            lists.push(Vec::new(alloc))?;
        }
        Ok(OwnNames { lists })
    }

    /// Those of these lines. Each line is looked at once, for all threads.
    fn of(alloc: Global, lines: &[ThreadLine]) -> Result<OwnNames, AllocError>
        ensures { IfOk result (HasOwn 0 lines.now) }
    {
        let mut own = OwnNames::new(alloc)?;
        'lines: for n in 0..lines.len() {
            own.note(lines[n])?;
        }
        Ok(own)
    }

    /// Adds the name of one more line.
    fn note(&mut self, line: ThreadLine) -> Result<(), AllocError>
        ensures count { OnOk result (length self.new ≡ length self.old) }
        ensures noted { OnOk result ((k : ℕ) → k < length self.old
            → slice_index_or self.new k [] ≡ slice_index_or self.old k [] ++ names_by k (line ∷ [])) }
    {
        let thread = line.thread as usize;
        if thread < self.lists.len() {
            self.lists[thread].push(line.name)?;
        }
        Ok(())
    }

    /// Takes the names of a thread.
    fn take(&mut self, thread: u8) -> Vec<Var>
        requires { thread < length self.old }
        ensures names { result.items ≡ slice_index_or self.old thread [] }
        ensures rest { self.new ≡ slice_set self.old thread [] }
    {
        let none = Vec::new(*self.lists.allocator());
        mem::replace(&mut self.lists[thread as usize], none)
    }
}

impl<'a> Outside<'a> {
    /// No thread is started yet.
    pub(crate) fn new(
        alloc: Global,
        board: &'a Board,
        seat: LoopSeat,
        tally: &'a Tally,
    ) -> Outside<'a>
        requires board { seat.board ≡ board.now.board }
        requires joined { AllJoined seat.knows }
        ensures board { result.board.now.board ≡ board.now.board }
        ensures lost { result.lost ≡ false }
    {
        Outside {
            board,
            seat,
            senders: Vec::new(alloc),
            names: Vec::new(alloc),
            tally,
            absorbed: None,
            lost: false,
        }
    }

    /// Notes the names that some thread sends to.
    pub(crate) fn note_names<S: Follower>(&mut self, session: &S) -> Result<(), Fault>
        requires { names_of self.old.board.now.board ≡ (S.plan session.now).names }
        ensures board { self.new.board.now.board ≡ self.old.board.now.board }
        ensures seat { self.new.seat ≡ self.old.seat }
        ensures lost { self.new.lost ≡ self.old.lost }
        ensures noted { OnOk result (AreNoted (S.plan session.now).names (S.plan session.now).lines self.new.names.items) }
        ensures err { IfErr result (λ f. f ≡ fault.Memory) }
    {
        'names: for v in 0..session.name_count() {
            self.note_one(session, Var(v))?;
        }
        Ok(())
    }

    /// Notes a name if some thread sends to it.
    fn note_one<S: Follower>(&mut self, session: &S, name: Var) -> Result<(), Fault>
        requires names { names_of self.old.board.now.board ≡ (S.plan session.now).names }
        requires name { name.0 < (S.plan session.now).names }
        ensures board { self.new.board.now.board ≡ self.old.board.now.board }
        ensures seat { self.new.seat ≡ self.old.seat }
        ensures lost { self.new.lost ≡ self.old.lost }
        ensures kept { OnOk result ((v : Var) → Contains self.old.names.items v → Contains self.new.names.items v) }
        ensures noted { OnOk result (0 < count_by (is_line name.0) (S.plan session.now).lines → Contains self.new.names.items name) }
        ensures err { IfErr result (λ f. f ≡ fault.Memory) }
    {
        if session.lines_to(name) == 0 {
            return Ok(());
        }
        self.note_name(name)
    }

    fn note_name(&mut self, name: Var) -> Result<(), Fault>
        requires { name.0 < names_of self.old.board.now.board }
        ensures board { self.new.board.now.board ≡ self.old.board.now.board }
        ensures seat { self.new.seat ≡ self.old.seat }
        ensures lost { self.new.lost ≡ self.old.lost }
        ensures kept { OnOk result ((v : Var) → Contains self.old.names.items v → Contains self.new.names.items v) }
        ensures noted { OnOk result (Contains self.new.names.items name) }
        ensures err { IfErr result (λ f. f ≡ fault.Memory) }
    {
        self.absorbed = None;
        match self.names.push(name) {
            Ok(()) => Ok(()),
            Err(_) => Err(Fault::Memory),
        }
    }

    /// Starts a thread for each sender number of the lines, with a seat of its own.
    pub(crate) fn start<E, G: Gate + Sync>(
        &mut self,
        scope: &Scope<'a, E>,
        gate: &'a G,
        lines: &'a [ThreadLine],
    ) -> Result<(), Fault>
        requires { AreNamed (names_of self.old.board.now.board) lines.now }
        ensures board { self.new.board.now.board ≡ self.old.board.now.board }
        ensures lost { OnOk result (self.new.lost ≡ self.old.lost) }
        ensures names { OnOk result (self.new.names.items ≡ self.old.names.items) }
        ensures threads { OnOk result (self.new.seat.knows.splits ≡ self.old.seat.knows.splits + threads_below 64 lines.now) }
        ensures err { IfErr result (λ f. (f ≡ fault.Memory) ⊎ (f ≡ fault.Limit)) }
    {
        let mut own = OwnNames::of(*self.names.allocator(), lines)?;
        'threads: for thread in 0..MOST_SENDERS {
            let names = own.take(thread);
            self.start_one(scope, gate, thread, lines, names)?;
        }
        Ok(())
    }

    /// Starts the thread of that number, if it has a line.
    fn start_one<E, G: Gate + Sync>(
        &mut self,
        scope: &Scope<'a, E>,
        gate: &'a G,
        thread: u8,
        lines: &'a [ThreadLine],
        names: Vec<Var>,
    ) -> Result<(), Fault>
        requires own { names.items ≡ names_by thread lines.now }
        requires known { All (λ v. v.0 < names_of self.old.board.now.board) names.items }
        ensures board { self.new.board.now.board ≡ self.old.board.now.board }
        ensures lost { OnOk result (self.new.lost ≡ self.old.lost) }
        ensures names { OnOk result (self.new.names.items ≡ self.old.names.items) }
        ensures threads { OnOk result (self.new.seat.knows.splits ≡ self.old.seat.knows.splits + cond (list_any (is_by thread) lines.now) 1 0) }
        ensures err { IfErr result (λ f. (f ≡ fault.Memory) ⊎ (f ≡ fault.Limit)) }
    {
        if names.is_empty() {
            return Ok(());
        }
        self.start_sender(scope, gate, thread, lines, names)
    }

    /// Starts a thread for sends to these names. Room comes first, so each thread that was started is joined.
    fn start_sender<E, G: Gate + Sync>(
        &mut self,
        scope: &Scope<'a, E>,
        gate: &'a G,
        thread: u8,
        lines: &'a [ThreadLine],
        names: Vec<Var>,
    ) -> Result<(), Fault>
        requires own { names.items ≡ names_by thread lines.now }
        requires known { All (λ v. v.0 < names_of self.old.board.now.board) names.items }
        ensures board { self.new.board.now.board ≡ self.old.board.now.board }
        ensures lost { OnOk result (self.new.lost ≡ self.old.lost) }
        ensures names { OnOk result (self.new.names.items ≡ self.old.names.items) }
        ensures threads { OnOk result (self.new.seat.knows.splits ≡ self.old.seat.knows.splits + 1) }
        ensures err { IfErr result (λ f. (f ≡ fault.Memory) ⊎ (f ≡ fault.Limit)) }
    {
        self.absorbed = None;
        self.senders.reserve(1)?;
        let board = self.board;
        let tally = self.tally;
        let given = FreshSeat::new(board.split(&mut self.seat)?);
        let sending = move || -> SenderSeat
            requires { (given.seat.board ≡ board.now.board) × All (λ v. v.0 < names_of board.now.board) names.items }
            ensures { (result.board ≡ board.entry.now.board) × (names_in result.knows.tickets ≡ names.items) }
        {
            let mut gate = *gate;
            send_all(board, given, tally, &mut gate, thread, names)
        };
        let promise = Sends {
            board,
            thread,
            lines,
        };
        match scope.spawn_with(promise, sending) {
            Ok(sender) => {
                self.senders.push_reserved(sender);
                Ok(())
            }
            Err(_) => {
                self.lost = true;
                Err(Fault::Memory)
            }
        }
    }

    /// Absorbs every word that a send may stand in, in the order of the names, and records a send for each that one stood in. Where no
    /// send was noted since that was done last none is looked at, so that a poll costs no more for all the names that may be sent to.
    pub(crate) fn absorb_all<S: Follower>(&mut self, session: &mut S) -> Result<CaughtUp, Fault>
        requires polling { S.polling session.old ≡ true }
        requires names { names_of self.old.board.now.board ≡ (S.plan session.old).names }
        requires noted { AreNoted (S.plan session.old).names (S.plan session.old).lines self.old.names.items }
        ensures board { self.new.board.now.board ≡ self.old.board.now.board }
        ensures lost { self.new.lost ≡ self.old.lost }
        ensures names { self.new.names.items ≡ self.old.names.items }
        ensures carried { OnOk result (LinesCarried (S.plan session.new).names (S.plan session.new).lines self.new.seat.knows) }
        ensures err { IfErr result IsLoopFault }
        ensures plan { S.plan session.new ≡ S.plan session.old }
    {
        let look = self.tally.look();
        if let Some(absorbed) = &self.absorbed {
            if let Some(caught_up) = absorbed.until(&look) {
                return Ok(caught_up);
            }
        }
        let (absorbed, caught_up) = absorb_names(
            self.board,
            &mut self.seat,
            self.names.as_slice(),
            session,
            look,
        )?;
        self.absorbed = Some(absorbed);
        Ok(caught_up)
    }

    /// Joins a sender's thread and takes its seat back. False where none is left.
    pub(crate) fn join_one<R: Threads>(&mut self, rt: &R) -> bool
        ensures board { self.new.board.now.board ≡ self.old.board.now.board }
        ensures lost { self.new.lost ≡ self.old.lost }
        ensures names { self.new.names.items ≡ self.old.names.items }
        ensures left { vec_len self.new.senders ≡ vec_len self.old.senders - 1 }
        ensures none { result ≡ false → vec_len self.old.senders ≡ 0 }
    {
        match self.senders.pop() {
            None => false,
            Some(sender) => {
                self.absorbed = None;
                self.board.join(&mut self.seat, sender.join(rt));
                true
            }
        }
    }

    /// Joins all senders' threads that are left, and gives the loop's seat, which has all seats back then.
    pub(crate) fn into_seat<R: Threads>(self, rt: &R) -> LoopSeat
        ensures board { result.board ≡ self.entry.board.now.board }
        ensures joined { self.entry.lost ≡ false → AllJoined result.knows }
    {
        let mut outside = self;
        'left: for n in 0..outside.senders.len() {
            outside.join_one(rt);
        }
        outside.seat
    }
}

//! The calls of the wake board by example, and threads that send while the loop absorbs.
ghost use Rattle.std.specs.Prelude.{◌≡◌, ◌<◌, IfOk};
ghost use Rattle.uv_wake.specs.Seats.{names_of};

use std::alloc::Global;
use std::process::Abort;
use std::sync::atomic::{AtomicU64, Ordering};
use std::thread::{Threads, join};
use uv_ids::{Fault, Var};
use uv_wake::{Board, LoopSeat, SenderSeat, Ticket, tickets_stand};

const FIRST: Var = Var(0);

const SECOND: Var = Var(1);

/// A sender's seat, which must be left.
fn split<R: Abort>(rt: &R, board: &Board, seat: &mut LoopSeat) -> SenderSeat
    requires { seat.old.board ≡ board.now.board }
    ensures given { result.board ≡ board.now.board }
    ensures board { seat.new.board ≡ seat.old.board }
{
    board.split(seat).expect(rt, "a seat is left")
}

/// Whether no seat is left.
fn is_full(board: &Board, seat: &mut LoopSeat) -> bool
    requires { seat.old.board ≡ board.now.board }
    ensures { seat.new.board ≡ seat.old.board }
{
    matches!(board.split(seat), Err(Fault::Limit))
}

/// A send: the epoch of its ticket.
fn send(board: &Board, seat: &mut SenderSeat, name: Var) -> u64
    requires board { seat.old.board ≡ board.now.board }
    requires name { name.0 < names_of board.now.board }
    ensures { seat.new.board ≡ seat.old.board }
{
    board.send(seat, name).epoch
}

/// A look.
fn look(board: &Board, seat: &mut LoopSeat, name: Var) -> bool
    requires board { seat.old.board ≡ board.now.board }
    requires name { name.0 < names_of board.now.board }
    ensures { seat.new.board ≡ seat.old.board }
{
    board.look(seat, name)
}

/// An absorb, if the count is not at its end.
fn absorb(board: &Board, seat: &mut LoopSeat, name: Var) -> bool
    requires board { seat.old.board ≡ board.now.board }
    requires name { name.0 < names_of board.now.board }
    ensures { seat.new.board ≡ seat.old.board }
{
    seat.count(name) < 1 << 62 && board.absorb(seat, name)
}

/// Takes a sender's seat back.
fn take_back(board: &Board, seat: &mut LoopSeat, sender: SenderSeat)
    requires board { seat.old.board ≡ board.now.board }
    requires sender { sender.board ≡ board.now.board }
    ensures { seat.new.board ≡ seat.old.board }
{
    board.join(seat, sender)
}

/// Whether an absorb has carried the ticket of a name.
fn is_carried(seat: &LoopSeat, name: Var, epoch: u64) -> bool
    requires { name.0 < names_of seat.now.board }
{
    seat.carried(Ticket { var: name, epoch })
}

/// Two senders' first sends have tickets of one epoch, and one absorb carries both.
fn is_carried_together(
    board: &Board,
    seat: &mut LoopSeat,
    one: &mut SenderSeat,
    two: &mut SenderSeat,
) -> bool
    requires board { seat.old.board ≡ board.now.board }
    requires one { one.old.board ≡ board.now.board }
    requires two { two.old.board ≡ board.now.board }
    requires names { 1 < names_of board.now.board }
    ensures seat { seat.new.board ≡ seat.old.board }
    ensures one { one.new.board ≡ one.old.board }
    ensures two { two.new.board ≡ two.old.board }
{
    let early = send(board, one, FIRST);
    let same = send(board, two, FIRST);
    let before = is_carried(seat, FIRST, early);
    let first = absorb(board, seat, FIRST);
    let second = absorb(board, seat, SECOND);
    early == 0 && same == 0 && !before && first && !second && is_carried(seat, FIRST, 0)
}

/// A later send has a ticket of the next epoch, which the next absorb carries.
fn is_carried_later(board: &Board, seat: &mut LoopSeat, one: &mut SenderSeat) -> bool
    requires board { seat.old.board ≡ board.now.board }
    requires one { one.old.board ≡ board.now.board }
    requires names { 1 < names_of board.now.board }
    ensures seat { seat.new.board ≡ seat.old.board }
    ensures one { one.new.board ≡ one.old.board }
{
    let late = send(board, one, FIRST);
    let before = is_carried(seat, FIRST, 0) && !is_carried(seat, FIRST, late);
    let first = absorb(board, seat, FIRST);
    let second = absorb(board, seat, FIRST);
    late == 1 && before && first && !second && seat.count(FIRST) == 2
}

/// A look finds a ticket that is left.
fn is_found(board: &Board, seat: &mut LoopSeat, sender: &mut SenderSeat) -> bool
    requires board { seat.old.board ≡ board.now.board }
    requires sender { sender.old.board ≡ board.now.board }
    requires names { 1 < names_of board.now.board }
    ensures seat { seat.new.board ≡ seat.old.board }
    ensures sender { sender.new.board ≡ sender.old.board }
{
    let before = look(board, seat, SECOND);
    send(board, sender, SECOND);
    let second = look(board, seat, SECOND);
    let first = look(board, seat, FIRST);
    let absorbed = absorb(board, seat, SECOND);
    !before && second && !first && absorbed && !look(board, seat, SECOND)
}

/// Each ticket of two senders is carried once, and the seats count as split after they were joined.
fn are_carried<R: Abort>(rt: &R, board: &Board, seat: &mut LoopSeat) -> bool
    requires board { seat.old.board ≡ board.now.board }
    requires names { 1 < names_of board.now.board }
{
    let none = seat.count(FIRST) == 0 && seat.count(SECOND) == 0;
    let mut one = split(rt, board, seat);
    let mut two = split(rt, board, seat);
    let full = is_full(board, seat);
    let together = is_carried_together(board, seat, &mut one, &mut two);
    let later = is_carried_later(board, seat, &mut one);
    let found = is_found(board, seat, &mut two);
    take_back(board, seat, one);
    take_back(board, seat, two);
    let both = is_carried(seat, FIRST, 0) && is_carried(seat, FIRST, 1);
    none && full && together && later && found && both && is_full(board, seat)
}

#[test]
fn each_ticket_is_carried_once(rt: HostRuntime) {
    let (board, mut seat) = Board::new(rt.alloc(), 2, 2).expect(&rt, "memory is left");
    assert!(&rt; are_carried(&rt, &board, &mut seat));
    tickets_stand();
}

#[test]
fn boards_of_too_many_names_want_memory(rt: HostRuntime) {
    // No machine has room for so many words.
    for names in [usize::MAX, usize::MAX / 8, usize::MAX / 16] {
        assert!(rt; matches!(Board::new(rt.alloc(), names, 1), Err(Fault::Memory)));
    }
}

/// How many sends the loop has to find while the senders run.
const SEVERAL: u64 = 20;

/// How often the senders send and the loop looks at the most.
const TURNS: u32 = 100_000_000;

// What a sender's thread and the loop's tell each other.
#[derive(Drop)]
struct Told {
    /// How many sends the loop has found.
    found: AtomicU64,
    /// How many senders have ended.
    ended: AtomicU64,
}

/// Notes an epoch in the next place, or in none and then from the first one on: the place after it.
fn note(epochs: &mut [u64], place: usize, epoch: u64) -> usize {
    match epochs.get_mut(place) {
        Some(noted) => {
            *noted = epoch;
            place.saturating_add(1)
        }
        None => 0,
    }
}

/// A sender: its seat, and the epochs of its last sends.
#[derive(Drop)]
struct Sender {
    seat: SenderSeat,
    epochs: Vec<u64>,
}

/// How many sends of each sender are noted.
const NOTED: u32 = 1000;

/// Sends so often that each noted place is filled, and on until the loop has found several.
fn send_on(board: &Board, sender: Sender, told: &Told) -> Sender
    requires board { sender.seat.board ≡ board.now.board }
    requires name { 0 < names_of board.now.board }
    ensures { result.seat.board ≡ sender.seat.board }
{
    let mut sender = sender;
    let mut place = 0;
    for turn in 0..TURNS {
        if turn >= NOTED && told.found.load(Ordering::SeqCst) >= SEVERAL {
            break;
        }
        let epoch = send(board, &mut sender.seat, FIRST);
        place = note(&mut sender.epochs, place, epoch);
    }
    told.ended.fetch_add(1, Ordering::SeqCst);
    sender
}

/// Absorbs for as long as two senders run.
fn absorb_on(board: &Board, seat: LoopSeat, told: &Told) -> LoopSeat
    requires board { seat.board ≡ board.now.board }
    requires name { 0 < names_of board.now.board }
    ensures { result.board ≡ seat.board }
{
    let mut seat = seat;
    for _ in 0..TURNS {
        if absorb(board, &mut seat, FIRST) {
            told.found.fetch_add(1, Ordering::SeqCst);
        } else if told.ended.load(Ordering::SeqCst) == 2 {
            break;
        }
    }
    seat
}

/// Two senders send on two threads while the loop absorbs on a third one.
fn interleaved<R: Threads + Sync>(
    rt: &R,
    board: &Board,
    seat: LoopSeat,
    one: Sender,
    two: Sender,
    told: &Told,
) -> (LoopSeat, (Sender, Sender))
    requires seat { seat.board ≡ board.now.board }
    requires one { one.seat.board ≡ board.now.board }
    requires two { two.seat.board ≡ board.now.board }
    requires name { 0 < names_of board.now.board }
    ensures seat { result.0.board ≡ board.now.board }
    ensures one { result.1.0.seat.board ≡ board.now.board }
    ensures two { result.1.1.seat.board ≡ board.now.board }
{
    join(
        rt,
        || -> LoopSeat
            requires { (seat.board ≡ board.now.board) × (0 < names_of board.now.board) }
            ensures { result.board ≡ board.entry.now.board }
        { absorb_on(board, seat, told) },
        || -> (Sender, Sender)
            requires { (one.seat.board ≡ board.now.board)
                × (two.seat.board ≡ board.now.board)
                × (0 < names_of board.now.board) }
            ensures { (result.0.seat.board ≡ board.entry.now.board)
                × (result.1.seat.board ≡ board.entry.now.board) }
        {
            join(
                rt,
                || -> Sender
                    requires { (one.seat.board ≡ board.now.board) × (0 < names_of board.now.board) }
                    ensures { result.seat.board ≡ board.entry.now.board }
                { send_on(board, one, told) },
                || -> Sender
                    requires { (two.seat.board ≡ board.now.board) × (0 < names_of board.now.board) }
                    ensures { result.seat.board ≡ board.entry.now.board }
                { send_on(board, two, told) },
            )
        },
    )
}

/// Whether each of the tickets of a name is carried.
fn each_carried(seat: &LoopSeat, epochs: &[u64]) -> bool
    requires { 0 < names_of seat.now.board }
{
    let mut carried = true;
    for epoch in epochs {
        carried = carried && is_carried(seat, FIRST, *epoch);
    }
    carried
}

/// Whether each ticket that was noted is carried once all seats are back, and no send is left.
fn all_carried(board: &Board, seat: LoopSeat, one: Sender, two: Sender) -> bool
    requires board { seat.board ≡ board.now.board }
    requires one { one.seat.board ≡ board.now.board }
    requires two { two.seat.board ≡ board.now.board }
    requires name { 0 < names_of board.now.board }
{
    let mut seat = seat;
    take_back(board, &mut seat, one.seat);
    take_back(board, &mut seat, two.seat);
    let _last = absorb(board, &mut seat, FIRST);
    let again = absorb(board, &mut seat, FIRST);
    !again && each_carried(&seat, &one.epochs) && each_carried(&seat, &two.epochs)
}

/// Two senders, with room for the epochs of a thousand sends each.
fn senders<R: Abort>(
    rt: &R,
    alloc: Global,
    board: &Board,
    seat: &mut LoopSeat,
) -> Result<(Sender, Sender), Fault>
    requires { seat.old.board ≡ board.now.board }
    ensures one { IfOk result (λ pair. pair.0.seat.board ≡ board.now.board) }
    ensures two { IfOk result (λ pair. pair.1.seat.board ≡ board.now.board) }
    ensures board { seat.new.board ≡ seat.old.board }
{
    let left = Vec::from_elem(alloc, u64::MAX, NOTED as usize)?;
    let right = Vec::from_elem(alloc, u64::MAX, NOTED as usize)?;
    let one = Sender {
        seat: split(rt, board, seat),
        epochs: left,
    };
    let two = Sender {
        seat: split(rt, board, seat),
        epochs: right,
    };
    Ok((one, two))
}

/// Runs two senders and the loop to their end: whether all that was sent is carried then.
fn runs_to_its_end<R: Threads + Sync>(
    rt: &R,
    board: &Board,
    seat: LoopSeat,
    one: Sender,
    two: Sender,
    told: &Told,
) -> bool
    requires seat { seat.board ≡ board.now.board }
    requires one { one.seat.board ≡ board.now.board }
    requires two { two.seat.board ≡ board.now.board }
    requires name { 0 < names_of board.now.board }
{
    let (seat, (one, two)) = interleaved(rt, board, seat, one, two, told);
    all_carried(board, seat, one, two)
}

#[test]
fn sends_and_absorbs_of_three_threads_interleave(rt: HostRuntime) {
    let (board, mut seat) = Board::new(rt.alloc(), 1, 2).expect(&rt, "memory is left");
    let (one, two) = senders(&rt, rt.alloc(), &board, &mut seat).expect(&rt, "memory is left");
    let told = Told {
        found: AtomicU64::new(0),
        ended: AtomicU64::new(0),
    };
    assert!(&rt; runs_to_its_end(&rt, &board, seat, one, two, &told));
    let found = told.found.load(Ordering::SeqCst);
    assert!(&rt; found >= SEVERAL, "{found}");
}

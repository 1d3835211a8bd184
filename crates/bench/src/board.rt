//! The wake board's send and absorb, by one thread.
ghost use Rattle.std.specs.Prelude.{◌≡◌, ◌<◌};
ghost use Rattle.uv_wake.specs.Seats.{names_of};

use crate::figures::{Figure, ROUNDS, Rounds, Watch};
use std::alloc::Global;
use std::rt::Clock;
use uv_ids::Var;
use uv_wake::{Board, LoopSeat, SenderSeat};

/// The board's one name.
const NAME: Var = Var(0);

/// What each kind of call took.
#[derive(Clone, Copy)]
pub struct Figures {
    pub send: Figure,
    pub absorb: Figure,
    pub pair: Figure,
}

/// A send.
fn send(board: &Board, sender: &mut SenderSeat)
    requires board { sender.old.board ≡ board.now.board }
    requires name { 0 < names_of board.now.board }
    ensures { sender.new.board ≡ sender.old.board }
{
    let _ = board.send(sender, NAME);
}

/// An absorb, if the count is not at its end.
fn absorb(watch: &mut Watch, board: &Board, seat: &mut LoopSeat) -> bool
    requires board { seat.old.board ≡ board.now.board }
    requires name { 0 < names_of board.now.board }
    ensures { seat.new.board ≡ seat.old.board }
{
    if seat.count(NAME) >= 1 << 62 {
        watch.fail();
        return false;
    }
    board.absorb(seat, NAME)
}

/// So many sends.
fn sends(board: &Board, sender: &mut SenderSeat, count: u32)
    requires board { sender.old.board ≡ board.now.board }
    requires name { 0 < names_of board.now.board }
    ensures { sender.new.board ≡ sender.old.board }
{
    for _ in 0..count {
        send(board, sender);
    }
}

/// So many absorbs that find nothing.
fn absorbs(watch: &mut Watch, board: &Board, seat: &mut LoopSeat, count: u32)
    requires board { seat.old.board ≡ board.now.board }
    requires name { 0 < names_of board.now.board }
    ensures { seat.new.board ≡ seat.old.board }
{
    for _ in 0..count {
        if absorb(watch, board, seat) {
            watch.fail();
        }
    }
}

/// So many sends, each with its absorb.
fn pairs(watch: &mut Watch, board: &Board, seat: &mut LoopSeat, sender: &mut SenderSeat, count: u32)
    requires board { seat.old.board ≡ board.now.board }
    requires sender { sender.old.board ≡ board.now.board }
    requires name { 0 < names_of board.now.board }
    ensures board { seat.new.board ≡ seat.old.board }
    ensures sender { sender.new.board ≡ sender.old.board }
{
    for _ in 0..count {
        send(board, sender);
        if !absorb(watch, board, seat) {
            watch.fail();
        }
    }
}

/// The rounds of each kind of call.
#[derive(Clone, Copy)]
struct Measured {
    send: Rounds,
    none: Rounds,
    pair: Rounds,
}

/// One round of each kind.
fn round(
    clock: &impl Clock,
    watch: &mut Watch,
    board: &Board,
    seat: &mut LoopSeat,
    sender: &mut SenderSeat,
    count: u32,
    measured: &mut Measured,
)
    requires board { seat.old.board ≡ board.now.board }
    requires sender { sender.old.board ≡ board.now.board }
    requires name { 0 < names_of board.now.board }
    ensures board { seat.new.board ≡ seat.old.board }
    ensures sender { sender.new.board ≡ sender.old.board }
{
    watch.start(clock);
    sends(board, sender, count);
    watch.turn(clock);
    measured.send.note(watch.end(clock).first, count);
    let _ = absorb(watch, board, seat);
    watch.start(clock);
    absorbs(watch, board, seat, count);
    watch.turn(clock);
    pairs(watch, board, seat, sender, count);
    let lap = watch.end(clock);
    measured.none.note(lap.first, count);
    measured.pair.note(lap.second, count);
}

fn rounds(
    clock: &impl Clock,
    watch: &mut Watch,
    board: &Board,
    seat: &mut LoopSeat,
    sender: &mut SenderSeat,
    count: u32,
    measured: &mut Measured,
)
    requires board { seat.old.board ≡ board.now.board }
    requires sender { sender.old.board ≡ board.now.board }
    requires name { 0 < names_of board.now.board }
{
    for _ in 0..ROUNDS {
        round(clock, watch, board, seat, sender, count, measured);
    }
}

/// What the calls take, in rounds of so many.
pub fn measure(clock: &impl Clock, watch: &mut Watch, alloc: Global, count: u32) -> Figures {
    let mut measured = Measured {
        send: Rounds::new(),
        none: Rounds::new(),
        pair: Rounds::new(),
    };
    match Board::new(alloc, 1, 1) {
        Ok((board, mut seat)) => match board.split(&mut seat) {
            Ok(mut sender) => {
                rounds(
                    clock,
                    watch,
                    &board,
                    &mut seat,
                    &mut sender,
                    count,
                    &mut measured,
                );
            }
            Err(_) => watch.fail(),
        },
        Err(_) => watch.fail(),
    }
    Figures {
        send: measured.send.median(),
        absorb: measured.none.median(),
        pair: measured.pair.median(),
    }
}

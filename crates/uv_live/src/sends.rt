//! What a sender's thread has at hand, and how many sends all of them have made. Each of these types is made in this file alone: so a
//! thread sends only once its gate was told, and notes each send behind it.
ghost use Rattle.std.specs.Prelude.{◌≡◌, ◌==◌, ◌<◌, ◌++◌, ◌∷◌, []};
ghost use Rattle.uv_wake.specs.Seats.{names_of};
ghost use Rattle.uv_live.specs.Sending.{names_in};

use std::sync::atomic::{AtomicU64, Ordering};
use uv_ids::Var;
use uv_pool::Gate;
use uv_wake::{Board, SenderSeat};

/// A seat from which nothing was sent. Who wants to send from it tells its gate.
#[derive(Drop)]
pub(crate) struct FreshSeat {
    seat: SenderSeat,
    pub ghost unsent: { seat.knows.tickets ≡ [] },
}

impl FreshSeat {
    pub(crate) fn new(seat: SenderSeat) -> FreshSeat
        requires { seat.knows.tickets ≡ [] }
        ensures { result.seat ≡ seat }
    {
        FreshSeat { seat }
    }

    /// Tells the gate that the thread is about to send for the first time.
    pub(crate) fn told<G: Gate>(self, gate: &mut G, thread: u8) -> ToldSeat
        ensures seat { result.seat ≡ self.seat }
        ensures told { G.sends gate.old thread gate.new }
    {
        let FreshSeat { seat } = self;
        gate.sending(thread);
        ToldSeat { seat }
    }
}

/// A seat of a thread whose gate was told.
#[derive(Drop)]
pub(crate) struct ToldSeat {
    seat: SenderSeat,
}

impl ToldSeat {
    /// Sends to a name.
    pub(crate) fn send(&mut self, board: &Board, name: Var) -> Made
        requires seat { self.old.seat.board ≡ board.now.board }
        requires name { name.0 < names_of board.now.board }
        ensures board { self.new.seat.board ≡ self.old.seat.board }
        ensures sent { names_in self.new.seat.knows.tickets ≡ names_in self.old.seat.knows.tickets ++ name ∷ [] }
        ensures made { result.name ≡ name }
    {
        board.send(&mut self.seat, name);
        Made { name }
    }

    /// The seat, to be given back.
    pub(crate) fn into_seat(self) -> SenderSeat
        ensures { result ≡ self.seat }
    {
        let ToldSeat { seat } = self;
        seat
    }
}

/// A send that was made and isn't noted. It can't be dropped: who made one notes it.
pub(crate) struct Made {
    name: Var,
}

/// How many sends the senders' threads have noted.
#[derive(Drop)]
pub(crate) struct Tally {
    sends: AtomicU64,
}

impl Tally {
    pub(crate) fn new() -> Tally {
        Tally {
            sends: AtomicU64::new(0),
        }
    }

    /// Notes a send that was made.
    pub(crate) fn note(&self, made: Made) {
        let Made { name: _ } = made;
        self.sends.fetch_add(1, Ordering::SeqCst);
    }

    /// Looks how many sends are noted.
    pub(crate) fn look(&self) -> Look {
        Look {
            sends: self.sends.load(Ordering::SeqCst),
        }
    }
}

/// How many sends were noted at one time.
#[derive(Drop)]
pub(crate) struct Look {
    sends: u64,
}

impl Look {
    /// Whether no send was noted between the two.
    pub(crate) fn is(&self, other: &Look) -> bool
        ensures { result ≡ (self.now.sends == other.now.sends) }
    {
        self.sends == other.sends
    }
}

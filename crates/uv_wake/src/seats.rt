//! The loop's seat and the senders' seats.
ghost use Rattle.std.specs.Prelude.{◌≡◌, ◌<◌, ◌↔◌, IsTrue};
ghost use Rattle.uv_wake.specs.Steps.{loop_of, sender_of};
ghost use Rattle.uv_wake.specs.Seats.{LoopAt, SenderAt, Carried, count_of, names_of};
ghost use Rattle.uv_wake.specs.Passes.{IsLoops, IsSends};

use crate::tickets::Ticket;
use crate::views::View;
use atomic_table::Seat;
use std::marker::Model;
use uv_ids::Var;

/// The loop's seat at a board. There is one, and it alone absorbs, splits and joins.
#[derive(Drop)]
pub struct LoopSeat {
    pub(crate) counts: Vec<u64>,
    pub(crate) splits: u64,
    pub(crate) seat: Seat<u8, View>,
}

impl Model for LoopSeat {
    ghost Value = { LoopAt };

    ghost view = { λ s. record { board = s.seat.table_id; knows = loop_of s.seat.me.0 } };

    ghost invariant = { λ s. IsLoops s.seat.table_id s.seat.id s.seat.me s.counts.items s.splits };
}

impl LoopSeat {
    /// How many times the word of a name was absorbed.
    pub fn count(&self, name: Var) -> u64
        requires { name.0 < names_of self.now.board }
        ensures { result ≡ count_of self.now.knows name }
    {
        self.counts[name.0 as usize]
    }

    /// Whether an absorb has carried the ticket. The ticket may be of any seat of the board.
    pub fn carried(&self, ticket: Ticket) -> bool
        requires { ticket.var.0 < names_of self.now.board }
        ensures { IsTrue result ↔ Carried self.now.knows ticket }
    {
        self.count(ticket.var) > ticket.epoch
    }
}

/// A sender's seat at a board. It may go to another thread, which sends with it while the loop absorbs.
///
/// A seat that is dropped is never joined: its tickets stay with it, and the loop never has all seats back.
#[derive(Drop)]
pub struct SenderSeat {
    pub(crate) seat: Seat<u8, View>,
}

impl Model for SenderSeat {
    ghost Value = { SenderAt };

    ghost view = { λ s. record { board = s.seat.table_id; knows = sender_of s.seat.me.0 } };

    ghost invariant = { λ s. IsSends s.seat.me };
}

//! The steps from which `send`, `absorb` and `join` are put together, each with what it tells its seat.
ghost use Rattle.std.specs.Prelude.{◌≡◌, ◌/◌, ◌^◌, ◌<◌, ◌≤◌, slice_index, true, Some};
ghost use Rattle.std.specs.List.{Contains};
ghost use Rattle.uv_wake.specs.declared.tickets.Ticket.{Ticket};
ghost use Rattle.uv_wake.specs.Tickets.{ticket};
ghost use Rattle.uv_wake.specs.Seats.{AllCarried, Carries, HasEach, after_absorb, after_join, after_send, count_of, names_of};

use crate::board::Board;
use crate::rule::{Absorb, Learn, Seats, Send};
use crate::seats::{LoopSeat, SenderSeat};
use uv_ids::Var;

impl Board {
    // Sets the lowest bit of a name's word, and answers the word as it was.
    pub(crate) fn set(&self, seat: &mut SenderSeat, name: Var) -> u64
        requires board { seat.old.board ≡ self.now.board }
        requires name { name.0 < names_of self.now.board }
        ensures seat { seat.new ≡ record seat.old { knows = after_send seat.old.knows (ticket name (result / 2)) } }
        ensures order { (t : Ticket) → t.var ≡ name → Contains seat.old.knows.tickets t → t.epoch ≤ result / 2 }
        ensures since { slice_index seat.old.knows.since name.0 ≤ result / 2 }
    {
        let word = name.0 as usize + 1;
        self.table.shared.fetch_or::<Send>(&mut seat.seat, word, 1)
    }

    // Adds 1 to a name's word that a look found odd.
    pub(crate) fn take_in(&self, seat: &mut LoopSeat, name: Var)
        requires board { seat.old.board ≡ self.now.board }
        requires name { name.0 < names_of self.now.board }
        requires seen { seat.old.knows.seen ≡ Some name }
        requires room { count_of seat.old.knows name < 2 ^ 62 }
        ensures seat { seat.new ≡ record seat.old { knows = after_absorb seat.old.knows name true } }
        ensures carries { Carries seat.old.knows name true seat.new.knows }
        ensures carried { AllCarried seat.new.knows name }
        ensures each { HasEach seat.new.knows }
    {
        let index = name.0 as usize;
        self.table
            .shared
            .fetch_add::<Absorb>(&mut seat.seat, index + 1, 1);
        seat.counts[index] += 1;
    }

    // Takes a sender's list into the loop's.
    pub(crate) fn take_back(&self, seat: &mut LoopSeat, sender: SenderSeat)
        requires board { seat.old.board ≡ self.now.board }
        requires sender { sender.board ≡ self.now.board }
        ensures { seat.new ≡ record seat.old { knows = after_join seat.old.knows sender.knows.tickets } }
    {
        let SenderSeat { seat: given } = sender;
        self.table.shared.join_seat::<Seats>(&mut seat.seat, given);
    }

    // Looks at the further word, from which the loop learns whether its list is whole.
    pub(crate) fn learn(&self, seat: &mut LoopSeat)
        requires { seat.old.board ≡ self.now.board }
        ensures seat { seat.new ≡ seat.old }
        ensures each { HasEach seat.new.knows }
    {
        self.table.shared.load::<Learn>(&mut seat.seat, 0);
    }
}

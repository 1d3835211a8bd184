//! The board.
ghost use Rattle.std.specs.Prelude.{◌≡◌, ◌⊎◌, ◌+◌, ◌^◌, ◌<◌, ◌≤◌, slice_index, true, false, Some, IfOk, IfErr, OnOk, OnErr};
ghost use Rattle.std.specs.List.{Contains};
ghost use Rattle.uv_wake.specs.declared.tickets.Ticket.{Ticket};
ghost use Rattle.uv_wake.specs.Seats.{Plan, AllCarried, Carried, CarriedBy, Carries, HasEach, WasAsked, after_absorb, after_join, after_look, after_send, after_split, count_of, names_of, split_off, starting};

use crate::rule::{Look, Seats, Wakes};
use crate::seats::{LoopSeat, SenderSeat};
use crate::tickets::Ticket;
use crate::views::View;
use atomic_table::{Seat, Table};
use std::alloc::{AllocError, Global};
use std::marker::Model;
use uv_ids::{Fault, Var};

/// The words of all names, which threads share by a `&Board`. No call of it waits.
///
/// A name's word is 2E, or 2E + 1 where a send stands in it, E being how many times the word was absorbed.
#[derive(Drop)]
pub struct Board {
    pub(crate) table: Table<u8, View, usize, Wakes, Global>,
    senders: u64,
}

impl Model for Board {
    ghost Value = { Plan };

    ghost view = { λ b. record { board = b.table.shared.table_id; senders = b.senders } };

    ghost invariant = { λ b. b.table.shared.table_id.words ≡ b.table.shared.key + 1 };
}

impl Board {
    /// A board for so many names, on which `split` gives at most `senders` seats in all (own).
    ///
    /// `Memory` is the only fault. Beside the words, the loop's seat keeps a count for each name.
    pub fn new(alloc: Global, names: usize, senders: u64) -> Result<(Board, LoopSeat), Fault>
        ensures names { IfOk result (λ r. names_of r.0.board ≡ names) }
        ensures senders { IfOk result (λ r. r.0.senders ≡ senders) }
        ensures seat { IfOk result (λ r. r.1 ≡ record { board = r.0.board; knows = starting names }) }
        ensures err { IfErr result (λ f. f ≡ Fault.Memory) }
    {
        Board::made(alloc, names, senders).map_err(|_| Fault::Memory)
    }

    fn made(alloc: Global, names: usize, senders: u64) -> Result<(Board, LoopSeat), AllocError>
        ensures names { IfOk result (λ r. names_of r.0.board ≡ names) }
        ensures senders { IfOk result (λ r. r.0.senders ≡ senders) }
        ensures seat { IfOk result (λ r. r.1 ≡ record { board = r.0.board; knows = starting names }) }
    {
        let word_count = names.checked_add(1).ok_or(AllocError)?;
        let counts = Vec::from_elem(alloc, 0u64, names)?;
        let words = Vec::from_elem(alloc, 0u64, word_count)?;
        let (table, seat): (Table<u8, View, usize, Wakes, Global>, Seat<u8, View>) =
            Table::of_words(alloc, words.as_slice(), &names)?;
        let board = Board { table, senders };
        let seat = LoopSeat {
            counts,
            splits: 0,
            seat,
        };
        Ok((board, seat))
    }

    /// A seat for one more sender. It answers `Limit` once `senders` seats were split off, joined ones too (own).
    pub fn split(&self, seat: &mut LoopSeat) -> Result<SenderSeat, Fault>
        requires { seat.old.board ≡ self.now.board }
        ensures ok { IfOk result (λ s. s ≡ record { board = seat.old.board; knows = split_off seat.old.knows }) }
        ensures seat { OnOk result (seat.new ≡ record seat.old { knows = after_split seat.old.knows }) }
        ensures room { OnOk result (seat.old.knows.splits < self.now.senders) }

        ensures err { IfErr result (λ f. f ≡ Fault.Limit) }
        ensures full { OnErr result (self.now.senders ≤ seat.old.knows.splits) }
        ensures same { OnErr result (seat.new ≡ seat.old) }
    {
        if seat.splits >= self.senders {
            return Err(Fault::Limit);
        }
        let given = self.table.shared.split_seat::<Seats>(&mut seat.seat);
        seat.splits += 1;
        Ok(SenderSeat { seat: given })
    }

    /// Wakes the loop (uv_async_send): one atomic step, which sends of other threads may meet at any time.
    ///
    /// Sends coalesce: those between two absorbs have tickets of one epoch, and one absorb carries them all.
    pub fn send(&self, seat: &mut SenderSeat, name: Var) -> Ticket
        requires board { seat.old.board ≡ self.now.board }
        requires name { name.0 < names_of self.now.board }
        ensures name { result.var ≡ name }
        ensures ticket { seat.new ≡ record seat.old { knows = after_send seat.old.knows result } }

        // The epoch is that of the word: it is at least what the loop had counted when the seat was split off.
        ensures order { (t : Ticket) → t.var ≡ name → Contains seat.old.knows.tickets t → t.epoch ≤ result.epoch }
        ensures since { slice_index seat.old.knows.since name.0 ≤ result.epoch }
    {
        let found = self.set(seat, name);
        Ticket {
            var: name,
            epoch: found / 2,
        }
    }

    /// Whether a send stands in the word of a name, which the next `absorb` carries (own).
    pub fn look(&self, seat: &mut LoopSeat, name: Var) -> bool
        requires board { seat.old.board ≡ self.now.board }
        requires name { name.0 < names_of self.now.board }
        ensures seat { seat.new ≡ record seat.old { knows = after_look seat.old.knows name result } }
        ensures still { seat.old.knows.seen ≡ Some name → result ≡ true }

        ensures carried { result ≡ false → AllCarried seat.old.knows name }
        ensures asked { result ≡ true → WasAsked seat.old.knows name }
        ensures each { HasEach seat.new.knows }
    {
        let word = name.0 as usize + 1;
        self.table.shared.load::<Look>(&mut seat.seat, word) % 2 == 1
    }

    /// Looks at the word of a name. Where a send stands in it, takes it in and answers true: the loop then owes the
    /// name one callback, for however many sends (uv_async_send coalesces).
    pub fn absorb(&self, seat: &mut LoopSeat, name: Var) -> bool
        requires board { seat.old.board ≡ self.now.board }
        requires name { name.0 < names_of self.now.board }
        requires room { count_of seat.old.knows name < 2 ^ 62 }
        ensures seat { seat.new ≡ record seat.old { knows = after_absorb seat.old.knows name result } }
        ensures most { count_of seat.new.knows name ≤ count_of seat.old.knows name + 1 }

        // True comes only where somebody sent, and always where a look found one or a joined sender's
        // ticket of the name is left.
        ensures still { seat.old.knows.seen ≡ Some name → result ≡ true }
        ensures asked { result ≡ true → WasAsked seat.old.knows name }
        ensures once { (t : Ticket) → t.var ≡ name → Contains seat.old.knows.tickets t
            → Carried seat.old.knows t ⊎ CarriedBy seat.old.knows name result t }

        // It carries the tickets of one epoch, and then none of the name is left.
        ensures carries { Carries seat.old.knows name result seat.new.knows }
        ensures carried { AllCarried seat.new.knows name }
        ensures each { HasEach seat.new.knows }
    {
        if !self.look(seat, name) {
            return false;
        }
        self.take_in(seat, name);
        true
    }

    /// Takes a sender's seat back, with its tickets.
    pub fn join(&self, seat: &mut LoopSeat, sender: SenderSeat)
        requires board { seat.old.board ≡ self.now.board }
        requires sender { sender.board ≡ self.now.board }
        ensures tickets { seat.new ≡ record seat.old { knows = after_join seat.old.knows sender.knows.tickets } }
        ensures each { HasEach seat.new.knows }
    {
        self.take_back(seat, sender);
        self.learn(seat);
    }
}

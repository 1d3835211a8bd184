//! What each seat knows. These values exist in the proofs alone: none is made, so lists of tickets take no bytes.
use crate::tickets::Ticket;
use std::collections::LinkedList;
use uv_ids::Var;

/// What the loop's seat knows.
pub struct LoopView {
    /// For each name, how many times its word was absorbed.
    pub counts: LinkedList<u64>,
    /// The name whose word a look last found odd, until it is absorbed.
    pub seen: Option<Var>,
    pub splits: u64,
    pub joins: u64,
    /// The tickets of the senders that were joined.
    pub tickets: LinkedList<Ticket>,
}

/// What a sender's seat knows.
pub struct SenderView {
    /// The loop's counts when this seat was split off.
    pub since: LinkedList<u64>,
    /// The tickets of the sends that were made with this seat.
    pub tickets: LinkedList<Ticket>,
}

pub enum View {
    Loop(LoopView),
    Sender(SenderView),
    /// What a joined seat leaves behind: its tickets are in the loop's list.
    Joined,
}

//! What a send answers.
use uv_ids::Var;

/// A send: its name, and how many times the name's word had been absorbed when it was sent.
///
/// Sends of one epoch coalesce: they have equal tickets, and one absorb carries them all.
#[derive(Clone, Copy, PartialEq, Eq)]
pub struct Ticket {
    pub var: Var,
    pub epoch: u64,
}

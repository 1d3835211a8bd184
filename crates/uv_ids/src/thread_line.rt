//! What threads send.

use crate::id::Var;

/// The line `thread k send NAME` of a script: one send of a thread of its own, which only a live run makes.
#[derive(Clone, Copy, PartialEq, Eq)]
pub struct ThreadLine {
    /// The thread's number, 0 to 63 (own).
    pub thread: u8,
    pub name: Var,
}

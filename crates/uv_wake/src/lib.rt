//! The wake board: one atomic word a name, by which threads wake the loop (uv_async_t).
//!
//! As libuv's documentation has it, uv_async_send may be called from any thread, and its calls coalesce: not every call
//! gives a callback of its own, but after a send a callback comes. Here a send is one atomic step and waits for nobody.
//! Each has a ticket, which tells later whether an absorb of the loop carried it (own).
//!
//! The main type is `Board`; a thread has a `SenderSeat`, the loop the `LoopSeat`. Read `specs/Seats.antt` first, then
//! `Steps.antt`.
#![tactic(auto)]

mod board;
mod rule;
mod seats;
mod steps;
mod tickets;
mod views;

pub use board::Board;
pub use rule::tickets_stand;
pub use seats::{LoopSeat, SenderSeat};
pub use tickets::Ticket;

//! A live run: a session that is what real threads did.
//!
//! Workers and senders run on threads of their own (libuv's "Thread pool work scheduling", uv_async_send). The loop's thread takes
//! the steps of a session, beside a book that it shares with the workers and a board by which senders wake it. What the workers did
//! it applies to the session, as the same events in the same order, whenever it holds the book's lock.
//!
//! The main call is `live` (`running.rt`), over any `Follower`. Read `specs/Settling.antt` first: what a settled run is.
#![tactic(auto)]

mod absorbing;
mod clock;
mod crew;
mod follower;
mod following;
mod outside;
mod parts;
mod polling;
mod running;
mod sends;
mod settling;
mod turning;

pub use clock::{Clock, JumpClock};
pub use follower::{Did, Follower};
pub use following::sync;
pub use running::live;
pub use settling::settle;
pub use turning::turn;

//! A live run of a session: what real threads did becomes the steps of a `Session`.
//!
//! The main call is `live` (`running.rt`). Read `specs/Bound.antt` and `Events.antt`, and uv_live's `Settling.antt`.
#![tactic(auto)]

mod counts;
mod did;
mod following;
mod pool_log;
mod running;
mod session;

pub use running::{live, live_within};
pub use session::LiveSession;

//! What it means that a loop's memory stands for a state, and what the memory says of each state that it stands for.
//!
//! Read `specs/Stands.antt` (`StandsFor`) first, then `Doing.antt`: how a step over the memory is said to be that of every state
//! that it stands for. `allowed` is the one place where an op is refused.
#![tactic(auto)]

mod ask;
mod names;
mod order;
mod packed_line;
mod packed_place;
mod queries;

pub use ask::Ask;
pub use names::{allowed, bind_name, bound_id, call_name, is_live, live_handle};
pub use order::timer_ids;
pub use packed_line::{Line, PackedLine};
pub use packed_place::{BodyStage, PackedPlace, PlaceForm};
pub use queries::{
    backend_timeout, has_members, has_pending, is_alive, is_in_use, is_woken, may_leave,
    poll_timeout,
};

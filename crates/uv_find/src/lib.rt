//! The orders in which what comes from outside may meet a script's loop, and a search through all of them.
//!
//! The main call is `find` (`finding.rt`, clause `found`). Read `specs/Orders.antt` and `Questions.antt` first, then `Courses.antt` and
//! `Found.antt` (`IsNever`). Where a search needs no whole states says `Forgetting.antt`, and what it tells apart then `Spots.antt` (`told`).
#![tactic(auto)]

mod at_once;
mod beginning;
mod choices;
mod finding;
mod forgetting;
mod holding;
mod jobs;
mod kept;
mod latest;
mod left;
mod mates;
mod ops;
mod orders;
mod questions;
mod ranks;
mod recorded;
mod same;
mod sources;
mod steps;
mod terms;

pub use choices::{Choice, Moved, Taken};
pub use finding::{
    Answer, each_finishes, find, find_any, near_is_within, place_keys_tell, states_are_regular,
    work_makes_no_difference,
};
pub use forgetting::may_forget;
pub use kept::{Along, Kept};
pub use latest::{Risen, Rung, rise};
pub use left::Left;
pub use orders::{Made, Orders, Was};
pub use recorded::Passed;
pub use terms::Terms;

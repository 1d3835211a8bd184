//! Where a request of the pool stands.

ghost use Rattle.std.specs.Prelude.{◌≡◌, ◌<◌, cond, Some, None};
ghost use Rattle.std.specs.HashMap.{get, spare};
ghost use Rattle.uv_work.specs.Ids.{same_id};

use std::collections::HashMap;
use uv_ids::Id;
use uv_work::WorkResult;

/// A request that is done, with the result of its job; none for a cancelled one.
#[derive(Clone, Copy, PartialEq, Eq)]
pub struct Collected {
    pub id: Id,
    pub result: Option<WorkResult>,
}

/// Where a request of the pool stands.
#[derive(Clone, Copy, PartialEq, Eq)]
pub(crate) enum Place {
    /// It waits, and it was the request of that number to be queued, from 0.
    Waiting(usize),
    /// The worker of that number runs it.
    Running(u16),
    /// It is done, and it was the request of that number to be so, from 0.
    Done(usize),
}

/// From now on the request is to be looked for at this place.
pub(crate) fn note(places: &mut HashMap<Id, Place>, id: Id, place: Place)
    requires { 0 < spare places.old }
    ensures { (q : _) → get same_id places.new q ≡ cond (same_id id q) (Some place) (get same_id places.old q) }
{
    let _ = places.insert(id, place);
}

/// From now on the request is nowhere.
pub(crate) fn forget(places: &mut HashMap<Id, Place>, id: Id)
    ensures { (q : _) → get same_id places.new q ≡ cond (same_id id q) None (get same_id places.old q) }
{
    let _ = places.remove(&id);
}

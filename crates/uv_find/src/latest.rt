//! How late a timer is called at most, over all orders: one search after another, each of which asks for later than the last one found.
ghost use Rattle.std.specs.Prelude.{◌≡◌, ◌≤◌, true, false};
ghost use Rattle.uv_find.specs.Found.{GoesBack, Looks, RisesTo};
ghost use Rattle.uv_find.specs.Holding.{asks_late};
ghost use Rattle.uv_find.specs.Questions.{place_answers};

use crate::orders::Orders;
use std::alloc::Global;
use uv_ids::Var;
use uv_model::Machine;
use uv_search::{Found, Reached, go_back, search};

/// So many searches are made at most (own).
const ROUNDS: usize = 65_536;

/// What one search tells of how late the timer is called.
pub enum Rung {
    /// In one order it is, and so late.
    Late(u64),
    /// In no order. So many places were kept.
    Never(usize),
    Unsettled,
}

/// How late it is called at most.
#[derive(Clone, Copy)]
pub struct Risen {
    /// So late is the first number of ms that wasn't found, one more than the latest that was; the first where none was.
    pub ms: u64,
    /// So late it is called in no order. So many places were kept then. None where that isn't settled.
    pub settled: Option<usize>,
}

/// Searches for an order in which the timer is called as late as is asked, and goes back.
fn look<M: Machine>(alloc: Global, orders: &mut Orders<M>, limit: usize) -> Rung
    requires here { place_answers orders.old.rules orders.old.spot.place orders.old.rules.question ≡ false }
    ensures found { Looks orders.old.rules orders.old.spot limit result }
    ensures rules { orders.new.rules ≡ orders.old.rules }
    ensures back { GoesBack result orders.old.spot orders.new.spot }
{
    match search(alloc, orders, limit) {
        Found::Way(Reached { way, .. }) => {
            let late = orders.lateness();
            go_back(orders, way.len());
            Rung::Late(late)
        }
        Found::Never(places) => Rung::Never(places),
        _ => Rung::Unsettled,
    }
}

/// Searches for later and later calls of the timer from where the orders stand, from so many ms on, until there is none.
pub fn rise<M: Machine>(
    alloc: Global,
    orders: &mut Orders<M>,
    name: Var,
    first: u64,
    limit: usize,
) -> Risen
    requires late { asks_late orders.old.rules.question ≡ true }
    ensures rises { RisesTo orders.old.rules orders.old.spot name limit result.ms result.settled }
    ensures least { first ≤ result.ms }
{
    let mut ms = first;
    'rounds: for _ in 0..ROUNDS {
        orders.ask_late(name, ms);
        match look(alloc, orders, limit) {
            Rung::Late(late) => ms = above(late, ms),
            Rung::Never(places) => return Risen {
                ms,
                settled: Some(places),
            },
            Rung::Unsettled => return Risen { ms, settled: None },
        }
    }
    Risen { ms, settled: None }
}

/// One more than the larger one.
fn above(late: u64, ms: u64) -> u64
    ensures { ms ≤ result }
{
    if late < ms {
        ms.saturating_add(1)
    } else {
        late.saturating_add(1)
    }
}

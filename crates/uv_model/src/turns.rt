//! How a run goes on where it has to choose.
ghost use Rattle.std.specs.Prelude.{◌≡◌};
ghost use Rattle.uv_model.specs.Next.{way};

use crate::place::{TimersOf, Turn, Way};
use uv_ids::{Mode, Order};

/// How a run of this mode goes on from a turn, where the loop goes on or doesn't.
pub fn way(order: Order, mode: Mode, goes: bool, turn: Turn) -> Way
    ensures { result ≡ way order mode goes turn }
{
    match order {
        Order::V144 => way_by_144(mode, goes, turn),
        Order::V145 => way_by_145(mode, goes, turn),
    }
}

/// In the order of 1.44.
fn way_by_144(mode: Mode, goes: bool, turn: Turn) -> Way
    ensures { result ≡ way Order.V144 mode goes turn }
{
    match (turn, mode) {
        (Turn::AtEntry, _) | (Turn::BehindClosing, Mode::Default) => {
            if goes {
                Way::ToTimers(TimersOf::Entry)
            } else {
                Way::ToEnd
            }
        }
        (Turn::Behind(TimersOf::Entry), _) => Way::ToPending,
        (Turn::Behind(TimersOf::Iteration), _) => Way::ToEnd,
        (Turn::BehindClosing, Mode::Once) => Way::ToTimers(TimersOf::Iteration),
        (Turn::BehindClosing, Mode::Nowait) => Way::ToEnd,
    }
}

/// In the order of 1.45.
fn way_by_145(mode: Mode, goes: bool, turn: Turn) -> Way
    ensures { result ≡ way Order.V145 mode goes turn }
{
    let iterates = matches!(mode, Mode::Default);
    match turn {
        Turn::BehindClosing => Way::ToTimers(TimersOf::Iteration),
        Turn::AtEntry if goes && iterates => Way::ToTimers(TimersOf::Entry),
        Turn::Behind(TimersOf::Iteration) if !iterates => Way::ToEnd,
        Turn::AtEntry | Turn::Behind(_) => { if goes { Way::ToPending } else { Way::ToEnd } }
    }
}

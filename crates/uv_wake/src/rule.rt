//! The rule of the board, and what each kind of step tells the seat that makes it.
ghost use Rattle.std.specs.Prelude.{ℕ};
ghost use Rattle.atomic_table.specs.Table.{State};
ghost use Rattle.uv_wake.specs.declared.views.View.{View};
ghost use Rattle.uv_wake.specs.Rule.{Kept, EachStands, at_first};
ghost use Rattle.uv_wake.specs.Steps.{sent, looked, absorbed, learned, split_left, split_right, joined, left_behind};

use crate::views::View;
use atomic_table::{Join, Play, Split, TableRule};

/// The rule. Its key is the number of names.
pub struct Wakes;

impl TableRule<u8, View, usize> for Wakes {
    ghost holds = { Kept };

    ghost first = { at_first };
}

/// A sender sets the lowest bit of a name's word.
pub struct Send;

impl Play<u8, View> for Send {
    ghost then = { sent };
}

/// The loop looks at a name's word.
pub struct Look;

impl Play<u8, View> for Look {
    ghost then = { looked };
}

/// The loop adds 1 to a name's word that it saw odd.
pub struct Absorb;

impl Play<u8, View> for Absorb {
    ghost then = { absorbed };
}

/// The loop looks at the further word, which is always 0.
pub struct Learn;

impl Play<u8, View> for Learn {
    ghost then = { learned };
}

/// A sender's seat is split off the loop's, or joined into it.
pub struct Seats;

impl Split<View> for Seats {
    ghost left = { split_left };

    ghost right = { split_right };
}

impl Join<View> for Seats {
    ghost both = { joined };

    ghost spent = { left_behind };
}

/// Between any two steps each ticket was carried, or it stands in the word of its name, which is odd: so no ticket is lost.
/// It does nothing, and is called for its clause.
pub fn tickets_stand()
    ensures { (names : ℕ) (s : State ℕ View) (kept : Kept names s) → EachStands names s kept }
{}

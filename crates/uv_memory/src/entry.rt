//! A step as a row of records keeps it.

ghost use Rattle.std.specs.Prelude.{◌≡◌};

use crate::record::Naming;

/// Where the loop stood, what became of a name, and the change of the rest, which has the form of its row.
#[derive(Clone, Copy)]
pub struct Entry<P: Copy, C: Copy> {
    pub place: P,
    pub naming: Naming,
    pub change: C,
}

impl<P: Copy, C: Copy> Entry<P, C> {
    pub(crate) fn new(place: P, naming: Naming, change: C) -> Entry<P, C>
        ensures { result ≡ record { place = place; naming = naming; change = change } }
    {
        Entry {
            place,
            naming,
            change,
        }
    }
}

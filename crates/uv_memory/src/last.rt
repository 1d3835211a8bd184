//! What takes the last step back.
ghost use Rattle.std.specs.Prelude.{◌≡◌};
ghost use Rattle.uv_memory.specs.Change as change;
ghost use Rattle.uv_memory.specs.Does.{changed};
ghost use Rattle.uv_memory.specs.declared.record.Naming.TheVariants.{Same as same};
ghost use Rattle.uv_memory.specs.Forms.{smaller, change_of, larger, record_of};
ghost use Rattle.uv_memory.specs.Lies.{lain};

use crate::kept::{Form, KeptRecord};
use crate::large::Large;
use crate::medium::Medium;
use crate::record::Naming;
use crate::row::Row;
use crate::small::Small;
use std::marker::Model;
use uv_arena::PushUndo;
use uv_handle::{DelistUndo, RecordUndo, WalkUndo};
use uv_ids::{Kind, Var};
use uv_records::HandleRecord;
use uv_timer::TimerUndo;

/// What takes the last step back. Callers see the record. Its change lies in the field of its row, and what the other two hold says
/// nothing: so a step writes no more words than its change has, where an enum of the three would be written whole.
#[derive(Drop)]
pub struct LastStep<P: Copy> {
    place: P,
    naming: Naming,
    row: Row,
    small: Small,
    medium: Medium,
    large: Large,
}

/// A change, where it lies.
#[derive(Clone, Copy)]
pub(crate) enum Lying<'a> {
    Small(&'a Small),
    Medium(&'a Medium),
    Large(&'a Large),
}

impl<P: Copy> Model for LastStep<P> {
    ghost use Rattle.uv_memory.specs.Record.{Record};
    ghost use Rattle.uv_memory.specs.Forms.{change_at};

    ghost Value = { Record P };

    ghost view = { λ l. record { place = l.place; naming = l.naming; change = change_at l.row l.small l.medium l.large } };
}

impl<P: Copy> LastStep<P> {
    /// The loop stands here, and nothing was changed.
    pub fn new(place: P) -> LastStep<P>
        ensures { result ≡ changed place change.Nothing }
    {
        let delisted = DelistUndo {
            unlinked: None,
            changed: RecordUndo {
                slot: 0,
                active: 0,
                old: HandleRecord::new(Var(0), Kind::Idle),
            },
        };
        LastStep {
            place,
            naming: Naming::Same,
            row: Row::Smalls,
            small: Small::Nothing,
            medium: Medium::Delisted(delisted),
            large: Large::Timer(TimerUndo {
                removed: None,
                delisted,
                set: None,
            }),
        }
    }

    /// The loop stood here, and nothing became of a name.
    fn begin(&mut self, place: P)
        ensures { self.new ≡ record self.old { place = place; naming = same } }
    {
        self.place = place;
        self.naming = Naming::Same;
    }

    /// The change is this small one.
    pub(crate) fn set_small(&mut self, change: Small)
        ensures { self.new ≡ record self.old { change = smaller change } }
    {
        self.row = Row::Smalls;
        self.small = change;
    }

    /// The change is this medium one.
    pub(crate) fn set_medium(&mut self, change: Medium)
        ensures { self.new ≡ record self.old { change = change_of change } }
    {
        self.row = Row::Mediums;
        self.medium = change;
    }

    /// The change is this large one.
    pub(crate) fn set_large(&mut self, change: Large)
        ensures { self.new ≡ record self.old { change = larger change } }
    {
        self.row = Row::Larges;
        self.large = change;
    }

    /// The loop stood here, and nothing was changed.
    pub fn pass(&mut self, place: P)
        ensures { self.new ≡ changed place change.Nothing }
    {
        self.note_small(place, Small::Nothing);
    }

    /// The loop stood here, and a small change was made.
    pub fn note_small(&mut self, place: P, change: Small)
        ensures { self.new ≡ changed place (smaller change) }
    {
        self.begin(place);
        self.set_small(change);
    }

    /// The loop stood here, and a medium change was made.
    pub fn note_medium(&mut self, place: P, change: Medium)
        ensures { self.new ≡ changed place (change_of change) }
    {
        self.begin(place);
        self.set_medium(change);
    }

    /// The loop stood here, and a large change was made.
    pub fn note_large(&mut self, place: P, change: Large)
        ensures { self.new ≡ changed place (larger change) }
    {
        self.begin(place);
        self.set_large(change);
    }

    /// The loop stood here, and a timer was started, stopped or called.
    pub fn note_timer(&mut self, place: P, timer: TimerUndo)
        ensures { self.new ≡ changed place (change.Timer timer) }
    {
        match Medium::timer(timer) {
            Some(medium) => self.note_medium(place, medium),
            None => self.note_large(place, Large::Timer(timer)),
        }
    }

    /// The loop stood here, and a handle was taken off its list and the heap, and put on another list.
    pub fn note_moved(&mut self, place: P, put: PushUndo, timer: TimerUndo)
        ensures { self.new ≡ changed place (change.Moved put timer) }
    {
        match Medium::moved(put, timer) {
            Some(medium) => self.note_medium(place, medium),
            None => self.note_large(place, Large::Moved(put, timer)),
        }
    }

    /// The loop stood here, and a watcher was called.
    pub fn note_walked(&mut self, place: P, walked: WalkUndo)
        ensures { self.new ≡ changed place (change.Walked walked) }
    {
        match walked.woken {
            None => self.note_small(place, Small::Passed(walked.kind)),
            Some(woken) => self.note_medium(place, Medium::Woken(walked.kind, woken)),
        }
    }

    /// This became of a name besides.
    pub fn rename(&mut self, naming: Naming)
        ensures { self.new ≡ record self.old { naming = naming } }
    {
        self.naming = naming;
    }

    /// Where the loop stood.
    pub fn place(&self) -> P
        ensures { result ≡ self.now.place }
    {
        self.place
    }

    /// What became of a name.
    pub fn naming(&self) -> Naming
        ensures { result ≡ self.now.naming }
    {
        self.naming
    }

    /// The change.
    pub(crate) fn lying(&self) -> Lying<'_>
        ensures { self.now.change ≡ lain result }
    {
        match self.row {
            Row::Smalls => Lying::Small(&self.small),
            Row::Mediums => Lying::Medium(&self.medium),
            Row::Larges => Lying::Large(&self.large),
        }
    }

    /// All of it, in one value.
    pub fn kept(&self) -> KeptRecord<P>
        ensures { record_of result ≡ self.now }
    {
        let form = match self.row {
            Row::Smalls => Form::Small(self.small),
            Row::Mediums => Form::Medium(self.medium),
            Row::Larges => Form::Large(self.large),
        };
        KeptRecord {
            place: self.place,
            naming: self.naming,
            form,
        }
    }
}

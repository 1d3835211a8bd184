//! The records of the steps that stand.
ghost use Rattle.std.specs.Prelude.{◌≡◌, ◌<◌, ◌≤◌, ◌+◌, ◌++◌, ◌∷◌, [], OnOk, OnErr, IfSome, IfNone, length};
ghost use Rattle.uv_memory.specs.Record.{at_place};

use crate::entry::Entry;
use crate::large::Large;
use crate::last::{LastStep, Lying};
use crate::medium::Medium;
use crate::row::Row;
use crate::small::Small;
use std::alloc::{AllocError, Global};
use std::marker::Model;

/// The records of steps in a row, the first step's first. Each lies in one of three rows, by the size of its change, and takes no more
/// words than that needs.
#[derive(Drop)]
pub struct Trail<P: Copy> {
    /// In which row each step lies.
    rows: Vec<Row>,
    smalls: Vec<Entry<P, Small>>,
    mediums: Vec<Entry<P, Medium>>,
    larges: Vec<Entry<P, Large>>,
}

impl<P: Copy> Model for Trail<P> {
    ghost use Rattle.std.specs.Prelude.{◌-◌, min, vec_len, vec_capacity};
    ghost use Rattle.uv_memory.specs.Rows.{Fits, records_of};
    ghost use Rattle.uv_memory.specs.Kept.{Kept};

    ghost Value = { Kept P };

    ghost view = { λ t. record {
      records = records_of t.rows.items t.smalls.items t.mediums.items t.larges.items;
      room = min (min (vec_capacity t.rows - vec_len t.rows) (vec_capacity t.smalls - vec_len t.smalls))
          (min (vec_capacity t.mediums - vec_len t.mediums) (vec_capacity t.larges - vec_len t.larges));
    } };

    ghost invariant = { λ t. Fits t.rows.items t.smalls.items t.mediums.items t.larges.items };
}

impl<P: Copy> Trail<P> {
    /// No record, and room for none.
    pub fn new(alloc: Global) -> Trail<P>
        ensures { result.records ≡ [] }
    {
        Trail {
            rows: Vec::new(alloc),
            smalls: Vec::new(alloc),
            mediums: Vec::new(alloc),
            larges: Vec::new(alloc),
        }
    }

    /// How many there are.
    pub fn len(&self) -> usize
        ensures { result ≡ length self.now.records }
    {
        self.rows.len()
    }

    /// Makes room for so many more records, whatever their changes.
    pub fn reserve(&mut self, count: usize) -> Result<(), AllocError>
        ensures same { self.new.records ≡ self.old.records }
        ensures ok { OnOk result (count ≤ self.new.room) }
        ensures kept { self.old.room ≤ self.new.room }
        ensures wanted { OnErr result (self.old.room < count) }
    {
        if self.rows.reserve(count).is_err() {
            return Err(AllocError);
        }
        if self.smalls.reserve(count).is_err() {
            return Err(AllocError);
        }
        if self.mediums.reserve(count).is_err() {
            return Err(AllocError);
        }
        if self.larges.reserve(count).is_err() {
            return Err(AllocError);
        }
        Ok(())
    }

    /// One more, which is as this except where the loop stood. It takes no memory.
    #[inline(always)]
    pub fn push_at<Q: Copy>(&mut self, place: P, last: &LastStep<Q>)
        requires { 0 < self.old.room }
        ensures records { self.new.records ≡ self.old.records ++ at_place place last.now ∷ [] }
        ensures room { self.old.room ≤ self.new.room + 1 }
    {
        let naming = last.naming();
        match last.lying() {
            Lying::Small(change) => {
                self.rows.push_reserved(Row::Smalls);
                self.smalls
                    .push_reserved(Entry::new(place, naming, *change));
            }
            Lying::Medium(change) => {
                self.rows.push_reserved(Row::Mediums);
                self.mediums
                    .push_reserved(Entry::new(place, naming, *change));
            }
            Lying::Large(change) => {
                self.rows.push_reserved(Row::Larges);
                self.larges
                    .push_reserved(Entry::new(place, naming, *change));
            }
        }
    }

    /// The last one goes, if there is one, and is this except where the loop stood, which is answered.
    pub fn pop_at<Q: Copy>(&mut self, last: &mut LastStep<Q>) -> Option<P>
        ensures some { IfSome result (λ place. self.old.records ≡ self.new.records ++ at_place place last.new ∷ []) }
        ensures none { IfNone result ((self.old.records ≡ []) × (self.new.records ≡ []) × (last.new ≡ last.old)) }
        ensures room { self.old.room ≤ self.new.room }
    {
        match self.rows.pop()? {
            Row::Smalls => match self.smalls.pop() {
                Some(step) => {
                    last.rename(step.naming);
                    last.set_small(step.change);
                    Some(step.place)
                }
                None => unreachable!(),
            },
            Row::Mediums => match self.mediums.pop() {
                Some(step) => {
                    last.rename(step.naming);
                    last.set_medium(step.change);
                    Some(step.place)
                }
                None => unreachable!(),
            },
            Row::Larges => match self.larges.pop() {
                Some(step) => {
                    last.rename(step.naming);
                    last.set_large(step.change);
                    Some(step.place)
                }
                None => unreachable!(),
            },
        }
    }
}

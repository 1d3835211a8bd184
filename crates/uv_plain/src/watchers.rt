//! The handles that sections walk, by kind.
ghost use Rattle.std.specs.Prelude.{◌≡◌};
ghost use Rattle.std.specs.Borrow.{Lends, sem};
ghost use Rattle.uv_model.specs.State.{those_of, with_those_of, no_watchers};
ghost use Rattle.uv_model.specs.Timers.{watchers_without_id};
ghost use Rattle.uv_plain.specs.contracts.watchers.WatcherLists.{the_row};
ghost use Rattle.uv_plain.specs.contracts.walked.Walked as walked;

use crate::walked::Walked;
use std::alloc::Global;
use std::marker::Model;
use uv_ids::Id;
use uv_records::WatcherKind;

/// The handles of each kind that a section walks: the active idle, prepare and check handles, and the async ones.
#[derive(Drop)]
pub struct WatcherLists {
    idle: Walked,
    prepare: Walked,
    check: Walked,
    asyncs: Walked,
}

impl Model for WatcherLists {
    ghost use Rattle.uv_model.specs.State.{Watchers};

    ghost Value = { Watchers };

    ghost view = { λ a. record { idle = a.idle; prepare = a.prepare; check = a.check; async = a.asyncs } };
}

impl WatcherLists {
    /// No handle of any kind.
    pub fn new(alloc: Global) -> WatcherLists
        ensures { result ≡ no_watchers }
    {
        WatcherLists {
            idle: Walked::new(alloc),
            prepare: Walked::new(alloc),
            check: Walked::new(alloc),
            asyncs: Walked::new(alloc),
        }
    }

    /// Those of a kind.
    pub fn of(&self, kind: WatcherKind) -> &Walked
        ensures { result.now ≡ those_of kind self.now }
    {
        match kind {
            WatcherKind::Idle => &self.idle,
            WatcherKind::Prepare => &self.prepare,
            WatcherKind::Check => &self.check,
            WatcherKind::Async => &self.asyncs,
        }
    }

    /// Those of a kind, to be changed.
    pub fn of_mut(&mut self, kind: WatcherKind) -> &mut Walked
        ensures* back { sem 𝓛 (Lends the_row walked.the_row self.entry result (λ w. with_those_of kind w self.old)) }
        ensures value { result.now ≡ those_of kind self.old }
    {
        match kind {
            WatcherKind::Idle => &mut self.idle,
            WatcherKind::Prepare => &mut self.prepare,
            WatcherKind::Check => &mut self.check,
            WatcherKind::Async => &mut self.asyncs,
        }
    }

    /// Takes a handle off the lists of each kind.
    pub fn remove(&mut self, id: Id)
        ensures { self.new ≡ watchers_without_id self.old id }
    {
        self.idle.remove(id);
        self.prepare.remove(id);
        self.check.remove(id);
        self.asyncs.remove(id);
    }
}

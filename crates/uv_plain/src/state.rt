//! The plain loop's state: lists, and the timers in an ordered map.
ghost use Rattle.std.specs.Prelude.{◌≡◌, ◌<◌, ◌^◌, IfOk, OnOk, OnErr, None, Some};
ghost use Rattle.uv_model.specs.Ops.{bound_to};
ghost use Rattle.uv_model.specs.State.{fresh, handle, with_handle, request, with_request, named, with_named, live, live_handle, live_request, front, front_request, refreshed};

use crate::arena::Arena;
use crate::content::{handle_in, request_in};
use crate::walked::Walked;
use crate::watchers::WatcherLists;
use std::alloc::{AllocError, Global};
use std::collections::BTreeMap;
use std::marker::Model;
use uv_ids::{Code, Due, Id, Var};
use uv_model::Place;
use uv_records::{HandleRecord, Named};
use uv_script::Script;
use uv_work::{Content, Request};

mod io;
mod ops;
mod phases;
mod pool;
mod queries;
mod refusals;
mod timeout;
mod timers;
mod walks;

/// Everything that a step reads and changes.
#[derive(Drop)]
pub struct LoopState {
    place: Place,
    names: Vec<Named>,
    arena: Arena,
    /// The active timers.
    timers: BTreeMap<Due, Id>,
    /// The timers that a section collected and will call, front first.
    ready: Vec<Id>,
    /// The handles that sections walk, by kind.
    watchers: WatcherLists,
    /// The handles whose close callback is still to come.
    closing: Walked,
    /// The requests that wait for a worker, the one that waits longest first.
    waiting: Vec<Id>,
    /// What each worker of the thread pool runs, by its number.
    running: Vec<Option<Id>>,
    /// The requests that were finished or cancelled, whose after callback is still to come.
    done: Walked,
    /// The loop's cached time in ms (uv_now).
    time: u64,
    /// The clock in ms.
    clock: u64,
    /// The number that the next start of a timer draws.
    next_start: u64,
    /// The run is to end before its next iteration (uv_stop).
    stop_flag: bool,
    /// An idle handle was active as the iteration began.
    idled: bool,
}

impl Model for LoopState {
    ghost use Rattle.uv_model.specs.State.{State};

    ghost Value = { State };

    ghost view = { λ a. record {
      place = a.place;
      names = a.names.items;
      arena = a.arena;
      timers = a.timers.entries;
      ready = a.ready.items;
      watchers = a.watchers;
      closing = a.closing;
      waiting = a.waiting.items;
      running = a.running.items;
      done = a.done;
      time = a.time;
      clock = a.clock;
      next_start = a.next_start;
      stop_flag = a.stop_flag;
      idled = a.idled;
    } };
}

impl LoopState {
    /// The state in which a script begins.
    pub fn fresh(alloc: Global, script: &Script) -> Result<LoopState, AllocError>
        ensures { IfOk result (λ state. state ≡ fresh script.now) }
    {
        let names = vec![in alloc; Named::unbound(); script.names().len()]?;
        let running = vec![in alloc; None; script.workers() as usize]?;
        Ok(LoopState {
            place: Place::Main(0),
            names,
            arena: Arena::new(alloc, script.arena_size().slots),
            timers: BTreeMap::new(alloc),
            ready: Vec::new(alloc),
            watchers: WatcherLists::new(alloc),
            closing: Walked::new(alloc),
            waiting: Vec::new(alloc),
            running,
            done: Walked::new(alloc),
            time: 0,
            clock: 0,
            next_start: 0,
            stop_flag: false,
            idled: false,
        })
    }

    /// The handle of an id whose slot still holds it.
    fn handle(&self, id: Id) -> Option<HandleRecord>
        ensures { result ≡ handle self.now id }
    {
        handle_in(self.arena.held(id))
    }

    fn set_handle(&mut self, id: Id, handle: HandleRecord)
        ensures { self.new ≡ with_handle self.old id handle }
    {
        self.arena.set(id, Content::Handle(handle));
    }

    /// The request of an id whose slot still holds it.
    fn request(&self, id: Id) -> Option<Request>
        ensures { result ≡ request self.now id }
    {
        request_in(self.arena.held(id))
    }

    fn set_request(&mut self, id: Id, request: Request)
        ensures { self.new ≡ with_request self.old id request }
    {
        self.arena.set(id, Content::Request(request));
    }

    /// What a name is bound to, and its counts.
    pub fn named(&self, name: Var) -> Named
        ensures { result ≡ named self.now name }
    {
        self.names
            .get(name.0 as usize)
            .copied()
            .unwrap_or(Named::unbound())
    }

    fn set_named(&mut self, name: Var, named: Named)
        ensures { self.new ≡ with_named self.old name named }
    {
        if let Some(place) = self.names.get_mut(name.0 as usize) {
            *place = named;
        }
    }

    /// Binds a name to the id of its new handle or request.
    fn bind(&mut self, name: Var, id: Id)
        ensures { self.new ≡ bound_to self.old name id }
    {
        let named = self.named(name);
        self.set_named(
            name,
            Named {
                id: Some(id),
                ..named
            },
        );
    }

    /// The id of a name that is live, and what its slot holds.
    fn live(&self, name: Var) -> Option<(Id, Content)>
        ensures { result ≡ live self.now name }
    {
        let id = self.named(name).id?;
        let content = self.arena.held(id)?;
        Some((id, content))
    }

    /// The handle of a name, for an op on handles.
    fn live_handle(&self, name: Var) -> Result<(Id, HandleRecord), Code>
        ensures { result ≡ live_handle self.now name }
    {
        match self.live(name) {
            None => Err(Code::Estale),
            Some((_, Content::Request(_))) => Err(Code::Ekind),
            Some((id, Content::Handle(handle))) => Ok((id, handle)),
        }
    }

    /// The request of a name, for an op on requests.
    fn live_request(&self, name: Var) -> Result<(Id, Request), Code>
        ensures { result ≡ live_request self.now name }
    {
        match self.live(name) {
            None => Err(Code::Estale),
            Some((_, Content::Handle(_))) => Err(Code::Ekind),
            Some((id, Content::Request(request))) => Ok((id, request)),
        }
    }

    /// The front of a list of handles.
    fn front(&self, ids: &[Id]) -> Option<(Id, HandleRecord)>
        ensures { result ≡ front self.now ids.now }
    {
        let id = *ids.first()?;
        let handle = self.handle(id)?;
        Some((id, handle))
    }

    /// The front of a list of requests.
    fn front_request(&self, ids: &[Id]) -> Option<(Id, Request)>
        ensures { result ≡ front_request self.now ids.now }
    {
        let id = *ids.first()?;
        let request = self.request(id)?;
        Some((id, request))
    }

    /// Sets the loop's time to the clock (uv_update_time).
    fn refresh(&mut self)
        ensures { self.new ≡ refreshed self.old }
    {
        self.time = self.clock;
    }
}

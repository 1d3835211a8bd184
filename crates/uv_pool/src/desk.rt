//! A worker's end of a book that threads share.
ghost use Rattle.std.specs.Prelude.{◌≡◌, None, false, []};

use crate::bench::Bench;
use crate::gate::Computed;
use crate::locked::LockedBook;
use crate::sightings::{NotTaken, WasClosed, WasOver};
use std::alloc::Global;
use std::marker::Model;
use std::sync::Wait;
use std::sync::ledger::{Ledger, Share};
use uv_ids::{Fault, Why};
use uv_work::{Job, PoolEvent};

/// A worker's end of a lent book, with the list of events that it answered. `take` waits while nothing waits and the book
/// is open; it answers none where nothing waits and the book is closed.
#[derive(Drop)]
pub struct Desk<'a, R: Wait, L: Ledger> {
    rt: &'a R,
    book: &'a LockedBook<L>,
    events: Vec<PoolEvent>,
    job: Option<Job>,
    over: Option<WasOver<L>>,
    closed: Option<WasClosed<L>>,
    refused: Option<NotTaken<L>>,
}

impl<'a, R: Wait, L: Ledger> Model for Desk<'a, R, L> {
    ghost use Rattle.std.specs.Prelude.{◌≡◌, ◌<◌, true, is_some, option_map, vec_len, vec_capacity};
    ghost use Rattle.uv_pool.specs.Benches.{AtDesk};

    ghost Value = { AtDesk };

    ghost view = { λ d. record {
      events = d.events.items;
      job = d.job;
      idle = is_some d.over;
      closed = is_some d.closed;
      refused = option_map (λ n. n.refusal) d.refused;
    } };

    // While a job isn't finished there is room for its second event.
    ghost invariant = { λ d. is_some d.job ≡ true → vec_len d.events < vec_capacity d.events };
}

impl<'a, R: Wait, L: Ledger> Desk<'a, R, L> {
    /// A desk that has answered nothing.
    pub fn new(rt: &'a R, alloc: Global, book: &'a LockedBook<L>) -> Desk<'a, R, L>
        ensures { result ≡ record { events = []; job = None; idle = false; closed = false; refused = None } }
    {
        Desk {
            rt,
            book,
            events: Vec::new(alloc),
            job: None,
            over: None,
            closed: None,
            refused: None,
        }
    }
}

impl<'a, R: Wait, L: Ledger> Bench<L> for Desk<'a, R, L> {
    ghost use Rattle.std.specs.Prelude.{◌≡◌, ◌⊎◌, Some, true};
    ghost use Rattle.uv_ids.specs.declared.fault.Fault.TheVariants as fault;
    ghost use Rattle.uv_ids.specs.declared.fault.Why.TheVariants as why;

    ghost answered = { λ d. d.events };

    ghost gave = { λ d k job. d.job ≡ Some job };

    ghost idle = { λ d. d.idle ≡ true };

    ghost shut = { λ d. d.closed ≡ true };

    // The desk gave no such job; or the book that is lent refused it for just that, as was seen under the lock.
    ghost refuses = { λ d k work f after. ((f ≡ fault.Refused why.NoWork) × (d.job ≡ Some work.job → ⊥))
        ⊎ (after.refused ≡ Some (record { worker = k; work = work; fault = f })) };

    fn enrol(&mut self, k: u16) -> Result<Share<L>, Fault> {
        self.book.enrol(self.rt, k)
    }

    fn take(&mut self, k: u16) -> Result<Option<Job>, Fault> {
        self.events.reserve(2)?;
        match self.book.take(self.rt, k, &self.events)? {
            Ok(job) => {
                self.events.push_reserved(PoolEvent::Take(k, job.req));
                self.job = Some(job);
                Ok(Some(job))
            }
            Err(over) => {
                self.over = Some(over);
                Ok(None)
            }
        }
    }

    fn finish(&mut self, k: u16, done: Computed, share: &mut Share<L>) -> Result<(), Fault> {
        let work = done.work();
        let job = work.job();
        match self.job {
            None => return Err(Fault::Refused(Why::NoWork)),
            Some(given) => {
                if !given.is(job) {
                    return Err(Fault::Refused(Why::NoWork));
                }
            }
        }
        if let Err(refused) = self.book.finish(self.rt, k, work, share) {
            let fault = refused.refusal.fault;
            self.refused = Some(refused);
            return Err(fault);
        }
        self.events.push_reserved(PoolEvent::Finish(k, job.req));
        self.job = None;
        Ok(())
    }

    fn close(&mut self) {
        let (closed, _) = self.book.close(self.rt);
        self.closed = Some(closed);
    }
}

//! A gate that sets an order.

use std::alloc::Global;
use std::sync::atomic::{AtomicBool, AtomicU32, Ordering};
use std::sync::{Mutex, Wait};
use std::thread;
use std::time::{Clock, Duration};
use uv_ids::Id;
use uv_pool::Gate;

/// What is waited for.
#[derive(Clone, Copy)]
pub enum Moment {
    /// The job of a request has begun.
    Begun(Id),
    /// It has ended.
    Ended(Id),
    /// A sender is about to send.
    Sending(u8),
    /// A second has gone by.
    Second,
}

impl Moment {
    /// The bit of a moment that a gate is told of; none of a time. Jobs have one of their own in the first four slots, and senders the
    /// first eight.
    fn bit(self) -> u32 {
        match self {
            Moment::Begun(id) => 1u32.wrapping_shl(place(id)),
            Moment::Ended(id) => 1u32.wrapping_shl(place(id).wrapping_add(8)),
            Moment::Sending(s) => 1u32.wrapping_shl(u32::from(s).wrapping_add(16)),
            Moment::Second => 0,
        }
    }
}

fn place(id: Id) -> u32 {
    id.slot.wrapping_mul(2).wrapping_add(id.generation)
}

/// Holds who tells of a moment until another one is there.
#[derive(Drop)]
pub struct Ordered<'a, R: Clock + Wait> {
    rt: &'a R,
    holds: &'a [(Moment, Moment)],
    there: AtomicU32,
    late: AtomicBool,
    begun: Mutex<Vec<(u16, Id)>>,
}

impl<'a, R: Clock + Wait> Ordered<'a, R> {
    pub fn new(rt: &'a R, alloc: Global, holds: &'a [(Moment, Moment)]) -> Ordered<'a, R> {
        Ordered {
            rt,
            holds,
            there: AtomicU32::new(0),
            late: AtomicBool::new(false),
            begun: Mutex::new(Vec::new(alloc)),
        }
    }

    /// Whether somebody waited in vain.
    pub fn is_late(&self) -> bool {
        self.late.load(Ordering::SeqCst)
    }

    /// Who took what, as the workers told it.
    pub fn into_begun(self) -> Vec<(u16, Id)> {
        self.begun.into_inner()
    }

    fn sleep(&self, millis: u64) {
        thread::sleep(self.rt, Duration::from_millis(millis));
    }

    /// Waits for a moment, for some 20 seconds at most. A test has 60.
    fn wait_for(&self, bit: u32) {
        for _ in 0..20_000u32 {
            if self.there.load(Ordering::SeqCst) & bit != 0 {
                return;
            }
            self.sleep(1);
        }
        self.late.store(true, Ordering::SeqCst);
    }

    fn hold(&self, until: Moment) {
        match until {
            Moment::Second => self.sleep(1000),
            told => self.wait_for(told.bit()),
        }
    }

    fn tell(&self, moment: Moment) {
        let bit = moment.bit();
        self.there.fetch_or(bit, Ordering::SeqCst);
        for (held, until) in self.holds {
            if until.bit() == bit {
                // Who is told before a result is handed in hands it in too late.
                self.sleep(50);
            }
            if held.bit() == bit {
                self.hold(*until);
            }
        }
    }
}

impl<'s, 'a, R: Clock + Wait> Gate for &'s Ordered<'a, R> {
    ghost begins = { λ g k id after. Unit {0} };

    ghost ends = { λ g k id after. Unit {0} };

    ghost sends = { λ g s after. Unit {0} };

    fn begun(&mut self, k: u16, id: Id) {
        let _ = self.begun.lock(self.rt).push((k, id));
        self.tell(Moment::Begun(id));
    }

    fn ended(&mut self, _k: u16, id: Id) {
        self.tell(Moment::Ended(id));
    }

    fn sending(&mut self, s: u8) {
        self.tell(Moment::Sending(s));
    }
}

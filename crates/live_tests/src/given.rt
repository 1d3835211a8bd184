//! What the tests are given: jobs, and a gate that does nothing.

use std::process::Abort;
use uv_ids::{Fault, Id};
use uv_pool::Gate;
use uv_work::{Job, Task};

#[derive(Clone, Copy)]
pub struct Quiet;

impl Gate for Quiet {
    ghost begins = { λ g k id after. Unit {0} };

    ghost ends = { λ g k id after. Unit {0} };

    ghost sends = { λ g s after. Unit {0} };

    fn begun(&mut self, _k: u16, _id: Id) {}

    fn ended(&mut self, _k: u16, _id: Id) {}

    fn sending(&mut self, _s: u8) {}
}

pub const FIRST: Id = Id {
    slot: 0,
    generation: 0,
};

pub const SECOND: Id = Id {
    slot: 1,
    generation: 0,
};

pub const THIRD: Id = Id {
    slot: 2,
    generation: 0,
};

pub const FOURTH: Id = Id {
    slot: 3,
    generation: 0,
};

/// The second slot's next request.
pub const AGAIN: Id = Id {
    slot: 1,
    generation: 1,
};

pub fn id(slot: u32) -> Id {
    Id {
        slot,
        generation: 0,
    }
}

/// A job of so many rounds.
pub fn long_job<R: Abort>(rt: &R, slot: u32, rounds: u16) -> Job {
    Job {
        req: id(slot),
        task: Task::new(rounds, b"abc").expect(rt, "within the limits"),
    }
}

pub fn job<R: Abort>(rt: &R, slot: u32) -> Job {
    long_job(rt, slot, 1)
}

pub fn put<T: Drop>(all: &mut Vec<T>, item: T) -> Result<(), Fault> {
    match all.push(item) {
        Ok(()) => Ok(()),
        Err(_) => Err(Fault::Memory),
    }
}

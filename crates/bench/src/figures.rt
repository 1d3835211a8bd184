//! The watch, and what calls took.

use std::rt::Clock;
use std::time::Instant;
use std::{fmt, io};

/// How many rounds have a median.
pub const ROUNDS: u32 = 101;

/// Nanoseconds that the two halves of a round took.
#[derive(Clone, Copy)]
pub struct Lap {
    pub first: u64,
    pub second: u64,
}

/// Reads a clock where a round starts, where it turns and where it ends. It knows whether a measure ended early: before all of its
/// calls were done, or because the clock couldn't be read.
#[derive(Clone, Copy)]
pub struct Watch {
    started: Instant,
    turned: Instant,
    is_early: bool,
}

impl Watch {
    pub fn new(clock: &impl Clock) -> io::Result<Watch> {
        let now = Instant::now(clock)?;
        Ok(Watch {
            started: now,
            turned: now,
            is_early: false,
        })
    }

    fn read(&mut self, clock: &impl Clock) -> Instant {
        match Instant::now(clock) {
            Ok(now) => now,
            Err(_) => {
                self.is_early = true;
                self.started
            }
        }
    }

    /// A round starts.
    pub fn start(&mut self, clock: &impl Clock) {
        let now = self.read(clock);
        self.started = now;
        self.turned = now;
    }

    /// The round's first half is over.
    pub fn turn(&mut self, clock: &impl Clock) {
        self.turned = self.read(clock);
    }

    /// The round ended: what it took.
    pub fn end(&mut self, clock: &impl Clock) -> Lap {
        let now = self.read(clock);
        Lap {
            first: nanos(self.started, self.turned),
            second: nanos(self.turned, now),
        }
    }

    /// A measure ends early.
    pub fn fail(&mut self) {
        self.is_early = true;
    }

    /// An error if a measure ended early.
    pub fn settle(&self) -> io::Result<()> {
        if self.is_early {
            return Err(io::ErrorKind::UnexpectedEof.into());
        }
        Ok(())
    }
}

/// Nanoseconds between two moments.
pub fn nanos(from: Instant, to: Instant) -> u64 {
    let time = to.duration_since(from);
    time.as_secs()
        .saturating_mul(1_000_000_000)
        .saturating_add(u64::from(time.subsec_nanos()))
}

/// What a kind of call took, in tenths of a nanosecond a call.
#[derive(Clone, Copy)]
pub struct Figure {
    tenths: u64,
}

impl fmt::Display for Figure {
    fn fmt<W: fmt::Write>(&self, f: &mut fmt::Formatter<W>) -> fmt::Result {
        let whole = self.tenths / 10;
        let rest = self.tenths % 10;
        write!(f, "{whole}.{rest}")
    }
}

/// What the rounds of one kind of call took, each in tenths of a nanosecond a call.
#[derive(Clone, Copy)]
pub struct Rounds {
    tenths: [u64; ROUNDS as usize],
    count: usize,
}

impl Rounds {
    pub fn new() -> Rounds {
        Rounds {
            tenths: [0; ROUNDS as usize],
            count: 0,
        }
    }

    /// Notes a round of so many calls.
    pub fn note(&mut self, nanos: u64, calls: u32) {
        if let Some(place) = self.tenths.get_mut(self.count) {
            *place = nanos.saturating_mul(10) / u64::from(calls.max(1));
        }
        self.count = self.count.saturating_add(1);
    }

    /// The median.
    pub fn median(&self) -> Figure {
        let mut tenths = self.tenths;
        tenths.sort_unstable();
        Figure {
            tenths: tenths[ROUNDS as usize / 2],
        }
    }
}

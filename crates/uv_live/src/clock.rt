//! The clock of a live run.
ghost use Rattle.std.specs.Prelude.{◌≡◌};

/// Whom a live run asks for the time (own). Times are milliseconds.
pub trait Clock {
    ghost use Rattle.std.specs.Prelude.{◌≡◌, ℕ};

    // The time now.
    ghost hours: { Self → ℕ };

    // What it is once it was asked to wait until that time.
    ghost waited: { Self → ℕ → Self → Type 0 };

    /// The time now.
    fn moment(&self) -> u64
        ensures { result ≡ hours self.now };

    /// Waits until that time, and answers the time then.
    fn until(&mut self, due: u64) -> u64
        ensures answer { result ≡ hours self.new }
        ensures waited { waited self.old due self.new };
}

/// A clock that doesn't wait: it jumps to each time that it is asked to wait for.
#[derive(Clone, Copy)]
pub struct JumpClock {
    time: u64,
}

impl JumpClock {
    /// A clock that stands at this time.
    pub fn new(moment: u64) -> JumpClock
        ensures { result.time ≡ moment }
    {
        JumpClock { time: moment }
    }
}

impl Clock for JumpClock {
    ghost hours = { λ c. c.time };

    ghost waited = { λ c due after. after.time ≡ due };

    fn moment(&self) -> u64
        ensures { result ≡ self.now.time }
    {
        self.time
    }

    fn until(&mut self, due: u64) -> u64
        ensures stands { self.new.time ≡ due }
        ensures answer { result ≡ due }
    {
        self.time = due;
        due
    }
}

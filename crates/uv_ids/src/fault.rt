//! Why a call failed.
ghost use Rattle.std.specs.Prelude.{◌≡◌, Some};
ghost use Rattle.uv_ids.specs.Words.{why_word};

use std::alloc::AllocError;
use std::fmt;
use thiserror::Error;

/// Why a step, or a move of the session, was refused.
#[derive(Clone, Copy, Debug, PartialEq, Eq)]
pub enum Why {
    /// The poll can't be left yet.
    Blocked,
    /// The main program is at its end.
    Ended,
    /// No request waits for a worker.
    NoWork,
    /// The worker runs a request already.
    BusyWorker,
    /// The worker runs no request.
    IdleWorker,
    /// There is no such worker.
    NoWorker,
    /// A number is out of its range, or there is no such name.
    Range,
}

impl Why {
    /// The word of answers and faults.
    pub fn word(self) -> &'static str
        ensures { result.now ≡ why_word self }
    {
        match self {
            Why::Blocked => "blocked",
            Why::Ended => "ended",
            Why::NoWork => "nowork",
            Why::BusyWorker => "busyworker",
            Why::IdleWorker => "idleworker",
            Why::NoWorker => "noworker",
            Why::Range => "range",
        }
    }
}

impl fmt::Display for Why {
    fn fmt<W: fmt::Write>(&self, f: &mut fmt::Formatter<W>) -> fmt::Result {
        f.write_str(self.word())
    }
}

/// Every fault of the public calls. After `Memory`, `Script`, `Refused`, `StepsFull` and `Limit` the object that was
/// called is as before, save where a call says otherwise.
#[derive(Clone, Copy, Debug, PartialEq, Eq, Error)]
pub enum Fault {
    /// A growth was refused.
    #[error("out of memory")]
    Memory,
    /// The first line of a script or a recording that is outside its grammar, from 1.
    #[error("bad script line {line}")]
    Script { line: usize },
    #[error("refused {0}")]
    Refused(Why),
    /// The machine or the session has as many steps as it may.
    #[error("steps full")]
    StepsFull,
    /// The reader failed, or the input is longer than 2^30 bytes.
    #[error("read failed")]
    Read,
    /// The writer failed, or took no byte of a text.
    #[error("write failed")]
    Write,
    /// A log and a session part at this place, from 1.
    #[error("torn at {at}")]
    Torn { at: usize },
    /// A live run has nothing to wait for.
    #[error("stalled")]
    Stalled,
    /// A rerun's callbacks part from the recorded ones at this place, from 1.
    #[error("differs at {at}")]
    Differs { at: usize },
    /// A limit of the product was reached.
    #[error("limit")]
    Limit,
}

impl From<AllocError> for Fault {
    ghost use Rattle.uv_ids.specs.declared.fault.Fault.TheVariants.{Memory};

    ghost from_gives = { λ _ fault. fault ≡ Memory };

    fn from(_refused: AllocError) -> Fault {
        Fault::Memory
    }
}

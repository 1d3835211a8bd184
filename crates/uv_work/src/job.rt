//! A job: the task to do, and for which request.
ghost use Rattle.std.specs.Prelude.{◌≡◌};
ghost use Rattle.std.specs.Bool.{MatchBool};

use crate::task::Task;
use uv_ids::Id;

/// What a request asks of a worker: its task.
#[derive(Clone, Copy, PartialEq, Eq)]
pub struct Job {
    pub req: Id,
    pub task: Task,
}

impl Job {
    ghost use Rattle.std.specs.Prelude.{◌<◌, ◌⊎◌, IfSome, IfNone, length};
    ghost use Rattle.uv_work.specs.Limits.{LONGEST_TEXT, MOST_ROUNDS};
    ghost use Rattle.uv_work.specs.Tasks.{IsTask};

    /// The job of a request: so many rounds over a text. None exactly outside the limits of tasks.
    pub fn new(req: Id, text: &[u8], rounds: u16) -> Option<Job>
        ensures some { IfSome result (λ job. (job.req ≡ req) × IsTask rounds text.now job.task) }
        ensures none { IfNone result ((rounds ≡ 0) ⊎ (MOST_ROUNDS < rounds) ⊎ (LONGEST_TEXT < length text.now)) }
    {
        match Task::new(rounds, text) {
            Some(task) => Some(Job { req, task }),
            None => None,
        }
    }

    /// Whether the two are one job: the same request, rounds and text.
    pub fn is(self, other: Job) -> bool
        ensures { MatchBool result (self ≡ other) (self ≡ other → ⊥) }
    {
        self == other
    }
}

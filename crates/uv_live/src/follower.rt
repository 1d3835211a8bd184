//! What a live run asks of a session.
ghost use Rattle.std.specs.Prelude.{◌≡◌, ◌<◌, ◌++◌, ◌∷◌, [], true};

use uv_ids::{Event, Fault, Id, ThreadLine, Var};
use uv_work::{Job, PoolEvent, WorkResult};

/// What a step of the loop did to the thread pool.
#[derive(Clone, Copy)]
pub enum Did {
    /// Nothing.
    Nothing,
    /// It queued a request (uv_queue_work).
    Queued(Job),
    /// It cancelled a request that waited (uv_cancel).
    Cancelled(Id),
    /// It collected the request that was done first: its after callback began.
    Collected(Id),
}

/// A session, as a live run needs it. Contracts see its script and what that says of the run (`plan`), how many steps it may take
/// (`most`), the steps that stand and the pool's events that they are (`course`), why a step of the loop would be refused (`refusal`),
/// whether the loop is at a poll (`polling`), when that poll times out (`due`), and the loop's clock (`hours`).
pub trait Follower {
    ghost use Rattle.std.specs.Prelude.{◌≡◌, ◌<◌, ◌≤◌, ◌+◌, ◌++◌, ◌∷◌, [], ℕ, Bool, true, List, Option, IfErr, OnOk, OnErr, count_by, length};
    ghost use Rattle.uv_ids.specs.declared.event.Event.TheVariants as step;
    ghost use Rattle.uv_ids.specs.declared.fault.Why.{Why};
    ghost use Rattle.uv_work.specs.Pool.{IsLegal};
    ghost use Rattle.uv_work.specs.declared.event.PoolEvent.TheVariants as event;
    ghost use Rattle.uv_work.specs.declared.event.PoolEvent.{PoolEvent};
    ghost use Rattle.uv_work.specs.declared.job.Job.{Job};
    ghost use Rattle.uv_live.specs.Course.{Course, Plan, AreNamed, events_of, job_of};
    ghost use Rattle.uv_live.specs.Faults.{IsEventFault, IsStepFault};
    ghost use Rattle.uv_live.specs.Following.{Adds, Applies, OnFull, StaysEnded};
    ghost use Rattle.uv_live.specs.Settling.{is_send, is_line};
    ghost use Rattle.uv_live.specs.Turning.{Steps, events_as};
    ghost use Rattle.uv_live.specs.Working.{is_at_work};

    /// What a step of the loop answers.
    type Outcome: Copy;

    // What a script is to the session.
    ghost Script: { Type 0 };

    // The script, and what it says of the run. No call changes it.
    ghost plan: { Self → Plan Script };

    // How many steps a session of that script may take.
    ghost most: { Script → ℕ };

    // The steps that stand, and the pool's events that they are.
    ghost course: { Self → Course };

    // The pool's events that a step of the loop is, by what it answered.
    ghost events_by: { Script → Self.Outcome → List PoolEvent };

    // The job of a request that a step of the loop queued, by what it answered.
    ghost job_by: { Script → Self.Outcome → Option Job };

    // Why a step of the loop would be refused.
    ghost refusal: { Self → Option Why };

    // The loop's place is a poll.
    ghost polling: { Self → Bool };

    // When the poll times out, by the loop's clock; none where it waits forever, or the loop's place is none.
    ghost due: { Self → Option ℕ };

    // The loop's clock.
    ghost hours: { Self → ℕ };

    /// How many workers the script asks for.
    fn worker_count(&self) -> u16
        ensures { result ≡ (plan self.now).workers };

    /// How many names the script declares.
    fn name_count(&self) -> u32
        ensures { result ≡ (plan self.now).names };

    /// The script's `thread` lines.
    fn thread_lines(&self) -> &[ThreadLine]
        ensures lines { result.now ≡ (plan self.now).lines }
        ensures names { AreNamed (plan self.now).names result.now };

    /// The steps that stand.
    fn steps(&self) -> &[Event]
        ensures { result.now ≡ (course self.now).steps };

    /// The pool's events of these steps. They follow the pool's rules.
    fn pool_events(&self) -> &[PoolEvent]
        ensures events { result.now ≡ (course self.now).events }
        ensures legal { IsLegal (plan self.now).workers result.now };

    /// Whether the loop's place is a poll.
    fn is_polling(&self) -> bool
        ensures { result ≡ polling self.now };

    /// How many of the steps that stand are sends to that name.
    fn sends_to(&self, name: Var) -> usize
        requires { name.0 < (plan self.now).names }
        ensures { result ≡ count_by (is_send name.0) (course self.now).steps };

    /// How many of the `thread` lines send to that name.
    fn lines_to(&self, name: Var) -> usize
        requires { name.0 < (plan self.now).names }
        ensures { result ≡ count_by (is_line name.0) (plan self.now).lines };

    /// Whether a request waits for a worker, or one runs it.
    fn is_working(&self) -> bool
        ensures { result ≡ is_at_work (plan self.now).workers (course self.now).events };

    /// When the poll times out, by the loop's clock; none where it waits forever.
    fn deadline(&self) -> Option<u64>
        ensures { result ≡ due self.now };

    /// The loop's clock, in milliseconds.
    fn clock(&self) -> u64
        ensures { result ≡ hours self.now };

    /// The next step of the loop (`Event::Loop`).
    fn step(&mut self) -> Result<Self::Outcome, Fault>
        ensures plan { plan self.new ≡ plan self.old }
        ensures answer { Steps (refusal self.old) (course self.old) (events_as (events_by (plan self.old).script) result) (course self.new) }
        ensures same { OnErr result (refusal self.new ≡ refusal self.old) }
        ensures faults { IfErr result IsStepFault }
        ensures full { OnFull result (most (plan self.old).script ≤ length (course self.old).steps) };

    /// What a step of the loop that answered this did to the thread pool.
    fn did(&self, outcome: Self::Outcome) -> Did
        ensures events { events_of result ≡ events_by (plan self.now).script outcome }
        ensures job { job_of result ≡ job_by (plan self.now).script outcome };

    /// A send that the loop absorbed (`Event::Send`).
    fn send(&mut self, name: Var) -> Result<(), Fault>
        requires polling { polling self.old ≡ true }
        requires name { name.0 < (plan self.old).names }
        ensures plan { plan self.new ≡ plan self.old }
        ensures answer { Adds (step.Send name) (course self.old) result (course self.new) }
        ensures polling { polling self.new ≡ true }
        ensures faults { IfErr result IsEventFault }
        ensures full { OnFull result (most (plan self.old).script ≤ length (course self.old).steps) };

    /// The clock goes on (`Event::Tick`).
    fn tick(&mut self, span: u64) -> Result<(), Fault>
        ensures plan { plan self.new ≡ plan self.old }
        ensures answer { Adds (step.Tick span) (course self.old) result (course self.new) }
        ensures hours { OnOk result (hours self.new ≡ hours self.old + span) }
        ensures faults { IfErr result IsEventFault }
        ensures full { OnFull result (most (plan self.old).script ≤ length (course self.old).steps) };

    /// A worker takes the request that waits longest (`Event::Take`).
    fn take(&mut self, k: u16, id: Id) -> Result<(), Fault>
        ensures plan { plan self.new ≡ plan self.old }
        ensures answer { IsLegal (plan self.old).workers ((course self.old).events ++ event.Take k id ∷ [])
            → Applies (event.Take k id) (course self.old) result (course self.new) }
        ensures faults { IfErr result IsEventFault }
        ensures ended { StaysEnded (refusal self.old) (refusal self.new) }
        ensures full { OnFull result (most (plan self.old).script ≤ length (course self.old).steps) };

    /// A worker finishes its request (`Event::Finish`), with that result where it is of the very job that the worker runs. Without
    /// one the session does the job.
    fn finish(&mut self, k: u16, id: Id, work: Option<WorkResult>) -> Result<(), Fault>
        ensures plan { plan self.new ≡ plan self.old }
        ensures answer { IsLegal (plan self.old).workers ((course self.old).events ++ event.Finish k id ∷ [])
            → Applies (event.Finish k id) (course self.old) result (course self.new) }
        ensures faults { IfErr result IsEventFault }
        ensures ended { StaysEnded (refusal self.old) (refusal self.new) }
        ensures full { OnFull result (most (plan self.old).script ≤ length (course self.old).steps) };
}

//! A session that follows a book.
ghost use Rattle.std.specs.Prelude.{◌≡◌, ◌<◌, IfOk, IfErr, length, count_by};
ghost use Rattle.uv_ids.specs.declared.fault.Fault.TheVariants.{Memory};
ghost use Rattle.uv_live.specs.Course.{AreNamed};
ghost use Rattle.uv_live.specs.Settling.{is_send, is_line};
ghost use Rattle.uv_run.specs.Counts.{AreCounts};
ghost use Rattle.uv_run.specs.Events.{events_by};

use crate::counts::Counts;
use crate::did::did;
use crate::following::{deadline, finish, is_polling, push_line, send, step, take, tick};
use crate::pool_log::PoolLog;
use std::alloc::Global;
use std::marker::Model;
use uv_ids::{Event, Fault, Id, ThreadLine, Var};
use uv_live::{Did, Follower};
use uv_model::{Machine, Outcome};
use uv_session::Session;
use uv_work::{PoolEvent, WorkResult};

/// A session with the list of the pool's events that its steps are, and the `thread` lines of its run. Of each name it keeps how many
/// of the steps, and of the lines, send to it.
#[derive(Drop)]
pub struct LiveSession<M: Machine> {
    session: Session<M>,
    log: PoolLog,
    lines: Vec<ThreadLine>,
    sends: Counts,
    allowed: Counts,
}

impl<M: Machine> Model for LiveSession<M> {
    ghost use Rattle.uv_run.specs.Bound.{Bound, IsBound};

    ghost Value = { Bound };

    ghost view = { λ a. record { session = a.session; lines = a.lines.items } };

    ghost invariant = { λ a. IsBound a.session a.log.events.items a.lines.items a.sends.counts.items a.allowed.counts.items };
}

/// The pool's events of the steps that stand.
fn log_of<M: Machine>(alloc: Global, session: &Session<M>) -> Result<PoolLog, Fault>
    ensures ok { IfOk result (λ log. log.events.items ≡ events_by session.now.program session.now.standing) }
    ensures err { IfErr result (λ fault. fault ≡ Memory) }
{
    let machine = session.machine();
    let mut log = PoolLog::new(alloc);
    'steps: for n in 0..machine.len() {
        log.reserve()?;
        push_line(&mut log, machine.script(), machine.seen(n + 1));
    }
    Ok(log)
}

/// How many of the steps send to each name.
fn sends_of(alloc: Global, names: usize, steps: &[Event]) -> Result<Counts, Fault>
    ensures ok { IfOk result (λ counts. AreCounts names (λ v. count_by (is_send v) steps.now) counts.counts.items) }
    ensures err { IfErr result (λ fault. fault ≡ Memory) }
{
    let mut counts = Counts::new(alloc, names)?;
    'steps: for n in 0..steps.len() {
        if let Event::Send(name) = steps[n] {
            counts.note(name, steps.len());
        }
    }
    Ok(counts)
}

/// How many of the `thread` lines send to each name.
fn allowed_by(alloc: Global, names: usize, lines: &[ThreadLine]) -> Result<Counts, Fault>
    requires { AreNamed names lines.now }
    ensures ok { IfOk result (λ counts. AreCounts names (λ v. count_by (is_line v) lines.now) counts.counts.items) }
    ensures err { IfErr result (λ fault. fault ≡ Memory) }
{
    let mut counts = Counts::new(alloc, names)?;
    'lines: for n in 0..lines.len() {
        counts.note(lines[n].name, lines.len());
    }
    Ok(counts)
}

impl<M: Machine> LiveSession<M> {
    /// A session with the `thread` lines of its run. The steps that stand in it are read once.
    pub fn of(
        alloc: Global,
        session: Session<M>,
        lines: Vec<ThreadLine>,
    ) -> Result<LiveSession<M>, Fault>
        requires { AreNamed (length session.program.names) lines.items }
        ensures session { IfOk result (λ live. live.session ≡ session) }
        ensures lines { IfOk result (λ live. live.lines ≡ lines.items) }
        ensures err { IfErr result (λ fault. fault ≡ Memory) }
    {
        let names = session.machine().script().names().len();
        let log = log_of(alloc, &session)?;
        let sends = sends_of(alloc, names, session.steps())?;
        let allowed = allowed_by(alloc, names, lines.as_slice())?;
        Ok(LiveSession {
            session,
            log,
            lines,
            sends,
            allowed,
        })
    }

    /// The session.
    pub fn into_session(self) -> Session<M>
        ensures { result ≡ self.session }
    {
        self.session
    }
}

#[tactic(auto, using(crate::proofs::Answers::legal))]
impl<M: Machine> Follower for LiveSession<M> {
    ghost use Rattle.uv_run.specs.Events.{events_of_loop, job_by};
    ghost use Rattle.uv_run.specs.Bound.{Asked, plan_within, course_of, refusal_in, polls_in, due_in, hours_in};

    type Outcome = Outcome;

    ghost Script = { Asked };

    ghost plan = { λ s. plan_within s.session s.lines };

    ghost most = { λ a. a.limit };

    ghost course = { λ s. course_of s.session };

    ghost events_by = { λ a o. events_of_loop a.program o.seen };

    ghost job_by = { λ a o. job_by a.program o.seen };

    ghost refusal = { λ s. refusal_in s.session };

    ghost polling = { λ s. polls_in s.session };

    ghost due = { λ s. due_in s.session };

    ghost hours = { λ s. hours_in s.session };

    fn worker_count(&self) -> u16 {
        self.session.machine().script().workers()
    }

    fn name_count(&self) -> u32 {
        self.session.machine().script().names().len() as u32
    }

    fn thread_lines(&self) -> &[ThreadLine] {
        self.lines.as_slice()
    }

    fn steps(&self) -> &[Event] {
        self.session.steps()
    }

    fn pool_events(&self) -> &[PoolEvent] {
        self.log.events.as_slice()
    }

    #[tactic(auto, unfolding(crate::specs::Events::polls_after))]
    fn is_polling(&self) -> bool {
        is_polling(self.session.machine().place())
    }

    fn sends_to(&self, name: Var) -> usize {
        self.sends.of(name)
    }

    fn lines_to(&self, name: Var) -> usize {
        self.allowed.of(name)
    }

    fn is_working(&self) -> bool {
        self.log.is_at_work()
    }

    #[tactic(auto, unfolding(crate::specs::Events::due_after))]
    fn deadline(&self) -> Option<u64> {
        deadline(self.session.machine().place())
    }

    #[tactic(auto, unfolding(crate::specs::Events::hours_after))]
    fn clock(&self) -> u64 {
        self.session.machine().numbers().clock
    }

    fn step(&mut self) -> Result<Outcome, Fault> {
        step(&mut self.session, &mut self.log)
    }

    fn did(&self, outcome: Outcome) -> Did {
        did(self.session.machine().script(), outcome.seen)
    }

    fn send(&mut self, name: Var) -> Result<(), Fault> {
        send(&mut self.session, name)?;
        self.sends.note(name, self.session.steps().len());
        Ok(())
    }

    fn tick(&mut self, span: u64) -> Result<(), Fault> {
        tick(&mut self.session, span)
    }

    fn take(&mut self, k: u16, id: Id) -> Result<(), Fault> {
        take(&mut self.session, &mut self.log, k, id)
    }

    fn finish(&mut self, k: u16, id: Id, work: Option<WorkResult>) -> Result<(), Fault> {
        finish(&mut self.session, &mut self.log, k, id, work)
    }
}

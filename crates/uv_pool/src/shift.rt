//! A worker of the pool.
ghost use Rattle.std.specs.Prelude.{◌≡◌, ◌++◌, true, IfOk, IfErr, OnOk, OnErr};
ghost use Rattle.uv_pool.specs.Benches.{are_turns, Serves, Breaks, Stops, IsTakeFault, IsFinishFault, IsWorkerFault};
ghost use Rattle.uv_pool.specs.Book.{finish_count};
ghost use Rattle.uv_pool.specs.Telling.{TellsOf};

use crate::bench::Bench;
use crate::gate::{Gate, Teller};
use std::alloc::Global;
use std::sync::Wait;
use std::sync::ledger::{Ledger, Share};
use uv_ids::Fault;
use uv_work::PoolEvent;

/// What a worker did: its events, and its share of the ledger, which counts its finishes.
#[derive(Drop)]
pub struct Shift<L: Ledger> {
    pub worker: u16,
    pub events: Vec<PoolEvent>,
    pub share: Share<L>,
    pub ghost turns: { are_turns worker events.items ≡ true },
    pub ghost counted: { share.amount ≡ finish_count events.items },
    pub ghost one_part: { share.parts ≡ 1 },
}

/// Works until its bench has no job for it: takes a job, does it, and hands the result in, each in its turn.
///
/// The shift's events are those that the bench answered meanwhile, Take and Finish of one request in turn; its share counts
/// the finishes. The gate is told of each of them, once it is answered, and of nothing else. Where the worker answers a fault
/// it has closed its bench first, and left at most one job taken and not finished, whose result the bench didn't take: it
/// makes room for both events of a job before it takes the job.
pub fn worker<L: Ledger, B: Bench<L>, G: Gate, R: Wait>(
    rt: &R,
    alloc: Global,
    bench: &mut B,
    gate: &mut G,
    k: u16,
) -> Result<Shift<L>, Fault>
    ensures worker { IfOk result (λ shift. shift.worker ≡ k) }
    ensures events { IfOk result (λ shift. B.answered bench.new ≡ B.answered bench.old ++ shift.events.items) }
    ensures turns { IfOk result (λ shift. are_turns k shift.events.items ≡ true) }
    ensures share { IfOk result (λ shift. shift.share.amount ≡ finish_count shift.events.items) }
    ensures told { TellsOf G.begins G.ends (B.answered bench.old) (B.answered bench.new) gate.old gate.new }
    ensures idle { OnOk result (B.idle bench.new) }
    ensures faults { IfErr result IsWorkerFault }
    ensures closed { OnErr result (B.shut bench.new) }
    ensures stops { IfErr result (λ f. Stops B.answered B.refuses k f (B.answered bench.old) (B.answered bench.new)) }
{
    let mut teller = Teller::new(k, *gate);
    let answer = take_turns(rt, alloc, bench, &mut teller, k);
    *gate = teller.into_gate();
    match answer {
        Ok(shift) => Ok(shift),
        Err(fault) => {
            bench.close();
            Err(fault)
        }
    }
}

/// Turns until the bench has no job. On a fault the bench isn't closed.
fn take_turns<L: Ledger, B: Bench<L>, G: Gate, R: Wait>(
    rt: &R,
    alloc: Global,
    bench: &mut B,
    teller: &mut Teller<G>,
    k: u16,
) -> Result<Shift<L>, Fault>
    requires { teller.old.worker ≡ k }
    ensures worker { IfOk result (λ shift. shift.worker ≡ k) }
    ensures events { IfOk result (λ shift. B.answered bench.new ≡ B.answered bench.old ++ shift.events.items) }
    ensures turns { IfOk result (λ shift. are_turns k shift.events.items ≡ true) }
    ensures share { IfOk result (λ shift. shift.share.amount ≡ finish_count shift.events.items) }
    ensures told { TellsOf G.begins G.ends (B.answered bench.old) (B.answered bench.new) teller.old.gate teller.new.gate }
    ensures idle { OnOk result (B.idle bench.new) }
    ensures faults { IfErr result IsWorkerFault }
    ensures stops { IfErr result (λ f. Stops B.answered B.refuses k f (B.answered bench.old) (B.answered bench.new)) }
{
    let mut share = bench.enrol(k)?;
    let mut events = Vec::new(alloc);
    'turns: for _ in rt.forever() {
        if !serve(bench, teller, k, &mut share, &mut events)? {
            return Ok(Shift {
                worker: k,
                events,
                share,
            });
        }
    }
    unreachable!()
}

/// One job. False where the bench has none.
fn serve<L: Ledger, B: Bench<L>, G: Gate>(
    bench: &mut B,
    teller: &mut Teller<G>,
    k: u16,
    share: &mut Share<L>,
    events: &mut Vec<PoolEvent>,
) -> Result<bool, Fault>
    requires parts { share.old.parts ≡ 1 }
    requires worker { teller.old.worker ≡ k }
    ensures served { IfOk result
        (λ more. Serves k more (B.answered bench.old) events.old.items share.old.amount (B.answered bench.new) events.new.items share.new.amount) }
    ensures parts { share.new.parts ≡ share.old.parts }
    ensures worker { teller.new.worker ≡ teller.old.worker }
    ensures told { TellsOf G.begins G.ends (B.answered bench.old) (B.answered bench.new) teller.old.gate teller.new.gate }
    ensures idle { IfOk result (λ more. (more ≡ true → ⊥) → B.idle bench.new) }
    ensures faults { IfErr result IsWorkerFault }
    ensures breaks { IfErr result (λ f. Breaks B.answered B.refuses k f (B.answered bench.old) (B.answered bench.new)) }
{
    events.reserve(2)?;
    let Some(job) = bench.take(k)? else {
        return Ok(false);
    };
    let id = job.req;
    events.push_reserved(PoolEvent::Take(k, id));
    let begun = teller.begun::<L, B>(bench, job);
    let done = begun.computed();
    bench.finish(k, done, share)?;
    events.push_reserved(PoolEvent::Finish(k, id));
    teller.ended::<L, B>(bench, id);
    Ok(true)
}

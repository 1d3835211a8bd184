//! The program over any reader and writers.
ghost use Rattle.std.specs.Prelude.{◌≡◌, ◌≢◌, ◌^◌, IfOk, IfErr};
ghost use Rattle.uv_engine.specs.Devices.{IsTooLong, OnAnswer, ReaderCounts, TakesWithin, WriterCounts};
ghost use Rattle.uv_script.specs.Writes.{Writes};
ghost use Rattle.std.specs.Prelude.{◌<◌, ◌+◌, true, Some};
ghost use Rattle.uv_asking.specs.declared.asking.Question.TheVariants.{Late};
ghost use Rattle.uv_find.specs.Orders.{asked_late};
ghost use Rattle.uv_find.specs.Found.{RisesTo};
ghost use Rattle.uv_find.specs.Spots.{first_spot};
ghost use Rattle.uv_ids.specs.declared.fault.Fault.TheVariants.{Memory, Write as WriteFault};
ghost use Rattle.uv_asking.specs.Asked.{asked_in};
ghost use Rattle.uvt_find.specs.Searched.{searched, searched_rules};
ghost use Rattle.uvt_find.specs.Status.{Answers, EndsBy, IsAnswerStatus, IsReplyFault, IsRunFault, MayEnd, Ran, Responds, status_by, status_of};

use std::alloc::Global;
use std::io::Write;
use uv_asking::Question;
use uv_engine::{Sink, Source, write_text};
use uv_find::{Answer, Orders, Risen, find, find_any, may_forget, rise, work_makes_no_difference};
use uv_ids::{Fault, Var};
use uv_inquiry::{
    Inquiry, at_least_text, found_text, latest_text, may_never_end, never_text, no_end_text,
    out_of_memory_text, read_inquiry, too_deep_text, unsettled_text,
};
use uv_model::Machine;
use uv_script::Script;

/// The text of an answer, and the exit status.
#[derive(Drop)]
pub struct Told {
    text: Vec<u8>,
    status: u8,
}

/// The same script once more.
fn copied(alloc: Global, script: &Script) -> Result<Script, Fault>
    ensures script { IfOk result (λ copy. copy ≡ script.now) }
    ensures err { IfErr result (λ fault. fault ≡ Memory) }
{
    let text = script.text()?;
    Script::parse(alloc, text.as_slice())
}

/// Searches for what is asked, from the beginning.
fn search<M: Machine>(
    alloc: Global,
    inquiry: &Inquiry,
    orders: &mut Orders<M>,
) -> Result<Told, Fault>
    requires rules { orders.old.rules ≡ searched_rules inquiry.now.script (asked_in inquiry.now.asking) }
    requires spot { orders.old.spot ≡ first_spot orders.old.rules }
    ensures told { IfOk result (λ told. Answers inquiry.now.script (asked_in inquiry.now.asking) told.text.items told.status) }
    ensures err { IfErr result (λ fault. fault ≡ Memory) }
{
    work_makes_no_difference();
    let states = inquiry.asking.states;
    match find(alloc, orders, states as usize) {
        Answer::Found(states) => Ok(Told {
            text: found_text(alloc, &inquiry.script, orders.steps(), states as u64)?,
            status: 0,
        }),
        Answer::Never(states) => Ok(Told {
            text: never_text(alloc, inquiry, states as u64)?,
            status: 1,
        }),
        Answer::Unsettled => Ok(Told {
            text: unsettled_text(alloc, u64::from(states))?,
            status: 3,
        }),
        Answer::TooDeep => Ok(Told {
            text: too_deep_text(alloc)?,
            status: 3,
        }),
        Answer::OutOfMemory(states) => Ok(Told {
            text: out_of_memory_text(alloc, states as u64)?,
            status: 3,
        }),
    }
}

/// What is searched: where no more is asked of a state than is told of it, the script in which each request asks for the same work.
fn searched(alloc: Global, inquiry: &Inquiry) -> Result<Script, Fault>
    ensures script { IfOk result (λ script. script ≡ searched inquiry.now.script (asked_in inquiry.now.asking)) }
    ensures err { IfErr result (λ fault. fault ≡ Memory) }
{
    let script = copied(alloc, &inquiry.script)?;
    if may_forget(&inquiry.script, &inquiry.asking) {
        Ok(script.with_same_work())
    } else {
        Ok(script)
    }
}

/// Answers what is asked of a script, over a new machine of it.
fn answer<M: Machine>(alloc: Global, inquiry: &Inquiry) -> Result<Told, Fault>
    requires back { M.BackWantsMemory → ⊥ }
    ensures told { IfOk result (λ told. Answers inquiry.now.script (asked_in inquiry.now.asking) told.text.items told.status) }
    ensures err { IfErr result (λ fault. fault ≡ Memory) }
{
    let mut orders = begun::<M>(alloc, inquiry)?;
    match inquiry.asking.question {
        Question::Late(name, ms) => {
            if inquiry.asking.greatest {
                latest(alloc, inquiry, &mut orders, name, ms)
            } else {
                search(alloc, inquiry, &mut orders)
            }
        }
        _ => search(alloc, inquiry, &mut orders),
    }
}

/// The orders of what is asked, over a new machine, at their beginning.
fn begun<M: Machine>(alloc: Global, inquiry: &Inquiry) -> Result<Orders<M>, Fault>
    requires back { M.BackWantsMemory → ⊥ }
    ensures rules { IfOk result (λ orders. orders.rules ≡ searched_rules inquiry.now.script (asked_in inquiry.now.asking)) }
    ensures spot { IfOk result (λ orders. orders.spot ≡ first_spot orders.rules) }
    ensures err { IfErr result (λ fault. fault ≡ Memory) }
{
    let machine = M::begin(alloc, searched(alloc, inquiry)?)?;
    let orders = Orders::new(alloc, machine, &inquiry.asking)?;
    Ok(orders)
}

/// How late the timer is called at most, and an order in which it is.
fn latest<M: Machine>(
    alloc: Global,
    inquiry: &Inquiry,
    orders: &mut Orders<M>,
    name: Var,
    ms: u64,
) -> Result<Told, Fault>
    requires back { M.BackWantsMemory → ⊥ }
    requires rules { orders.old.rules ≡ searched_rules inquiry.now.script (asked_in inquiry.now.asking) }
    requires spot { orders.old.spot ≡ first_spot orders.old.rules }
    requires greatest { inquiry.now.asking.greatest ≡ true }
    requires question { inquiry.now.asking.question ≡ Late name ms }
    ensures told { IfOk result (λ told. Answers inquiry.now.script (asked_in inquiry.now.asking) told.text.items told.status) }
    ensures err { IfErr result (λ fault. fault ≡ Memory) }
{
    let states = inquiry.asking.states;
    let risen = rise(alloc, orders, name, ms, states as usize);
    if ms < risen.ms {
        ends_at::<M>(alloc, inquiry, name, ms, risen)
    } else {
        called_never(alloc, inquiry, name, ms, risen)
    }
}

/// In no order it is called as late as is asked, or that isn't settled.
fn called_never(
    alloc: Global,
    inquiry: &Inquiry,
    name: Var,
    ms: u64,
    risen: Risen,
) -> Result<Told, Fault>
    requires greatest { inquiry.now.asking.greatest ≡ true }
    requires question { inquiry.now.asking.question ≡ Late name ms }
    requires risen { let r = searched_rules inquiry.now.script (asked_in inquiry.now.asking)
        in RisesTo r (first_spot r) name inquiry.now.asking.states risen.ms risen.settled }
    requires none { risen.ms ≡ ms }
    ensures told { IfOk result (λ told. Answers inquiry.now.script (asked_in inquiry.now.asking) told.text.items told.status) }
    ensures err { IfErr result (λ fault. fault ≡ Memory) }
{
    work_makes_no_difference();
    match risen.settled {
        Some(kept) => {
            let text = never_text(alloc, inquiry, kept as u64)?;
            Ok(Told { text, status: 1 })
        }
        None => not_settled(alloc, inquiry),
    }
}

/// Nothing was settled.
fn not_settled(alloc: Global, inquiry: &Inquiry) -> Result<Told, Fault>
    requires greatest { inquiry.now.asking.greatest ≡ true }
    ensures told { IfOk result (λ told. Answers inquiry.now.script (asked_in inquiry.now.asking) told.text.items told.status) }
    ensures err { IfErr result (λ fault. fault ≡ Memory) }
{
    let text = unsettled_text(alloc, u64::from(inquiry.asking.states))?;
    Ok(Told { text, status: 3 })
}

/// The orders of what is asked, and of this many ms.
fn begun_late<M: Machine>(
    alloc: Global,
    inquiry: &Inquiry,
    name: Var,
    ms: u64,
    late: u64,
) -> Result<Orders<M>, Fault>
    requires back { M.BackWantsMemory → ⊥ }
    requires question { inquiry.now.asking.question ≡ Late name ms }
    ensures rules { IfOk result (λ orders. orders.rules ≡ asked_late (searched_rules inquiry.now.script (asked_in inquiry.now.asking)) name late) }
    ensures spot { IfOk result (λ orders. orders.spot ≡ first_spot orders.rules) }
    ensures err { IfErr result (λ fault. fault ≡ Memory) }
{
    let mut orders = begun::<M>(alloc, inquiry)?;
    orders.ask_late(name, late);
    Ok(orders)
}

/// The order in which it is called as late as that.
fn ends_at<M: Machine>(
    alloc: Global,
    inquiry: &Inquiry,
    name: Var,
    ms: u64,
    risen: Risen,
) -> Result<Told, Fault>
    requires back { M.BackWantsMemory → ⊥ }
    requires greatest { inquiry.now.asking.greatest ≡ true }
    requires question { inquiry.now.asking.question ≡ Late name ms }
    requires risen { let r = searched_rules inquiry.now.script (asked_in inquiry.now.asking)
        in RisesTo r (first_spot r) name inquiry.now.asking.states risen.ms risen.settled }
    requires some { ms < risen.ms }
    ensures told { IfOk result (λ told. Answers inquiry.now.script (asked_in inquiry.now.asking) told.text.items told.status) }
    ensures err { IfErr result (λ fault. fault ≡ Memory) }
{
    let late = risen.ms.saturating_sub(1);
    let mut orders = begun_late::<M>(alloc, inquiry, name, ms, late)?;
    match risen.settled {
        Some(kept) => settled(alloc, inquiry, &mut orders, name, ms, late, kept),
        None => at_least(alloc, inquiry, &mut orders, name, ms, late),
    }
}

/// The fewest steps that are found, where it is settled that it is called no later.
fn settled<M: Machine>(
    alloc: Global,
    inquiry: &Inquiry,
    orders: &mut Orders<M>,
    name: Var,
    ms: u64,
    late: u64,
    kept: usize,
) -> Result<Told, Fault>
    requires rules { orders.old.rules ≡ asked_late (searched_rules inquiry.now.script (asked_in inquiry.now.asking)) name late }
    requires spot { orders.old.spot ≡ first_spot orders.old.rules }
    requires greatest { inquiry.now.asking.greatest ≡ true }
    requires question { inquiry.now.asking.question ≡ Late name ms }
    requires risen { let r = searched_rules inquiry.now.script (asked_in inquiry.now.asking)
        in RisesTo r (first_spot r) name inquiry.now.asking.states (late + 1) (Some kept) }
    ensures told { IfOk result (λ told. Answers inquiry.now.script (asked_in inquiry.now.asking) told.text.items told.status) }
    ensures err { IfErr result (λ fault. fault ≡ Memory) }
{
    work_makes_no_difference();
    match find(alloc, orders, inquiry.asking.states as usize) {
        Answer::Found(_) => Ok(Told {
            text: latest_text(alloc, inquiry, orders.steps(), late, kept as u64)?,
            status: 0,
        }),
        _ => not_settled(alloc, inquiry),
    }
}

/// Steps that are found, where that isn't settled. It will be asked again, so they needn't be the fewest.
fn at_least<M: Machine>(
    alloc: Global,
    inquiry: &Inquiry,
    orders: &mut Orders<M>,
    name: Var,
    ms: u64,
    late: u64,
) -> Result<Told, Fault>
    requires rules { orders.old.rules ≡ asked_late (searched_rules inquiry.now.script (asked_in inquiry.now.asking)) name late }
    requires spot { orders.old.spot ≡ first_spot orders.old.rules }
    requires greatest { inquiry.now.asking.greatest ≡ true }
    requires question { inquiry.now.asking.question ≡ Late name ms }
    ensures told { IfOk result (λ told. Answers inquiry.now.script (asked_in inquiry.now.asking) told.text.items told.status) }
    ensures err { IfErr result (λ fault. fault ≡ Memory) }
{
    work_makes_no_difference();
    let states = inquiry.asking.states;
    match find_any(alloc, orders, states as usize) {
        Answer::Found(_) => Ok(Told {
            text: at_least_text(
                alloc,
                &inquiry.script,
                orders.steps(),
                late,
                u64::from(states),
            )?,
            status: 3,
        }),
        _ => not_settled(alloc, inquiry),
    }
}

/// Writes a whole text, and passes it on.
fn write_whole<W: Sink>(writer: &mut W, text: &[u8]) -> Result<(), Fault>
    ensures text { W.Tells → Writes result (W.written writer.old) text.now (W.written writer.new) }
    ensures err { IfErr result (λ fault. fault ≡ WriteFault) }
    ensures writer { WriterCounts result (W.failures writer.old) (W.failures writer.new) }
{
    write_text(writer, text)?;
    if writer.flush().is_err() {
        return Err(Fault::Write);
    }
    Ok(())
}

/// Says what went wrong, and gives the exit status.
fn fail<E: Write>(fault: Fault, errors: &mut E) -> u8
    ensures { result ≡ status_of fault }
{
    let _ = writeln!(errors, "uvt: {fault}");
    match fault {
        Fault::Script { .. } => 2,
        _ => 4,
    }
}

/// Says so where there may be no end of states: the script repeats without a bound, and its states don't come round again.
fn warn<E: Write>(inquiry: &Inquiry, errors: &mut E) {
    if may_never_end(inquiry) && !may_forget(&inquiry.script, &inquiry.asking) {
        let _ = write!(errors, "uvt: {}", no_end_text());
    }
}

/// Writes the answer to what is asked of a script, and gives its status.
fn respond<M: Machine, W: Sink, E: Write>(
    alloc: Global,
    inquiry: &Inquiry,
    writer: &mut W,
    errors: &mut E,
) -> Result<u8, Fault>
    requires back { M.BackWantsMemory → ⊥ }
    ensures text { W.Tells → Responds inquiry.now.script (asked_in inquiry.now.asking)
        (W.written writer.old) (W.written writer.new) (status_by result) }
    ensures answer { IfOk result IsAnswerStatus }
    ensures err { IfErr result IsReplyFault }
    ensures writer { WriterCounts result (W.failures writer.old) (W.failures writer.new) }
{
    warn(inquiry, errors);
    let told = answer::<M>(alloc, inquiry)?;
    write_whole(writer, told.text.as_slice())?;
    Ok(told.status)
}

/// Reads what is asked, answers it, and gives the answer's status.
fn attempt<M: Machine, R: Source, W: Sink, E: Write>(
    alloc: Global,
    reader: &mut R,
    writer: &mut W,
    errors: &mut E,
) -> Result<u8, Fault>
    requires back { M.BackWantsMemory → ⊥ }
    ensures text { R.Tells → W.Tells → Ran (R.remaining reader.old) (W.written writer.old) (W.written writer.new) (status_by result) }
    ensures answer { IfOk result IsAnswerStatus }
    ensures err { IfErr result IsRunFault }
    ensures within { OnAnswer result (R.Tells → TakesWithin (2 ^ 30) (R.remaining reader.old) (R.remaining reader.new)) }
    ensures reader { ReaderCounts result (IsTooLong R.Tells (2 ^ 30) (R.remaining reader.old) (R.given reader.old)
        (R.given reader.new)) (R.failures reader.old) (R.failures reader.new) }
    ensures writer { WriterCounts result (W.failures writer.old) (W.failures writer.new) }
{
    let inquiry = read_inquiry(alloc, reader)?;
    respond::<M, _, _>(alloc, &inquiry, writer, errors)
}

/// Reads what is asked, answers it, and gives the exit status: 0 where steps are found that answer the question, 1 where none do, 3
/// where that isn't settled, also since the search was out of memory, 2 for a bad line, 4 for any other fault. A fault is a line on
/// the errors, `uvt: ` and its text. So is a warning, before the search, where there may be no end of states.
pub fn run<M: Machine, R: Source, W: Sink, E: Write>(
    alloc: Global,
    reader: &mut R,
    writer: &mut W,
    errors: &mut E,
) -> u8
    requires back { M.BackWantsMemory → ⊥ }
    ensures text { R.Tells → W.Tells → Ran (R.remaining reader.old) (W.written writer.old) (W.written writer.new) result }

    // On any device, also one that doesn't tell its bytes, it ends with one of these statuses.
    ensures status { MayEnd result }

    // 4 only by a fault of a device, or for want of memory.
    ensures ends { EndsBy (IsTooLong R.Tells (2 ^ 30) (R.remaining reader.old) (R.given reader.old) (R.given reader.new))
        (R.failures reader.old) (R.failures reader.new) (W.failures writer.old) (W.failures writer.new) result }

    // With any status but 4, that of want of memory and of a device that failed, it has read 2^30 bytes at the most, and neither
    // device has failed.
    ensures within { result ≢ 4 → R.Tells → TakesWithin (2 ^ 30) (R.remaining reader.old) (R.remaining reader.new) }
    ensures reader { result ≢ 4 → R.failures reader.new ≡ R.failures reader.old }
    ensures writer { result ≢ 4 → W.failures writer.new ≡ W.failures writer.old }
{
    match attempt::<M, _, _, _>(alloc, reader, writer, errors) {
        Ok(status) => status,
        Err(fault) => fail(fault, errors),
    }
}

//! A recording's steps, run again, and its callbacks, compared with theirs.
ghost use Rattle.std.specs.Prelude.{◌≡◌, ◌≤◌, ◌<◌, ◌+◌, ◌-◌, ◌^◌, ◌∷◌, ◌++◌, [], List, ℕ, None, length, IfOk, IfErr, IfSome, IfNone, OnOk, true};
ghost use Rattle.uv_ids.specs.declared.event.Event.{Event};
ghost use Rattle.uv_ids.specs.declared.fault.Fault.TheVariants.{Memory};
ghost use Rattle.uv_model.specs.After.{STEPS};
ghost use Rattle.uv_text.specs.Trace.{line_text};
ghost use Rattle.uv_engine.specs.Rerun.{RanSo, MetSo, Met, called_from};
ghost use Rattle.uv_engine.specs.Verdict.{IsVerdict};

use crate::verdict::Verdict;
use std::alloc::AllocError;
use uv_ids::{Event, Fault, Seen};
use uv_model::Machine;
use uv_script::Script;
use uv_text::{is_callback, push_line};

/// A rerun at work.
#[derive(Drop)]
pub(crate) struct Rerun<M: Machine> {
    pub(crate) machine: M,
    /// The verdict, where a step was not taken.
    pub(crate) halted: Option<Verdict>,
    /// So many of the steps were looked at for their callbacks.
    pub(crate) looked: usize,
    /// So many recorded callbacks were compared.
    pub(crate) count: usize,
    /// The first place, from 1, where they are not those of the steps.
    pub(crate) parted: Option<usize>,
}

/// Whether this is the text of a trace line, which is written to the room for one.
fn is_text_of(
    room: &mut Vec<u8>,
    script: &Script,
    seen: Seen,
    text: &[u8],
) -> Result<bool, AllocError>
    ensures same { IfOk result (λ same. same ≡ true → text.now ≡ line_text script.now seen) }
    ensures other { IfOk result (λ same. text.now ≡ line_text script.now seen → same ≡ true) }
{
    room.clear();
    push_line(room, script, seen)?;
    Ok(room.as_slice() == text)
}

impl<M: Machine> Rerun<M> {
    /// Does one more step, unless one before it was not taken.
    #[tactic(auto, using(crate::proofs::Reruns::running))]
    pub(crate) fn take(&mut self, event: Event) -> Result<(), Fault>
        requires few { length (M.standing self.old.machine) ≤ STEPS }
        ensures ran { OnOk result ((es : List Event) → RanSo (M.program self.old.machine) es (M.standing self.old.machine) self.old.halted
            → RanSo (M.program self.old.machine) (es ++ event ∷ []) (M.standing self.new.machine) self.new.halted) }
        ensures few { OnOk result (length (M.standing self.new.machine) ≤ STEPS) }
        ensures program { OnOk result (M.program self.new.machine ≡ M.program self.old.machine) }
        ensures looked { self.new.looked ≡ self.old.looked }
        ensures count { self.new.count ≡ self.old.count }
        ensures parted { self.new.parted ≡ self.old.parted }
        ensures err { IfErr result (λ fault. fault ≡ Memory) }
    {
        if self.halted.is_some() {
            return Ok(());
        }
        match self.machine.step(event) {
            Ok(_) => Ok(()),
            Err(Fault::Refused(why)) => {
                self.halted = Some(Verdict::Refused(self.machine.len() + 1, why));
                Ok(())
            }
            Err(Fault::StepsFull) => {
                self.halted = Some(Verdict::Full(self.machine.len() + 1));
                Ok(())
            }
            Err(fault) => Err(fault),
        }
    }

    /// The next callback of the steps.
    #[tactic(auto, using(crate::proofs::Reruns::calling))]
    fn next_called(&mut self) -> Option<Seen>
        requires { self.old.looked ≤ length (M.standing self.old.machine) }
        ensures some { IfSome result (λ seen. called_from (M.program self.old.machine) (M.standing self.old.machine) self.old.looked
            ≡ seen ∷ called_from (M.program self.old.machine) (M.standing self.old.machine) self.new.looked) }
        ensures none { IfNone result (called_from (M.program self.old.machine) (M.standing self.old.machine) self.old.looked ≡ []) }
        ensures machine { self.new.machine ≡ self.old.machine }
        ensures halted { self.new.halted ≡ self.old.halted }
        ensures looked { self.new.looked ≤ length (M.standing self.old.machine) }
        ensures count { self.new.count ≡ self.old.count }
        ensures parted { self.new.parted ≡ self.old.parted }
    {
        'steps: while self.looked < self.machine.len() {
            self.looked += 1;
            if let Some(seen) = self.machine.seen(self.looked) {
                if is_callback(seen) {
                    return Some(seen);
                }
            }
        }
        None
    }

    /// Compares the line of one more recorded callback, unless a step was not taken or a line before it differs.
    #[tactic(auto, using(crate::proofs::Reruns::meeting))]
    pub(crate) fn meet(&mut self, room: &mut Vec<u8>, line: &[u8]) -> Result<(), AllocError>
        requires looked { self.old.looked ≤ length (M.standing self.old.machine) }
        requires few { self.old.count < 2 ^ 64 - 1 }
        ensures met { OnOk result ((called : List (List ℕ)) → Met (M.program self.old.machine) (M.standing self.old.machine) self.old.halted
            called self.old.looked self.old.count self.old.parted
            → Met (M.program self.old.machine) (M.standing self.old.machine) self.old.halted
            (called ++ line.now ∷ []) self.new.looked self.new.count self.new.parted) }
        ensures machine { self.new.machine ≡ self.old.machine }
        ensures halted { self.new.halted ≡ self.old.halted }
        ensures looked { self.new.looked ≤ length (M.standing self.old.machine) }
        ensures count { self.new.count ≤ self.old.count + 1 }
    {
        if self.halted.is_some() || self.parted.is_some() {
            return Ok(());
        }
        self.count += 1;
        let is_next = match self.next_called() {
            Some(seen) => is_text_of(room, self.machine.script(), seen, line)?,
            None => false,
        };
        if !is_next {
            self.parted = Some(self.count);
        }
        Ok(())
    }

    /// The verdict, behind the last recorded callback.
    #[tactic(auto, using(crate::proofs::Reruns::judging))]
    pub(crate) fn verdict(&mut self) -> Verdict
        requires looked { self.old.looked ≤ length (M.standing self.old.machine) }
        requires few { self.old.count < 2 ^ 64 - 1 }
        ensures { (es : List Event) → (called : List (List ℕ)) → RanSo (M.program self.old.machine) es (M.standing self.old.machine) self.old.halted
            → Met (M.program self.old.machine) (M.standing self.old.machine) self.old.halted
            called self.old.looked self.old.count self.old.parted
            → IsVerdict (M.program self.old.machine) es called result }
    {
        if let Some(verdict) = self.halted {
            return verdict;
        }
        if let Some(place) = self.parted {
            return Verdict::Differs(place);
        }
        match self.next_called() {
            Some(_) => Verdict::Differs(self.count + 1),
            None => Verdict::Same,
        }
    }
}

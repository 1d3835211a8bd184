//! A handle's record, and the closing list.
ghost use Rattle.std.specs.Prelude.{◌≡◌, Option, Some, None, IfOk, IfErr};
ghost use Rattle.uv_ids.specs.declared.code.Code.{Code};
ghost use Rattle.uv_records.specs.declared.handle.HandleRecord.{HandleRecord};
ghost use Rattle.uv_records.specs.declared.lists.ListName.TheVariants.{ClosingYet};
ghost use Rattle.uv_records.specs.Count.{keeps_in};
ghost use Rattle.uv_records.specs.Refusals.{refusal};
ghost use Rattle.uv_arena.specs.Calls.{IsFirst};
ghost use Rattle.uv_handle.specs.Counted.{counted, record_at, found, IsCounted, take_undone, CanUndoTake};
ghost use Rattle.uv_handle.specs.Changes.{IsTaken};

use crate::handles::Handles;
use crate::undo::TakeUndo;
use uv_arena::Slots;
use uv_ids::{Code, Id};
use uv_records::{HandleRecord, HoldsHandle};

/// The record of a handle. ESTALE if nothing is held under the id, EKIND if it is no handle.
pub fn handle_at<T: HoldsHandle>(slots: &Slots<T>, id: Id) -> Result<HandleRecord, Code>
    ensures ok { IfOk result (λ h. (record_at T.held_record slots.now.image id ≡ Some h)
        × ((why : HandleRecord → Option Code) → refusal why (found T.held_record slots.now.image id) ≡ why h)) }
    ensures err { IfErr result (λ code. (why : HandleRecord → Option Code) → refusal why (found T.held_record slots.now.image id) ≡ Some code) }
    ensures none { IfErr result (λ code. record_at T.held_record slots.now.image id ≡ None) }
{
    match slots.get(id) {
        None => Err(Code::Estale),
        Some(content) => match content.held() {
            None => Err(Code::Ekind),
            Some(handle) => Ok(handle),
        },
    }
}

/// Whether a content is a handle that keeps the loop alive.
fn keeps_alive<T: HoldsHandle>(content: &T) -> bool
    ensures { result ≡ keeps_in (T.held_record content.now) }
{
    match content.held() {
        Some(handle) => handle.keeps_alive(),
        None => false,
    }
}

impl Handles {
    /// Takes this one, the front of those that have yet to be closed, off its list, and frees its slot: what that held, and what takes
    /// this back with it.
    pub fn take_closing<T: HoldsHandle>(&mut self, slots: &mut Slots<T>, id: Id) -> (T, TakeUndo)
        requires counts { IsCounted T.held_record (counted slots.old.image self.old) }
        requires first { IsFirst slots.old.image ClosingYet id }
        ensures taken { IsTaken T.held_record T.of_record (counted slots.old.image self.old) (counted slots.new.image self.new) id result.0 result.1 }
        ensures pieces { slots.new.room ≡ slots.old.room }
    {
        slots.is_sound();
        let unlinked = slots.unlink(id);
        let active = self.active_referenced();
        match slots.remove(id) {
            Some(freed) => {
                self.set_count(active, keeps_alive(&freed.0));
                let undo = TakeUndo {
                    unlinked,
                    active,
                    removed: freed.1,
                };
                (freed.0, undo)
            }
            None => unreachable!(),
        }
    }

    /// Takes back that a closing handle was taken and freed: its slot holds this again, which it held before.
    pub fn undo_take_closing<T: HoldsHandle>(
        &mut self,
        slots: &mut Slots<T>,
        undo: TakeUndo,
        content: T,
    )
        requires { CanUndoTake T.held_record (counted slots.old.image self.old) undo content }
        ensures undone { counted slots.new.image self.new ≡ take_undone T.held_record undo content (counted slots.old.image self.old) }
        ensures pieces { slots.new.room ≡ slots.old.room }
    {
        slots.undo_remove(undo.removed, content);
        slots.undo_unlink(undo.unlinked);
        self.restore(undo.active);
    }
}

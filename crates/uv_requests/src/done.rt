//! The after callbacks of requests that are done.
ghost use Rattle.std.specs.Prelude.{◌≡◌, Option, Some, None, IfSome, IfNone, []};
ghost use Rattle.uv_records.specs.declared.lists.ListName.TheVariants.{DoneYet};
ghost use Rattle.uv_arena.specs.Image.{members};
ghost use Rattle.uv_arena.specs.Calls.{IsFirst};
ghost use Rattle.uv_requests.specs.Working.{working, request_in, IsWork};
ghost use Rattle.uv_requests.specs.Undo.{collect_undone, CanUndoCollect};
ghost use Rattle.uv_requests.specs.Calls.{IsBegun, IsCollected};

use crate::requests::{Requests, request_at};
use crate::undo::CollectWorkUndo;
use uv_arena::{Slots, SpliceUndo};
use uv_ids::Id;
use uv_records::ListName;
use uv_work::{HoldsWork, Request};

impl Requests {
    /// Begins the done section: all that are done have yet to be called back.
    pub fn begin<T: HoldsWork>(&self, slots: &mut Slots<T>) -> SpliceUndo
        requires work { IsWork T.held_request (working slots.old.image self.now) }
        requires empty { members slots.old.image DoneYet ≡ [] }
        ensures begun { IsBegun T.held_request (working slots.old.image self.now) (working slots.new.image self.now) result }
        ensures pieces { slots.new.room ≡ slots.old.room }
    {
        slots.splice(ListName::Done, ListName::DoneYet)
    }

    /// Takes the front of those that have yet to be called back off its list, and frees its slot: the request as it was, and
    /// what takes this back with it. None, and nothing changed, where there is none.
    pub fn collect<T: HoldsWork>(
        &mut self,
        slots: &mut Slots<T>,
    ) -> Option<(Id, Request, CollectWorkUndo)>
        requires { IsWork T.held_request (working slots.old.image self.old) }
        ensures none { IfNone result ((members slots.old.image DoneYet ≡ [])
            × (working slots.new.image self.new ≡ working slots.old.image self.old)) }
        ensures some { IfSome result (λ r. IsCollected T.held_request T.of_request
            (working slots.old.image self.old) (working slots.new.image self.new) r.0 r.1 r.2) }
        ensures pieces { slots.new.room ≡ slots.old.room }
    {
        match slots.first(ListName::DoneYet) {
            None => None,
            Some(id) => match request_at(slots, id) {
                Ok(request) => Some(self.release(slots, id, request)),
                Err(_) => unreachable!(),
            },
        }
    }

    fn release<T: HoldsWork>(
        &mut self,
        slots: &mut Slots<T>,
        id: Id,
        request: Request,
    ) -> (Id, Request, CollectWorkUndo)
        requires work { IsWork T.held_request (working slots.old.image self.old) }
        requires first { IsFirst slots.old.image DoneYet id }
        requires found { request_in T.held_request slots.old.image id ≡ Some request }
        ensures id { result.0 ≡ id }
        ensures request { result.1 ≡ request }
        ensures collected { IsCollected T.held_request T.of_request (working slots.old.image self.old)
            (working slots.new.image self.new) id request result.2 }
        ensures pieces { slots.new.room ≡ slots.old.room }
    {
        slots.is_sound();
        let count = self.open_requests();
        let unlinked = slots.unlink(id);
        match slots.remove(id) {
            Some((_, removed)) => {
                self.set_count(count - 1);
                let undo = CollectWorkUndo {
                    unlinked,
                    count,
                    removed,
                };
                (id, request, undo)
            }
            None => unreachable!(),
        }
    }

    /// Takes a collect back: the request is there again.
    pub fn undo_collect<T: HoldsWork>(
        &mut self,
        slots: &mut Slots<T>,
        undo: CollectWorkUndo,
        request: Request,
    )
        requires { CanUndoCollect T.held_request T.of_request (working slots.old.image self.old) undo request }
        ensures undone { working slots.new.image self.new ≡ collect_undone T.of_request undo request (working slots.old.image self.old) }
        ensures pieces { slots.new.room ≡ slots.old.room }
    {
        slots.undo_remove(undo.removed, T::of(request));
        slots.undo_unlink(undo.unlinked);
        self.set_count(undo.count);
    }
}

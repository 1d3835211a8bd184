//! How the loop absorbs the words in which sends stand.
ghost use Rattle.std.specs.Prelude.{◌≡◌, ◌==◌, ◌<◌, ◌∷◌, [], Some, true, All, OnOk, IfErr};
ghost use Rattle.uv_wake.specs.Seats.{names_of, AllCarried};
ghost use Rattle.uv_live.specs.Faults.{IsLoopFault};
ghost use Rattle.uv_live.specs.Sending.{Absorbs, AbsorbsEach, AreCarried};
ghost use Rattle.uv_live.specs.declared.absorbing.CaughtUp.{CaughtUp};

use crate::follower::Follower;
use crate::sends::Look;
use uv_ids::{Fault, Var};
use uv_wake::{Board, LoopSeat};

/// The count of a name past which its word is absorbed no more (own). No run comes so far.
const MOST_ABSORBED: u64 = 1 << 62;

/// Words were absorbed, and before that so many sends were noted. It is made where that was done alone.
#[derive(Drop)]
pub(crate) struct Absorbed {
    look: Look,
}

/// All that was noted by the loop's last look is absorbed. It is made in this file alone: where words were absorbed behind that look, and
/// where no send was noted since they were.
#[derive(Drop)]
pub(crate) struct CaughtUp {
    by: (),
}

impl Absorbed {
    /// Where no send was noted from the look before that to this one.
    pub(crate) fn until(&self, look: &Look) -> Option<CaughtUp>
        ensures { (caught : CaughtUp) → result ≡ Some caught → (self.now.look.sends == look.now.sends) ≡ true }
    {
        if self.look.is(look) {
            return Some(CaughtUp { by: () });
        }
        None
    }
}

/// Absorbs the word of a name, and records a send if one stood in it. `Torn` where the session refuses that.
fn absorb_one<S: Follower>(
    board: &Board,
    seat: &mut LoopSeat,
    name: Var,
    session: &mut S,
) -> Result<(), Fault>
    requires seat { seat.old.board ≡ board.now.board }
    requires name { name.0 < names_of board.now.board }
    requires polling { S.polling session.old ≡ true }
    requires names { names_of board.now.board ≡ (S.plan session.old).names }
    ensures board { seat.new.board ≡ seat.old.board }
    ensures absorbs { Absorbs seat.old.knows seat.new.knows }
    ensures carried { OnOk result (AllCarried seat.new.knows name) }
    ensures plan { S.plan session.new ≡ S.plan session.old }
    ensures err { IfErr result IsLoopFault }
    ensures polling { OnOk result (S.polling session.new ≡ true) }
    ensures records { OnOk result (AbsorbsEach (name ∷ []) seat.old.knows (S.course session.old) seat.new.knows (S.course session.new)) }
{
    if seat.count(name) >= MOST_ABSORBED {
        return Err(Fault::Limit);
    }
    if !board.absorb(seat, name) {
        return Ok(());
    }
    match session.send(name) {
        Ok(()) => Ok(()),
        Err(Fault::Refused(_)) => Err(Fault::Torn { at: 0 }),
        Err(fault) => Err(fault),
    }
}

/// Absorbs the words of these names, in their order, and records a send for each in which one stood. Before that it was looked how many
/// sends were noted.
pub(crate) fn absorb_names<S: Follower>(
    board: &Board,
    seat: &mut LoopSeat,
    names: &[Var],
    session: &mut S,
    look: Look,
) -> Result<(Absorbed, CaughtUp), Fault>
    requires seat { seat.old.board ≡ board.now.board }
    requires known { All (λ v. v.0 < names_of board.now.board) names.now }
    requires polling { S.polling session.old ≡ true }
    requires names { names_of board.now.board ≡ (S.plan session.old).names }
    ensures board { seat.new.board ≡ seat.old.board }
    ensures absorbs { Absorbs seat.old.knows seat.new.knows }
    ensures carried { OnOk result (AreCarried seat.new.knows names.now) }
    ensures plan { S.plan session.new ≡ S.plan session.old }
    ensures err { IfErr result IsLoopFault }
    ensures records { OnOk result (AbsorbsEach names.now seat.old.knows (S.course session.old) seat.new.knows (S.course session.new)) }
{
    'names: for n in 0..names.len() {
        absorb_one(board, seat, names[n], session)?;
    }
    Ok((Absorbed { look }, CaughtUp { by: () }))
}

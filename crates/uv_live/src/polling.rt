//! What comes before each turn of a live run: at a poll every word is absorbed. A value of `Ready` is made in this file alone, behind that.
ghost use Rattle.std.specs.Prelude.{◌≡◌, true, OnOk, IfErr};
ghost use Rattle.uv_wake.specs.Seats.{names_of};
ghost use Rattle.uv_live.specs.Faults.{IsLoopFault};
ghost use Rattle.uv_live.specs.Sending.{AreNoted, LinesCarried};

use crate::absorbing::CaughtUp;
use crate::follower::Follower;
use crate::outside::Outside;
use uv_ids::Fault;

/// The loop's next turn may be taken: if it is at a poll, every word was absorbed there. A turn takes one.
#[derive(Drop)]
pub(crate) struct Ready {
    caught_up: Option<CaughtUp>,
}

/// Absorbs every word where the loop is at a poll.
pub(crate) fn absorb_in_poll<S: Follower>(
    session: &mut S,
    outside: &mut Outside<'_>,
) -> Result<Ready, Fault>
    requires names { names_of outside.old.board.now.board ≡ (S.plan session.old).names }
    requires noted { AreNoted (S.plan session.old).names (S.plan session.old).lines outside.old.names.items }
    ensures board { outside.new.board.now.board ≡ outside.old.board.now.board }
    ensures lost { outside.new.lost ≡ outside.old.lost }
    ensures names { outside.new.names.items ≡ outside.old.names.items }
    ensures plan { S.plan session.new ≡ S.plan session.old }
    ensures err { IfErr result IsLoopFault }
    ensures carried { OnOk result (S.polling session.old ≡ true
        → LinesCarried (S.plan session.new).names (S.plan session.new).lines outside.new.seat.knows) }
{
    if !session.is_polling() {
        return Ok(Ready { caught_up: None });
    }
    let caught_up = outside.absorb_all(session)?;
    Ok(Ready {
        caught_up: Some(caught_up),
    })
}

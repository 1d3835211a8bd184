//! What the lines behind `begin` say.

use crate::asking::{Most, Offered, Question, Recorded, Takes};
use uv_ids::Var;

/// What one line says.
#[derive(Clone, Copy)]
pub enum Part {
    /// `may send NAME N`, `may send NAME N during JOB`, `may cancel NAME N`, `may io NAME N`, `may tick MS N`: so often at the most, N from 1 to
    /// 2^32 - 1 and MS from 1 to 2^62 (own). `may wait`: as often as one likes.
    Offers(Offered),
    /// `may differ K`, up to 2^32 - 1 (own).
    Differ(u32),
    /// `recorded POLLS STEPS send NAME`, and so `cancel NAME`, `io NAME`, `tick MS`, `take K`, `finish K`: POLLS and STEPS up to 2^32 - 1 (own).
    Recorded(Recorded),
    /// `takes NAME MS`, `takes NAME @K MS`: K from 1 to 2^32 - 1, MS up to 2^62 (own).
    Takes(Takes),
    /// `most clock MS`, up to 2^62 (own). It is the clock also where a name is called `clock`.
    Clock(u64),
    /// `most NAME CALLS`, up to 2^32 - 1 (own). A name that is called `clock` or `states` can't be bounded.
    Calls(Most),
    /// `most states N`, from 1 to 2^32 - 1 (own). It is the states also where a name is called `states`.
    States(u32),
    /// `full`.
    Full,
    /// `find ..`. Where `before` or `after` is the second of three fields it is that form, also where a name is called so.
    Finds(Question),
    /// `find latest NAME`.
    Latest(Var),
}

/// How a line is read.
#[derive(Clone, Copy)]
pub enum Said {
    /// An empty line, or a comment.
    Nothing,
    One(Part),
    /// Anything else.
    Bad,
}

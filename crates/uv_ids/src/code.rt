//! What an op answers.
ghost use Rattle.std.specs.Prelude.{◌≡◌};
ghost use Rattle.uv_ids.specs.Words.{code_word, code_named};

use crate::id::Id;
use crate::word::is;

/// A status: success, or one of libuv's error codes, or one of this profile's own.
#[derive(Clone, Copy, PartialEq, Eq)]
pub enum Code {
    Ok,
    /// UV_EINVAL: a timer that was never started, or a closing handle (own).
    Einval,
    /// UV_EBUSY: work that doesn't wait for a worker, or a loop that still holds handles.
    Ebusy,
    /// UV_ECANCELED: the request was cancelled before a worker took it.
    Ecanceled,
    /// The name has a live handle or request already (own).
    Ebound,
    /// No slot is free or unused (own).
    Efull,
    /// The name's handle or request is gone, or there never was one (own).
    Estale,
    /// The op is not one for a handle of this kind (own).
    Ekind,
}

impl Code {
    /// The word of traces.
    pub fn word(self) -> &'static str
        ensures { result.now ≡ code_word self }
    {
        match self {
            Code::Ok => "ok",
            Code::Einval => "EINVAL",
            Code::Ebusy => "EBUSY",
            Code::Ecanceled => "ECANCELED",
            Code::Ebound => "EBOUND",
            Code::Efull => "EFULL",
            Code::Estale => "ESTALE",
            Code::Ekind => "EKIND",
        }
    }

    /// The code that a word names.
    #[tactic(auto, unfolding(crate::specs::Words::code_named))]
    pub fn from_word(word: &[u8]) -> Option<Code>
        ensures named { result ≡ code_named word.now }
    {
        if is(word, b"ok") {
            Some(Code::Ok)
        } else if is(word, b"EINVAL") {
            Some(Code::Einval)
        } else if is(word, b"EBUSY") {
            Some(Code::Ebusy)
        } else if is(word, b"ECANCELED") {
            Some(Code::Ecanceled)
        } else if is(word, b"EBOUND") {
            Some(Code::Ebound)
        } else if is(word, b"EFULL") {
            Some(Code::Efull)
        } else if is(word, b"ESTALE") {
            Some(Code::Estale)
        } else if is(word, b"EKIND") {
            Some(Code::Ekind)
        } else {
            None
        }
    }
}

/// What an op answers: a status, the id of what it made, or what it was asked for.
#[derive(Clone, Copy, PartialEq, Eq)]
pub enum Answer {
    Code(Code),
    Id(Id),
    /// Success, and the request that was cancelled, which isn't printed.
    Cancelled(Id),
    /// A time in ms.
    Number(u64),
    /// Yes or no, written 1 or 0.
    Flag(bool),
    /// A poll timeout in ms; none is infinite.
    Timeout(Option<u64>),
}

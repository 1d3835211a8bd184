//! Byte strings, each once, by the numbers of two parts.
ghost use Rattle.std.specs.Prelude.{◌≡◌, ◌++◌, ◌∷◌, [], ℕ, Some, slice_get, IfOk, IfSome, IfNone};
ghost use Rattle.uv_search.specs.Cuts.{IsOnce, KeepsNumbers};

use crate::nodes::Nodes;
use crate::parts::Parts;
use std::alloc::{AllocError, Global};
use std::marker::Model;

/// A set of byte strings, numbered from 0 in the order in which they were added.
#[derive(Drop)]
pub(crate) struct Halves {
    parts: Parts,
    pairs: Nodes,
}

impl Model for Halves {
    ghost use Rattle.std.specs.Prelude.{List, ℕ, map};
    ghost use Rattle.uv_search.specs.Cuts.{IsCut, joined};

    ghost Value = { List (List ℕ) };

    ghost view = { λ h. map (joined h.parts) h.pairs };

    ghost invariant = { λ h. IsCut h.parts h.pairs };
}

impl Halves {
    pub(crate) fn new(alloc: Global) -> Halves
        ensures { result ≡ [] }
    {
        Halves {
            parts: Parts::new(alloc),
            pairs: Nodes::new(alloc),
        }
    }

    /// It does nothing.
    pub(crate) fn is_once(&self)
        ensures { IsOnce self.now }
    {
        self.parts.is_once();
    }

    /// The number of these bytes, which are added if they aren't there.
    pub(crate) fn enter(&mut self, bytes: &[u8]) -> Result<u32, AllocError>
        ensures ok { IfOk result (λ number. slice_get self.new number ≡ Some bytes.now) }
        ensures kept { KeepsNumbers self.old self.new }
    {
        let (front, back) = bytes.split_at(bytes.len() / 2);
        let front = self.parts.enter(front)?;
        let back = self.parts.enter(back)?;
        self.pairs.enter((front, back))
    }
}

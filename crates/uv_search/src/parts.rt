//! Byte strings, each once.
ghost use Rattle.std.specs.Prelude.{◌≡◌, ◌++◌, ◌∷◌, [], ℕ, Some, slice_get, IfOk, IfSome, IfNone, nat_eq};
ghost use Rattle.std.specs.Cmp.{on_equiv, partial_equiv_from_equiv};
ghost use Rattle.std.specs.Cmp.Lexicographic.{pointwise, bytes_decides, nat_list_eq_equiv};
ghost use Rattle.std.proofs.Common.{rules, ap};
ghost use Rattle.std.specs.Cmp.Rules.{hashing};
ghost use Rattle.uv_search.specs.Cuts.{IsOnce, KeepsNumbers};

use crate::nodes::MOST;
use indexmap::{Equivalent, IndexSet};
use std::alloc::{AllocError, Global};
use std::hash::{Hash, Hasher};
use std::marker::Model;

/// The bytes of a part, which are hashed all at once.
#[derive(Drop)]
struct Part {
    bytes: Vec<u8>,
}

impl PartialEq for Part {
    ghost eq = { λ a b. pointwise nat_eq a.bytes.items b.bytes.items };

    ghost laws = { partial_equiv_from_equiv (on_equiv (λ a. a.bytes.items) nat_list_eq_equiv) };

    fn eq(&self, other: &Part) -> bool {
        self.bytes == other.bytes
    }
}

impl Eq for Part {
    ghost laws = { on_equiv (λ a. a.bytes.items) nat_list_eq_equiv };
}

impl Hash for Part {
    ghost hash_input = { λ a. a.bytes.items ∷ [] };

    ghost respects_eq = { Prim.search (hashing, rules) };

    fn hash<H: Hasher>(&self, state: &mut H) {
        state.write(self.bytes.as_slice());
    }
}

/// A part that is asked for.
#[derive(Clone, Copy)]
struct Asked<'a> {
    bytes: &'a [u8],
}

impl<'a> PartialEq for Asked<'a> {
    ghost eq = { λ a b. pointwise nat_eq a.bytes.now b.bytes.now };

    ghost laws = { partial_equiv_from_equiv (on_equiv (λ a. a.bytes.now) nat_list_eq_equiv) };

    fn eq(&self, other: &Asked<'a>) -> bool {
        self.bytes == other.bytes
    }
}

impl<'a> Eq for Asked<'a> {
    ghost laws = { on_equiv (λ a. a.bytes.now) nat_list_eq_equiv };
}

impl<'a> Hash for Asked<'a> {
    ghost hash_input = { λ a. a.bytes.now ∷ [] };

    ghost respects_eq = { Prim.search (hashing, rules) };

    fn hash<H: Hasher>(&self, state: &mut H) {
        state.write(self.bytes);
    }
}

impl<'a> Equivalent<Part> for Asked<'a> {
    ghost equivalent = { λ q k. pointwise nat_eq q.bytes.now k.bytes.items };

    ghost respects_hash = { λ q k h. ap (λ bytes. bytes ∷ []) ((bytes_decides q.bytes.now k.bytes.items).0 h) };

    ghost respects_eq = { λ q x y. nat_list_eq_equiv.congr q.bytes.now x.bytes.items y.bytes.items };

    fn equivalent(&self, key: &Part) -> bool {
        self.bytes == key.bytes.as_slice()
    }
}

/// A set of byte strings, numbered from 0 in the order in which they were added.
#[derive(Drop)]
pub(crate) struct Parts {
    alloc: Global,
    parts: IndexSet<Part>,
}

impl Model for Parts {
    ghost use Rattle.std.specs.Prelude.{◌≤◌, ◌^◌, List, ℕ, length, map};

    ghost Value = { List (List ℕ) };

    ghost view = { λ a. map (λ k. k.bytes.items) a.parts.keys };

    ghost invariant = { λ a. length a.parts.keys ≤ 0xFFFF_FFFF };
}

impl Parts {
    pub(crate) fn new(alloc: Global) -> Parts
        ensures { result ≡ [] }
    {
        Parts {
            alloc,
            parts: IndexSet::new(alloc),
        }
    }

    /// It does nothing.
    pub(crate) fn is_once(&self)
        ensures { IsOnce self.now }
    {
        let _ = self.parts.len();
    }

    /// The number of these bytes, if they are there.
    pub(crate) fn number(&self, bytes: &[u8]) -> Option<u32>
        ensures some { IfSome result (λ number. slice_get self.now number ≡ Some bytes.now) }
        ensures none { IfNone result ((i : ℕ) → slice_get self.now i ≡ Some bytes.now → ⊥) }
    {
        match self.parts.get_index_of(Asked { bytes }) {
            Some(number) => Some(number as u32),
            None => None,
        }
    }

    /// One more, behind the others.
    fn add(&mut self, bytes: &[u8]) -> Result<u32, AllocError>
        requires { (i : ℕ) → slice_get self.old i ≡ Some bytes.now → ⊥ }
        ensures ok { IfOk result (λ number. slice_get self.new number ≡ Some bytes.now) }
        ensures kept { KeepsNumbers self.old self.new }
    {
        let count = self.parts.len();
        if count >= MOST {
            return Err(AllocError);
        }
        let mut owned = Vec::new(self.alloc);
        owned.extend_from_slice(bytes)?;
        if self.parts.insert(Part { bytes: owned }).is_err() {
            return Err(AllocError);
        }
        Ok(count as u32)
    }

    /// The number of these bytes, which are added if they aren't there.
    pub(crate) fn enter(&mut self, bytes: &[u8]) -> Result<u32, AllocError>
        ensures ok { IfOk result (λ number. slice_get self.new number ≡ Some bytes.now) }
        ensures kept { KeepsNumbers self.old self.new }
    {
        match self.number(bytes) {
            Some(number) => Ok(number),
            None => self.add(bytes),
        }
    }
}

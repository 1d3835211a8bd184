//! The names that a script declares.
ghost use Rattle.std.specs.Prelude.{◌≡◌, ◌↔◌, ◌<◌, ◌++◌, ◌∷◌, [], length, slice_get, option_map, Contains, IfSome, IfNone, IsTrue, OnOk, OnErr};
ghost use Rattle.uv_script.specs.Limits.{MOST_NAMES};
ghost use Rattle.uv_script.specs.Reading.{place_of};
ghost use Rattle.uv_script.specs.Names.{AreNames};
ghost use Rattle.uv_script.specs.Words.{IsDeclared, IsName};

use indexmap::IndexSet;
use std::alloc::{AllocError, Global};
use std::marker::Model;
use uv_ids::Var;

/// Names, numbered from 0 in the order in which they were declared.
#[derive(Drop)]
pub struct Names {
    set: IndexSet<Vec<u8>>,
}

impl Model for Names {
    ghost use Rattle.std.specs.Prelude.{List, ℕ, map};
    ghost use Rattle.uv_script.specs.Names.{AreNames};

    ghost Value = { List (List ℕ) };

    ghost view = { λ names. map (λ name. name.items) names.set.keys };

    ghost invariant = { λ names. AreNames (map (λ name. name.items) names.set.keys) };
}

impl Names {
    /// No names.
    pub(crate) fn new(alloc: Global) -> Names
        ensures { result ≡ [] }
    {
        Names {
            set: IndexSet::new(alloc),
        }
    }

    /// Adds a name behind the others.
    pub(crate) fn declare(&mut self, alloc: Global, name: &[u8]) -> Result<(), AllocError>
        requires name { IsName name.now }
        requires fresh { Contains self.old name.now → ⊥ }
        requires room { length self.old < MOST_NAMES }
        ensures ok { OnOk result (self.new ≡ self.old ++ name.now ∷ []) }
        ensures err { OnErr result (self.new ≡ self.old) }
    {
        let name = Vec::from_slice(alloc, name)?;
        self.set.insert(name)?;
        Ok(())
    }

    /// How many names there are.
    pub fn len(&self) -> usize
        ensures len { result ≡ length self.now }
        ensures known { AreNames self.now }
    {
        self.set.len()
    }

    /// Whether there is none.
    pub fn is_empty(&self) -> bool
        ensures { IsTrue result ↔ (length self.now ≡ 0) }
    {
        self.set.is_empty()
    }

    /// The name of this number.
    pub fn get(&self, name: Var) -> Option<&[u8]>
        ensures { option_map (λ text. text.now) result ≡ slice_get self.now name.0 }
    {
        let text = self.set.get_index(name.0 as usize)?;
        Some(text.as_slice())
    }

    /// The number of this name, if it was declared.
    #[tactic(auto, unfolding(crate::specs::Reading::place_of))]
    pub fn number(&self, name: &[u8]) -> Option<Var>
        ensures some { IfSome result (IsDeclared self.now name.now) }
        ensures none { IfNone result (Contains self.now name.now → ⊥) }
        // The same, as the readers of lines compute it.
        ensures place { result ≡ place_of self.now name.now }
    {
        match self.set.get_index_of(name) {
            Some(index) => Some(Var(index as u32)),
            None => None,
        }
    }
}

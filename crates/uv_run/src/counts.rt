//! Counts by name.
ghost use Rattle.std.specs.Prelude.{◌≡◌, ◌<◌, ◌+◌, IfOk, IfErr, length, replicate, slice_index, slice_set};
ghost use Rattle.uv_ids.specs.declared.fault.Fault.TheVariants.{Memory};

use std::alloc::Global;
use uv_ids::{Fault, Var};

/// A count for each name of a script.
#[derive(Drop)]
pub(crate) struct Counts {
    pub(crate) counts: Vec<usize>,
}

impl Counts {
    /// Nothing was counted of so many names.
    pub(crate) fn new(alloc: Global, names: usize) -> Result<Counts, Fault>
        ensures ok { IfOk result (λ counts. counts.counts.items ≡ replicate names 0) }
        ensures err { IfErr result (λ fault. fault ≡ Memory) }
    {
        let counts = Vec::from_elem(alloc, 0, names)?;
        Ok(Counts { counts })
    }

    /// The count of a name.
    pub(crate) fn of(&self, name: Var) -> usize
        requires { name.0 < length self.now.counts.items }
        ensures { result ≡ slice_index self.now.counts.items name.0 }
    {
        self.counts[name.0 as usize]
    }

    /// One more of a name, of so many in all. Nothing where there is no such name.
    pub(crate) fn note(&mut self, name: Var, all: usize)
        requires less { slice_index self.old.counts.items name.0 < all }
        ensures { self.new.counts.items ≡ slice_set self.old.counts.items name.0 (slice_index self.old.counts.items name.0 + 1) }
    {
        if let Some(count) = self.counts.get_mut(name.0 as usize) {
            *count += 1;
        }
    }
}

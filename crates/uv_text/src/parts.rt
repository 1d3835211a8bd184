//! Texts in parts, so that a long one can be written before all of it is there.
#![tactic(auto, using(uv_script::proofs::Writing::writing))]

ghost use Rattle.std.specs.Prelude.{◌≡◌, ◌++◌, ◌<◌, ℕ, List};
ghost use Rattle.uv_script.specs.Writes.{Writes};
ghost use Rattle.uv_text.specs.Parts.{in_parts};

use std::alloc::AllocError;

/// A text in parts, each of a line or a few.
pub trait Parts {
    // How many there are.
    ghost parts: { Self → ℕ };

    // The text of each, by its number.
    ghost part: { Self → ℕ → List ℕ };

    /// How many parts there are.
    fn part_count(&self) -> usize
        ensures { result ≡ parts self.now };

    /// Puts the part of this number, from 0 on, behind a text.
    fn push_part(&self, text: &mut Vec<u8>, number: usize) -> Result<(), AllocError>
        requires { number < parts self.now }
        ensures { Writes result text.old.items (part self.now number) text.new.items };
}

/// Puts all parts behind a text.
pub(crate) fn push_parts<P: Parts>(text: &mut Vec<u8>, parts: &P) -> Result<(), AllocError>
    ensures { Writes result text.old.items (in_parts (P.part parts.now) (P.parts parts.now)) text.new.items }
{
    for number in 0..parts.part_count() {
        parts.push_part(text, number)?;
    }
    Ok(())
}

//! A script with what is asked of it.
ghost use Rattle.std.specs.Prelude.{ℕ, List};
ghost use Rattle.uv_inquiry.specs.Grammar.{Parses};
ghost use Rattle.uv_inquiry.specs.Laws.{HasReading, HasOneInquiry, HasNoBadLine, HasOneBadLine};

use crate::draft::read_asking;
use crate::front::{cut_begin, without_begin};
use std::alloc::Global;
use uv_asking::Asking;
use uv_engine::one_answer;
use uv_ids::Fault;
use uv_script::{Script, line_count};

/// A script, and what is asked of it.
#[derive(Drop)]
pub struct Inquiry {
    pub script: Script,
    pub asking: Asking,
}

impl Inquiry {
    /// The inquiry of a whole input: a script, the line `begin`, and behind it lines `may`, `most`, and one `find`.
    ///
    /// An input outside the grammar is refused with its first bad line, counted from 1. What is said a second time is bad where it
    /// is said again; what is missing, the line `begin` or the question, is bad in the line behind the last one.
    pub fn parse(alloc: Global, input: &[u8]) -> Result<Inquiry, Fault>
        ensures { Parses input.now result }
    {
        let Some((front, behind)) = cut_begin(input) else {
            return Err(without_begin(alloc, input));
        };
        let script = Script::parse(alloc, front)?;
        let asking = read_asking(alloc, script.names(), behind, line_count(front) + 1)?;
        Ok(Inquiry { script, asking })
    }
}

/// An input asks one thing or has one first bad line, and never both, so what `Inquiry::parse` answers is settled by the input
/// unless memory runs out.
pub fn one_inquiry()
    ensures some { (input : List ℕ) → HasReading input }
    ensures inquiry { (input : List ℕ) → HasOneInquiry input }
    ensures apart { (input : List ℕ) → HasNoBadLine input }
    ensures bad_line { (input : List ℕ) → HasOneBadLine input }
{
    one_answer();
}

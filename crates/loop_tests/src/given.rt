//! What the tests of machines and sessions begin with.

use std::alloc::Global;
use uv_ids::{Fault, Seen};
use uv_model::{Machine, Outcome};
use uv_script::Script;
use uv_session::Session;

/// A machine of one timer, which no line of its script has made yet.
pub(crate) fn begun<M: Machine>(alloc: Global) -> Result<M, Fault> {
    let script = Script::parse(alloc, b"var t\nmain init t timer\n")?;
    M::begin(alloc, script)
}

/// A session of a script, of so many steps at the most.
pub(crate) fn opened<M: Machine>(
    alloc: Global,
    text: &[u8],
    limit: usize,
) -> Result<Session<M>, Fault> {
    let script = Script::parse(alloc, text)?;
    let machine = M::begin(alloc, script)?;
    Ok(Session::new(alloc, machine, limit))
}

/// The answer of a step that appended this line.
pub(crate) fn told(line: Seen) -> Result<Outcome, Fault> {
    Ok(Outcome { seen: Some(line) })
}

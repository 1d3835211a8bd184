//! Which line of a callback's body a call does next.
ghost use Rattle.std.specs.Prelude.{◌≡◌};
ghost use Rattle.uv_model.specs.Next.{body_from};

use crate::place::Body;
use uv_ids::{Callback, Var};
use uv_script::Script;

/// The body of a call, if it has a line from this one on.
pub fn body_from(script: &Script, kind: Callback, name: Var, call: u32, from: usize) -> Option<Body>
    ensures { result ≡ body_from script.now kind name call from }
{
    let next = script.next_line(kind, name, call, from)?;
    Some(Body {
        callback: kind,
        name,
        call,
        next,
    })
}

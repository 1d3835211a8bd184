//! The session that an answer shows.
#![tactic(auto, using(uv_script::proofs::Writing::writing))]

ghost use Rattle.std.specs.Prelude.{◌≡◌, ◌++◌, ℕ, List, map};
ghost use Rattle.uv_ids.specs.declared.event.Event.{Event};
ghost use Rattle.uv_script.specs.Program.{Program};
ghost use Rattle.uv_script.specs.Grammar.{IsScript};
ghost use Rattle.uv_script.specs.Text.{lines_text};
ghost use Rattle.uv_script.specs.Writes.{Writes};
ghost use Rattle.uv_text.specs.Recording.{step_line};
ghost use Rattle.uv_engine.specs.Verdict.{AllTaken};
ghost use Rattle.uv_inquiry.specs.Session.{IsSession};
ghost use Rattle.uv_inquiry.specs.Texts.{session_text};

use std::alloc::AllocError;
use uv_ids::Event;
use uv_script::{Names, Script, text_read_back};
use uv_text::push_step;

/// The session of a script and of steps that it takes, which stands behind the first line of `found_text`, is read by a conversation as
/// that script and those steps, one a line.
pub fn session_read_back()
    ensures { (text : List ℕ) (p : Program) (es : List Event) → IsScript text p → AllTaken p es → IsSession (session_text p es) p es }
{
    text_read_back();
}

fn push_step_lines(text: &mut Vec<u8>, names: &Names, steps: &[Event]) -> Result<(), AllocError>
    ensures { Writes result text.old.items (lines_text (map (step_line names.now) steps.now)) text.new.items }
{
    for step in steps {
        push_step(text, names, *step)?;
        text.extend_from_slice(b"\n")?;
    }
    Ok(())
}

/// The session of a script and its steps, as a conversation reads it.
#[tactic(auto, using(uv_script::proofs::Writing::writing), unfolding(crate::specs::Texts::session_text))]
pub(crate) fn push_session(
    text: &mut Vec<u8>,
    script: &Script,
    steps: &[Event],
) -> Result<(), AllocError>
    ensures { Writes result text.old.items (session_text script.now steps.now) text.new.items }
{
    script.push_lines(text)?;
    text.extend_from_slice(b"begin\n")?;
    push_step_lines(text, script.names(), steps)
}

//! The lines of a recording behind its script.
ghost use Rattle.std.specs.Prelude.{◌≡◌, ◌↔◌, IfSome, IfNone, IsTrue};
ghost use Rattle.uv_ids.specs.declared.event.Event.{Event};
ghost use Rattle.uv_text.specs.Recorded.{SaysStep, IsCallbackLine, step_of, is_callback_line};

use crate::command::{Asked, Command, asked_in, read_command};
use uv_ids::Event;
use uv_script::{Script, is_line};

/// The step that a line of a recording of this script says.
#[tactic(auto, using(crate::proofs::StepLines::step_lines))]
pub fn read_step(script: &Script, line: &[u8]) -> Option<Event>
    ensures some { IfSome result (λ event. SaysStep script.now line.now event) }
    ensures none { IfNone result ((event : Event) → SaysStep script.now line.now event → ⊥) }
{
    step_in(script, line)
}

fn step_in(script: &Script, line: &[u8]) -> Option<Event>
    ensures { result ≡ step_of script.now line.now }
{
    if line == b"loop".as_slice() {
        return Some(Event::Loop);
    }
    match asked_in(script, read_command(script.names(), line)) {
        Asked::Do(Command::Step(event)) => Some(event),
        _ => None,
    }
}

/// Whether a line of a recording is one of a callback: `call`, `after` or `closed`, a space, and any text.
pub fn is_callback_line(line: &[u8]) -> bool
    ensures { IsTrue result ↔ IsCallbackLine line.now }
{
    is_called(line)
}

fn is_called(line: &[u8]) -> bool
    ensures { result ≡ is_callback_line line.now }
{
    is_line(line)
        && (line.starts_with(b"call ")
            || line.starts_with(b"after ")
            || line.starts_with(b"closed "))
}

//! Sends from outside.
ghost use Rattle.std.specs.Prelude.{◌≡◌, ◌<◌, Some, length};
ghost use Rattle.uv_ids.specs.declared.event.Event.TheVariants.{Send};
ghost use Rattle.uv_ids.specs.declared.seen.Seen.TheVariants.{Send as sent};
ghost use Rattle.uv_script.specs.Program.{Program};
ghost use Rattle.uv_memory.specs.Image.{held};
ghost use Rattle.uv_stands.specs.Doing.{Returns};
ghost use Rattle.uv_loop.specs.Course.{Leads};

use uv_ids::{Code, Var};
use uv_memory::Memory;
use uv_ops::send;
use uv_stands::PackedPlace;

/// Sends to the async handle of a name: what that answers.
pub(crate) fn send_to(memory: &mut Memory<PackedPlace>, name: Var) -> Code
    requires name { name.0 < length (held memory.old).image.names }
    ensures returns { Returns memory.new.step_record (held memory.old) (held memory.new) }
    ensures leads { (p : Program)
        → Leads p (held memory.old).image (held memory.new).image (Send name) (Some (sent name result)) }
    ensures pieces { memory.new.slots.room ≡ memory.old.slots.room }
{
    send(memory, name)
}

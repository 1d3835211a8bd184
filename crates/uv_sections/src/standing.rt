//! Where the loop stands after a step.
ghost use Rattle.std.specs.Prelude.{◌≡◌};
ghost use Rattle.uv_model.specs.State.{State};
ghost use Rattle.uv_model.specs.Next.{at};
ghost use Rattle.uv_memory.specs.Image.{held};
ghost use Rattle.uv_memory.specs.Undo.{CanUnwind, Extended};
ghost use Rattle.uv_stands.specs.Stands.{StandsFor};

use uv_memory::Memory;
use uv_model::{Place, Run, Stage};
use uv_stands::PackedPlace;

/// After the last step the loop is at this place.
pub fn stand_at(memory: &mut Memory<PackedPlace>, place: PackedPlace)
    requires can { CanUnwind (held memory.old).room memory.old.step_record (held memory.old).image }
    ensures same { memory.new.step_record ≡ memory.old.step_record }
    ensures extended { Extended memory.old.step_record memory.new.step_record (held memory.old) (held memory.new) }
    ensures stands { (s : State) → StandsFor (held memory.old).image s
        → StandsFor (held memory.new).image (record s { place = place }) }
    ensures pieces { memory.new.slots.room ≡ memory.old.slots.room }
{
    memory.stand_at(place);
}

/// After the last step the run is at this stage, with no body under way.
pub(crate) fn stand_in(memory: &mut Memory<PackedPlace>, run: Run, stage: Stage)
    requires can { CanUnwind (held memory.old).room memory.old.step_record (held memory.old).image }
    ensures same { memory.new.step_record ≡ memory.old.step_record }
    ensures extended { Extended memory.old.step_record memory.new.step_record (held memory.old) (held memory.new) }
    ensures stands { (s : State) → StandsFor (held memory.old).image s → StandsFor (held memory.new).image (at s run stage) }
    ensures pieces { memory.new.slots.room ≡ memory.old.slots.room }
{
    let place = PackedPlace::between(run.mode, run.line, stage);
    stand_at(memory, place);
}

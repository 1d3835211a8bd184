//! The clock, the loop's time, what names are bound to and how often they were called, and where the loop stands.
ghost use Rattle.std.specs.Prelude.{◌≡◌, ◌<◌, ◌+◌, ◌^◌, ◌-◌, length, Option, false};
ghost use Rattle.uv_memory.specs.declared.record.Naming.TheVariants.{Same as same};
ghost use Rattle.uv_records.specs.Names.{count_of, named, binding, calling};
ghost use Rattle.uv_memory.specs.Image.{held, standing};
ghost use Rattle.uv_memory.specs.Undo.{Recorded, CanUnwind, Extended};

use crate::memory::Memory;
use crate::record::Naming;
use crate::small::Small;
use uv_ids::{Callback, Id, Var};
use uv_records::Named;

impl<P: Copy> Memory<P> {
    /// The clock goes on by so many ms.
    pub fn tick(&mut self, ms: u64)
        requires fits { (held self.old).image.clock + ms < 2 ^ 64 }
        ensures recorded { Recorded self.new.step_record (held self.old) (held self.new) }
        ensures image { (held self.new).image ≡ record (held self.old).image { clock = (held self.old).image.clock + ms } }
        ensures pieces { self.new.slots.room ≡ self.old.slots.room }
    {
        self.step_record
            .note_small(self.place, Small::Clock(self.clock));
        self.clock += ms;
    }

    /// The loop's time is that of the clock (uv_update_time).
    pub fn update_time(&mut self)
        ensures recorded { Recorded self.new.step_record (held self.old) (held self.new) }
        ensures image { (held self.new).image
            ≡ record (held self.old).image { times = record (held self.old).image.times { time = (held self.old).image.clock } } }
        ensures pieces { self.new.slots.room ≡ self.old.slots.room }
    {
        self.step_record
            .note_small(self.place, Small::Time(self.times.time));
        self.times.time = self.clock;
    }

    /// The run is to end before its next iteration (uv_stop), or not.
    pub fn set_stop(&mut self, stop: bool)
        ensures recorded { Recorded self.new.step_record (held self.old) (held self.new) }
        ensures image { (held self.new).image ≡ record (held self.old).image { stop_flag = stop } }
        ensures pieces { self.new.slots.room ≡ self.old.slots.room }
    {
        self.step_record
            .note_small(self.place, Small::Stop(self.stop_flag));
        self.stop_flag = stop;
    }

    /// Whether an idle handle is active as the iteration begins.
    pub fn set_idled(&mut self, idled: bool)
        ensures recorded { Recorded self.new.step_record (held self.old) (held self.new) }
        ensures image { (held self.new).image ≡ record (held self.old).image { idled = idled } }
        ensures pieces { self.new.slots.room ≡ self.old.slots.room }
    {
        self.step_record
            .note_small(self.place, Small::Idled(self.idled));
        self.idled = idled;
    }

    /// The loop's time is that of the clock, and no idle handle counts as active as the iteration begins.
    pub fn begin_iteration(&mut self)
        ensures recorded { Recorded self.new.step_record (held self.old) (held self.new) }
        ensures image { (held self.new).image ≡ record (held self.old).image {
          times = record (held self.old).image.times { time = (held self.old).image.clock };
          idled = false;
        } }
        ensures pieces { self.new.slots.room ≡ self.old.slots.room }
    {
        self.step_record
            .note_small(self.place, Small::Iterated(self.times.time, self.idled));
        self.times.time = self.clock;
        self.idled = false;
    }

    /// The loop stands here after the last step.
    pub fn stand_at(&mut self, place: P)
        requires can { CanUnwind (held self.old).room self.old.step_record (held self.old).image }
        ensures place { (held self.new).image ≡ standing place (held self.old).image }
        ensures same { self.new.step_record ≡ self.old.step_record }
        ensures extended { Extended self.old.step_record self.new.step_record (held self.old) (held self.new) }
        ensures pieces { self.new.slots.room ≡ self.old.slots.room }
    {
        self.place = place;
    }

    /// What a name is bound to, and how often its callbacks were called.
    pub fn named(&self, name: Var) -> Named
        ensures { result ≡ named (held self.now).image.names name.0 }
    {
        self.names
            .get(name.0 as usize)
            .copied()
            .unwrap_or(Named::unbound())
    }

    /// The last step binds a name to this as well.
    pub fn bind(&mut self, name: Var, id: Option<Id>)
        requires can { CanUnwind (held self.old).room self.old.step_record (held self.old).image }
        requires unnamed { self.old.step_record.naming ≡ same }
        requires name { name.0 < length (held self.old).image.names }
        ensures image { (held self.new).image ≡ record (held self.old).image { names = binding name.0 id (held self.old).image.names } }
        ensures extended { Extended self.old.step_record self.new.step_record (held self.old) (held self.new) }
        ensures pieces { self.new.slots.room ≡ self.old.slots.room }
    {
        let named = self.named(name);
        self.names[name.0 as usize] = Named {
            id,
            calls: named.calls,
        };
        self.step_record.rename(Naming::bound(name, named.id));
    }

    /// The last step calls a callback of a name as well.
    pub fn count_call(&mut self, name: Var, callback: Callback)
        requires can { CanUnwind (held self.old).room self.old.step_record (held self.old).image }
        requires unnamed { self.old.step_record.naming ≡ same }
        requires name { name.0 < length (held self.old).image.names }
        requires few { count_of callback (named (held self.old).image.names name.0).calls < 2 ^ 32 - 1 }
        ensures image { (held self.new).image ≡ record (held self.old).image {
          names = calling name.0 callback (count_of callback (named (held self.old).image.names name.0).calls + 1) (held self.old).image.names;
        } }
        ensures extended { Extended self.old.step_record self.new.step_record (held self.old) (held self.new) }
        ensures pieces { self.new.slots.room ≡ self.old.slots.room }
    {
        let named = self.named(name);
        let count = named.calls.of(callback);
        self.names[name.0 as usize] = Named {
            id: named.id,
            calls: named.calls.with(callback, count + 1),
        };
        self.step_record
            .rename(Naming::Called(name, callback, count));
    }
}

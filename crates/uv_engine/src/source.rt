//! Where input comes from.
ghost use Rattle.std.specs.Prelude.{◌≡◌, ◌<◌, ◌≤◌, ◌++◌, ℕ, List, [], IfOk, OnOk, OnErr, length, take};
ghost use Rattle.uv_engine.specs.Devices.{Counted, Gave};

/// The longest input in bytes (own).
pub const LIMIT: u64 = 1_073_741_824;

/// A read failed.
#[derive(Clone, Copy)]
pub struct ReadFailed;

/// A reader, as the bytes that are left, the number of those that it gave, and the number of its failures.
pub trait Source {
    /// Whether the reader tells its bytes, as one over memory does. Of one that doesn't, as a terminal, a contract says
    /// nothing of the bytes.
    ghost Tells: { Type 0 };

    ghost remaining: { Self → List ℕ };

    ghost given: { Self → ℕ };

    ghost failures: { Self → ℕ };

    /// Puts some of the bytes that are left at the beginning of the room, and says how many; none only at their end.
    fn read(&mut self, room: &mut [u8]) -> Result<usize, ReadFailed>
        ensures within { IfOk result (λ n. n ≤ length room.new) }
        ensures bytes { IfOk result (λ n. Tells → remaining self.old ≡ take n room.new ++ remaining self.new) }
        ensures end { IfOk result (λ n. Tells → n ≡ 0 → 0 < length room.new → remaining self.old ≡ []) }
        ensures given { IfOk result (λ n. Gave n (given self.old) (given self.new)) }
        ensures none { OnErr result (given self.new ≡ given self.old) }
        ensures count { OnErr result (Counted (failures self.old) (failures self.new)) }
        ensures same { OnOk result (failures self.new ≡ failures self.old) };
}

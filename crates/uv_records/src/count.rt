//! A count that is kept beside what it counts.
ghost use Rattle.std.specs.Prelude.{◌≡◌, ◌+◌};
ghost use Rattle.uv_records.specs.Count.{one_if, Fits32};

/// The count once one that counted, or didn't, counts, or doesn't.
pub fn recounted(count: u32, before: bool, after: bool) -> u32
    requires { Fits32 count (one_if before) (one_if after) }
    ensures { result + one_if before ≡ count + one_if after }
{
    if before == after {
        count
    } else if after {
        count + 1
    } else {
        count - 1
    }
}

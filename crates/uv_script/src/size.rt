//! How large the arena is.
ghost use Rattle.std.specs.Prelude.{◌≡◌};
ghost use Rattle.uv_script.specs.Program.{DEFAULT_SIZE};

/// The arena that the slots of handles are taken from.
#[derive(Clone, Copy, PartialEq, Eq)]
pub struct ArenaSize {
    /// How many slots it has; from a script, one at least.
    pub slots: u32,
    /// The generation at which a slot that is freed is retired.
    pub last_generation: u32,
}

impl ArenaSize {
    /// The size where a script says none: 1024 slots, and the largest generation.
    pub(crate) fn by_default() -> ArenaSize
        ensures { result ≡ DEFAULT_SIZE }
    {
        ArenaSize {
            slots: 1024,
            last_generation: u32::MAX,
        }
    }
}

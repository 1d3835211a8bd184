//! What a loop's names are bound to, and how often their callbacks were called.
ghost use Rattle.std.specs.Prelude.{◌≡◌, ◌<◌, ◌^◌, ◌-◌};
ghost use Rattle.uv_records.specs.Names.{count_of, with_count, counted, unbound};

use uv_ids::{Callback, Id};

/// How often each callback of a name was called.
#[derive(Clone, Copy, PartialEq, Eq)]
pub struct Calls {
    /// That of its handle.
    pub handle: u32,
    /// That of its request.
    pub after: u32,
    /// That of its close.
    pub close: u32,
}

impl Calls {
    /// How often one of the callbacks was called.
    pub fn of(self, callback: Callback) -> u32
        ensures { result ≡ count_of callback self }
    {
        match callback {
            Callback::Handle => self.handle,
            Callback::After => self.after,
            Callback::Close => self.close,
        }
    }

    /// The same, but that one of the callbacks was called so often.
    pub fn with(self, callback: Callback, count: u32) -> Calls
        ensures { result ≡ with_count callback count self }
    {
        match callback {
            Callback::Handle => Calls {
                handle: count,
                ..self
            },
            Callback::After => Calls {
                after: count,
                ..self
            },
            Callback::Close => Calls {
                close: count,
                ..self
            },
        }
    }

    /// One call more.
    pub fn counted(self, callback: Callback) -> Calls
        requires { count_of callback self < 2 ^ 32 - 1 }
        ensures { result ≡ counted callback self }
    {
        self.with(callback, self.of(callback) + 1)
    }
}

/// What a name is bound to, and how often its callbacks were called.
#[derive(Clone, Copy, PartialEq, Eq)]
pub struct Named {
    /// What the last handle or request made under the name got as its id. It stays when the slot is freed.
    pub id: Option<Id>,
    pub calls: Calls,
}

impl Named {
    /// A name that is bound to nothing and was never called.
    pub fn unbound() -> Named
        ensures { result ≡ unbound }
    {
        let calls = Calls {
            handle: 0,
            after: 0,
            close: 0,
        };
        Named { id: None, calls }
    }
}

//! What the bytes tell.
ghost use Rattle.std.specs.Prelude.{◌≡◌, ◌++◌, ℕ, List, Option};
ghost use Rattle.uv_ids.specs.declared.event.Event.{Event};
ghost use Rattle.uv_script.specs.Program.{Program};
ghost use Rattle.uv_model.specs.After.{after};
ghost use Rattle.uv_model.specs.State.{State};
ghost use Rattle.uv_state_key.specs.Formed.{formed};
ghost use Rattle.uv_state_key.specs.Key.{state_code};
ghost use Rattle.uv_state_key.specs.TaleKey.{key_code};
ghost use Rattle.uv_state_key.specs.Told.{IsTold};

/// For every script and all lists of steps: where the bytes of two states that the steps lead to are equal, the states are, whatever
/// follows the bytes. It does nothing, and is called for its clause.
pub fn keys_tell()
    ensures { (p : Program) (es fs : List Event) (x y : List ℕ) → state_code (after p es) ++ x ≡ state_code (after p fs) ++ y
        → (after p es ≡ after p fs) × (x ≡ y) }
{}

/// The same of what is told of two states, which is equal then, and not the states themselves, where counts go up to a number. It does
/// nothing, and is called for its clause.
pub fn forms_tell()
    ensures { (most : Option ℕ) (s t : State) (x y : List ℕ) → IsTold s → IsTold t → key_code most s ++ x ≡ key_code most t ++ y
        → (formed most s ≡ formed most t) × (x ≡ y) }
{}

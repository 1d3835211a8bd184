//! Lists of ids.
ghost use Rattle.std.specs.Prelude.{◌≡◌};
ghost use Rattle.uv_model.specs.Ids.{same_id, without_id, has_some};
ghost use Rattle.std.specs.List.{list_any};

use uv_ids::Id;

/// Takes an id off a list.
pub fn remove_id(ids: &mut Vec<Id>, id: Id)
    ensures { ids.new.items ≡ without_id ids.old.items id }
{
    ids.retain(|x| *x != id);
}

/// Whether an id is on a list.
pub fn has_id(ids: &[Id], id: Id) -> bool
    ensures { result ≡ list_any (same_id id) ids.now }
{
    ids.iter().any(|x| id == *x)
}

/// Whether there is an id on a list.
pub fn has_some(ids: &[Id]) -> bool
    ensures { result ≡ has_some ids.now }
{
    !ids.is_empty()
}

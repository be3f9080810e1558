// The profiles that are kept, each with how a forest that has it is made of those of profiles that
// were kept before. The profile of a forest is the set of the states that take it.
ghost use Rattle.std.specs.Prelude.{◌≡◌, ◌<◌, length, IfOk, OnOk};
ghost use Rattle.flux_subtype.specs.Kept.{Keeps, recipes, set_at};

use flux_auto::{Recipe, Set};
use indexmap::IndexMap;
use std::alloc::{AllocError, Global};

// The profile at a place.
pub(crate) fn set_at(kept: &IndexMap<Set, Recipe>, place: usize) -> &Set
    requires { place < length kept.now.entries }
    ensures { result.now ≡ set_at kept.now.entries place }
{
    match kept.get_index(place) {
        Some((set, _)) => set,
        None => unreachable!(),
    }
}

// Keeps a profile, unless it is kept already.
pub(crate) fn keep(
    kept: &mut IndexMap<Set, Recipe>,
    set: Set,
    from: Recipe,
) -> Result<(), AllocError>
    ensures { OnOk result (Keeps kept.old.entries set from kept.new.entries) }
{
    if kept.contains_key(&set) {
        return Ok(());
    }
    kept.insert(set, from)?;
    Ok(())
}

// How the forests of the kept profiles are made.
pub(crate) fn recipes_of(
    alloc: Global,
    kept: &IndexMap<Set, Recipe>,
) -> Result<Vec<Recipe>, AllocError>
    ensures { IfOk result (λ list. list.items ≡ recipes kept.now.entries) }
{
    kept.values().copied().collect(alloc)
}

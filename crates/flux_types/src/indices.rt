// The indices of names, by the numbers of the names.
ghost use Rattle.std.specs.Prelude.{◌≡◌, ◌<◌, ℕ, Some, length, OnOk};
ghost use Rattle.flux_types.specs.Indices.{index_in};

use flux_atom::Name;
use std::alloc::AllocError;

// The index of a name, if it has one.
pub(crate) fn index_of(indices: &[Option<u32>], name: Name) -> Option<u32>
    ensures { result ≡ index_in indices.now name }
{
    match indices.get(name.number() as usize) {
        Some(index) => *index,
        None => None,
    }
}

// Makes room for the index of a name.
pub(crate) fn make_room(indices: &mut Vec<Option<u32>>, name: Name) -> Result<(), AllocError>
    ensures there { OnOk result (name < length indices.new.items) }
    ensures same { (n : ℕ) → index_in indices.new.items n ≡ index_in indices.old.items n }
{
    while indices.len() <= name.number() as usize {
        indices.push(None)?;
    }
    Ok(())
}

// Gives a name its index.
pub(crate) fn set_index(indices: &mut Vec<Option<u32>>, name: Name, index: u32)
    requires { name < length indices.old.items }
    ensures here { index_in indices.new.items name ≡ Some index }
    ensures others { (n : ℕ) → (n ≡ name → ⊥) →
        index_in indices.new.items n ≡ index_in indices.old.items n }
{
    indices[name.number() as usize] = Some(index);
}

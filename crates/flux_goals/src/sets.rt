// Sets of states, as lists that rise.
ghost use Rattle.std.specs.Prelude.{IfOk, IsTrue, OnOk};
ghost use Rattle.flux_auto.specs.Going.{Has};
ghost use Rattle.flux_goals.specs.Table.{AddsState};

use crate::goal::copy_of;
use std::alloc::{AllocError, Global};

// Whether a state is found in a set.
pub(crate) fn has(set: &[u64], state: u64) -> bool
    ensures { IsTrue result → Has set.now state }
{
    set.binary_search(&state).is_ok()
}

pub(crate) fn insert(set: &mut Vec<u64>, state: u64) -> Result<(), AllocError>
    ensures { OnOk result (AddsState set.old.items set.new.items state) }
{
    match set.binary_search(&state) {
        Ok(_) => Ok(()),
        Err(place) => {
            set.insert(place, state)?;
            Ok(())
        }
    }
}

pub(crate) fn copy_with(alloc: Global, set: &[u64], state: u64) -> Result<Vec<u64>, AllocError>
    ensures { IfOk result (λ copied. AddsState set.now copied.items state) }
{
    let mut copied = copy_of(alloc, set)?;
    insert(&mut copied, state)?;
    Ok(copied)
}

// The profile of a forest, from its first tree and the profiles of its parts.
ghost use Rattle.std.specs.Prelude.{◌≡◌, IfOk, map};
ghost use Rattle.flux_auto.specs.Takes.{profile_nil};
ghost use Rattle.flux_auto.specs.Arcs.{IsIndex, mark_by_leap, fired};
ghost use Rattle.flux_auto.specs.Built.{state_of};

use crate::arcs::{Arcs, Leap};
use crate::set::Set;
use crate::table::Row;
use std::alloc::{AllocError, Global};

fn mark_by_leap(marks: &mut Set, leap: &Leap, rest: &Set)
    ensures { marks.new ≡ mark_by_leap rest.now marks.old leap.now }
{
    if rest.has(leap.next) {
        marks.insert_all(leap.sources);
    }
}

/// The profile of a tree and a rest, where there are so many states: the states that some edge by
/// the tree leaves to a state that takes the rest.
pub fn fired(alloc: Global, states: usize, leaps: &[Leap], rest: &Set) -> Result<Set, AllocError>
    ensures { IfOk result (λ set. set ≡ fired states leaps.now rest.now) }
{
    let mut set = Set::none(alloc, states)?;
    for leap in leaps {
        mark_by_leap(&mut set, leap, rest);
    }
    Ok(set)
}

// The edges of the states that the rows are.
pub(crate) fn arcs_of(alloc: Global, rows: &[Row]) -> Result<Arcs, AllocError>
    ensures { IfOk result (IsIndex (map state_of rows.now)) }
{
    let mut arcs = Arcs::new(alloc);
    for source in 0..rows.len() {
        arcs.add_all(source as u64, rows[source].edges.as_slice())?;
    }
    Ok(arcs)
}

// The profile of the empty forest.
pub(crate) fn set_of_nil(alloc: Global, rows: &[Row]) -> Result<Set, AllocError>
    ensures { IfOk result (λ set. set ≡ profile_nil (map state_of rows.now)) }
{
    let mut set = Set::none(alloc, rows.len())?;
    for state in 0..rows.len() {
        if rows[state].ends {
            set.insert(state as u64);
        }
    }
    Ok(set)
}

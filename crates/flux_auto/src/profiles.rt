// Profiles, each kept once: a profile's number stands for it. The profile of a forest is the set of
// the states that take it.
ghost use Rattle.std.specs.Prelude.{◌≡◌, ◌<◌, length, map, Contains, IfOk, IfSome, OnOk};
ghost use Rattle.flux_auto.specs.Arcs.{IsIndex};
ghost use Rattle.flux_auto.specs.Built.{state_of};
ghost use Rattle.flux_auto.specs.Profiles.{profiles_of, profile_at, turned, IsWithin, Gives, AreRight, Keeps};

use crate::arcs::Arcs;
use crate::set::Set;
use crate::sets::{fired, set_of_nil};
use crate::table::Row;
use flux_atom::{AtomKind, Name};
use indexmap::{IndexMap, IndexSet};
use std::alloc::{AllocError, Global};

// A tree in front of a forest: the kind of an atom and the number of the forest's profile, or the
// label of an element and the numbers of the profiles of its content and of the forest.
#[derive(Clone, Copy, PartialEq, Eq, Hash)]
pub(crate) enum Turn {
    Atom(AtomKind, usize),
    Elem(Name, usize, usize),
}

// The profiles, by their numbers, and the number that each tree gave that was put in front of one.
#[derive(Drop)]
pub(crate) struct Profiles {
    pub(crate) sets: IndexSet<Set>,
    pub(crate) turns: IndexMap<Turn, usize>,
}

// The number of the profile of the empty forest.
pub(crate) const NOTHING: usize = 0;

// The profile of the empty forest alone.
pub(crate) fn begin_profiles(alloc: Global, rows: &[Row]) -> Result<Profiles, AllocError>
    ensures { IfOk result (AreRight (map state_of rows.now)) }
{
    let mut sets = IndexSet::new(alloc);
    sets.insert_full(set_of_nil(alloc, rows)?)?;
    let turns = IndexMap::new(alloc);
    Ok(Profiles { sets, turns })
}

// The profile with a number.
pub(crate) fn set_at(profiles: &Profiles, number: usize) -> &Set
    requires { number < length (profiles_of profiles.now) }
    ensures { result.now ≡ profile_at (profiles_of profiles.now) number }
{
    &profiles.sets.as_slice()[number]
}

// The number of a profile, which is kept from now on.
fn intern(profiles: &mut Profiles, set: Set) -> Result<usize, AllocError>
    ensures there { IfOk result (λ n. n < length (profiles_of profiles.new)) }
    ensures place { IfOk result (λ n. profile_at (profiles_of profiles.new) n ≡ set) }
    ensures keeps { OnOk result (Keeps (profiles_of profiles.old) (profiles_of profiles.new)) }
    ensures turns { profiles.new.turns.entries ≡ profiles.old.turns.entries }
{
    let (number, _) = profiles.sets.insert_full(set)?;
    Ok(number)
}

fn set_after(
    alloc: Global,
    rows: &[Row],
    arcs: &Arcs,
    profiles: &Profiles,
    turn: &Turn,
) -> Result<Set, AllocError>
    requires index { IsIndex (map state_of rows.now) arcs.now }
    requires within { IsWithin (length (profiles_of profiles.now)) turn.now }
    ensures { IfOk result (λ set.
        set ≡ turned (map state_of rows.now) (profiles_of profiles.now) turn.now) }
{
    match turn {
        Turn::Atom(kind, rest) => {
            fired(
                alloc,
                rows.len(),
                arcs.for_kind(*kind),
                set_at(profiles, *rest),
            )
        }
        Turn::Elem(label, content, rest) => {
            let leaps = arcs.for_element(alloc, *label, set_at(profiles, *content))?;
            fired(alloc, rows.len(), &leaps, set_at(profiles, *rest))
        }
    }
}

// The number that a tree gave before, if it was there.
fn remembered(profiles: &Profiles, turn: &Turn) -> Option<usize>
    ensures { IfSome result (λ n. Contains profiles.now.turns.entries (turn.now, n)) }
{
    profiles.turns.get(turn).copied()
}

// Finds the profile that a tree gives, and remembers its number.
fn find(
    alloc: Global,
    rows: &[Row],
    arcs: &Arcs,
    profiles: &mut Profiles,
    turn: Turn,
) -> Result<usize, AllocError>
    requires index { IsIndex (map state_of rows.now) arcs.now }
    requires within { IsWithin (length (profiles_of profiles.old)) turn }
    requires right { AreRight (map state_of rows.now) profiles.old }
    ensures keeps { OnOk result (Keeps (profiles_of profiles.old) (profiles_of profiles.new)) }
    ensures gives { IfOk result
        (Gives (map state_of rows.now) (profiles_of profiles.new) turn) }
    ensures right { OnOk result (AreRight (map state_of rows.now) profiles.new) }
{
    let set = set_after(alloc, rows, arcs, profiles, &turn)?;
    let number = intern(profiles, set)?;
    profiles.turns.insert(turn, number)?;
    Ok(number)
}

// The number of the profile that a tree gives.
pub(crate) fn after(
    alloc: Global,
    rows: &[Row],
    arcs: &Arcs,
    profiles: &mut Profiles,
    turn: Turn,
) -> Result<usize, AllocError>
    requires index { IsIndex (map state_of rows.now) arcs.now }
    requires within { IsWithin (length (profiles_of profiles.old)) turn }
    requires right { AreRight (map state_of rows.now) profiles.old }
    ensures keeps { OnOk result (Keeps (profiles_of profiles.old) (profiles_of profiles.new)) }
    ensures gives { IfOk result
        (Gives (map state_of rows.now) (profiles_of profiles.new) turn) }
    ensures right { OnOk result (AreRight (map state_of rows.now) profiles.new) }
{
    match remembered(profiles, &turn) {
        Some(number) => Ok(number),
        None => find(alloc, rows, arcs, profiles, turn),
    }
}

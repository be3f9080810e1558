// The table of goals.
ghost use Rattle.std.specs.Prelude.{◌≡◌, ◌⊎◌, ◌∷◌, ◌++◌, ◌+◌, [], ◌<◌, None, length, slice_get, Some, IfOk, IfSome, OnOk, OnErr};
ghost use Rattle.flux_goals.specs.Goals.{AllBelow};
ghost use Rattle.flux_goals.specs.Table.{Asks, IsAt, IsAsked, IsTable, IsRight, IsFoundAt, Grows, FoundAt};

use crate::goal::{Goal, copy_of};
use crate::sets::has;
use flux_atom::Name;
use flux_auto::{Auto, Recipe};
use indexmap::IndexMap;
use std::alloc::{AllocError, Global};

// Goals, each with the place of a forest against it, if one was found, and how these forests are
// made. Of the goals before a number, those hold against which none was found.
#[derive(Drop)]
pub(crate) struct Table {
    pub(crate) goals: IndexMap<Goal, Option<usize>>,
    pub(crate) shown: Vec<Recipe>,
    pub(crate) settled: usize,
}

// A table without goals.
pub(crate) fn begin_table(alloc: Global) -> Table
    ensures goals { result.goals.entries ≡ [] }
    ensures shown { result.shown.items ≡ [] }
    ensures settled { result.settled ≡ 0 }
{
    Table {
        goals: IndexMap::new(alloc),
        shown: Vec::new(alloc),
        settled: 0,
    }
}

// What was found against the goal at a place.
pub(crate) fn found_at(table: &Table, place: usize) -> Option<usize>
    requires { place < length table.now.goals.entries }
    ensures { FoundAt table.now.goals.entries place result }
{
    match table.goals.get_index(place) {
        Some((_, found)) => *found,
        None => unreachable!(),
    }
}

// A copy of the goal at a place.
pub(crate) fn goal_at(alloc: Global, table: &Table, place: usize) -> Result<Goal, AllocError>
    requires { place < length table.now.goals.entries }
    ensures { IfOk result (λ goal. IsAt table.now.goals.entries place goal.left goal.right.items) }
{
    match table.goals.get_index(place) {
        Some((goal, _)) => {
            let left = goal.left;
            let right = copy_of(alloc, &goal.right)?;
            Ok(Goal { left, right })
        }
        None => unreachable!(),
    }
}

// The place of a goal, which is put into the table unless it is there.
pub(crate) fn intern(
    goals: &mut IndexMap<Goal, Option<usize>>,
    goal: Goal,
) -> Result<usize, AllocError>
    ensures kept { (goals.new.entries ≡ goals.old.entries)
        ⊎ (goals.new.entries ≡ goals.old.entries ++ (goal, None) ∷ []) }
    ensures there { IfOk result (λ i. IsAt goals.new.entries i goal.left goal.right.items) }
{
    if let Some(place) = goals.get_index_of(&goal) {
        return Ok(place);
    }
    let place = goals.len();
    goals.insert(goal, None)?;
    Ok(place)
}

// What was found against a goal, if anything. None else: it holds, or it is open.
pub(crate) fn ask(
    auto: &Auto,
    other: Name,
    table: &mut Table,
    left: u64,
    right: Vec<u64>,
) -> Result<Option<usize>, AllocError>
    requires table { IsTable auto.now.states other table.old.goals.entries table.old.shown.items }
    requires left { left < length auto.now.states }
    requires right { AllBelow (length auto.now.states) right.items }
    ensures table { IsTable auto.now.states other table.new.goals.entries table.new.shown.items }
    ensures asks { Asks table.old table.new }
    ensures asked { IfOk result (IsAsked auto.now.states table.new.goals.entries
        table.new.shown.items left right.items) }
{
    if has(&right, left) {
        return Ok(None);
    }
    let place = intern(&mut table.goals, Goal { left, right })?;
    Ok(found_at(table, place))
}

// Notes what was found against a goal.
pub(crate) fn mark(
    auto: &Auto,
    other: Name,
    table: &mut Table,
    place: usize,
    recipe: Recipe,
) -> Result<(), AllocError>
    requires table { IsTable auto.now.states other table.old.goals.entries table.old.shown.items }
    requires place { place < length table.old.goals.entries }
    requires found { IsFoundAt auto.now.states other table.old.goals.entries table.old.shown.items
        place recipe }
    ensures table { IsTable auto.now.states other table.new.goals.entries table.new.shown.items }
    ensures grows { Grows table.old.goals.entries table.new.goals.entries }
    ensures more { OnOk result
        (length table.new.shown.items ≡ length table.old.shown.items + 1) }
    ensures err { OnErr result (table.new.shown.items ≡ table.old.shown.items) }
    ensures settled { table.new.settled ≡ table.old.settled }
{
    let found = table.shown.len();
    table.shown.push(recipe)?;
    table.goals[place] = Some(found);
    Ok(())
}

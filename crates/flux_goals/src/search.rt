// The search for goals that fail.
ghost use Rattle.std.specs.Prelude.{◌≡◌, ◌<◌, ◌≤◌, ◌+◌, ◌*◌, ◌^◌, ℕ, length, IfOk, OnOk, IsTrue, IsFalse};
ghost use Rattle.flux_trees.specs.Hedge.{nil};
ghost use Rattle.flux_auto.specs.Going.{HasEdge, LacksEdge};
ghost use Rattle.flux_goals.specs.Goals.{AllBelow, Shows};
ghost use Rattle.flux_goals.specs.Table.{Asks, Searches, Grows, IsTable, IsElement, IsRight, IsTried, IsElementTried, AreTried, IsLooked, IsVisited, IsDriven, IsRound, IsDone, IsDecided};

use crate::after::{rests_of, some_ends, ways_of};
use crate::goal::{Element, Goal};
use crate::part::part;
use crate::sets::has;
use crate::table::{Table, ask, found_at, goal_at, intern, mark};
use flux_atom::Name;
use flux_auto::{Auto, Edge, Recipe};
use std::alloc::{AllocError, Global};

// How far a goal was looked at.
pub(crate) enum Looked {
    // A forest was found against it.
    Against(Recipe),
    // At this edge goals were added, which are to be visited before it.
    Stopped(usize),
    // No edge led to a forest against it.
    Over,
}

// How a goal was visited.
pub(crate) enum Visited {
    // A forest was found against it and noted.
    Found,
    // At this edge goals were added, which are to be visited before it.
    Left(usize),
    // There was nothing to be noted.
    Stood,
}

// A goal that is to be visited, by its place, from an edge of its left state on.
#[derive(Clone, Copy)]
pub(crate) struct Visit {
    pub(crate) place: usize,
    pub(crate) edge: usize,
}

// Looks for a forest that begins by the element.
fn try_element(
    alloc: Global,
    auto: &Auto,
    other: Name,
    table: &mut Table,
    element: &Element,
) -> Result<Option<Recipe>, AllocError>
    requires table { IsTable auto.now.states other table.old.goals.entries table.old.shown.items }
    requires element { IsElement (length auto.now.states) element.now }
    ensures table { IsTable auto.now.states other table.new.goals.entries table.new.shown.items }
    ensures asks { Asks table.old table.new }
    ensures tried { IfOk result (IsElementTried (length table.old.goals.entries) auto.now.states
        table.new.goals.entries table.new.shown.items element.now) }
{
    let Some((content, rest)) = part(alloc, auto, other, table, element)? else {
        return Ok(None);
    };
    Ok(Some(Recipe::Elem(element.label, content as u64, rest as u64)))
}

// Looks for a forest against a goal that begins by an edge of its left state. An element of any
// label has the label that no edge names: on the right an element of another label is taken at
// least where that one is.
fn try_edge(
    alloc: Global,
    auto: &Auto,
    other: Name,
    table: &mut Table,
    right: &[u64],
    edge: Edge,
) -> Result<Option<Recipe>, AllocError>
    requires table { IsTable auto.now.states other table.old.goals.entries table.old.shown.items }
    requires edge { (s : ℕ) × HasEdge auto.now.states s edge }
    requires right { AllBelow (length auto.now.states) right.now }
    ensures table { IsTable auto.now.states other table.new.goals.entries table.new.shown.items }
    ensures asks { Asks table.old table.new }
    ensures tried { IfOk result (λ found. (s : ℕ) → HasEdge auto.now.states s edge →
        IsTried (length table.old.goals.entries) auto.now.states other table.new.goals.entries
        table.new.shown.items s right.now edge found) }
{
    // each state that an edge names is the automaton's
    let _states = auto.states();
    match edge {
        Edge::Atom(kind, rest) => {
            let rests = rests_of(alloc, auto, right, kind)?;
            let Some(found) = ask(auto, other, table, rest, rests)? else {
                return Ok(None);
            };
            Ok(Some(Recipe::Atom(kind, found as u64)))
        }
        Edge::Elem(label, content, rest) => {
            let ways = ways_of(alloc, auto, right, label)?;
            let element = Element {
                label,
                content,
                rest,
                ways,
            };
            try_element(alloc, auto, other, table, &element)
        }
        Edge::AnyElem(content, rest) => {
            let ways = ways_of(alloc, auto, right, other)?;
            let element = Element {
                label: other,
                content,
                rest,
                ways,
            };
            try_element(alloc, auto, other, table, &element)
        }
    }
}

// Looks for a forest against a goal that begins by one of the edges of its left state from an edge
// on. It stops where a goal is added.
fn try_edges(
    alloc: Global,
    auto: &Auto,
    other: Name,
    table: &mut Table,
    goal: &Goal,
    from: usize,
) -> Result<Looked, AllocError>
    requires table { IsTable auto.now.states other table.old.goals.entries table.old.shown.items }
    requires left { goal.now.left < length auto.now.states }
    requires right { AllBelow (length auto.now.states) goal.now.right.items }
    ensures table { IsTable auto.now.states other table.new.goals.entries table.new.shown.items }
    ensures asks { Asks table.old table.new }
    ensures tried { IfOk result (AreTried (length table.old.goals.entries) auto.now.states other
        table.new.goals.entries table.new.shown.items goal.now from) }
{
    let before = table.goals.len();
    let edges = auto.edges(goal.left);
    for index in from..edges.len() {
        let tried = try_edge(alloc, auto, other, table, &goal.right, edges[index])?;
        if let Some(recipe) = tried {
            return Ok(Looked::Against(recipe));
        }
        if table.goals.len() > before {
            return Ok(Looked::Stopped(index));
        }
    }
    Ok(Looked::Over)
}

// Whether the empty forest is against a goal.
fn ends_against(auto: &Auto, goal: &Goal) -> bool
    requires left { goal.now.left < length auto.now.states }
    requires right { AllBelow (length auto.now.states) goal.now.right.items }
    ensures yes { IsTrue result → Shows auto.now.states goal.now.left goal.now.right.items nil }
    ensures no { IsFalse result →
        Shows auto.now.states goal.now.left goal.now.right.items nil → ⊥ }
{
    if !auto.ends(goal.left) {
        return false;
    }
    !some_ends(auto, &goal.right)
}

// Looks for a forest against a goal: the empty one, or one that begins by an edge from a place on.
fn look(
    alloc: Global,
    auto: &Auto,
    other: Name,
    table: &mut Table,
    goal: &Goal,
    from: usize,
) -> Result<Looked, AllocError>
    requires table { IsTable auto.now.states other table.old.goals.entries table.old.shown.items }
    requires left { goal.now.left < length auto.now.states }
    requires right { AllBelow (length auto.now.states) goal.now.right.items }
    ensures table { IsTable auto.now.states other table.new.goals.entries table.new.shown.items }
    ensures asks { Asks table.old table.new }
    ensures looked { IfOk result (IsLooked (length table.old.goals.entries) auto.now.states other
        table.new.goals.entries table.new.shown.items goal.now from) }
{
    if ends_against(auto, goal) {
        return Ok(Looked::Against(Recipe::End));
    }
    try_edges(alloc, auto, other, table, goal, from)
}

// Visits the goal at a place, from an edge on: looks for a forest against it and notes it.
fn make(
    alloc: Global,
    auto: &Auto,
    other: Name,
    table: &mut Table,
    visit: Visit,
) -> Result<Visited, AllocError>
    requires table { IsTable auto.now.states other table.old.goals.entries table.old.shown.items }
    requires place { visit.place < length table.old.goals.entries }
    ensures searches { Searches auto.now.states other table.old table.new }
    ensures visited { IfOk result (IsVisited auto.now.states other table.old table.new visit.place
        visit.edge) }
{
    if found_at(table, visit.place).is_some() {
        return Ok(Visited::Stood);
    }
    let goal = goal_at(alloc, table, visit.place)?;
    match look(alloc, auto, other, table, &goal, visit.edge)? {
        Looked::Over => Ok(Visited::Stood),
        Looked::Stopped(edge) => Ok(Visited::Left(edge)),
        Looked::Against(recipe) => {
            mark(auto, other, table, visit.place, recipe)?;
            Ok(Visited::Found)
        }
    }
}

// A goal is to be visited from an edge on, and before that the one that was added.
fn wait(stack: &mut Vec<Visit>, place: usize, edge: usize, added: usize) -> Result<(), AllocError>
    ensures { OnOk result (length stack.new.items ≡ length stack.old.items + 2) }
{
    stack.push(Visit { place, edge })?;
    stack.push(Visit {
        place: added,
        edge: 0,
    })?;
    Ok(())
}

// Makes a visit. If this adds a goal, that is to be visited next, and then it goes on.
fn step(
    alloc: Global,
    auto: &Auto,
    other: Name,
    table: &mut Table,
    stack: &mut Vec<Visit>,
    next: Visit,
) -> Result<(), AllocError>
    requires table { IsTable auto.now.states other table.old.goals.entries table.old.shown.items }
    ensures searches { Searches auto.now.states other table.old table.new }
    ensures work { OnOk result (length stack.new.items + 2 * length table.old.goals.entries
        ≤ length stack.old.items + 2 * length table.new.goals.entries) }
    ensures small { OnOk result (length table.new.goals.entries < 2 ^ 64) }
{
    if next.place >= table.goals.len() {
        return Ok(());
    }
    let made = make(alloc, auto, other, table, next)?;
    let count = table.goals.len();
    match made {
        Visited::Stood | Visited::Found => Ok(()),
        Visited::Left(edge) => wait(stack, next.place, edge, count - 1),
    }
}

// Makes the visits, the last first, and those of the goals that this adds, until something is found
// against the goal at a place.
fn go_deeper(
    alloc: Global,
    auto: &Auto,
    other: Name,
    table: &mut Table,
    mut stack: Vec<Visit>,
    asked: usize,
) -> Result<(), AllocError>
    requires table { IsTable auto.now.states other table.old.goals.entries table.old.shown.items }
    requires asked { asked < length table.old.goals.entries }
    ensures searches { Searches auto.now.states other table.old table.new }
{
    while let Some(next) = stack.pop() {
        if found_at(table, asked).is_some() {
            return Ok(());
        }
        step(alloc, auto, other, table, &mut stack, next)?;
    }
    Ok(())
}

// Visits the goal at a place, and if this adds goals, those too. Whether anything was added or
// found.
fn drive(
    alloc: Global,
    auto: &Auto,
    other: Name,
    table: &mut Table,
    place: usize,
    asked: usize,
) -> Result<bool, AllocError>
    requires table { IsTable auto.now.states other table.old.goals.entries table.old.shown.items }
    requires place { place < length table.old.goals.entries }
    requires asked { asked < length table.old.goals.entries }
    ensures searches { Searches auto.now.states other table.old table.new }
    ensures driven { IfOk result (IsDriven auto.now.states other table.old table.new place) }
{
    match make(alloc, auto, other, table, Visit { place, edge: 0 })? {
        Visited::Stood => Ok(false),
        Visited::Found => Ok(true),
        Visited::Left(edge) => {
            let mut stack = Vec::new(alloc);
            wait(&mut stack, place, edge, table.goals.len() - 1)?;
            go_deeper(alloc, auto, other, table, stack, asked)?;
            Ok(true)
        }
    }
}

// Goes over the goals that aren't settled, and those that this adds. Whether anything was added or
// found.
fn round(
    alloc: Global,
    auto: &Auto,
    other: Name,
    table: &mut Table,
    asked: usize,
) -> Result<bool, AllocError>
    requires table { IsTable auto.now.states other table.old.goals.entries table.old.shown.items }
    requires asked { asked < length table.old.goals.entries }
    ensures searches { Searches auto.now.states other table.old table.new }
    ensures round { IfOk result (IsRound auto.now.states other table.old table.new) }
    ensures small { OnOk result (length table.new.goals.entries < 2 ^ 64) }
{
    let mut more = false;
    let mut place = table.settled;
    while place < table.goals.len() {
        if drive(alloc, auto, other, table, place, asked)? {
            more = true;
        }
        place += 1;
    }
    Ok(more)
}

// Settles all goals, unless that at a place is settled already or something is found against it.
// Those that are settled stay so, also where this fails.
fn settle(
    alloc: Global,
    auto: &Auto,
    other: Name,
    table: &mut Table,
    asked: usize,
) -> Result<(), AllocError>
    requires right { IsRight auto.now.states other table.old }
    requires lacks { LacksEdge auto.now.states other }
    requires asked { asked < length table.old.goals.entries }
    ensures right { IsRight auto.now.states other table.new }
    ensures grows { Grows table.old.goals.entries table.new.goals.entries }
    ensures done { OnOk result (IsDone table.new asked) }
{
    while table.settled <= asked && found_at(table, asked).is_none() {
        if !round(alloc, auto, other, table, asked)? {
            table.settled = table.goals.len();
        }
    }
    Ok(())
}

// Decides a goal: none where it holds, and else the place of a forest against it.
pub(crate) fn decide(
    alloc: Global,
    auto: &Auto,
    other: Name,
    table: &mut Table,
    goal: Goal,
) -> Result<Option<usize>, AllocError>
    requires right { IsRight auto.now.states other table.old }
    requires lacks { LacksEdge auto.now.states other }
    requires left { goal.left < length auto.now.states }
    requires states { AllBelow (length auto.now.states) goal.right.items }
    ensures right { IsRight auto.now.states other table.new }
    ensures decided { IfOk result (IsDecided auto.now.states table.new.shown.items goal.left
        goal.right.items) }
{
    if has(&goal.right, goal.left) {
        return Ok(None);
    }
    let asked = intern(&mut table.goals, goal)?;
    settle(alloc, auto, other, table, asked)?;
    Ok(found_at(table, asked))
}

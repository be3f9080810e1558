// Forests for states, found along the edges: an edge is tried again when a state that it goes to
// has got one.
ghost use Rattle.std.specs.Prelude.{IfOk, IfSome, OnOk, map};
ghost use Rattle.flux_auto.specs.Built.{state_of};
ghost use Rattle.flux_auto.specs.Witness.{IsEdgeOf, Knows, Settled, IsTakenBy};

use crate::Edge;
use crate::recipe::build;
use crate::table::Row;
use crate::witness::{Witnesses, add_more, add_one, edge_recipe, keep, no_places, place_of};
use flux_atom::Name;
use flux_forest::Forest;
use std::alloc::{AllocError, Global};

// An edge, by its state and its place among the edges of that state.
#[derive(Clone, Copy)]
struct Step {
    state: usize,
    edge: usize,
}

fn add_step(steps: &mut [Vec<Step>], target: u64, step: &Step) -> Result<(), AllocError> {
    if let Some(others) = steps.get_mut(target as usize) {
        others.push(*step)?;
    }
    Ok(())
}

fn add_steps(steps: &mut [Vec<Step>], state: usize, edges: &[Edge]) -> Result<(), AllocError> {
    for index in 0..edges.len() {
        let step = Step { state, edge: index };
        match &edges[index] {
            Edge::Atom(_, next) => add_step(steps, *next, &step)?,
            Edge::Elem(_, content, next) | Edge::AnyElem(content, next) => {
                add_step(steps, *content, &step)?;
                add_step(steps, *next, &step)?;
            }
        }
    }
    Ok(())
}

fn no_steps(alloc: Global, count: usize) -> Result<Vec<Vec<Step>>, AllocError> {
    let mut steps = Vec::new(alloc);
    for _ in 0..count {
        steps.push(Vec::new(alloc))?;
    }
    Ok(steps)
}

// Of each state, the edges that go to it.
fn steps_to(alloc: Global, rows: &[Row]) -> Result<Vec<Vec<Step>>, AllocError> {
    let mut steps = no_steps(alloc, rows.len())?;
    for state in 0..rows.len() {
        add_steps(&mut steps, state, rows[state].edges.as_slice())?;
    }
    Ok(steps)
}

fn edge_at<'a>(rows: &'a [Row], step: &Step) -> Option<&'a Edge>
    ensures { IfSome result (λ edge. IsEdgeOf rows.now step.now.state edge.now) }
{
    let row = rows.get(step.state)?;
    row.edges.get(step.edge)
}

// Finds a forest for the state of an edge, if it has none and the edge gives one, and tells whether
// it did.
fn try_step(
    rows: &[Row],
    other: Name,
    known: &mut Witnesses,
    step: &Step,
) -> Result<bool, AllocError>
    requires { Knows rows.now other known.old }
    ensures { OnOk result (Knows rows.now other known.new) }
{
    let Some(edge) = edge_at(rows, step) else {
        return Ok(false);
    };
    if place_of(&known.places, step.state as u64).is_some() {
        return Ok(false);
    }
    let Some(recipe) = edge_recipe(edge, other, &known.places) else {
        return Ok(false);
    };
    keep(known, step.state, recipe)?;
    Ok(true)
}

// Tries edges, and adds the states for which they gave a forest.
fn try_steps(
    rows: &[Row],
    other: Name,
    known: &mut Witnesses,
    steps: &[Step],
    found: &mut Vec<usize>,
) -> Result<(), AllocError>
    requires { Knows rows.now other known.old }
    ensures { OnOk result (Knows rows.now other known.new) }
{
    for step in steps {
        if try_step(rows, other, known, step)? {
            found.push(step.state)?;
        }
    }
    Ok(())
}

// Tries each state once, and tells for which that gave a forest.
fn try_states(
    alloc: Global,
    rows: &[Row],
    other: Name,
    known: &mut Witnesses,
) -> Result<Vec<usize>, AllocError>
    requires { Knows rows.now other known.old }
    ensures { OnOk result (Knows rows.now other known.new) }
{
    let mut found = Vec::new(alloc);
    for state in 0..rows.len() {
        if add_one(rows, other, known, state)? {
            found.push(state)?;
        }
    }
    Ok(found)
}

// Tries each state once, and then the edges that go to each state that has got a forest.
fn find_along(
    alloc: Global,
    rows: &[Row],
    other: Name,
    known: &mut Witnesses,
) -> Result<(), AllocError>
    requires { Knows rows.now other known.old }
    ensures { OnOk result (Knows rows.now other known.new) }
{
    let steps = steps_to(alloc, rows)?;
    let mut found = try_states(alloc, rows, other, known)?;
    for place in 0..rows.len() {
        let Some(state) = found.get(place).copied() else {
            break;
        };
        if let Some(steps) = steps.get(state) {
            try_steps(rows, other, known, steps, &mut found)?;
        }
    }
    Ok(())
}

// Forests of all states that take one. What is found along the edges leaves nothing to the rounds,
// of which the last sees that nothing is left.
pub(crate) fn find_witnesses(
    alloc: Global,
    rows: &[Row],
    other: Name,
) -> Result<Witnesses, AllocError>
    ensures knows { IfOk result (Knows rows.now other) }
    ensures settled { IfOk result (λ known. Settled rows.now other known.places.items) }
{
    let places = no_places(alloc, rows)?;
    let recipes = Vec::new(alloc);
    let mut known = Witnesses { recipes, places };
    find_along(alloc, rows, other, &mut known)?;
    while add_more(rows, other, &mut known)? {}
    Ok(known)
}

// A forest that a state takes, if it takes one.
pub(crate) fn some_of(
    alloc: Global,
    rows: &[Row],
    other: Name,
    state: u64,
) -> Result<Option<Forest>, AllocError>
    ensures { IfOk result (IsTakenBy (map state_of rows.now) other state) }
{
    let known = find_witnesses(alloc, rows, other)?;
    let Some(place) = place_of(&known.places, state) else {
        return Ok(None);
    };
    let forest = build(alloc, &known.recipes, place)?;
    Ok(Some(forest))
}

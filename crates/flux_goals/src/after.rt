// How states go on.
ghost use Rattle.std.specs.Prelude.{◌≡◌, ◌<◌, ℕ, true, length, IfOk, OnOk, IsTrue, IsFalse};
ghost use Rattle.flux_trees.specs.Hedge.{nil};
ghost use Rattle.flux_auto.specs.Takes.{takes};
ghost use Rattle.flux_auto.specs.Going.{Has};
ghost use Rattle.flux_goals.specs.Goals.{AllBelow, NoneTakes, ByAtom, ByElement, AreRests, AreWays};
ghost use Rattle.flux_goals.specs.Table.{AddsBy, AddsEdge};

use crate::goal::Way;
use crate::sets::insert;
use flux_atom::{AtomKind, Name};
use flux_auto::{Auto, Edge};
use std::alloc::{AllocError, Global};

fn add_rest(edge: &Edge, kind: AtomKind, rests: &mut Vec<u64>) -> Result<(), AllocError>
    ensures { OnOk result (AddsEdge (ByAtom kind) edge.now rests.old.items rests.new.items) }
{
    match edge {
        Edge::Atom(found, rest) => {
            if *found == kind {
                insert(rests, *rest)?;
            }
        }
        Edge::Elem(_, _, _) | Edge::AnyElem(_, _) => {}
    }
    Ok(())
}

fn add_rests(edges: &[Edge], kind: AtomKind, rests: &mut Vec<u64>) -> Result<(), AllocError>
    ensures { OnOk result
        (AddsBy (ByAtom kind) edges.now (length edges.now) rests.old.items rests.new.items) }
{
    for index in 0..edges.len() {
        add_rest(&edges[index], kind, rests)?;
    }
    Ok(())
}

// What states go on to by an atom of a kind.
pub(crate) fn rests_of(
    alloc: Global,
    auto: &Auto,
    right: &[u64],
    kind: AtomKind,
) -> Result<Vec<u64>, AllocError>
    requires { AllBelow (length auto.now.states) right.now }
    ensures { IfOk result (λ rests. AreRests auto.now.states kind right.now rests.items) }
{
    let mut rests = Vec::new(alloc);
    for index in 0..right.len() {
        add_rests(auto.edges(right[index]), kind, &mut rests)?;
    }
    Ok(rests)
}

fn add_way(edge: &Edge, label: Name, ways: &mut Vec<Way>) -> Result<(), AllocError>
    ensures { OnOk result (AddsEdge (ByElement label) edge.now ways.old.items ways.new.items) }
{
    match edge {
        Edge::Atom(_, _) => {}
        Edge::Elem(found, content, rest) => {
            if *found == label {
                let (content, rest) = (*content, *rest);
                ways.push(Way { content, rest })?;
            }
        }
        Edge::AnyElem(content, rest) => {
            let (content, rest) = (*content, *rest);
            ways.push(Way { content, rest })?;
        }
    }
    Ok(())
}

fn add_ways(edges: &[Edge], label: Name, ways: &mut Vec<Way>) -> Result<(), AllocError>
    ensures { OnOk result
        (AddsBy (ByElement label) edges.now (length edges.now) ways.old.items ways.new.items) }
{
    for index in 0..edges.len() {
        add_way(&edges[index], label, ways)?;
    }
    Ok(())
}

// The ways that states go on by with an element of a label.
pub(crate) fn ways_of(
    alloc: Global,
    auto: &Auto,
    right: &[u64],
    label: Name,
) -> Result<Vec<Way>, AllocError>
    requires { AllBelow (length auto.now.states) right.now }
    ensures { IfOk result (λ ways. AreWays auto.now.states label right.now ways.items) }
{
    let mut ways = Vec::new(alloc);
    for index in 0..right.len() {
        add_ways(auto.edges(right[index]), label, &mut ways)?;
    }
    Ok(ways)
}

// Whether one of the states takes the empty forest.
pub(crate) fn some_ends(auto: &Auto, right: &[u64]) -> bool
    requires { AllBelow (length auto.now.states) right.now }
    ensures yes { IsTrue result → (t : ℕ) × Has right.now t × (takes auto.now.states t nil ≡ true) }
    ensures no { IsFalse result → NoneTakes auto.now.states right.now nil }
{
    for index in 0..right.len() {
        if auto.ends(right[index]) {
            return true;
        }
    }
    false
}

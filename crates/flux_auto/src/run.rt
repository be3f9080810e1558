// Whether a state takes a forest.
ghost use Rattle.std.specs.Prelude.{◌≡◌, ◌<◌, length, IfOk, map};
ghost use Rattle.flux_forest.specs.View.{forest_of};
ghost use Rattle.flux_auto.specs.Takes.{profile, takes};
ghost use Rattle.flux_auto.specs.Arcs.{IsIndex};
ghost use Rattle.flux_auto.specs.Built.{state_of};
ghost use Rattle.flux_auto.specs.Folding.{AreTrees};
ghost use Rattle.flux_auto.specs.Profiles.{AreRight, profile_at, profiles_of};

use crate::arcs::Arcs;
use crate::part::part_of;
use crate::profiles::{NOTHING, Profiles, Turn, after, begin_profiles, set_at};
use crate::sets::arcs_of;
use crate::table::Row;
use flux_atom::{Name, kind};
use flux_forest::{First, View};
use std::alloc::{AllocError, Global};

// The trees of a run, in order.
fn trees_of<'a>(alloc: Global, run: View<'a>) -> Result<Vec<View<'a>>, AllocError>
    ensures { IfOk result (λ trees. AreTrees (forest_of run.entry) trees.items) }
{
    let mut trees = Vec::new(alloc);
    let mut rest = run;
    while !rest.is_empty() {
        let (first, others) = rest.split();
        trees.push(first)?;
        rest = others;
    }
    Ok(trees)
}

// An element that is open: its label, the trees before it that are still to come, and the number of
// the profile of what stands behind it.
#[derive(Drop)]
pub(crate) struct Open<'a> {
    pub(crate) label: Name,
    pub(crate) trees: Vec<View<'a>>,
    pub(crate) rest: usize,
}

// The number of the profile of a forest. The trees are gone over from the last to the first, at
// each level.
fn number_of(
    alloc: Global,
    rows: &[Row],
    arcs: &Arcs,
    profiles: &mut Profiles,
    run: View<'_>,
) -> Result<usize, AllocError>
    requires index { IsIndex (map state_of rows.now) arcs.now }
    requires right { AreRight (map state_of rows.now) profiles.old }
    ensures there { IfOk result (λ n. n < length (profiles_of profiles.new)) }
    ensures profile { IfOk result (λ n.
        profile_at (profiles_of profiles.new) n
        ≡ profile (map state_of rows.now) (forest_of run.entry)) }
{
    let mut outer: Vec<Open<'_>> = Vec::new(alloc);
    let mut trees = trees_of(alloc, run)?;
    let mut rest = NOTHING;
    loop {
        match trees.pop() {
            Some(tree) => match tree.first() {
                First::Nothing => unreachable!(),
                First::Atom(atom) => {
                    let turn = Turn::Atom(kind(atom), rest);
                    rest = after(alloc, rows, arcs, profiles, turn)?;
                }
                First::Elem(label) => {
                    let content = trees_of(alloc, tree.content())?;
                    outer.push(Open { label, trees, rest })?;
                    trees = content;
                    rest = NOTHING;
                }
            },
            None => match outer.pop() {
                Some(open) => {
                    let turn = Turn::Elem(open.label, rest, open.rest);
                    rest = after(alloc, rows, arcs, profiles, turn)?;
                    trees = open.trees;
                }
                None => return Ok(rest),
            },
        }
    }
}

// Whether a state takes a forest, found in the part of the automaton that it leads to.
pub(crate) fn is_taken(
    alloc: Global,
    rows: &[Row],
    state: u64,
    run: View<'_>,
) -> Result<bool, AllocError>
    ensures { IfOk result
        (λ taken. taken ≡ takes (map state_of rows.now) state (forest_of run.entry)) }
{
    let part = part_of(alloc, rows, &[state])?;
    let reached = part.as_slice();
    let arcs = arcs_of(alloc, reached)?;
    let mut profiles = begin_profiles(alloc, reached)?;
    let number = number_of(alloc, reached, &arcs, &mut profiles, run)?;
    Ok(set_at(&profiles, number).has(0))
}

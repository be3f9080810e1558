// The search for a forest that one state takes and another doesn't.
ghost use Rattle.std.specs.Prelude.{◌≡◌, ◌↔◌, ◌<◌, ◌≤◌, ◌+◌, ℕ, length, replicate, IfOk, OnOk, IfSome, IfNone, IsTrue, true, false};
ghost use Rattle.flux_auto.specs.Takes.{has};
ghost use Rattle.flux_auto.specs.Arcs.{IsIndex, fired};
ghost use Rattle.flux_auto.specs.Going.{LacksEdge};
ghost use Rattle.flux_subtype.specs.Kept.{set_at, AreKept};
ghost use Rattle.flux_subtype.specs.Search.{MovesBy, AreTrees, AnsweredBelow, Puts, Fills, FillsAll, IsDone, LabelsGrow, Turned, IsAgainst, IsFound, IsAnswer, IsUsed, recipe_of};

use crate::kept::{keep, recipes_of, set_at};
use crate::trees::{Head, add_elements, add_tree};
use flux_atom::{AtomKind, Name};
use flux_auto::{Arcs, Auto, Leap, Part, Recipe, Set, build, fired};
use flux_forest::Forest;
use indexmap::IndexMap;
use std::alloc::{AllocError, Global};
use std::ops::Range;

// Whether no state takes a tree that goes by the edges before a rest with the profile.
fn is_silent(leaps: &[Leap], rest: &Set) -> bool
    ensures { IsTrue result → (n : ℕ) → fired n leaps.now rest.now ≡ replicate n false }
{
    for leap in leaps {
        if rest.has(leap.next) {
            return false;
        }
    }
    true
}

fn recipe(head: Head, rest: usize) -> Recipe
    ensures { result ≡ recipe_of head rest }
{
    match head {
        Head::Atom(kind) => Recipe::Atom(kind, rest as u64),
        Head::Elem(label, content) => Recipe::Elem(label, content as u64, rest as u64),
    }
}

// Keeps the profile of a tree and a rest, if some state takes them.
fn put(
    alloc: Global,
    part: &Part,
    kept: &mut IndexMap<Set, Recipe>,
    head: &Head,
    leaps: &[Leap],
    rest: usize,
) -> Result<(), AllocError>
    requires kept { AreKept part.now kept.old.entries }
    requires tree { MovesBy part.now kept.old.entries head.now leaps.now }
    requires rest { rest < length kept.old.entries }
    ensures { OnOk result (Puts part.now kept.old.entries kept.new.entries head.now leaps.now
        (set_at kept.old.entries rest)) }
{
    let behind = set_at(kept, rest);
    if is_silent(leaps, behind) {
        return Ok(());
    }
    let set = fired(alloc, part.states() as usize, leaps, behind)?;
    keep(kept, set, recipe(*head, rest))?;
    Ok(())
}

// Keeps the profiles of a tree before each of a range of profiles.
fn fill(
    alloc: Global,
    part: &Part,
    kept: &mut IndexMap<Set, Recipe>,
    head: &Head,
    leaps: &[Leap],
    rests: Range<usize>,
) -> Result<(), AllocError>
    requires kept { AreKept part.now kept.old.entries }
    requires tree { MovesBy part.now kept.old.entries head.now leaps.now }
    requires from { rests.start ≤ rests.end }
    requires to { rests.end ≤ length kept.old.entries }
    ensures { OnOk result (Fills part.now kept.old.entries kept.new.entries head.now leaps.now
        rests.start rests.end) }
{
    for rest in rests.start..rests.end {
        put(alloc, part, kept, head, leaps, rest)?;
    }
    Ok(())
}

// What the search has found: profiles, each with a recipe, and trees, each by its edges.
#[derive(Drop)]
struct Found {
    kept: IndexMap<Set, Recipe>,
    trees: IndexMap<Vec<Leap>, Head>,
}

// Keeps the profiles of each tree before each profile up to one, where those of the trees that were
// there before and of earlier profiles are kept.
fn fill_all(
    alloc: Global,
    part: &Part,
    found: &mut Found,
    before: usize,
    done: usize,
) -> Result<(), AllocError>
    requires kept { AreKept part.now found.old.kept.entries }
    requires trees { AreTrees part.now found.old.kept.entries found.old.trees.entries }
    requires done { done < length found.old.kept.entries }
    requires answered { AnsweredBelow part.now found.old.kept.entries found.old.trees.entries before done }
    ensures trees { OnOk result (found.new.trees.entries ≡ found.old.trees.entries) }
    ensures fills { OnOk result
        (FillsAll part.now found.old.kept.entries found.new.kept.entries found.old.trees.entries
        done (length found.old.trees.entries)) }
{
    prove!(done < found.kept.len());
    for index in 0..found.trees.len() {
        let from = if index < before { done } else { 0 };
        let Some((leaps, head)) = found.trees.get_index(index) else {
            unreachable!()
        };
        fill(alloc, part, &mut found.kept, head, leaps, from..done + 1)?;
    }
    Ok(())
}

// Takes up a profile: as the content of elements, and behind every tree.
fn turn(
    alloc: Global,
    part: &Part,
    arcs: &Arcs,
    other: Name,
    found: &mut Found,
    done: usize,
) -> Result<(), AllocError>
    requires so_far { IsDone part.now found.old.kept.entries found.old.trees.entries done }
    requires arcs { IsIndex part.now arcs.now }
    requires lacks { LacksEdge part.now other }
    requires done { done < length found.old.kept.entries }
    ensures { OnOk result
        (Turned part.now other found.old.kept.entries found.new.kept.entries
        found.old.trees.entries found.new.trees.entries done) }
{
    let before = found.trees.len();
    let set = set_at(&found.kept, done);
    add_elements(alloc, arcs, other, set, done, &mut found.trees)?;
    fill_all(alloc, part, found, before, done)?;
    Ok(())
}

fn is_against(set: &Set, left: u64, right: u64) -> bool
    ensures { IsTrue result ↔ ((has set.now left ≡ true) × (has set.now right ≡ false)) }
{
    set.has(left) && !set.has(right)
}

// The first profile from an index on that has the left state and lacks the right one.
fn against(kept: &IndexMap<Set, Recipe>, from: usize, left: u64, right: u64) -> Option<usize>
    ensures some { IfSome result
        (λ i. (i < length kept.now.entries) × IsAgainst kept.now.entries left right i) }
    ensures none { IfNone result ((i : ℕ) → from ≤ i → i < length kept.now.entries
        → IsAgainst kept.now.entries left right i → ⊥) }
{
    for index in from..kept.len() {
        if is_against(set_at(kept, index), left, right) {
            return Some(index);
        }
    }
    None
}

// Takes up the profiles one after another, until one is against the inclusion or none is left.
fn saturate(
    alloc: Global,
    part: &Part,
    arcs: &Arcs,
    other: Name,
    left: u64,
    right: u64,
    found: &mut Found,
) -> Result<Option<usize>, AllocError>
    requires begun { IsDone part.now found.old.kept.entries found.old.trees.entries 0 }
    requires arcs { IsIndex part.now arcs.now }
    requires lacks { LacksEdge part.now other }
    ensures found { IfOk result (IsFound part.now found.new.kept.entries left right) }
    ensures labels { IfOk result
        (λ _. LabelsGrow part.now other found.old.kept.entries found.old.trees.entries
        found.new.kept.entries found.new.trees.entries) }
{
    let mut done = 0;
    let mut seen = 0;
    while done < found.kept.len() {
        if let Some(index) = against(&found.kept, seen, left, right) {
            return Ok(Some(index));
        }
        seen = found.kept.len();
        turn(alloc, part, arcs, other, found, done)?;
        done += 1;
    }
    Ok(None)
}

// The trees that are atoms, and the profile of the empty forest.
fn begin(alloc: Global, part: &Part, arcs: &Arcs) -> Result<Found, AllocError>
    requires { IsIndex part.now arcs.now }
    ensures done { IfOk result (λ found. IsDone part.now found.kept.entries found.trees.entries 0) }
    ensures bare { IfOk result
        (λ found. (n : ℕ) → IsUsed found.kept.entries found.trees.entries n → ⊥) }
{
    let mut kept = IndexMap::new(alloc);
    keep(&mut kept, part.nothing(alloc)?, Recipe::End)?;
    let mut trees = IndexMap::new(alloc);
    let (bool, text, int) = (AtomKind::Bool, AtomKind::Text, AtomKind::Int);
    add_tree(
        &mut trees,
        Head::Atom(bool),
        arcs.for_kind(bool).to_vec(alloc)?,
    )?;
    add_tree(
        &mut trees,
        Head::Atom(text),
        arcs.for_kind(text).to_vec(alloc)?,
    )?;
    add_tree(
        &mut trees,
        Head::Atom(int),
        arcs.for_kind(int).to_vec(alloc)?,
    )?;
    Ok(Found { kept, trees })
}

// A forest that the left state takes and the right one doesn't, if there is one.
pub(crate) fn search(
    alloc: Global,
    auto: &Auto,
    other: Name,
    left: u64,
    right: u64,
) -> Result<Option<Forest>, AllocError>
    requires { LacksEdge auto.now.states other }
    ensures { IfOk result (IsAnswer auto.now.states other left right) }
{
    let part = auto.part(alloc, &[left, right])?;
    let arcs = part.arcs(alloc)?;
    let mut found = begin(alloc, &part, &arcs)?;
    let Some(place) = saturate(alloc, &part, &arcs, other, 0, 1, &mut found)? else {
        return Ok(None);
    };
    let recipes = recipes_of(alloc, &found.kept)?;
    let forest = build(alloc, &recipes, place as u64)?;
    Ok(Some(forest))
}

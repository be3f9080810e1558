// Forests that states take, each told by a tree and the forests behind it that were found before.
ghost use Rattle.std.specs.Prelude.{◌≡◌, ◌<◌, ◌++◌, ◌∷◌, [], ℕ, Some, None, length, set, slice_get, slice_index_or, IfOk, IfSome, IfNone, OnOk};
ghost use Rattle.flux_auto.specs.Witness.{place, element_by, recipe_by, IsRecipe, Lacks, Tried, Round, Knows};

use crate::Edge;
use crate::recipe::Recipe;
use crate::table::Row;
use flux_atom::Name;
use std::alloc::{AllocError, Global};

// The forests that were found, and of each state the place of one that it takes.
#[derive(Drop)]
pub(crate) struct Witnesses {
    pub(crate) recipes: Vec<Recipe>,
    pub(crate) places: Vec<Option<u64>>,
}

pub(crate) fn place_of(places: &[Option<u64>], state: u64) -> Option<u64>
    ensures { result ≡ place places.now state }
{
    match places.get(state as usize) {
        Some(found) => *found,
        None => None,
    }
}

fn element_recipe(label: Name, content: u64, next: u64, places: &[Option<u64>]) -> Option<Recipe>
    ensures { result ≡ element_by places.now label content next }
{
    let content = place_of(places, content)?;
    let next = place_of(places, next)?;
    Some(Recipe::Elem(label, content, next))
}

// An element of any label is shown by one with the label `other`.
pub(crate) fn edge_recipe(edge: &Edge, other: Name, places: &[Option<u64>]) -> Option<Recipe>
    ensures { result ≡ recipe_by other places.now edge.now }
{
    match edge {
        Edge::Atom(kind, next) => {
            let next = place_of(places, *next)?;
            Some(Recipe::Atom(*kind, next))
        }
        Edge::Elem(label, content, next) => element_recipe(*label, *content, *next, places),
        Edge::AnyElem(content, next) => element_recipe(other, *content, *next, places),
    }
}

fn recipe_of(row: &Row, other: Name, places: &[Option<u64>]) -> Option<Recipe>
    ensures found { IfSome result (IsRecipe row.now other places.now) }
    ensures none { IfNone result (Lacks row.now other places.now) }
{
    if row.ends {
        return Some(Recipe::End);
    }
    let edges = row.edges.as_slice();
    for edge in edges {
        if let Some(recipe) = edge_recipe(edge, other, places) {
            return Some(recipe);
        }
    }
    None
}

// Gives a state the place of a recipe, which is put last.
pub(crate) fn keep(known: &mut Witnesses, state: usize, recipe: Recipe) -> Result<(), AllocError>
    requires { state < length known.old.places.items }
    ensures recipes { OnOk result
        (known.new.recipes.items ≡ known.old.recipes.items ++ recipe ∷ []) }
    ensures places { OnOk result (known.new.places.items
        ≡ set known.old.places.items state (Some (length known.old.recipes.items))) }
{
    let place = known.recipes.len() as u64;
    known.recipes.push(recipe)?;
    known.places[state] = Some(place);
    Ok(())
}

// Finds a forest for a state that has none, and tells whether it did.
pub(crate) fn add_one(
    rows: &[Row],
    other: Name,
    known: &mut Witnesses,
    state: usize,
) -> Result<bool, AllocError>
    requires knows { Knows rows.now other known.old }
    requires within { state < length rows.now }
    ensures { IfOk result (Tried rows.now other known.old known.new state) }
{
    if place_of(&known.places, state as u64).is_some() {
        return Ok(false);
    }
    let Some(recipe) = recipe_of(&rows[state], other, &known.places) else {
        return Ok(false);
    };
    keep(known, state, recipe)?;
    Ok(true)
}

// A round: tries each state once, and tells whether one got a forest.
pub(crate) fn add_more(rows: &[Row], other: Name, known: &mut Witnesses) -> Result<bool, AllocError>
    requires { Knows rows.now other known.old }
    ensures { IfOk result (Round rows.now other known.old known.new (length rows.now)) }
{
    let mut more = false;
    for state in 0..rows.len() {
        if add_one(rows, other, known, state)? {
            more = true;
        }
    }
    Ok(more)
}

pub(crate) fn no_places(alloc: Global, rows: &[Row]) -> Result<Vec<Option<u64>>, AllocError>
    ensures len { IfOk result (λ places. length places.items ≡ length rows.now) }
    ensures none { IfOk result (λ places. (s : ℕ) → place places.items s ≡ None) }
{
    let mut places = Vec::new(alloc);
    for _row in rows {
        places.push(None)?;
    }
    Ok(places)
}

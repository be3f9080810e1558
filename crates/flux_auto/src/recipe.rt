// Forests that are told by recipes, and built of them.
ghost use Rattle.std.specs.Prelude.{◌≡◌, ◌<◌, Some, length, slice_get, IfOk};
ghost use Rattle.flux_trees.specs.Draft.{done};
ghost use Rattle.flux_auto.specs.Witness.{sample, AreOlder, forests, forest_at};

use flux_atom::{Atom, AtomKind, Name, Word};
use flux_forest::Forest;
use std::alloc::{AllocError, Global};

/// How a forest is made: it is empty, or a tree and a rest. The rest, and the content of an
/// element, are the forests of other recipes, by their places in a list.
#[derive(Clone, Copy, Debug)]
pub enum Recipe {
    End,
    Atom(AtomKind, u64),
    Elem(Name, u64, u64),
}

fn sample(alloc: Global, kind: AtomKind) -> Result<Atom, AllocError>
    ensures { IfOk result (λ atom. atom ≡ sample kind) }
{
    match kind {
        AtomKind::Bool => Ok(Atom::Bool(false)),
        AtomKind::Text => {
            let empty = Word::of(alloc, "")?;
            Ok(Atom::Text(empty))
        }
        AtomKind::Int => Ok(Atom::Int(0)),
    }
}

fn recipe_at(recipes: &[Recipe], index: u64) -> Recipe
    requires { index < length recipes.now }
    ensures { slice_get recipes.now index ≡ Some result }
{
    recipes[index as usize]
}

// What is still to be written: a forest, or the end of an element.
#[derive(Clone, Copy)]
enum Task {
    Write(u64),
    Close,
}

/// The forest of the recipe at a place, of recipes that name earlier ones. An atom is the simplest
/// of its kind. The forest may be exponentially larger than the list.
pub fn build(alloc: Global, recipes: &[Recipe], start: u64) -> Result<Forest, AllocError>
    requires older { AreOlder recipes.now }
    requires there { start < length recipes.now }
    ensures { IfOk result (λ forest. forest ≡ done (forest_at (forests recipes.now) start)) }
{
    let mut forest = Forest::new(alloc);
    let mut tasks = Vec::new(alloc);
    tasks.push(Task::Write(start))?;
    while let Some(task) = tasks.pop() {
        match task {
            Task::Close => forest.end_element(),
            Task::Write(index) => match recipe_at(recipes, index) {
                Recipe::End => {}
                Recipe::Atom(kind, next) => {
                    tasks.push(Task::Write(next))?;
                    forest.push_atom(sample(alloc, kind)?)?;
                }
                Recipe::Elem(label, content, next) => {
                    tasks.push(Task::Write(next))?;
                    tasks.push(Task::Close)?;
                    tasks.push(Task::Write(content))?;
                    forest.begin_element(label)?;
                }
            },
        }
    }
    Ok(forest)
}

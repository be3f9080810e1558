// The elements on a path deleted.
ghost use Rattle.std.specs.Prelude.{◌≡◌, ◌≢◌, ◌<◌, [], length, IfOk, OnOk, OnErr};
ghost use Rattle.flux_trees.specs.Hedge.{Plain, nil, first, others};
ghost use Rattle.flux_trees.specs.Draft.{done, add};
ghost use Rattle.flux_forest.specs.View.{forest_of};
ghost use Rattle.flux_calculus.specs.Derives.{Derives};
ghost use Rattle.flux_top.specs.Paths.{standard, delete_on};

use flux_atom::Name;
use flux_forest::{First, Forest, View};
use std::alloc::{AllocError, Global};

/// The run without the elements on the path: those with its last label, each inside one with the
/// label before it, and so on up to its first label at the top.
pub fn deleted(alloc: Global, view: View<'_>, path: &[Name]) -> Result<Forest, AllocError>
    requires { 0 < length path.now }
    ensures { IfOk result (λ forest. (w : Plain) × (forest ≡ done w)
        × Derives [] standard [] (forest_of view.entry) (delete_on path.now) w) }
{
    let mut result = Forest::new(alloc);
    // what is left at this level, and at each level around it, innermost last
    let mut rest = view;
    let mut outer: Vec<View<'_>> = Vec::new(alloc);
    loop {
        match rest.first() {
            First::Nothing => {
                let Some(run) = outer.pop() else {
                    return Ok(result);
                };
                result.end_element();
                rest = run;
            }
            First::Elem(name) => {
                if name != path[outer.len()] {
                    rest = keep_first(rest, &mut result)?;
                } else {
                    let (element, others) = rest.split();
                    if outer.len() + 1 == path.len() {
                        rest = others;
                    } else {
                        result.begin_element(name)?;
                        outer.push(others)?;
                        rest = element.content();
                    }
                }
            }
            First::Atom(_) => rest = keep_first(rest, &mut result)?,
        }
    }
}

// Copies the first tree of the run, and gives those behind it.
fn keep_first<'v>(run: View<'v>, kept: &mut Forest) -> Result<View<'v>, AllocError>
    requires { forest_of run ≢ nil }
    ensures others { IfOk result (λ rest. forest_of rest ≡ others (forest_of run.entry)) }
    ensures ok { OnOk result (kept.new ≡ add kept.old (first (forest_of run.entry))) }
    ensures err { OnErr result (kept.new ≡ kept.old) }
{
    let (tree, others) = run.split();
    kept.append(tree)?;
    Ok(others)
}

#[cfg(test)]
mod tests;

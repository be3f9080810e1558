// Trees that are copied out of cells, by a walk along their links.
ghost use Rattle.std.specs.Prelude.{
  ◌≡◌,
  ◌≢◌,
  ◌<◌,
  ◌↔◌,
  length,
  slice_get,
  Some,
  None,
  IsTrue,
  IfOk,
};
ghost use Rattle.flux_trees.specs.Hedge.{erase};
ghost use Rattle.flux_trees.specs.Draft.{depth, done};
ghost use Rattle.flux_nodes.specs.declared.cell.Cell.{Cell};
ghost use Rattle.flux_nodes.specs.Laid.{RunLaid};
ghost use Rattle.flux_nodes.specs.Copied.{HasWalk, WentOn};

use crate::cell::{Cell, Kind, NodeId, cell_at, next_of, parent_of};
use crate::run::Run;
use flux_forest::Forest;
use std::alloc::{AllocError, Global};

// A place in a run that is copied: the tree behind it, and the element around it.
#[derive(Clone, Copy)]
struct Walk {
    at: Option<NodeId>,
    parent: Option<NodeId>,
    run: Run,
}

// The tree behind one, if that isn't the last of the run.
fn next_in_run(cells: &[Cell], node: NodeId, last: NodeId) -> Option<NodeId>
    requires { node.0 < length cells.now }
    ensures stops { node.0 ≡ last.0 → result ≡ None }
    ensures goes { node.0 ≢ last.0 →
        (c : Cell) → slice_get cells.now node.0 ≡ Some c → result ≡ c.next }
{
    if node.0 == last.0 {
        None
    } else {
        next_of(cells, node)
    }
}

fn is_over(forest: &Forest, walk: Walk) -> bool
    ensures { IsTrue result ↔ (walk.at ≡ None) × (depth forest.now ≡ 0) }
{
    walk.at.is_none() && forest.is_whole()
}

// Writes a node. Of an element the content is next.
fn enter(
    alloc: Global,
    cells: &[Cell],
    forest: &mut Forest,
    walk: Walk,
    node: NodeId,
) -> Result<Walk, AllocError>
    requires walk { HasWalk cells.now walk forest.old }
    requires node { walk.at ≡ Some node }
    ensures { IfOk result (λ next. WentOn cells.now walk next forest.old forest.new) }
{
    let cell = cell_at(cells, node);
    match &cell.kind {
        Kind::Elem(name) => {
            forest.begin_element(*name)?;
            Ok(Walk {
                at: cell.first,
                parent: Some(node),
                run: walk.run,
            })
        }
        Kind::Leaf(atom) => {
            forest.push_atom(flux_atom::copy(alloc, atom)?)?;
            Ok(Walk {
                at: next_in_run(cells, node, walk.run.last),
                parent: walk.parent,
                run: walk.run,
            })
        }
        Kind::Free => unreachable!(),
    }
}

// Ends the element around the place.
fn leave(cells: &[Cell], forest: &mut Forest, walk: Walk) -> Walk
    requires walk { HasWalk cells.now walk forest.old }
    requires none { walk.at ≡ None }
    ensures { WentOn cells.now walk result forest.old forest.new }
{
    match walk.parent {
        Some(node) => {
            forest.end_element();
            Walk {
                at: next_in_run(cells, node, walk.run.last),
                parent: parent_of(cells, node),
                run: walk.run,
            }
        }
        None => unreachable!(),
    }
}

fn step(alloc: Global, cells: &[Cell], forest: &mut Forest, walk: Walk) -> Result<Walk, AllocError>
    requires { HasWalk cells.now walk forest.old }
    ensures { IfOk result (λ next. WentOn cells.now walk next forest.old forest.new) }
{
    match walk.at {
        Some(node) => enter(alloc, cells, forest, walk, node),
        None => Ok(leave(cells, forest, walk)),
    }
}

// A forest of the run's trees.
pub(crate) fn copy_trees(alloc: Global, cells: &[Cell], run: Run) -> Result<Forest, AllocError>
    requires { RunLaid cells.now run }
    ensures { (r : RunLaid cells.now run) →
        IfOk result (λ copied. copied ≡ done (erase r.trees)) }
{
    let mut forest = Forest::new(alloc);
    let mut walk = Walk {
        at: Some(run.first),
        parent: parent_of(cells, run.first),
        run,
    };
    'nodes: while !is_over(&forest, walk) {
        walk = step(alloc, cells, &mut forest, walk)?;
    }
    Ok(forest)
}

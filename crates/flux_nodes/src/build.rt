// Trees that are laid out in cells, node by node from the last to the first: a node takes the
// first trees behind it as its content.
ghost use Rattle.std.specs.Prelude.{◌≡◌, ◌<◌, ◌≤◌, ◌+◌, ◌^◌, length, Some, None};
ghost use Rattle.flux_trees.specs.Edits.{beyond, number};
ghost use Rattle.flux_forest.specs.Flat.{hedge_of};
ghost use Rattle.flux_nodes.specs.Laid.{numbers_of, id};
ghost use Rattle.flux_nodes.specs.Kept.{IsWithin};
ghost use Rattle.flux_nodes.specs.Built.{
  HasTrees,
  IsEnclosed,
  IsLastBefore,
  HasNode,
  CanBuild,
  IsBuilt,
  kind_of,
};

use crate::cell::{Cell, Kind, NodeId, prev_of, put_cell, put_next};
use crate::links::put_behind;
use crate::parents::put_parents;
use crate::run::Run;
use flux_forest::{Item, Node};

// The tree before one, or the last of all.
fn last_before(cells: &[Cell], after: Option<NodeId>, last: Option<NodeId>) -> Option<NodeId>
    requires { IsWithin after (length cells.now) }
    ensures { IsLastBefore cells.now after last result }
{
    match after {
        Some(after) => prev_of(cells, after),
        None => last,
    }
}

// Puts the first trees into a parent, up to the tree `after`, and tells the last of them.
fn enclose(
    cells: &mut [Cell],
    first: Option<NodeId>,
    after: Option<NodeId>,
    last: Option<NodeId>,
    parent: NodeId,
) -> Option<NodeId>
    requires { HasTrees cells.old first after last parent.0 }
    ensures { (h : HasTrees cells.old first after last parent.0) →
        IsEnclosed cells.old cells.new h.inside h.rest parent.0 result }
{
    let first = first?;
    let last = last_before(cells, after, last)?;
    put_parents(cells, Run { first, last }, Some(parent));
    put_next(cells, last, None);
    Some(last)
}

fn into_kind(item: Item) -> Kind
    ensures { result ≡ kind_of item }
{
    match item {
        Item::Element(name) => Kind::Elem(name),
        Item::Leaf(atom) => Kind::Leaf(atom),
    }
}

// The number of node `i`, if there are so many.
fn number_at(numbers: &[NodeId], i: usize) -> Option<NodeId>
    ensures some { i < length numbers.now → result ≡ Some (id (numbers_of numbers.now i)) }
    ensures none { length numbers.now ≤ i → result ≡ None }
{
    if i < numbers.len() {
        Some(numbers[i])
    } else {
        None
    }
}

// The number of the node behind node `i`, if that has content.
fn first_inside(numbers: &[NodeId], i: usize, size: usize) -> Option<NodeId>
    requires { i + size ≤ length numbers.now }
    ensures some { 1 < size → result ≡ Some (id (numbers_of numbers.now (i + 1))) }
    ensures none { size ≤ 1 → result ≡ None }
{
    if size > 1 {
        number_at(numbers, i + 1)
    } else {
        None
    }
}

// Puts node `i` before the trees behind it, and tells by `last` which tree is the last.
fn put_node(cells: &mut [Cell], last: &mut Option<NodeId>, numbers: &[NodeId], i: usize, node: Node)
    requires { HasNode cells.old last.old numbers.now i node }
    ensures { (h : HasNode cells.old last.old numbers.now i node) →
        IsBuilt cells.old cells.new (number h.tree (beyond i (numbers_of numbers.now))) last.new }
{
    let at = numbers[i];
    let first = first_inside(numbers, i, node.size);
    let after = number_at(numbers, i + node.size);
    let inside = enclose(cells, first, after, *last, at);
    let cell = Cell {
        kind: into_kind(node.item),
        parent: None,
        prev: None,
        next: after,
        first,
        last: inside,
    };
    put_cell(cells, at, cell);
    put_behind(cells, last, None, after, Some(at));
}

// Builds the trees, node `i` in the cell of number `i`, and tells the last tree.
pub(crate) fn build(cells: &mut [Cell], mut nodes: Vec<Node>, numbers: &[NodeId]) -> Option<NodeId>
    requires { CanBuild cells.old nodes.items numbers.now }
    ensures { IsBuilt cells.old cells.new
        (number (hedge_of nodes.items) (numbers_of numbers.now)) result }
{
    let mut last = None;
    'nodes: while let Some(node) = nodes.pop() {
        let i = nodes.len();
        put_node(cells, &mut last, numbers, i, node);
    }
    last
}

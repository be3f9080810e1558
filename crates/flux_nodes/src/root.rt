// The way from a node to the first of all trees that it is among.
ghost use Rattle.std.specs.Prelude.{◌≡◌, ◌<◌, length, slice_get, Some, None};
ghost use Rattle.flux_nodes.specs.declared.cell.Cell.{Cell};
ghost use Rattle.flux_nodes.specs.Laid.{first_id};
ghost use Rattle.flux_nodes.specs.Kept.{IsAmong, IsBefore};

use crate::cell::{Cell, NodeId, parent_of, prev_of};

// The element around a node, or else the tree before it.
fn before(cells: &[Cell], at: NodeId) -> Option<NodeId>
    requires { at.0 < length cells.now }
    ensures { (c : Cell) → slice_get cells.now at.0 ≡ Some c → IsBefore c result }
{
    match parent_of(cells, at) {
        Some(parent) => Some(parent),
        None => prev_of(cells, at),
    }
}

// The first of the trees that a node is among.
pub(crate) fn root_of(cells: &[Cell], node: NodeId) -> NodeId
    requires { IsAmong cells.now node.0 }
    ensures { (x : IsAmong cells.now node.0) → first_id x.trees None ≡ Some result }
{
    let mut at = node;
    'nodes: for _step in 0..cells.len() {
        match before(cells, at) {
            Some(next) => at = next,
            None => return at,
        }
    }
    at
}

// Runs of trees, and places for them.
ghost use Rattle.std.specs.Prelude.{◌≡◌, Some, None};
ghost use Rattle.flux_nodes.specs.declared.cell.NodeId.{NodeId};

use crate::cell::NodeId;

/// Neighbouring siblings, from the first to the last.
#[derive(Clone, Copy, Debug, PartialEq, Eq)]
pub struct Run {
    pub first: NodeId,
    pub last: NodeId,
}

/// Between two neighbouring siblings, or at an end of their list: the parent, if there is one, and
/// the sibling just before, if there is one.
#[derive(Clone, Copy, Debug, PartialEq, Eq)]
pub struct Place {
    pub parent: Option<NodeId>,
    pub after: Option<NodeId>,
}

// The run to the last tree, if there is one.
pub(crate) fn run_to(first: NodeId, last: Option<NodeId>) -> Option<Run>
    ensures some { (l : NodeId) → last ≡ Some l →
        result ≡ Some (record { first = first; last = l }) }
    ensures none { last ≡ None → result ≡ None }
{
    match last {
        Some(last) => Some(Run { first, last }),
        None => None,
    }
}

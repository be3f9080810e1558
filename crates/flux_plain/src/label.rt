// Labels of nodes.
ghost use Rattle.std.specs.Prelude.{◌≡◌};
ghost use Rattle.std.specs.Vec.{vec_capacity};
ghost use Rattle.flux_plain.specs.NodeLabels.{label_of, relabelled_node, relabelled_nodes};

use flux_atom::Name;
use flux_forest::{Item, Node};

// The label of a node, if it is an element.
pub(crate) fn label_of(node: &Node) -> Option<Name>
    ensures { result ≡ label_of node.now.item }
{
    match &node.item {
        Item::Element(name) => Some(*name),
        Item::Leaf(_) => None,
    }
}

// Gives a node another label, if it is an element.
fn relabel_node(node: &mut Node, label: Name)
    ensures { node.new ≡ relabelled_node label node.old }
{
    if let Some(_) = label_of(node) {
        node.item = Item::Element(label);
    }
}

// The same with the node at a place, if there is one.
pub(crate) fn relabel(nodes: &mut Vec<Node>, place: usize, label: Name)
    ensures nodes { nodes.new.items ≡ relabelled_nodes place label nodes.old.items }
    ensures room { vec_capacity nodes.new ≡ vec_capacity nodes.old }
{
    if place < nodes.len() {
        relabel_node(&mut nodes[place], label);
    }
}
